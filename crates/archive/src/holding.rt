// What an archive remembers.
ghost use Rattle.std.specs.Prelude.{◌≡◌, ◌≢◌, ◌≤◌, length, take, MatchResult};
ghost use Rattle.history.specs.declared.denials.Denial.TheVariants.{StrangeRows};

use history::Denial;
use space::Trial;

// Its space, how many rows it was made for, and how many of them hold members: these are the first ones.
#[derive(Drop)]
pub struct Archive<S> {
    pub(crate) space: S,
    pub(crate) rows: usize,
    pub(crate) count: usize,
    ghost within: { count ≤ rows },
    ghost few: { rows ≤ 4096 },
}

impl<S> Archive<S> {
    // How many of the rows hold members: the first ones.
    pub fn count(&self) -> usize
        ensures { result ≡ self.now.count }
    {
        self.count
    }

    // The members, in rows that are its own: as many as it was made over.
    pub(crate) fn members<'r, P>(&self, rows: &'r [Trial<P>]) -> Result<&'r [Trial<P>], Denial>
        ensures { MatchResult result (λ m. (length rows.now ≡ self.now.rows) × (m.now ≡ take self.now.count rows.now) × (length m.now ≡ self.now.count)) (λ e. (e ≡ StrangeRows) × (length rows.now ≢ self.now.rows)) }
    {
        if rows.len() != self.rows {
            return Err(Denial::StrangeRows);
        }
        Ok(&rows[..self.count])
    }
}
