// The members, in rows that are lent.
ghost use Rattle.std.specs.Prelude.{◌≡◌, ◌≤◌, length, take};

use space::Trial;

// All rows, and how many of them hold members: the first ones. The rows are lent with their count beside it, and no `Vec` holds them:
// an archive has no heap.
#[derive(Drop)]
pub(crate) struct Members<'a, P> {
    pub rows: &'a mut [Trial<P>],
    pub count: usize,
    ghost within: { count ≤ length rows.now },
}

impl<P> Members<'_, P> {
    pub(crate) fn as_slice(&self) -> &[Trial<P>]
        ensures { result.now ≡ take self.now.count self.now.rows.now }
    {
        &self.rows[..self.count]
    }
}
