// Audit: the first two rows that may not be members together.
ghost use Rattle.std.specs.Prelude.{◌≡◌, []};
ghost use Rattle.history.specs.Auditing.{clash, first_pair};
ghost use Rattle.archive.specs.Auditing.{AuditRight};
ghost use Rattle.archive.specs.Lent.{lending};

use crate::boxing::Boxed;
use crate::holding::Archive;
use history::Denial;
use space::{Space, Trial};

impl<S: Space> Boxed<'_, S> {
    // Whether this trial's box or that of another equals or dominates the other.
    fn clashes(&self, other: &Trial<S::Point>) -> bool
        ensures { result ≡ clash (S.Space.meaning self.now.space.now) self.now.trial other.now }
    {
        let lie = self.lie(&other.point);
        lie.over || lie.under
    }
}

// The first pair of rows at fault: the lowest row, and with it the lowest one from it on. Two nested loops that a label is left by:
// a form that the project names.
fn first_fault<S: Space>(space: &S, members: &[Trial<S::Point>]) -> Option<(usize, usize)>
    ensures { result ≡ first_pair (S.Space.meaning space.now) members.now }
{
    let mut found = None;
    'rows: for (i, row) in members.iter().enumerate() {
        let Some(boxed) = Boxed::new(space, *row) else {
            found = Some((i, i));
            break 'rows;
        };
        let after = i + 1;
        for (k, other) in members[after..].iter().enumerate() {
            if boxed.clashes(other) {
                found = Some((i, after + k));
                break 'rows;
            }
        }
    }
    found
}

impl<S: Space> Archive<S> {
    // The audit that `audit` hands on.
    // Apart from `audit`: this proof cites a law of the space in a file, and a wrong `audit` is to be refused at its own line.
    fn audit_members(&self, rows: &[Trial<S::Point>]) -> Result<Option<(usize, usize)>, Denial>
        ensures { AuditRight (S.Space.meaning self.now.space) (lending self.now rows.now []) result }
    {
        Ok(first_fault(&self.space, self.members(rows)?))
    }

    // The first two rows that may not be members together, or none.
    pub fn audit(&self, rows: &[Trial<S::Point>]) -> Result<Option<(usize, usize)>, Denial>
        ensures { AuditRight (S.Space.meaning self.now.space) (lending self.now rows.now []) result }
    {
        self.audit_members(rows)
    }
}
