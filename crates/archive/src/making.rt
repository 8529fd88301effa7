// Making an archive for one space, over rows that are lent.
ghost use Rattle.std.specs.Prelude.{◌≡◌, length, Some, None, MatchResult, ◌≢◌};
ghost use Rattle.history.specs.Checks.{making_denial};
ghost use Rattle.archive.specs.Standing.{Begins};

use crate::holding::Archive;
use history::Denial;
use space::{Space, Trial};

// Why no archive is made, and the space that it was to be made for.
#[derive(Clone, Copy, Drop)]
pub struct Refused<S> {
    pub space: S,
    pub denial: Denial,
}

// An archive with no members.
fn begin<S: Space>(space: S, rows: &[Trial<S::Point>]) -> Archive<S>
    requires { making_denial (length rows.now) ≡ None }
    ensures made { (result.space ≡ space) × (result.rows ≡ length rows.now) × (result.count ≡ 0) }
    ensures begins { Begins (S.Space.meaning space) result.rows result.count rows.now }
{
    Archive {
        space,
        rows: rows.len(),
        count: 0,
    }
}

impl<S: Space> Archive<S> {
    // An archive of this space, over so many rows as are lent. It has no members, whatever the rows hold.
    pub fn new(space: S, rows: &[Trial<S::Point>]) -> Result<Archive<S>, Refused<S>>
        ensures value { MatchResult result (λ a. (making_denial (length rows.now) ≡ None) × (a.space ≡ space) × (a.rows ≡ length rows.now) × (a.count ≡ 0)) (λ e. (making_denial (length rows.now) ≡ Some e.denial) × (e.space ≡ space)) }
        ensures begins { MatchResult result (λ a. Begins (S.Space.meaning space) a.rows a.count rows.now) (λ _. making_denial (length rows.now) ≢ None) }
    {
        if rows.is_empty() {
            return Err(Refused {
                space,
                denial: Denial::NoRows,
            });
        }
        if rows.len() > 4096 {
            return Err(Refused {
                space,
                denial: Denial::Overlong,
            });
        }
        Ok(begin(space, rows))
    }
}
