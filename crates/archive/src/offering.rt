// Offer: a trial is judged against the members.
ghost use Rattle.std.specs.Prelude.{◌≡◌, ℕ, ◌<◌, true, List, length};
ghost use Rattle.space.specs.Looking.{look_of};
ghost use Rattle.history.specs.declared.verdicts.Verdict.TheVariants.{PassedOver};
ghost use Rattle.history.specs.Lists.{any};
ghost use Rattle.history.specs.Step.{below, displacing, entering, judge};
ghost use Rattle.archive.specs.Held.{held_by};
ghost use Rattle.archive.specs.Lent.{lending};
ghost use Rattle.archive.specs.Offering.{OfferRight, StepRight, replacing_row};

use crate::boxing::Boxed;
use crate::closing::note;
use crate::deciding::{Decision, decide};
use crate::holding::Archive;
use crate::members::Members;
use history::{Denial, Offered, Verdict};
use space::{Look, Space, Trial};

// The answer to a trial that is passed over.
pub(crate) fn passed_over() -> Offered
    ensures { result ≡ record { verdict = PassedOver; displaced = 0 } }
{
    Offered {
        verdict: Verdict::PassedOver,
        displaced: 0,
    }
}

impl<P: Copy> Members<'_, P> {
    // The member in one row goes, those after it close up, and the trial enters after them.
    pub(crate) fn replace(&mut self, row: usize, trial: Trial<P>, displaced: &mut [u32]) -> Offered
        requires { row < self.old.count }
        ensures { StepRight (replacing_row (held_by self.old) row trial) self.old displaced.old (Ok result) self.new displaced.new }
    {
        note(displaced, 0, self.rows[row].tag);
        self.rows.copy_within(row + 1..self.count, row);
        self.rows[self.count - 1] = trial;
        Offered {
            verdict: Verdict::Replaced,
            displaced: 1,
        }
    }

    // The trial takes the next row, if there is one.
    fn enter(&mut self, trial: Trial<P>) -> Result<Offered, Denial>
        ensures { (list : List ℕ) → StepRight (entering (length self.old.rows.now) (held_by self.old) trial) self.old list result self.new list }
    {
        if self.count == self.rows.len() {
            return Err(Denial::Full);
        }
        self.rows[self.count] = trial;
        self.count += 1;
        Ok(Offered {
            verdict: Verdict::Entered,
            displaced: 0,
        })
    }
}

impl<S: Space> Boxed<'_, S> {
    // All members go whose box the trial's box dominates, and the trial enters: a row comes free for it.
    fn displace(&self, members: &mut Members<'_, S::Point>, displaced: &mut [u32]) -> Offered
        requires { any (below (S.Space.meaning self.now.space.now) self.now.trial) (held_by members.old) ≡ true }
        ensures { StepRight (displacing (S.Space.meaning self.now.space.now) (held_by members.old) self.now.trial) members.old displaced.old (Ok result) members.new displaced.new }
    {
        let count = members.count;
        let stay = self.close_up(&mut members.rows[..count], displaced);
        members.rows[stay] = self.trial;
        members.count = stay + 1;
        Offered {
            verdict: Verdict::Displaced,
            displaced: count - stay,
        }
    }
}

// The first of the four steps that applies, for a trial on the grid, once it was looked how its box lies to those of the members.
pub(crate) fn step<S: Space>(
    space: &S,
    trial: Trial<S::Point>,
    members: &mut Members<'_, S::Point>,
    look: Look,
    displaced: &mut [u32],
) -> Result<Offered, Denial>
    requires { look ≡ look_of (S.Space.meaning space.now) trial.point (held_by members.old) }
    ensures { StepRight (judge (S.Space.meaning space.now) (length members.old.rows.now) (held_by members.old) trial) members.old displaced.old result members.new displaced.new }
{
    match decide(space, trial, members.as_slice(), look) {
        Decision::Displace => Ok(Boxed::of(space, trial).displace(members, displaced)),
        Decision::Replace(row) => Ok(members.replace(row, trial, displaced)),
        Decision::PassOver => Ok(passed_over()),
        Decision::Enter => members.enter(trial),
    }
}

impl<S: Space> Archive<S> {
    // An offer, check by check.
    // Apart from `offer`: this proof cites a law of the space in a file, and a wrong `offer` is to be refused at its own line.
    fn take_offer(
        &mut self,
        trial: Trial<S::Point>,
        rows: &mut [Trial<S::Point>],
        displaced: &mut [u32],
    ) -> Result<Offered, Denial>
        ensures space { self.new.space ≡ self.old.space }
        ensures right { OfferRight (S.Space.meaning self.old.space) trial (lending self.old rows.old displaced.old) result (lending self.new rows.new displaced.new) }
    {
        if rows.len() != self.rows {
            return Err(Denial::StrangeRows);
        }
        if displaced.len() < self.rows {
            return Err(Denial::ShortList);
        }
        let mut members = Members {
            rows,
            count: self.count,
        };
        let space = &self.space;
        let Some(look) = space.look(&trial.point, members.as_slice()) else {
            return Err(Denial::OffGrid);
        };
        let answer = step(space, trial, &mut members, look, displaced);
        self.count = members.count;
        answer
    }

    // Offers a trial: it is judged against the members in these rows, which are the archive's own. The tags of the members
    // that it displaces are written to the front of the list, which is at least as long as the rows.
    pub fn offer(
        &mut self,
        trial: Trial<S::Point>,
        rows: &mut [Trial<S::Point>],
        displaced: &mut [u32],
    ) -> Result<Offered, Denial>
        ensures space { self.new.space ≡ self.old.space }
        ensures right { OfferRight (S.Space.meaning self.old.space) trial (lending self.old rows.old displaced.old) result (lending self.new rows.new displaced.new) }
    {
        self.take_offer(trial, rows, displaced)
    }
}
