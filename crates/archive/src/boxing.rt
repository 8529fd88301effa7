// The box of a trial, and how it compares with the boxes of others.
ghost use Rattle.std.specs.Prelude.{◌≡◌, true, false, MatchOption};
ghost use Rattle.space.specs.Boxes.{at_least, six_boxes};
ghost use Rattle.history.specs.Comparing.{dominates};
ghost use Rattle.history.specs.State.{on_grid};
ghost use Rattle.history.specs.Step.{beaten, below};

use space::{Lie, Space, Trial, six_boxes};

// A trial of a space with its box numbers in six objectives, which are asked once.
#[derive(Drop)]
pub(crate) struct Boxed<'a, S: Space> {
    pub space: &'a S,
    pub trial: Trial<S::Point>,
    pub numbers: [u32; 6],
    ghost asked: { numbers ≡ six_boxes (S.Space.meaning space.now) trial.point },
}

impl<'a, S: Space> Boxed<'a, S> {
    // The trial with its box, if it is on the grid.
    pub(crate) fn new(space: &'a S, trial: Trial<S::Point>) -> Option<Boxed<'a, S>>
        ensures { MatchOption result (on_grid (S.Space.meaning space.now) trial ≡ false) (λ b. (on_grid (S.Space.meaning space.now) trial ≡ true) × (b.space.now ≡ space.now) × (b.trial ≡ trial)) }
    {
        let numbers = space.boxes(&trial.point)?;
        Some(Boxed {
            space,
            trial,
            numbers,
        })
    }

    // The trial with its box, whose numbers are zero off the grid.
    pub(crate) fn of(space: &'a S, trial: Trial<S::Point>) -> Boxed<'a, S>
        ensures { (result.space.now ≡ space.now) × (result.trial ≡ trial) }
    {
        Boxed {
            space,
            trial,
            numbers: six_boxes(space, &trial.point),
        }
    }

    // How this trial's box lies to the box of q.
    pub(crate) fn lie(&self, q: &S::Point) -> Lie
        ensures { result ≡ record { over = at_least (S.Space.meaning self.now.space.now) self.now.trial.point q.now; under = at_least (S.Space.meaning self.now.space.now) q.now self.now.trial.point } }
    {
        self.space.lie(&self.numbers, q)
    }

    // Whether this trial's box dominates the member's.
    pub(crate) fn tops(&self, member: &Trial<S::Point>) -> bool
        ensures { result ≡ below (S.Space.meaning self.now.space.now) self.now.trial member.now }
    {
        let lie = self.lie(&member.point);
        lie.over && !lie.under
    }

    // Whether the member has this trial's box, and the trial dominates it. The boxes are asked last: they cost more.
    pub(crate) fn beats(&self, member: &Trial<S::Point>) -> bool
        ensures { result ≡ beaten (S.Space.meaning self.now.space.now) self.now.trial member.now }
    {
        if !dominates(self.space, &self.trial.point, &member.point) {
            return false;
        }
        let lie = self.lie(&member.point);
        lie.over && lie.under
    }
}

// Whether p dominates q. The crate of what stands has the question too: the project keeps apart from the archive what an archive is held
// against.
pub(crate) fn dominates<S: Space>(space: &S, p: &S::Point, q: &S::Point) -> bool
    ensures { result ≡ dominates (S.Space.meaning space.now) p.now q.now }
{
    space.no_worse(p, q) && !space.no_worse(q, p)
}
