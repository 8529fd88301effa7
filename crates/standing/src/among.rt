// What stands among the trials of a list. A trial off the grid counts for nothing.
ghost use Rattle.std.specs.Prelude.{◌<◌, length, Decides};
ghost use Rattle.standing.specs.Standing.{OnGrid, Pair, NoneOf, Stands, TrialStands, BoxStands, OpensBox, Related};

use crate::compare::{Relation, related};
use space::{Space, Trial};

// The trials of a list, and the space in which they are compared.
#[derive(Clone, Copy)]
struct Tried<'a, S: Space> {
    space: &'a S,
    trials: &'a [Trial<S::Point>],
}

impl<'a, S: Space> Tried<'a, S> {
    // Whether trial i is there, and on the grid.
    fn on_grid(&self, i: usize) -> bool
        ensures { Decides result (OnGrid (S.Space.meaning self.now.space.now) self.now.trials.now i) }
    {
        self.trials
            .get(i)
            .is_some_and(|trial| self.space.admits(&trial.point))
    }

    // Whether trial k is on the grid and so related to trial i.
    fn meets(&self, relation: Relation, k: usize, i: usize) -> bool
        requires { i < length self.now.trials.now }
        ensures { Decides result (OnGrid (S.Space.meaning self.now.space.now) self.now.trials.now k × Pair (Related relation (S.Space.meaning self.now.space.now)) self.now.trials.now k i) }
    {
        self.on_grid(k)
            && related(
                self.space,
                relation,
                &self.trials[k].point,
                &self.trials[i].point,
            )
    }

    // Whether none of the first n trials is on the grid and so related to trial i.
    fn none_of(&self, relation: Relation, n: usize, i: usize) -> bool
        requires { i < length self.now.trials.now }
        ensures { Decides result (NoneOf (S.Space.meaning self.now.space.now) (Related relation (S.Space.meaning self.now.space.now)) self.now.trials.now n i) }
    {
        !(0..n).any(|k| self.meets(relation, k, i))
    }

    // Whether trial i is on the grid and none on the grid is so related to it.
    fn stands(&self, relation: Relation, i: usize) -> bool
        ensures { Decides result (Stands (S.Space.meaning self.now.space.now) (Related relation (S.Space.meaning self.now.space.now)) self.now.trials.now i) }
    {
        self.on_grid(i) && self.none_of(relation, self.trials.len(), i)
    }

    // Whether trial i so stands, and none before it on the grid is like it.
    fn stands_first(&self, over: Relation, like: Relation, i: usize) -> bool
        ensures { Decides result (Stands (S.Space.meaning self.now.space.now) (Related over (S.Space.meaning self.now.space.now)) self.now.trials.now i × NoneOf (S.Space.meaning self.now.space.now) (Related like (S.Space.meaning self.now.space.now)) self.now.trials.now i i) }
    {
        self.stands(over, i) && self.none_of(like, i, i)
    }
}

// Whether trial i is on the grid and no trial on the grid dominates it. Here and below the space and the trials come apart, as a space is
// asked; together they are a `Tried`.
pub fn trial_stands<S: Space>(space: &S, trials: &[Trial<S::Point>], i: usize) -> bool
    ensures { Decides result (TrialStands (S.Space.meaning space.now) trials.now i) }
{
    Tried { space, trials }.stands(Relation::Point, i)
}

// Whether trial i is on the grid and no trial on the grid has a box that dominates its box.
pub fn box_stands<S: Space>(space: &S, trials: &[Trial<S::Point>], i: usize) -> bool
    ensures { Decides result (BoxStands (S.Space.meaning space.now) trials.now i) }
{
    Tried { space, trials }.stands(Relation::Box, i)
}

// Whether trial i's box stands and no earlier trial on the grid is in it: of the trials
// in a box that stands, the first alone opens it.
pub fn opens_box<S: Space>(space: &S, trials: &[Trial<S::Point>], i: usize) -> bool
    ensures { Decides result (OpensBox (S.Space.meaning space.now) trials.now i) }
{
    Tried { space, trials }.stands_first(Relation::Box, Relation::Same, i)
}
