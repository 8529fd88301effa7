// What stands over every trial, whatever the list: so that boxes that stand cover all that was tried.
ghost use Rattle.standing.specs.Standing.{BoxAbove, TrialWithin};

use space::Space;

// For each trial on the grid a box stands that is at least its own in every objective, and the trial there covers it.
pub fn box_above<S: Space>(space: &S)
    ensures { BoxAbove (S.Space.meaning space.now) }
{}

// In each box that stands a trial stands.
pub fn trial_within<S: Space>(space: &S)
    ensures { TrialWithin (S.Space.meaning space.now) }
{}
