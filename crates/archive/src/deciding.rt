// What is to be done with a trial.
ghost use Rattle.std.specs.Prelude.{◌≡◌};
ghost use Rattle.std.specs.List.{position};
ghost use Rattle.space.specs.Boxes.{same_box};
ghost use Rattle.space.specs.Looking.{holders_of, look_of};
ghost use Rattle.history.specs.Step.{beaten};
ghost use Rattle.archive.specs.Deciding.{decision, first_step};

use crate::boxing::{Boxed, dominates};
use space::{Holders, Look, Space, Trial};

// The first of the four steps of an offer that applies.
#[derive(Clone, Copy)]
pub(crate) enum Decision {
    // all members go whose box the trial's box dominates
    Displace,
    // the member in this row goes, which the trial dominates in its own box
    Replace(usize),
    // the trial is passed over
    PassOver,
    // the trial enters if there is a row
    Enter,
}

// The first step that applies.
fn first_step(below: bool, beaten: Option<usize>, shut: bool) -> Decision
    ensures { result ≡ first_step below beaten shut }
{
    if below {
        return Decision::Displace;
    }
    match beaten {
        Some(row) => Decision::Replace(row),
        None if shut => Decision::PassOver,
        None => Decision::Enter,
    }
}

// The first row whose member the trial beats, by who holds its box.
fn first_beaten<S: Space>(
    space: &S,
    trial: Trial<S::Point>,
    members: &[Trial<S::Point>],
    holders: Holders,
) -> Option<usize>
    requires { holders ≡ holders_of (λ m. same_box (S.Space.meaning space.now) trial.point m.point) members.now }
    ensures { result ≡ position (beaten (S.Space.meaning space.now) trial) members.now }
{
    match holders {
        Holders::Nobody => None,
        Holders::One(row) => {
            let holder = &members[row];
            if dominates(space, &trial.point, &holder.point) {
                Some(row)
            } else {
                None
            }
        }
        Holders::Several => {
            let boxed = Boxed::of(space, trial);
            members.iter().position(|member| boxed.beats(member))
        }
    }
}

// What is to be done with a trial, once it was looked how its box lies to those of the members. Only a member of its own box can be
// beaten.
pub(crate) fn decide<S: Space>(
    space: &S,
    trial: Trial<S::Point>,
    members: &[Trial<S::Point>],
    look: Look,
) -> Decision
    requires { look ≡ look_of (S.Space.meaning space.now) trial.point members.now }
    ensures { result ≡ decision (S.Space.meaning space.now) members.now trial }
{
    first_step(
        look.below,
        first_beaten(space, trial, members, look.holders),
        look.shut,
    )
}
