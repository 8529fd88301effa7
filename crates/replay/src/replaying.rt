// A whole list of calls.
ghost use Rattle.std.specs.Prelude.{◌≡◌, [], map, length, Some, None, IfOk, MatchResult, OnErr};
ghost use Rattle.history.specs.Checks.{making_denial};
ghost use Rattle.archive.specs.Lent.{lending};
ghost use Rattle.archive.specs.Standing.{Begins};
ghost use Rattle.replay.specs.Asking.{answers_in, asks_in, call_of, recorded_call_of};
ghost use Rattle.replay.specs.Replaying.{RecordedReplayRight, ReplayRight, ReplayedAs};

use crate::asking::{Ask, RecordedAsk, Turn};
use crate::kinds::Asked;
use crate::lender::Lender;
use archive::{Archive, Refused};
use space::{Recorded, Space, Trial};

// A replay of either kind. What is lent comes one by one, as to the public calls: their contracts speak of each.
fn play<S: Space, A: Asked<S>>(
    space: S,
    own: &mut [Trial<S::Point>],
    strange: &mut [Trial<S::Point>],
    list: &mut [u32],
    block: &mut [u8],
    turns: &mut [Turn<A>],
) -> Result<Archive<S>, Refused<S>>
    ensures made { MatchResult result (λ a. (making_denial (length own.old) ≡ None) × (a.space ≡ space)) (λ e. (making_denial (length own.old) ≡ Some e.denial) × (e.space ≡ space)) }
    ensures right { IfOk result (λ a. ReplayedAs (S.Space.meaning space) (A.Asked.reading space) (A.Asked.leaves space) (map (λ ask. A.Asked.call ask (length own.old) (length strange.old) (length list.old) (length block.old)) (asks_in turns.old)) (answers_in turns.new) (record { list = list.old; block = block.old }) (lending a own.new []) (record { list = list.new; block = block.new })) }
    ensures untouched { OnErr result ((own.new ≡ own.old) × (list.new ≡ list.old) × (block.new ≡ block.old) × (turns.new ≡ turns.old)) }
    ensures strange { strange.new ≡ strange.old }
    ensures asks { asks_in turns.new ≡ asks_in turns.old }
{
    let mut archive = Archive::new(space, own)?;
    let mut lender = Lender {
        own,
        strange,
        list,
        block,
    };
    lender.call_all(&mut archive, turns);
    Ok(archive)
}

// A replay of calls that are lent no block, told of the list alone. `replay` hands it on, so that it has no proof file of its
// own: a wrong edit of it is then refused in its code.
fn play_listed<S: Space>(
    space: S,
    own: &mut [Trial<S::Point>],
    strange: &mut [Trial<S::Point>],
    list: &mut [u32],
    turns: &mut [Turn<Ask<S::Point>>],
) -> Result<Archive<S>, Refused<S>>
    ensures made { MatchResult result (λ a. (making_denial (length own.old) ≡ None) × (a.space ≡ space)) (λ e. (making_denial (length own.old) ≡ Some e.denial) × (e.space ≡ space)) }
    ensures right { IfOk result (λ a. ReplayRight (S.Space.meaning space) (map (call_of (length own.old) (length strange.old) (length list.old)) (asks_in turns.old)) (answers_in turns.new) list.old (lending a own.new list.new)) }
    ensures untouched { OnErr result ((own.new ≡ own.old) × (list.new ≡ list.old) × (turns.new ≡ turns.old)) }
    ensures strange { strange.new ≡ strange.old }
    ensures asks { asks_in turns.new ≡ asks_in turns.old }
{
    play(space, own, strange, list, &mut [], turns)
}

// Makes an archive of the space over its own rows, runs the calls on it and writes the answer of each beside it. A call that
// asks for another number of rows is lent so many strange ones, or all of them where there are fewer; where these are as many as its own,
// its own.
pub fn replay<S: Space>(
    space: S,
    own: &mut [Trial<S::Point>],
    strange: &mut [Trial<S::Point>],
    list: &mut [u32],
    turns: &mut [Turn<Ask<S::Point>>],
) -> Result<Archive<S>, Refused<S>>
    ensures made { MatchResult result (λ a. (making_denial (length own.old) ≡ None) × (a.space ≡ space)) (λ e. (making_denial (length own.old) ≡ Some e.denial) × (e.space ≡ space)) }
    ensures right { IfOk result (λ a. ReplayRight (S.Space.meaning space) (map (call_of (length own.old) (length strange.old) (length list.old)) (asks_in turns.old)) (answers_in turns.new) list.old (lending a own.new list.new)) }
    ensures untouched { OnErr result ((own.new ≡ own.old) × (list.new ≡ list.old) × (turns.new ≡ turns.old)) }
    ensures strange { strange.new ≡ strange.old }
    ensures asks { asks_in turns.new ≡ asks_in turns.old }
{
    play_listed(space, own, strange, list, turns)
}

// The same over a recorded space, for calls of all five kinds.
pub fn replay_recorded<S: Recorded>(
    space: S,
    own: &mut [Trial<S::Point>],
    strange: &mut [Trial<S::Point>],
    list: &mut [u32],
    block: &mut [u8],
    turns: &mut [Turn<RecordedAsk<'_, S::Point>>],
) -> Result<Archive<S>, Refused<S>>
    ensures made { MatchResult result (λ a. (making_denial (length own.old) ≡ None) × (a.space ≡ space)) (λ e. (making_denial (length own.old) ≡ Some e.denial) × (e.space ≡ space)) }
    ensures right { IfOk result (λ a. RecordedReplayRight (S.Space.meaning space) (S.Recorded.recording space) (map (recorded_call_of (length own.old) (length strange.old) (length list.old) (length block.old)) (asks_in turns.old)) (answers_in turns.new) (record { list = list.old; block = block.old }) (lending a own.new []) (record { list = list.new; block = block.new })) }
    ensures untouched { OnErr result ((own.new ≡ own.old) × (list.new ≡ list.old) × (block.new ≡ block.old) × (turns.new ≡ turns.old)) }
    ensures strange { strange.new ≡ strange.old }
    ensures asks { asks_in turns.new ≡ asks_in turns.old }
{
    play(space, own, strange, list, block, turns)
}
