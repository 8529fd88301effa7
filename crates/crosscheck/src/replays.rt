// A whole history on both archives: call by call, and by the two replays.
use crate::apart::{Moment, Stop, same, same_told};
use crate::bridge::Figured;
use crate::case::Case;
use crate::compare::{answer, hold_members, same_rows};
use crate::histories::{Call, History, Task};
use crate::house::{Lent, Sizes, lent_of};
use crate::numbered::Numbered;
use crate::second::Second;
use crate::tally::{Tally, one_more};
use crate::told::Told;
use archive::{Archive, Refused};
use replay::{Ask, RecordedAsk, Turn, replay, replay_recorded};
use space::{Recorded, Space, Trial};
use std::alloc::{AllocError, Global};

// Both archives after a history, what was lent to the first, and what each call told.
#[derive(Drop)]
pub(crate) struct Both<S: Space> {
    pub archive: Archive<S>,
    pub lent: Lent<S::Point>,
    pub second: Second,
    pub told: Vec<Told>,
}

// What can be asked for of a replay, by the calls of a history; none where this replay has no such call.
trait AskOf<'a>: Drop {
    fn ask_of(call: &'a Call) -> Option<Self>;
}

// The three kinds that every space has.
impl<'a, P: Figured> AskOf<'a> for Ask<P> {
    fn ask_of(call: &'a Call) -> Option<Ask<P>> {
        let rows = call.rows;
        match &call.task {
            Task::Offer { room, tag, point } => Some(Ask::Offer {
                rows,
                room: *room,
                trial: Trial {
                    point: P::of_figures(point),
                    tag: *tag,
                },
            }),
            Task::Audit => Some(Ask::Audit { rows }),
            Task::List { room } => Some(Ask::List { rows, room: *room }),
            Task::Feed { .. } | Task::Save { .. } => None,
        }
    }
}

// All kinds.
impl<'a, P: Figured> AskOf<'a> for RecordedAsk<'a, P> {
    fn ask_of(call: &'a Call) -> Option<RecordedAsk<'a, P>> {
        let rows = call.rows;
        match &call.task {
            Task::Feed { block } => Some(RecordedAsk::Feed {
                rows,
                block: block.as_slice(),
            }),
            Task::Save { number, size } => Some(RecordedAsk::Save {
                rows,
                number: *number,
                size: *size,
            }),
            _ => {
                // by `?`, since a `map` gets no proof where the other arms lend the call
                let plain = Ask::ask_of(call)?;
                Some(RecordedAsk::Plain(plain))
            }
        }
    }
}

// The calls that can be asked for, not answered yet.
fn turns_of<'a, A: AskOf<'a>>(heap: Global, calls: &'a [Call]) -> Result<Vec<Turn<A>>, AllocError> {
    // by a loop, since a `map` that wraps what the trait made gets no proof
    let mut turns = Vec::new(heap);
    for ask in calls.iter().filter_map(|call| A::ask_of(call)) {
        turns.push(Turn::new(ask))?;
    }
    Ok(turns)
}

// Whether a replay wrote this beside a call.
fn same_answer(answer: &Option<history::Answer>, told: Told) -> Result<(), Stop> {
    let answer = answer.ok_or(Stop::apart("a call that a replay did not answer"))?;
    same_told(Told::from(answer), told, "the answers in a replay")
}

// What a replay left in the rows, the list and the block.
fn hold_left<S: Recorded>(
    lent: &Lent<S::Point>,
    fresh: &Lent<S::Point>,
    count: usize,
    both: &Both<S>,
) -> Result<(), Stop>
where
    S::Point: Figured,
{
    same(
        hold_members(lent.own.as_slice(), count, both.second.members.as_slice()),
        "the members after a replay",
    )?;
    same(
        same_rows(lent.strange.as_slice(), fresh.strange.as_slice()),
        "the strange rows of a replay",
    )?;
    same(
        lent.list.as_slice() == both.lent.list.as_slice(),
        "the list after a replay",
    )?;
    same(
        lent.block.as_slice() == both.lent.block.as_slice(),
        "the block after a replay",
    )
}

// The answers of a replay of three kinds, one by one.
fn hold_turns<P: Figured>(
    turns: &[Turn<Ask<P>>],
    second: &mut Second,
    history: &History,
) -> Result<(), Stop> {
    let sizes = Sizes::of(history);
    let calls = history.calls.iter().enumerate().filter(|(_, call)| {
        !matches!(call.task, Task::Feed { .. } | Task::Save { .. })
    });
    for (turn, (i, call)) in turns.iter().zip(calls) {
        let told = answer(second, &sizes, call)?.told;
        same_answer(&turn.answer, told).map_err(|stop| stop.at(Moment::Call(i)))?;
    }
    Ok(())
}

impl<S: Recorded + Copy> Case<'_, S>
where
    S::Point: Figured,
{
    // What the calls of the history are lent, before any call.
    fn lent(&self) -> Result<Lent<S::Point>, AllocError> {
        lent_of(self.heap, &Sizes::of(self.history))
    }

    // Both archives made, or none where both deny it alike.
    fn make_both(&self, tally: &mut Tally) -> Result<Option<Both<S>>, Stop> {
        let lent = self.lent()?;
        match (Archive::new(self.space, lent.own.as_slice()), self.second()) {
            (Ok(archive), Ok(second)) => Ok(Some(Both {
                archive,
                lent,
                second,
                told: Vec::new(self.heap),
            })),
            (Err(refused), Err(denial)) => {
                let number = denial.number();
                same(refused.denial.number() == number, "the making's denial")?;
                tally.denial(number);
                Ok(None)
            }
            _ => Err(Stop::apart("whether an archive is made")),
        }
    }

    // Runs the history on both archives call by call; none where no archive is made.
    pub(crate) fn hold_calls(&self, tally: &mut Tally) -> Result<Option<Both<S>>, Stop> {
        let Some(mut both) = self.make_both(tally)? else {
            return Ok(None);
        };
        for (i, call) in self.history.calls.iter().enumerate() {
            let told = self
                .hold_call(&mut both, call, tally)
                .map_err(|stop| stop.at(Moment::Call(i)))?;
            both.told.push(told)?;
        }
        Ok(Some(both))
    }

    // The replay of all five kinds, against what the calls told one by one and what they left.
    pub(crate) fn hold_recorded(
        &self,
        both: &Option<Both<S>>,
        tally: &mut Tally,
    ) -> Result<(), Stop> {
        let mut lent = self.lent()?;
        let fresh = self.lent()?;
        let calls = self.history.calls.as_slice();
        let mut turns = turns_of::<RecordedAsk<'_, S::Point>>(self.heap, calls)?;
        let replayed = replay_recorded(
            self.space,
            lent.own.as_mut_slice(),
            lent.strange.as_mut_slice(),
            lent.list.as_mut_slice(),
            lent.block.as_mut_slice(),
            turns.as_mut_slice(),
        );
        one_more(&mut tally.replays);
        match (replayed, both) {
            (Err(refused), None) => self.hold_refused(&refused),
            (Ok(archive), Some(both)) => {
                for (i, (turn, told)) in turns.iter().zip(both.told.iter()).enumerate() {
                    same_answer(&turn.answer, *told).map_err(|stop| stop.at(Moment::Call(i)))?;
                }
                same(
                    turns.len() == both.told.len(),
                    "how many calls a replay has",
                )?;
                same(
                    archive.count() == both.second.members.len(),
                    "the number of members after a replay",
                )?;
                hold_left(&lent, &fresh, archive.count(), both)
            }
            _ => Err(Stop::apart("whether a replay makes an archive")),
        }
    }

    // The replay of the three kinds that every space has.
    pub(crate) fn hold_plain(&self, tally: &mut Tally) -> Result<(), Stop> {
        let mut lent = self.lent()?;
        let calls = self.history.calls.as_slice();
        let mut turns = turns_of::<Ask<S::Point>>(self.heap, calls)?;
        let replayed = replay(
            self.space,
            lent.own.as_mut_slice(),
            lent.strange.as_mut_slice(),
            lent.list.as_mut_slice(),
            turns.as_mut_slice(),
        );
        one_more(&mut tally.replays);
        match replayed {
            Err(refused) => self.hold_refused(&refused),
            Ok(archive) => {
                let mut second = self
                    .second()
                    .map_err(|_| Stop::apart("whether a replay makes an archive"))?;
                hold_turns(turns.as_slice(), &mut second, self.history)?;
                same(
                    hold_members(
                        lent.own.as_slice(),
                        archive.count(),
                        second.members.as_slice(),
                    ),
                    "the members after a replay of three kinds",
                )
            }
        }
    }

    // A replay that makes no archive: the second archive is not made either.
    fn hold_refused(&self, refused: &Refused<S>) -> Result<(), Stop> {
        match self.second() {
            Ok(_) => Err(Stop::apart("whether a replay makes an archive")),
            Err(denial) => same(
                refused.denial.number() == denial.number(),
                "a replay's denial",
            ),
        }
    }
}
