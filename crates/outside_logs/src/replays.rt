// A list of calls of all five kinds, denied ones among them, and every answer of it.
use crate::blocks::{block_of, four, torn, trial};
use crate::squares::{same_rows, square, tags};
use history::{Answer, Denial, DeniedTrial, Fed, FeedFault, Verdict};
use log_block::BlockFault;
use outside_parts::{at, judged};
use replay::{Ask, RecordedAsk, Turn, replay_recorded};
use space::Trial;
use std::test::Fail;

type Call<'a> = Turn<RecordedAsk<'a, [i32; 6]>>;

fn offer<'a>(rows: usize, room: usize, trial: Trial<[i32; 6]>) -> Call<'a> {
    Turn::new(RecordedAsk::Plain(Ask::Offer { rows, room, trial }))
}

fn audit<'a>(rows: usize) -> Call<'a> {
    Turn::new(RecordedAsk::Plain(Ask::Audit { rows }))
}

fn list<'a>(rows: usize, room: usize) -> Call<'a> {
    Turn::new(RecordedAsk::Plain(Ask::List { rows, room }))
}

fn feed<'a>(rows: usize, block: &'a [u8]) -> Call<'a> {
    Turn::new(RecordedAsk::Feed { rows, block })
}

fn save<'a>(rows: usize, number: usize, size: usize) -> Call<'a> {
    Turn::new(RecordedAsk::Save { rows, number, size })
}

// Calls over two rows of its own.
fn calls<'a>(block: &'a [u8], torn: &'a [u8]) -> [Call<'a>; 20] {
    [
        offer(2, 2, at(6, 0, 8)),
        offer(3, 2, at(20, 1, 9)),
        offer(9, 2, at(20, 1, 9)),
        offer(2, 1, at(20, 1, 9)),
        offer(2, 2, at(20, 1, 10)),
        feed(1, torn),
        feed(2, torn),
        feed(2, &block[..0]),
        feed(2, block),
        offer(2, 2, at(20, 5, 5)),
        offer(2, 3, at(21, 9, 1)),
        audit(2),
        audit(1),
        list(2, 1),
        list(1, 3),
        list(2, 9),
        save(3, 9, 9),
        save(2, 9, 511),
        save(2, 1, 512),
        save(2, 0, 512),
    ]
}

// Their answers.
fn answers() -> [Answer; 20] {
    [
        judged(Verdict::Entered, 0),
        Answer::Denied(Denial::StrangeRows),
        Answer::Denied(Denial::StrangeRows),
        Answer::Denied(Denial::ShortList),
        Answer::Denied(Denial::OffGrid),
        Answer::Refused(FeedFault::StrangeRows),
        Answer::Refused(FeedFault::Block(BlockFault::Torn)),
        Answer::Refused(FeedFault::Block(BlockFault::WrongLength)),
        Answer::Fed(Fed {
            entered: 2,
            passed: 0,
            denied: 2,
            displaced: 1,
            first: Some(DeniedTrial::OffGrid(22)),
        }),
        Answer::Denied(Denial::Full),
        judged(Verdict::Displaced, 1),
        Answer::Audited(None),
        Answer::Denied(Denial::StrangeRows),
        Answer::Denied(Denial::ShortList),
        Answer::Denied(Denial::StrangeRows),
        Answer::Listed(2),
        Answer::Denied(Denial::StrangeRows),
        Answer::Denied(Denial::WrongLength),
        Answer::Denied(Denial::NoSuchBlock),
        Answer::Saved(2),
    ]
}

// Whether a block that was all 7 has the block of these members in front, and is as it was after it.
fn saved_in_front(block: &[u8; 600]) -> bool {
    let saved = block_of(&[trial(7, 1, 9), trial(21, 9, 1)]);
    block[..512] == saved[..] && block[512..] == [7; 88]
}

#[test]
fn calls_and_answers(rt: HostRuntime) -> Result<(), Fail> {
    let space = square(2, 9).ok_or("a space")?;
    let mut own = [at(0, 0, 0); 2];
    let mut strange = [at(99, -5, 123); 3];
    let mut list = [77; 3];
    let mut block = [7; 600];
    let fed = four();
    let torn = torn(fed, 511);
    let mut turns = calls(&fed, &torn);
    let archive = replay_recorded(
        space,
        &mut own,
        &mut strange,
        &mut list,
        &mut block,
        &mut turns,
    )
    .ok()
    .ok_or("rows")?;
    for (i, (turn, answer)) in turns.iter().zip(answers().iter()).enumerate() {
        assert_eq!(rt; turn.answer, Some(*answer), "call {i}");
    }
    assert_eq!(rt; list, [7, 21, 77]);
    assert!(rt; saved_in_front(&block));
    assert_eq!(rt; tags(&archive, &own), [7, 21, 0, 0]);
    assert!(rt; same_rows(&strange, &[at(99, -5, 123); 3]));
    Ok(())
}

#[test]
fn a_replay_over_no_rows(rt: HostRuntime) -> Result<(), Fail> {
    let space = square(2, 9).ok_or("a space")?;
    let mut block = [7; 512];
    let mut turns = [save(0, 0, 512)];
    let made = replay_recorded(space, &mut [], &mut [], &mut [], &mut block, &mut turns);
    assert_eq!(rt;
        made.err().map(|refused| refused.denial),
        Some(Denial::NoRows)
    );
    assert_eq!(rt; turns[0].answer, None);
    assert!(rt; block == [7; 512]);
    Ok(())
}
