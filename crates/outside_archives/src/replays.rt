// A list of calls, denied ones among them, and every answer of it.
use crate::squares::square;
use history::{Answer, Denial, Verdict};
use outside_parts::{at, judged};
use replay::{Ask, Turn, replay};
use std::test::Fail;

fn offer(rows: usize, room: usize, tag: u32, x: i32, y: i32) -> Turn<Ask<[i32; 6]>> {
    Turn::new(Ask::Offer {
        rows,
        room,
        trial: at(tag, x, y),
    })
}

#[test]
fn calls_and_answers(rt: HostRuntime) -> Result<(), Fail> {
    let space = square(9, 1).ok_or("a space")?;
    let mut own = [at(0, 0, 0); 2];
    let mut strange = [at(9, 9, 9); 3];
    let mut list = [77; 3];
    let mut turns = [
        offer(2, 2, 1, 1, 9),
        offer(3, 3, 2, 9, 0),
        offer(2, 1, 2, 9, 0),
        offer(2, 2, 2, 9, 0),
        offer(2, 3, 3, 5, 5),
        offer(2, 3, 4, 9, 1),
        Turn::new(Ask::Audit { rows: 2 }),
        Turn::new(Ask::Audit { rows: 1 }),
        Turn::new(Ask::List { rows: 2, room: 1 }),
        Turn::new(Ask::List { rows: 2, room: 3 }),
    ];
    let archive = replay(space, &mut own, &mut strange, &mut list, &mut turns)
        .ok()
        .ok_or("rows")?;
    let told = [
        judged(Verdict::Entered, 0),
        Answer::Denied(Denial::StrangeRows),
        Answer::Denied(Denial::ShortList),
        judged(Verdict::Entered, 0),
        Answer::Denied(Denial::Full),
        judged(Verdict::Displaced, 1),
        Answer::Audited(None),
        Answer::Denied(Denial::StrangeRows),
        Answer::Denied(Denial::ShortList),
        Answer::Listed(2),
    ];
    for (turn, answer) in turns.iter().zip(told.iter()) {
        assert_eq!(rt; turn.answer, Some(*answer));
    }
    assert_eq!(rt; list, [1, 4, 77]);
    assert_eq!(rt; archive.list(&own, &mut list), Ok(2));
    assert_eq!(rt; strange[2].tag, 9);
    Ok(())
}

#[test]
fn a_replay_over_no_rows(rt: HostRuntime) -> Result<(), Fail> {
    let space = square(9, 1).ok_or("a space")?;
    let mut turns = [Turn::new(Ask::Audit { rows: 0 })];
    let made = replay(space, &mut [], &mut [], &mut [], &mut turns);
    assert_eq!(rt;
        made.err().map(|refused| refused.denial),
        Some(Denial::NoRows)
    );
    assert_eq!(rt; turns[0].answer, None);
    Ok(())
}
