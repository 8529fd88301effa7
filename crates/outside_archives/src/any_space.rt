// Every call over a space that is no grid and has no bytes.
use archive::{Archive, row_need};
use history::{Answer, Denial, Offered, Verdict};
use outside::{Share, Triangle};
use replay::{Ask, Turn, replay};
use space::Trial;
use std::test::Fail;

fn share(tag: u32, reads: u32, writes: u32) -> Trial<Share> {
    Trial {
        point: Share { reads, writes },
        tag,
    }
}

// Boxes (0, 0, 1), (1, 1, 0), (2, 0, 0), (0, 0, 2), (1, 1, 0) again, and off the grid.
fn trials() -> [Trial<Share>; 6] {
    [
        share(1, 2, 2),
        share(2, 4, 4),
        share(3, 8, 1),
        share(4, 0, 0),
        share(5, 5, 5),
        share(6, 7, 7),
    ]
}

// What comes of them over two rows.
fn fates() -> [Result<Offered, Denial>; 6] {
    let fate = |verdict, displaced| Ok(Offered { verdict, displaced });
    [
        fate(Verdict::Entered, 0),
        fate(Verdict::Entered, 0),
        Err(Denial::Full),
        fate(Verdict::Displaced, 1),
        fate(Verdict::PassedOver, 0),
        Err(Denial::OffGrid),
    ]
}

#[test]
fn calls_over_a_triangle(rt: HostRuntime) -> Result<(), Fail> {
    assert_eq!(rt; row_need(&Triangle), 9);
    let mut rows = [share(0, 0, 0); 2];
    let mut list = [77; 2];
    let mut archive = Archive::new(Triangle, &rows).ok().ok_or("rows")?;
    for (trial, fate) in trials().iter().zip(fates().iter()) {
        assert_eq!(rt; archive.offer(*trial, &mut rows, &mut list), *fate);
    }
    assert_eq!(rt; list, [1, 77]);
    assert_eq!(rt; archive.audit(&rows), Ok(None));
    assert_eq!(rt; archive.list(&rows, &mut list), Ok(2));
    assert_eq!(rt; list, [2, 4]);
    assert_eq!(rt;
        rows[0].point,
        Share {
            reads: 4,
            writes: 4
        }
    );
    assert_eq!(rt;
        rows[1].point,
        Share {
            reads: 0,
            writes: 0
        }
    );
    assert_eq!(rt; archive.audit(&rows[..1]), Err(Denial::StrangeRows));
    assert_eq!(rt; archive.list(&rows, &mut list[..1]), Err(Denial::ShortList));
    Ok(())
}

fn offer(trial: Trial<Share>) -> Turn<Ask<Share>> {
    Turn::new(Ask::Offer {
        rows: 2,
        room: 2,
        trial,
    })
}

#[test]
fn a_replay_over_a_triangle(rt: HostRuntime) -> Result<(), Fail> {
    let mut own = [share(0, 0, 0); 2];
    let mut strange = [share(9, 9, 9); 1];
    let mut list = [77; 2];
    let [a, b, c, d, e, f] = trials().map(offer);
    let mut turns = [
        a,
        b,
        c,
        d,
        e,
        f,
        Turn::new(Ask::Audit { rows: 1 }),
        Turn::new(Ask::Audit { rows: 2 }),
        Turn::new(Ask::List { rows: 2, room: 2 }),
    ];
    let _ = replay(Triangle, &mut own, &mut strange, &mut list, &mut turns)
        .ok()
        .ok_or("rows")?;
    for (turn, fate) in turns.iter().zip(fates().iter()) {
        let told = fate.map_or_else(Answer::Denied, Answer::Offered);
        assert_eq!(rt; turn.answer, Some(told));
    }
    assert_eq!(rt; turns[6].answer, Some(Answer::Denied(Denial::StrangeRows)));
    assert_eq!(rt; turns[7].answer, Some(Answer::Audited(None)));
    assert_eq!(rt; turns[8].answer, Some(Answer::Listed(2)));
    assert_eq!(rt; list, [2, 4]);
    Ok(())
}
