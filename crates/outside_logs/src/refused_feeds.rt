// Feeds that are refused: each fault with its number, layer and place, and nothing is altered.
use crate::blocks::{block_of, changed, four, torn, trial};
use crate::squares::{holding, same_rows};
use archive::Archive;
use history::FeedFault;
use log_block::{BlockFault, RecordFault, Report};
use outside_parts::at;
use space::Trial;
use std::process::Abort;
use std::test::Fail;
use step::StepSpace;

// Two rows, the first of which holds a member: the first trial of each block here would displace it.
fn held() -> [Trial<[i32; 6]>; 2] {
    [at(6, 0, 8), at(99, -5, 123)]
}

// This block is refused for this fault, and the archive and its rows stay as they were.
fn refused(
    rt: &impl Abort,
    archive: &mut Archive<StepSpace>,
    rows: &mut [Trial<[i32; 6]>],
    block: &[u8],
    fault: FeedFault,
) {
    assert_eq!(rt; archive.feed(block, rows), Err(fault));
    assert!(rt; same_rows(rows, &held()));
    assert_eq!(rt; archive.count(), 1);
}

#[test]
fn strange_rows(rt: HostRuntime) -> Result<(), Fail> {
    let mut rows = held();
    let mut archive = holding(at(6, 0, 8), &mut rows).ok_or("a member")?;
    let mut more = [at(1, 0, 0); 3];
    for block in [four(), torn(four(), 508)] {
        assert_eq!(rt;
            archive.feed(&block, &mut rows[..1]),
            Err(FeedFault::StrangeRows)
        );
        assert_eq!(rt; archive.feed(&block, &mut []), Err(FeedFault::StrangeRows));
        assert_eq!(rt;
            archive.feed(&block, &mut more),
            Err(FeedFault::StrangeRows)
        );
    }
    assert_eq!(rt; archive.feed(&[], &mut more), Err(FeedFault::StrangeRows));
    assert!(rt; same_rows(&rows, &held()));
    assert!(rt; same_rows(&more, &[at(1, 0, 0); 3]));
    assert_eq!(rt; archive.count(), 1);
    Ok(())
}

#[test]
fn lengths(rt: HostRuntime) -> Result<(), Fail> {
    let mut rows = held();
    let mut archive = holding(at(6, 0, 8), &mut rows).ok_or("a member")?;
    let block = four();
    let (short, _) = block.split_at(511);
    for block in [short, &[], &[0; 513]] {
        let fault = FeedFault::Block(BlockFault::WrongLength);
        refused(&rt, &mut archive, &mut rows, block, fault);
    }
    Ok(())
}

#[test]
fn sums(rt: HostRuntime) -> Result<(), Fail> {
    let mut rows = held();
    let mut archive = holding(at(6, 0, 8), &mut rows).ok_or("a member")?;
    for place in [0, 3, 8, 507, 508, 509, 510, 511] {
        let fault = FeedFault::Block(BlockFault::Torn);
        refused(&rt, &mut archive, &mut rows, &torn(four(), place), fault);
    }
    Ok(())
}

// A block with a trial at place 8, a long note at place 22 and a trial at place 279, and then two of its bytes changed.
fn with(one: (usize, u8), other: (usize, u8)) -> [u8; 512] {
    let block = block_of(&[trial(7, 1, 9)]);
    let long = changed(block, &[(1, 3), (22, 2), (23, 255), (279, 1), (280, 12)]);
    changed(long, &[one, other])
}

// What is changed in it, and what is wrong with its header then.
fn bad_headers() -> [((usize, u8), (usize, u8), BlockFault); 4] {
    [
        ((0, 2), (3, 9), BlockFault::StrangeFirst),
        ((3, 1), (2, 9), BlockFault::StrangeFourth),
        ((2, 1), (22, 3), BlockFault::OtherGrid),
        ((2, 3), (507, 1), BlockFault::OtherGrid),
    ]
}

#[test]
fn headers(rt: HostRuntime) -> Result<(), Fail> {
    let mut rows = held();
    let mut archive = holding(at(6, 0, 8), &mut rows).ok_or("a member")?;
    for (one, other, fault) in bad_headers() {
        let fault = FeedFault::Block(fault);
        refused(&rt, &mut archive, &mut rows, &with(one, other), fault);
    }
    let fault = FeedFault::Block(BlockFault::StrangeFirst);
    refused(&rt, &mut archive, &mut rows, &[0; 512], fault);
    Ok(())
}

// What is changed in it, and what is wrong with a record or with the tail then.
fn bad_records() -> [((usize, u8), (usize, u8), RecordFault); 9] {
    [
        ((280, 255), (507, 1), RecordFault::Overlong(279)),
        ((280, 228), (4, 1), RecordFault::Overlong(279)),
        ((23, 240), (264, 250), RecordFault::OtherKind(264)),
        ((279, 3), (280, 11), RecordFault::OtherKind(279)),
        ((22, 0), (279, 0), RecordFault::OtherKind(22)),
        ((280, 11), (507, 1), RecordFault::OtherLength(279)),
        ((280, 227), (4, 1), RecordFault::OtherLength(279)),
        ((300, 7), (507, 1), RecordFault::Tail(300)),
        ((507, 1), (4, 1), RecordFault::Tail(507)),
    ]
}

#[test]
fn records(rt: HostRuntime) -> Result<(), Fail> {
    let mut rows = held();
    let mut archive = holding(at(6, 0, 8), &mut rows).ok_or("a member")?;
    for (one, other, fault) in bad_records() {
        let fault = FeedFault::Record(fault);
        refused(&rt, &mut archive, &mut rows, &with(one, other), fault);
    }
    assert!(rt; archive.feed(&with((4, 1), (7, 9)), &mut rows).is_ok());
    Ok(())
}

#[test]
fn reports(rt: HostRuntime) {
    for (fault, number, layer, place) in [
        (FeedFault::StrangeRows, 3, 3, 0),
        (FeedFault::Block(BlockFault::WrongLength), 9, 1, 0),
        (FeedFault::Block(BlockFault::Torn), 10, 1, 508),
        (FeedFault::Block(BlockFault::StrangeFirst), 11, 1, 0),
        (FeedFault::Block(BlockFault::StrangeFourth), 11, 1, 3),
        (FeedFault::Block(BlockFault::OtherGrid), 12, 1, 2),
        (FeedFault::Record(RecordFault::Overlong(279)), 13, 2, 279),
        (FeedFault::Record(RecordFault::OtherKind(22)), 13, 2, 22),
        (FeedFault::Record(RecordFault::OtherLength(8)), 13, 2, 8),
        (FeedFault::Record(RecordFault::Tail(507)), 13, 2, 507),
    ] {
        assert_eq!(rt;
            fault.report(),
            Report {
                number,
                layer,
                place,
            }
        );
    }
}
