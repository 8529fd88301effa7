// Feeds that are not refused: what each tells, and what the rows hold then.
use crate::blocks::{block_of, changed, four, trial};
use crate::squares::{holding, same_rows, square, tags};
use archive::Archive;
use history::{DeniedTrial, Fed, FeedFault};
use log_block::Report;
use outside_parts::{at, report};
use std::test::Fail;

// The answer to a feed that is not refused.
fn told(
    entered: usize,
    passed: usize,
    denied: usize,
    displaced: usize,
    first: Option<DeniedTrial>,
) -> Result<Fed, FeedFault> {
    Ok(Fed {
        entered,
        passed,
        denied,
        displaced,
        first,
    })
}

#[test]
fn four_trials(rt: HostRuntime) -> Result<(), Fail> {
    let block = four();
    assert!(rt; block[508..512] == [0, 135, 250, 154]);
    let off = Some(DeniedTrial::OffGrid(22));
    let mut rows = [at(0, 0, 0); 10];
    let mut archive = Archive::new(square(2, 9).ok_or("a space")?, &rows)
        .ok()
        .ok_or("rows")?;
    assert_eq!(rt; archive.feed(&block, &mut rows), told(3, 0, 1, 0, off));
    assert_eq!(rt; tags(&archive, &rows), [7, 9, 10, 0]);
    for (member, answer, left) in [
        (at(6, 0, 8), told(2, 0, 2, 1, off), [7, 9, 0, 0]),
        (at(6, 9, 9), told(0, 3, 1, 0, off), [6, 0, 0, 0]),
    ] {
        let mut rows = [at(0, 0, 0); 2];
        let mut archive = holding(member, &mut rows).ok_or("a member")?;
        assert_eq!(rt; archive.feed(&block, &mut rows), answer);
        assert_eq!(rt; tags(&archive, &rows), left);
    }
    Ok(())
}

// The first denied trial of a feed, by number, layer and place.
fn first_of(answer: Result<Fed, FeedFault>) -> Option<Report> {
    answer.ok().map(|fed| fed.first_report())
}

#[test]
fn first_denied_trials(rt: HostRuntime) -> Result<(), Fail> {
    let full = block_of(&[trial(1, 5, 5), trial(2, 9, 0), trial(3, 10, 10)]);
    let off = block_of(&[trial(1, 5, -1), trial(2, 9, 0), trial(3, 5, 5)]);
    let none = block_of(&[trial(1, 5, 5), trial(2, 6, 6), trial(3, 5, 5)]);
    for (block, first) in [
        (full, report(6, 3, 22)),
        (off, report(5, 3, 8)),
        (none, report(0, 0, 0)),
        (block_of(&[]), report(0, 0, 0)),
    ] {
        let mut rows = [at(0, 0, 0); 2];
        let mut archive = holding(at(6, 1, 9), &mut rows).ok_or("a member")?;
        assert_eq!(rt; first_of(archive.feed(&block, &mut rows)), first);
    }
    Ok(())
}

#[test]
fn displaced_in_the_same_block(rt: HostRuntime) -> Result<(), Fail> {
    let block = block_of(&[trial(1, 5, 5), trial(2, 1, 9), trial(3, 6, 6)]);
    let mut rows = [at(0, 0, 0); 3];
    let mut archive = holding(at(6, 9, 0), &mut rows).ok_or("a member")?;
    for answer in [told(3, 0, 0, 1, None), told(0, 3, 0, 0, None)] {
        assert_eq!(rt; archive.feed(&block, &mut rows), answer);
        assert!(rt; same_rows(&rows, &[at(6, 9, 0), at(2, 1, 9), at(3, 6, 6)]));
        assert_eq!(rt; archive.count(), 3);
    }
    Ok(())
}

// A note, the trial with tag 9 at (9, 0), a note with no bytes, and the trial with tag 10 at (0, 9).
fn with_notes() -> [u8; 512] {
    changed(
        block_of(&[]),
        &[
            (1, 4),
            (8, 2),
            (9, 14),
            (10, 1),
            (11, 12),
            (24, 1),
            (25, 12),
            (29, 9),
            (33, 9),
            (38, 2),
            (40, 1),
            (41, 12),
            (45, 10),
            (53, 9),
        ],
    )
}

#[test]
fn notes(rt: HostRuntime) -> Result<(), Fail> {
    let mut rows = [at(0, 0, 0); 2];
    let mut archive = holding(at(6, 5, 5), &mut rows).ok_or("a member")?;
    let full = Some(DeniedTrial::Full(40));
    assert_eq!(rt;
        archive.feed(&with_notes(), &mut rows),
        told(1, 0, 1, 0, full)
    );
    assert_eq!(rt; tags(&archive, &rows), [6, 9, 0, 0]);
    assert_eq!(rt; rows[1].point, [9, 0, 0, 0, 0, 0]);
    let alone = changed(block_of(&[]), &[(1, 1), (8, 2), (9, 200), (10, 1)]);
    assert_eq!(rt; archive.feed(&alone, &mut rows), told(0, 0, 0, 0, None));
    Ok(())
}
