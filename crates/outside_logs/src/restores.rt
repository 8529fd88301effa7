// Restores: what is refused, and what comes back.
use crate::blocks::{block_of, changed, four, torn};
use crate::squares::{filled, same_rows, square};
use archive::{Archive, RestoreFault, Restored, restore};
use history::{Denial, DeniedTrial, Fed};
use log_block::{BlockFault, Fault, RecordFault};
use outside_parts::{at, report};
use space::Trial;
use std::test::Fail;
use step::StepSpace;

// Why these blocks are not restored over these rows, for two objectives from 0 to 9.
fn refused(rows: &mut [Trial<[i32; 6]>], blocks: &[&[u8]]) -> Option<RestoreFault> {
    restore(square(2, 9)?, rows, blocks)
        .err()
        .map(|unrestored| unrestored.fault)
}

#[test]
fn makings(rt: HostRuntime) {
    let torn = torn(four(), 508);
    assert_eq!(rt;
        refused(&mut [], &[&torn]),
        Some(RestoreFault::Denied(Denial::NoRows))
    );
    assert_eq!(rt;
        refused(&mut [at(0, 0, 0); 4097], &[&torn]),
        Some(RestoreFault::Denied(Denial::Overlong))
    );
}

#[test]
fn blocks_at_fault(rt: HostRuntime) {
    let good = four();
    let torn = torn(four(), 9);
    let tail = changed(four(), &[(507, 1)]);
    let mut rows = [at(6, 0, 8), at(99, -5, 123)];
    for (blocks, index, fault, told) in [
        (
            [good, torn, tail],
            1,
            Fault::Block(BlockFault::Torn),
            report(10, 1, 508),
        ),
        (
            [good, good, tail],
            2,
            Fault::Record(RecordFault::Tail(507)),
            report(13, 2, 507),
        ),
        (
            [tail, torn, good],
            0,
            Fault::Record(RecordFault::Tail(507)),
            report(13, 2, 507),
        ),
    ] {
        assert_eq!(rt;
            refused(&mut rows, &[&blocks[0], &blocks[1], &blocks[2]]),
            Some(RestoreFault::Block { index, fault })
        );
        assert_eq!(rt; Some(fault.report()), told);
    }
    assert!(rt; same_rows(&rows, &[at(6, 0, 8), at(99, -5, 123)]));
}

// What these blocks come back as over these rows, for two objectives up to this figure.
fn restored(
    high: i32,
    rows: &mut [Trial<[i32; 6]>],
    blocks: &[&[u8]],
) -> Option<Restored<StepSpace>> {
    restore(square(2, high)?, rows, blocks).ok()
}

// What trials come to of which so many entered and the rest were denied.
fn fed(entered: usize, denied: usize, first: Option<DeniedTrial>) -> Fed {
    Fed {
        entered,
        passed: 0,
        denied,
        displaced: 0,
        first,
    }
}

// Both blocks of the members.
fn saved(archive: &Archive<StepSpace>, rows: &[Trial<[i32; 6]>]) -> [[u8; 512]; 2] {
    let mut former = [7; 512];
    let mut latter = [7; 512];
    let _ = archive.save(rows, 0, &mut former);
    let _ = archive.save(rows, 1, &mut latter);
    [former, latter]
}

#[test]
fn saved_blocks(rt: HostRuntime) -> Result<(), Fail> {
    let mut rows = [at(0, 0, 0); 36];
    let [a, b] = saved(&filled(2, 36, &mut rows).ok_or("members")?, &rows);
    let mut back = [at(9, 9, 9); 36];
    let restored = restored(255, &mut back, &[&a, &b]).ok_or("blocks")?;
    assert_eq!(rt; restored.fed, fed(36, 0, None));
    assert_eq!(rt; restored.archive.count(), 36);
    assert!(rt; same_rows(&rows, &back));
    assert!(rt; saved(&restored.archive, &back) == [a, b]);
    Ok(())
}

#[test]
fn fewer_rows(rt: HostRuntime) -> Result<(), Fail> {
    let mut rows = [at(0, 0, 0); 36];
    let [a, b] = saved(&filled(2, 36, &mut rows).ok_or("members")?, &rows);
    for (size, told) in [
        (10, fed(10, 26, Some(DeniedTrial::Full(148)))),
        (35, fed(35, 1, Some(DeniedTrial::Full(8)))),
    ] {
        let mut back = [at(9, 9, 9); 36];
        let restored = restored(255, &mut back[..size], &[&a, &b]).ok_or("blocks")?;
        assert_eq!(rt; restored.fed, told);
        assert!(rt; same_rows(&rows[..size], &back[..size]));
    }
    Ok(())
}

#[test]
fn no_members(rt: HostRuntime) -> Result<(), Fail> {
    let mut rows = [at(6, 0, 8); 2];
    let none = restored(9, &mut rows, &[]).ok_or("no blocks")?;
    assert_eq!(rt; none.fed, fed(0, 0, None));
    assert_eq!(rt; none.archive.count(), 0);
    let none = restored(9, &mut rows, &[&block_of(&[])]).ok_or("an empty block")?;
    assert_eq!(rt; none.fed, fed(0, 0, None));
    assert_eq!(rt; none.archive.count(), 0);
    assert!(rt; same_rows(&rows, &[at(6, 0, 8); 2]));
    Ok(())
}
