// Blocks of a log: each fault at each of its places, and what is written reads back.
use crate::records::{note_next, trial_next};
use log_block::{Record, Report, TrialBytes};
use outside_parts::report;
use std::test::Fail;

// Puts these bytes at these places.
// Not one with the like of `outside_logs`: what a public one would promise takes a definition, an invariant and lemmas.
fn put(block: &mut [u8], bytes: &[(usize, u8)]) {
    for (place, byte) in bytes {
        if *place < block.len() {
            block[*place] = *byte;
        }
    }
}

// A sealed block of two objectives that says so many records, with these bytes at these places.
fn block(count: u8, bytes: &[(usize, u8)]) -> [u8; 512] {
    let mut block = [0; 512];
    put(&mut block, &[(0, 1), (1, count), (2, 2)]);
    put(&mut block, bytes);
    let _ = log_block::seal(&mut block);
    block
}

// What is wrong with a block of two objectives; nothing where it is accepted.
fn told(bytes: &[u8]) -> Option<Report> {
    log_block::check(bytes, 2).err().map(|fault| fault.report())
}

#[test]
fn blocks_as_a_whole(rt: HostRuntime) {
    let empty = block(0, &[]);
    assert!(rt; empty[508..512] == [0, 3, 5, 240]);
    assert_eq!(rt; told(&empty), None);
    assert_eq!(rt; told(&empty[0..511]), report(9, 1, 0));
    assert_eq!(rt; told(&[0; 513]), report(9, 1, 0));
    assert_eq!(rt; told(&[]), report(9, 1, 0));
    assert_eq!(rt; told(&[0; 512]), report(11, 1, 0));
    assert_eq!(rt; told(&block(0, &[(0, 2)])), report(11, 1, 0));
    assert_eq!(rt; told(&block(0, &[(3, 1)])), report(11, 1, 3));
    assert_eq!(rt; told(&block(0, &[(0, 0), (3, 1)])), report(11, 1, 0));
    assert_eq!(rt; told(&block(0, &[(2, 3)])), report(12, 1, 2));
    assert_eq!(rt; told(&block(0, &[(2, 3), (3, 1)])), report(11, 1, 3));
    assert_eq!(rt; told(&block(0, &[(4, 255), (7, 1)])), None);
}

#[test]
fn torn_blocks(rt: HostRuntime) {
    // by place: each byte of the sum is altered alone
    for place in 508..512 {
        for by in [1, 255] {
            let mut torn = block(0, &[]);
            torn[place] = torn[place].wrapping_add(by);
            assert_eq!(rt; told(&torn), report(10, 1, 508));
        }
    }
    for place in [0, 3, 8, 507] {
        let mut torn = block(0, &[]);
        torn[place] = torn[place].wrapping_add(1);
        assert_eq!(rt; told(&torn), report(10, 1, 508));
    }
}

#[test]
fn records_and_their_ends(rt: HostRuntime) {
    assert_eq!(rt; told(&block(1, &[(8, 2)])), None);
    assert_eq!(rt; told(&block(1, &[(8, 2), (9, 255)])), None);
    assert_eq!(rt; told(&block(1, &[(8, 0)])), report(13, 2, 8));
    assert_eq!(rt; told(&block(1, &[(8, 3)])), report(13, 2, 8));
    assert_eq!(rt; told(&block(1, &[(8, 1), (9, 12)])), None);
    assert_eq!(rt; told(&block(1, &[(8, 1), (9, 11)])), report(13, 2, 8));
    assert_eq!(rt; told(&block(1, &[(8, 1), (9, 13)])), report(13, 2, 8));
    assert_eq!(rt; told(&block(1, &[(8, 1), (9, 8)])), report(13, 2, 8));
    assert_eq!(rt;
        told(&block(2, &[(8, 2), (9, 255), (265, 2), (266, 241)])),
        None
    );
    assert_eq!(rt;
        told(&block(2, &[(8, 2), (9, 255), (265, 2), (266, 242)])),
        report(13, 2, 265)
    );
    assert_eq!(rt;
        told(&block(3, &[(8, 2), (9, 255), (265, 2), (266, 240), (507, 2)])),
        report(13, 2, 507)
    );
    assert_eq!(rt;
        told(&block(3, &[(8, 2), (9, 255), (265, 2), (266, 241)])),
        report(13, 2, 508)
    );
}

#[test]
fn tails_and_counts(rt: HostRuntime) {
    assert_eq!(rt; told(&block(0, &[(8, 1)])), report(13, 2, 8));
    assert_eq!(rt; told(&block(0, &[(507, 1)])), report(13, 2, 507));
    assert_eq!(rt; told(&block(0, &[(9, 7), (507, 1)])), report(13, 2, 9));
    assert_eq!(rt;
        told(&block(1, &[(8, 1), (9, 12), (22, 9)])),
        report(13, 2, 22)
    );
    assert_eq!(rt; told(&block(2, &[(8, 1), (9, 12)])), report(13, 2, 22));
    assert_eq!(rt; told(&block(0, &[(8, 1), (9, 12)])), report(13, 2, 8));
    assert_eq!(rt; told(&block(255, &[])), report(13, 2, 8));
}

#[test]
fn records_as_parts(rt: HostRuntime) -> Result<(), Fail> {
    let block = block(
        3,
        &[
            (8, 2),
            (10, 1),
            (11, 12),
            (12, 1),
            (15, 9),
            (19, 7),
            (24, 2),
            (25, 3),
            (28, 5),
        ],
    );
    let mut records = log_block::check(&block, 2).ok().ok_or("a block")?;
    note_next(&rt, &mut records, 8, &[]);
    trial_next(&rt, &mut records, 10, 16777225, &[0, 0, 0, 7, 0, 0, 0, 0]);
    note_next(&rt, &mut records, 24, &[0, 0, 5]);
    assert!(rt; records.next().is_none());
    Ok(())
}

// A trial with this tag, whose point's bytes are all this one.
fn trial(tag: u32, byte: u8) -> TrialBytes {
    TrialBytes {
        tag,
        point: [byte; 24],
    }
}

#[test]
fn full_blocks(rt: HostRuntime) -> Result<(), Fail> {
    for (objectives, room) in [(1, 50), (2, 35), (3, 27), (4, 22), (5, 19), (6, 16), (7, 0)] {
        let mut block = [255; 512];
        assert_eq!(rt;
            log_block::write(
                &mut block,
                objectives,
                4294967295,
                &[trial(4294967294, 9); 60],
            )
            .ok(),
            Some(room)
        );
        let mut records = log_block::check(&block, objectives).ok().ok_or("a block")?;
        // no `count`: it asks for a proof that the records are few
        for _ in 0..room {
            let Record::Trial { tag, point } = records.next().ok_or("a record")?.record else {
                assert!(rt; false);
                return Ok(());
            };
            assert_eq!(rt; tag, 4294967294);
            assert_eq!(rt; point.len() / 4, usize::from(objectives));
        }
        assert!(rt; records.next().is_none());
    }
    Ok(())
}

#[test]
fn blocks_of_another_length_stay(rt: HostRuntime) {
    let mut short = [7; 511];
    let refused = log_block::write(&mut short, 2, 1, &[trial(1, 1)]).err();
    assert_eq!(rt; refused.map(|fault| fault.report()), report(9, 1, 0));
    let refused = log_block::seal(&mut short).err();
    assert_eq!(rt; refused.map(|fault| fault.report()), report(9, 1, 0));
    assert!(rt; short == [7; 511]);
}
