// Blocks of trials and notes, written and read back: what fits, what does not, and what no block may hold.
use log_block::{BlockFault, Record, Records};
use std::process::Abort;
use std::test::Fail;

// The record of a trial of two objectives.
fn trial(tag: u32, point: &[u8; 8]) -> Record<'_> {
    Record::Trial {
        tag,
        point: point.as_slice(),
    }
}

// The next record is to be this note, at this place.
// By a match: a record has no equality of its own, and its parts are told apart where they differ.
pub(crate) fn note_next(rt: &impl Abort, records: &mut Records<'_>, place: usize, text: &[u8]) {
    let Some(found) = records.next() else {
        assert!(rt; false);
        return;
    };
    assert_eq!(rt; found.place, place);
    match found.record {
        Record::Note(bytes) => assert!(rt; bytes == text),
        Record::Trial { .. } => assert!(rt; false),
    }
}

// The next record is to be this trial, at this place. By a match too, for the same reasons, and not by one function for both kinds: they
// share the first lines alone.
pub(crate) fn trial_next(
    rt: &impl Abort,
    records: &mut Records<'_>,
    place: usize,
    tag: u32,
    point: &[u8; 8],
) {
    let Some(found) = records.next() else {
        assert!(rt; false);
        return;
    };
    assert_eq!(rt; found.place, place);
    match found.record {
        Record::Trial {
            tag: said,
            point: bytes,
        } => {
            assert_eq!(rt; said, tag);
            assert!(rt; bytes == point.as_slice());
        },
        Record::Note(_) => assert!(rt; false),
    }
}

// How many of these records a block of so many objectives takes.
fn taken(objectives: u8, records: &[Record<'_>]) -> Option<usize> {
    log_block::write_records(&mut [7; 512], objectives, 3, records).ok()
}

#[test]
fn trials_and_notes_read_back(rt: HostRuntime) -> Result<(), Fail> {
    let mut block = [255; 512];
    let long = [200; 255];
    let records = [
        Record::Note(&[]),
        trial(4294967295, &[0, 0, 4, 176, 0, 0, 0, 100]),
        Record::Note(&long),
        trial(0, &[255; 8]),
    ];
    let count = log_block::write_records(&mut block, 2, 16909060, &records);
    assert_eq!(rt; count, Ok(4));
    assert!(rt; block[0..8] == [1, 4, 2, 0, 1, 2, 3, 4]);
    let mut found = log_block::check(&block, 2).ok().ok_or("a block")?;
    note_next(&rt, &mut found, 8, &[]);
    trial_next(
        &rt,
        &mut found,
        10,
        4294967295,
        &[0, 0, 4, 176, 0, 0, 0, 100],
    );
    note_next(&rt, &mut found, 24, &long);
    trial_next(&rt, &mut found, 281, 0, &[255; 8]);
    assert!(rt; found.next().is_none());
    Ok(())
}

#[test]
fn no_records(rt: HostRuntime) {
    let mut block = [255; 512];
    assert_eq!(rt; log_block::write_records(&mut block, 2, 0, &[]), Ok(0));
    assert!(rt; block[508..512] == [0, 3, 5, 240]);
}

// 35 trials take 490 of the 500 bytes, and a note of eight bytes the other ten.
#[test]
fn up_to_the_last_byte(rt: HostRuntime) {
    let bytes = [9; 8];
    let text = [77; 9];
    let mut records = [trial(5, &bytes); 37];
    records[35] = Record::Note(&text[0..8]);
    let mut block = [255; 512];
    assert_eq!(rt;
        log_block::write_records(&mut block, 2, 0, &records),
        Ok(36)
    );
    assert_eq!(rt; block[507], 77);
    assert!(rt; log_block::check(&block, 2).is_ok());
    records[35] = Record::Note(&text);
    assert_eq!(rt;
        log_block::write_records(&mut block, 2, 0, &records),
        Ok(35)
    );
    assert!(rt; block[498..508] == [0; 10]);
    assert!(rt; log_block::check(&block, 2).is_ok());
    // a smaller record after it is not taken in its place
    records[36] = Record::Note(&[]);
    assert_eq!(rt; taken(2, &records), Some(35));
    assert_eq!(rt; taken(2, &[Record::Note(&[]); 251]), Some(250));
}

#[test]
fn records_that_no_block_holds(rt: HostRuntime) {
    let bytes = [0; 256];
    assert_eq!(rt; taken(2, &[Record::Note(&bytes)]), Some(0));
    assert_eq!(rt; taken(2, &[Record::Note(&bytes[0..255])]), Some(1));
    for (length, count) in [(7, 0), (8, 1), (9, 0), (0, 0)] {
        let odd = Record::Trial {
            tag: 1,
            point: &bytes[0..length],
        };
        assert_eq!(rt; taken(2, &[odd, Record::Note(&[])]), Some(2 * count));
    }
    let most = Record::Trial {
        tag: 1,
        point: &bytes[0..24],
    };
    assert_eq!(rt; taken(6, &[most; 20]), Some(16));
    let more = Record::Trial {
        tag: 1,
        point: &bytes[0..28],
    };
    assert_eq!(rt; taken(7, &[more, Record::Note(&[])]), Some(0));
    assert_eq!(rt; taken(7, &[Record::Note(&[])]), Some(0));
}

#[test]
fn blocks_of_another_length(rt: HostRuntime) {
    let records = [Record::Note(&[1])];
    let mut short = [7; 511];
    let refused = log_block::write_records(&mut short, 2, 1, &records);
    assert_eq!(rt; refused, Err(BlockFault::WrongLength));
    assert!(rt; short == [7; 511]);
    let mut long = [7; 513];
    let refused = log_block::write_records(&mut long, 2, 1, &records);
    assert_eq!(rt; refused, Err(BlockFault::WrongLength));
    assert!(rt; long == [7; 513]);
}
