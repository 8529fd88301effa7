// Texts of each kind: the block of the worked run byte for byte, notes of each form, and what begins the next block.
use crate::saying::Unsaid;
use crate::writing::write_log;
use entry::Malformed;
use std::alloc::Global;
use std::process::Abort;
use std::test::Fail;

// The lines of the text are to be refused, or not, for these reasons.
fn refused(
    rt: &impl Abort,
    heap: Global,
    text: &[u8],
    reasons: &[Option<Unsaid>],
) -> Result<(), Fail> {
    let log = write_log(heap, text)?;
    assert_eq!(rt; log.lines.len(), reasons.len());
    for (line, reason) in log.lines.iter().zip(reasons) {
        assert_eq!(rt; line.err(), *reason);
    }
    Ok(())
}

// The text is to give one block, whose records take these bytes.
fn records_are(rt: &impl Abort, heap: Global, text: &[u8], bytes: &[u8]) -> Result<(), Fail> {
    let log = write_log(heap, text)?;
    assert_eq!(rt; log.blocks.len(), 1);
    let block = &log.blocks[0];
    assert!(rt; bytes.len() < 500);
    assert!(rt; &block[8..8 + bytes.len()] == bytes);
    assert_eq!(rt; block[8 + bytes.len()], 0);
    Ok(())
}

#[test]
fn the_worked_block(rt: HostRuntime) -> Result<(), Fail> {
    let text =
        b"101 1200 100\n102 1100 120\n103 1000 95\n104 4000 300\n105 3500 320\n106 10000 5\n";
    let log = write_log(rt.alloc(), text)?;
    assert_eq!(rt; log.blocks.len(), 1);
    assert!(rt; log.blocks[0][0..8] == [1, 6, 2, 0, 0, 0, 0, 0]);
    assert!(rt; log.blocks[0][508..512] == [8, 0, 99, 147]);
    Ok(())
}

#[test]
fn no_block(rt: HostRuntime) -> Result<(), Fail> {
    assert_eq!(rt; write_log(rt.alloc(), b"")?.blocks.len(), 0);
    assert_eq!(rt; write_log(rt.alloc(), b"\nx y\n")?.blocks.len(), 0);
    Ok(())
}

#[test]
fn trials_off_the_grid(rt: HostRuntime) -> Result<(), Fail> {
    records_are(
        &rt,
        rt.alloc(),
        b"4294967295 -2147483648 4294967295\r\n",
        &[1, 12, 255, 255, 255, 255, 128, 0, 0, 0, 255, 255, 255, 255],
    )?;
    records_are(
        &rt,
        rt.alloc(),
        b"258 -2 0",
        &[1, 12, 0, 0, 1, 2, 255, 255, 255, 254, 0, 0, 0, 0],
    )
}

#[test]
fn forms_of_notes(rt: HostRuntime) -> Result<(), Fail> {
    records_are(&rt, rt.alloc(), b"note", &[2, 0])?;
    records_are(&rt, rt.alloc(), b"note \n", &[2, 0])?;
    records_are(&rt, rt.alloc(), b"note\r\n", &[2, 0])?;
    records_are(
        &rt,
        rt.alloc(),
        b"note 1 2 3\r\n",
        &[2, 5, b'1', b' ', b'2', b' ', b'3'],
    )?;
    records_are(
        &rt,
        rt.alloc(),
        b"note  \xc3\xa9 ",
        &[2, 4, b' ', 195, 169, b' '],
    )?;
    refused(
        &rt,
        rt.alloc(),
        b"notes 1 2\n note\nNote a\nnote\n",
        &[
            Some(Unsaid::NoTrial(Malformed::Tag)),
            Some(Unsaid::NoTrial(Malformed::Fields(1))),
            Some(Unsaid::NoTrial(Malformed::Fields(2))),
            None,
        ],
    )
}

#[test]
fn long_notes(rt: HostRuntime) -> Result<(), Fail> {
    let mut text = [b'a'; 261];
    text[0..5].copy_from_slice(b"note ");
    refused(&rt, rt.alloc(), &text[0..260], &[None])?;
    refused(&rt, rt.alloc(), &text, &[Some(Unsaid::LongNote(256))])?;
    assert_eq!(rt;
        Unsaid::LongNote(256).to_string(rt.alloc())?.as_str(),
        "a note of at most 255 bytes wanted, 256 found"
    );
    Ok(())
}

// 35 trials fill 490 of the 500 bytes; a note of eight bytes fits after them, and one of nine begins the next block.
#[test]
fn the_next_block(rt: HostRuntime) -> Result<(), Fail> {
    let mut text = b"1 2 3\n".repeat(rt.alloc(), 35)?;
    text.extend_from_slice(b"note 12345678")?;
    assert_eq!(rt; write_log(rt.alloc(), text.as_slice())?.blocks.len(), 1);
    text.push(b'9')?;
    let log = write_log(rt.alloc(), text.as_slice())?;
    assert_eq!(rt; log.blocks.len(), 2);
    assert!(rt; log.blocks[0][0..8] == [1, 35, 2, 0, 0, 0, 0, 0]);
    assert!(rt; log.blocks[1][0..11] == [1, 1, 2, 0, 0, 0, 0, 1, 2, 9, b'1']);
    Ok(())
}
