// Lines of each kind, both ends of each range, and texts of several lines.
use crate::outcome::{Entry, Malformed};
use crate::reading::read_entry;
use crate::text::read_entries;
use std::process::Abort;
use std::test::Fail;

// The entry that the line is to say.
fn says(rt: &impl Abort, line: &[u8], tag: u32, delay: i32, life: u32) {
    assert_eq!(rt; read_entry(line), Ok(Entry { tag, delay, life }));
}

// What is to be wrong with the line.
fn fails(rt: &impl Abort, line: &[u8], fault: Malformed) {
    assert_eq!(rt; read_entry(line), Err(fault));
}

#[test]
fn entries(rt: HostRuntime) {
    says(&rt, b"7 -3 20", 7, -3, 20);
    says(&rt, b"  7   12 020 \r", 7, 12, 20);
    says(&rt, b"0 -0 0\r", 0, 0, 0);
}

#[test]
fn ends_of_the_ranges(rt: HostRuntime) {
    says(
        &rt,
        b"4294967295 2147483647 4294967295",
        4294967295,
        2147483647,
        4294967295,
    );
    says(&rt, b"0 -2147483648 0", 0, -2147483648, 0);
    fails(&rt, b"4294967296 0 0", Malformed::Tag);
    fails(&rt, b"0 2147483648 0", Malformed::Delay);
    fails(&rt, b"0 -2147483649 0", Malformed::Delay);
    fails(&rt, b"0 0 4294967296", Malformed::Life);
}

#[test]
fn counts_of_fields(rt: HostRuntime) {
    fails(&rt, b"", Malformed::Fields(0));
    fails(&rt, b"   \r", Malformed::Fields(0));
    fails(&rt, b"1 2", Malformed::Fields(2));
    fails(&rt, b"1 2 3 4", Malformed::Fields(4));
}

#[test]
fn other_characters(rt: HostRuntime) {
    fails(&rt, b"+1 2 3", Malformed::Tag);
    fails(&rt, b"-1 x 3", Malformed::Tag);
    fails(&rt, b"1 - 3", Malformed::Delay);
    fails(&rt, b"1 --2 3", Malformed::Delay);
    fails(&rt, b"1 2 3x", Malformed::Life);
    fails(&rt, b"1 2 3\r ", Malformed::Life);
}

#[test]
fn messages(rt: HostRuntime) -> Result<(), Fail> {
    assert_eq!(rt;
        Malformed::Fields(2).to_string(rt.alloc())?.as_str(),
        "3 numbers wanted, 2 found"
    );
    assert_eq!(rt;
        Malformed::Tag.to_string(rt.alloc())?.as_str(),
        "the tag is no number from 0 to 4294967295"
    );
    assert_eq!(rt;
        Malformed::Delay.to_string(rt.alloc())?.as_str(),
        "the delay is no number from -2147483648 to 2147483647"
    );
    assert_eq!(rt;
        Malformed::Life.to_string(rt.alloc())?.as_str(),
        "the life is no number from 0 to 4294967295"
    );
    Ok(())
}

#[test]
fn ends_of_texts(rt: HostRuntime) -> Result<(), Fail> {
    let none: [Result<Entry, Malformed>; 0] = [];
    assert_eq!(rt; read_entries(rt.alloc(), b"")?.as_slice(), none.as_slice());
    let entry = Ok(Entry {
        tag: 1,
        delay: 2,
        life: 3,
    });
    assert_eq!(rt;
        read_entries(rt.alloc(), b"1 2 3")?.as_slice(),
        [entry].as_slice()
    );
    assert_eq!(rt;
        read_entries(rt.alloc(), b"1 2 3\r\n")?.as_slice(),
        [entry].as_slice()
    );
    Ok(())
}

#[test]
fn lines_of_a_text(rt: HostRuntime) -> Result<(), Fail> {
    assert_eq!(rt;
        read_entries(rt.alloc(), b"1 2 3\n\n1 x 3\n4 5 6")?.as_slice(),
        [
            Ok(Entry {
                tag: 1,
                delay: 2,
                life: 3,
            }),
            Err(Malformed::Fields(0)),
            Err(Malformed::Delay),
            Ok(Entry {
                tag: 4,
                delay: 5,
                life: 6,
            }),
        ]
        .as_slice()
    );
    Ok(())
}
