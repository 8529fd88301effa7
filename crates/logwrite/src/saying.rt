// What a line gives a log: a trial, the bytes of a note, or why neither.
use entry::Malformed;
use std::fmt;

// The most bytes that a note may have.
pub(crate) const LONGEST_NOTE: usize = 255;

// What a line gives. No `Record` of a block: that borrows the bytes of a point, which are held here.
#[derive(Clone, Copy)]
pub(crate) enum Line<'a> {
    // a trial: its tag, and the bytes of its point in front
    Trial { tag: u32, point: [u8; 24] },
    // a note: the bytes after the word
    Note(&'a [u8]),
}

// Why a line gives nothing: it is no note and no trial, or a note of so many bytes.
#[derive(Clone, Copy, PartialEq, Eq, Debug)]
pub(crate) enum Unsaid {
    NoTrial(Malformed),
    LongNote(usize),
}

impl fmt::Display for Unsaid {
    fn fmt<W: fmt::Write>(&self, f: &mut fmt::Formatter<W>) -> fmt::Result {
        match self {
            Unsaid::NoTrial(why) => write!(f, "{why}"),
            Unsaid::LongNote(count) => write!(
                f,
                "a note of at most {LONGEST_NOTE} bytes wanted, {count} found"
            ),
        }
    }
}
