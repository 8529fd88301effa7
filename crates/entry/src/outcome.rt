// What a line gives: an entry, or what is wrong with the line.
ghost use Rattle.std.specs.Prelude.{Some};
ghost use Rattle.entry.specs.Told.{malformed_text};

use std::fmt;

// A trial as it is written: the tag of its settings, the delay and the life that were measured.
#[derive(Clone, Copy, PartialEq, Eq, Debug)]
pub struct Entry {
    pub tag: u32,
    pub delay: i32,
    pub life: u32,
}

// Why a line is no entry: it has so many fields, or the first field at fault is no number in range.
#[derive(Clone, Copy, PartialEq, Eq, Debug)]
pub enum Malformed {
    Fields(usize),
    Tag,
    Delay,
    Life,
}

impl fmt::Display for Malformed {
    ghost output = { λ m. Some (malformed_text m) };

    fn fmt<W: fmt::Write>(&self, f: &mut fmt::Formatter<W>) -> fmt::Result {
        match self {
            Malformed::Fields(count) => write!(f, "3 numbers wanted, {count} found"),
            Malformed::Tag => write!(f, "the tag is no number from 0 to 4294967295"),
            Malformed::Delay => write!(f, "the delay is no number from -2147483648 to 2147483647"),
            Malformed::Life => write!(f, "the life is no number from 0 to 4294967295"),
        }
    }
}
