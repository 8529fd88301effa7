// What the second archive denies for, with the product's number for each denial and what the account calls it.
use crate::numbered::Numbered;
use std::fmt;

#[derive(Clone, Copy)]
pub(crate) enum Denial {
    NoRows = 1,
    Overlong = 2,
    StrangeRows = 3,
    ShortList = 4,
    OffGrid = 5,
    Full = 6,
    BadGrid = 7,
    TooMany = 8,
    WrongLength = 9,
    Torn = 10,
    StrangeBlock = 11,
    OtherGrid = 12,
    BadRecord = 13,
    NoSuchBlock = 14,
}

impl Numbered for Denial {
    const NOUN: &'static str = "denial";

    const ALL: &'static [Denial] = &[
        Denial::NoRows,
        Denial::Overlong,
        Denial::StrangeRows,
        Denial::ShortList,
        Denial::OffGrid,
        Denial::Full,
        Denial::BadGrid,
        Denial::TooMany,
        Denial::WrongLength,
        Denial::Torn,
        Denial::StrangeBlock,
        Denial::OtherGrid,
        Denial::BadRecord,
        Denial::NoSuchBlock,
    ];

    fn number(self) -> u8 {
        self as u8
    }
}

impl fmt::Display for Denial {
    fn fmt<W: fmt::Write>(&self, f: &mut fmt::Formatter<W>) -> fmt::Result {
        f.write_str(match self {
            Denial::NoRows => "no rows",
            Denial::Overlong => "overlong",
            Denial::StrangeRows => "strange rows",
            Denial::ShortList => "short list",
            Denial::OffGrid => "off the grid",
            Denial::Full => "full",
            Denial::BadGrid => "bad grid",
            Denial::TooMany => "too many",
            Denial::WrongLength => "wrong length",
            Denial::Torn => "torn",
            Denial::StrangeBlock => "strange block",
            Denial::OtherGrid => "other grid",
            Denial::BadRecord => "bad record",
            Denial::NoSuchBlock => "no such block",
        })
    }
}
