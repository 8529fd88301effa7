// How the second archive judges a trial, with the product's number for each verdict and what the account calls it.
use crate::numbered::Numbered;
use std::fmt;

#[derive(Clone, Copy)]
pub(crate) enum Verdict {
    PassedOver = 0,
    Entered = 1,
    Displaced = 2,
    Replaced = 3,
}

impl Numbered for Verdict {
    const NOUN: &'static str = "verdict";

    const ALL: &'static [Verdict] = &[
        Verdict::PassedOver,
        Verdict::Entered,
        Verdict::Displaced,
        Verdict::Replaced,
    ];

    fn number(self) -> u8 {
        self as u8
    }
}

impl fmt::Display for Verdict {
    fn fmt<W: fmt::Write>(&self, f: &mut fmt::Formatter<W>) -> fmt::Result {
        f.write_str(match self {
            Verdict::PassedOver => "passed over",
            Verdict::Entered => "entered",
            Verdict::Displaced => "displaced",
            Verdict::Replaced => "replaced",
        })
    }
}
