// Where the two archives are apart.
use crate::told::Told;
use std::alloc::{AllocError, AllocFailed};
use std::error::Error;
use std::fmt;

// When in a history something was found: at a call, or in a round of arbitrary rows.
#[derive(Clone, Copy, Debug)]
pub(crate) enum Moment {
    Call(usize),
    Round(usize),
}

impl fmt::Display for Moment {
    fn fmt<W: fmt::Write>(&self, f: &mut fmt::Formatter<W>) -> fmt::Result {
        match self {
            Moment::Call(call) => write!(f, "at call {call}"),
            Moment::Round(round) => write!(f, "in round {round} of arbitrary rows"),
        }
    }
}

// What differs, at which moment if at one, and what each archive told there.
#[derive(Clone, Copy, Debug)]
pub(crate) struct Apart {
    pub what: &'static str,
    pub moment: Option<Moment>,
    pub told: Option<(Told, Told)>,
}

// Why a comparison ends early.
#[derive(Clone, Copy, Debug)]
pub(crate) enum Stop {
    Apart(Apart),
    Memory,
}

impl Stop {
    // The archives differ in this.
    pub(crate) fn apart(what: &'static str) -> Stop {
        Stop::Apart(Apart {
            what,
            moment: None,
            told: None,
        })
    }

    // The same, found at this moment.
    pub(crate) fn at(self, moment: Moment) -> Stop {
        match self {
            Stop::Apart(apart) => Stop::Apart(Apart {
                moment: Some(moment),
                ..apart
            }),
            Stop::Memory => Stop::Memory,
        }
    }
}

impl fmt::Display for Stop {
    fn fmt<W: fmt::Write>(&self, f: &mut fmt::Formatter<W>) -> fmt::Result {
        f.write_str(match self {
            Stop::Apart(_) => "the two archives disagree",
            Stop::Memory => "there is not enough memory",
        })
    }
}

impl Error for Stop {}

impl From<AllocError> for Stop {
    fn from(_failed: AllocError) -> Stop {
        Stop::Memory
    }
}

impl<T: Drop> From<AllocFailed<T>> for Stop {
    fn from(_failed: AllocFailed<T>) -> Stop {
        Stop::Memory
    }
}

// Goes on where this holds: a condition, as an assertion has one.
pub(crate) fn same(holds: bool, what: &'static str) -> Result<(), Stop> {
    if holds {
        Ok(())
    } else {
        Err(Stop::apart(what))
    }
}

// Goes on where both archives told the same.
pub(crate) fn same_told(first: Told, second: Told, what: &'static str) -> Result<(), Stop> {
    if first == second {
        return Ok(());
    }
    Err(Stop::Apart(Apart {
        what,
        moment: None,
        told: Some((first, second)),
    }))
}
