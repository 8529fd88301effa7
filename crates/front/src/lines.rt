// The line that is printed of one block.
ghost use Rattle.std.specs.Prelude.{◌≡◌};
ghost use Rattle.front.specs.Lines.{line_of};

use history::{Fed, FeedFault};
use std::fmt;

// What a line says: how the block's trials fared, or the number of the fault that it is refused for. A type of its own and no
// `Result` of a feed's answer: so the contract says which of the answer's counts the line tells.
#[derive(Clone, Copy)]
pub(crate) enum BlockLine {
    Fed {
        entered: usize,
        passed: usize,
        denied: usize,
    },
    Refused {
        number: u8,
    },
}

impl fmt::Display for BlockLine {
    fn fmt<W: fmt::Write>(&self, f: &mut fmt::Formatter<W>) -> fmt::Result {
        match self {
            BlockLine::Fed {
                entered,
                passed,
                denied,
            } => write!(f, "entered {entered} passed {passed} denied {denied}"),
            BlockLine::Refused { number } => write!(f, "refused {number}"),
        }
    }
}

// The line of a feed's answer.
pub(crate) fn line_of(told: &Result<Fed, FeedFault>) -> BlockLine
    ensures { result ≡ line_of told.now }
{
    match told {
        Ok(fed) => BlockLine::Fed {
            entered: fed.entered,
            passed: fed.passed,
            denied: fed.denied,
        },
        Err(fault) => BlockLine::Refused {
            number: fault.report().number,
        },
    }
}
