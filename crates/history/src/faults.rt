// What a feed tells of denials: the fault that the whole block is refused for, or one trial of it that was denied.
ghost use Rattle.std.specs.Prelude.{◌≡◌};
ghost use Rattle.history.specs.Reports.{denied_report, feed_report, from_log};

use crate::denials::Denial;
use log_block::{BlockFault, Fault, Layer, RecordFault, Report};

// What a feed is refused for. Faults of the block and of its records are carried whole.
#[derive(Clone, Copy, PartialEq, Eq, Debug)]
pub enum FeedFault {
    // another number of rows is lent than at the making
    StrangeRows,
    Block(BlockFault),
    Record(RecordFault),
}

// A trial of a block that was denied; each holds the place of the first byte of its record.
#[derive(Clone, Copy, PartialEq, Eq, Debug)]
pub enum DeniedTrial {
    // its point is not admitted
    OffGrid(usize),
    // it would enter, and every row holds a member
    Full(usize),
}

impl FeedFault {
    // The fault by its number, the layer that found it, and its place.
    pub fn report(&self) -> Report
        ensures { result ≡ feed_report self.now }
    {
        match self {
            FeedFault::StrangeRows => Report {
                number: Denial::StrangeRows.number(),
                layer: Layer::Archive as u8,
                place: 0,
            },
            FeedFault::Block(fault) => fault.report(),
            FeedFault::Record(fault) => fault.report(),
        }
    }
}

impl DeniedTrial {
    // The denial by its number, the layer that found it, and its place.
    pub fn report(&self) -> Report
        ensures { result ≡ denied_report self.now }
    {
        let (denial, place) = match self {
            DeniedTrial::OffGrid(place) => (Denial::OffGrid, *place),
            DeniedTrial::Full(place) => (Denial::Full, *place),
        };
        Report {
            number: denial.number(),
            layer: Layer::Archive as u8,
            place,
        }
    }
}

impl From<Fault> for FeedFault {
    ghost from_gives = { λ f r. r ≡ from_log f };

    fn from(fault: Fault) -> FeedFault {
        match fault {
            Fault::Block(fault) => FeedFault::Block(fault),
            Fault::Record(fault) => FeedFault::Record(fault),
        }
    }
}
