// What the calls of either archive tell. Verdicts, denials and faults are told by the product's own numbers and not by enums:
// the two archives share no type, and the numbers are what they are compared by.
use crate::blocks::Fault;
use crate::denial::Denial;
use crate::numbered::Numbered;
use crate::verdict::Verdict;

// What the trials of a block came to. The first archive has such a type too, and its own sum: the two share none.
#[derive(Clone, Copy, PartialEq, Eq, Debug, Default)]
pub(crate) struct Fed {
    pub entered: usize,
    pub passed: usize,
    pub denied: usize,
    pub displaced: usize,
    // what the first trial was denied for that was denied
    pub first: Option<Fault>,
}

impl Fed {
    // What one trial came to that was judged.
    pub(crate) fn of_judged(verdict: Verdict, displaced: usize) -> Fed {
        match verdict {
            Verdict::PassedOver => Fed {
                passed: 1,
                ..Fed::default()
            },
            _ => Fed {
                entered: 1,
                displaced,
                ..Fed::default()
            },
        }
    }

    // What one trial came to that was denied.
    pub(crate) fn of_denied(fault: Fault) -> Fed {
        Fed {
            denied: 1,
            first: Some(fault),
            ..Fed::default()
        }
    }

    // What these trials and then others came to.
    pub(crate) fn saturating_add(self, later: Fed) -> Fed {
        Fed {
            entered: self.entered.saturating_add(later.entered),
            passed: self.passed.saturating_add(later.passed),
            denied: self.denied.saturating_add(later.denied),
            displaced: self.displaced.saturating_add(later.displaced),
            first: self.first.or(later.first),
        }
    }
}

// What a call answers.
#[derive(Clone, Copy, PartialEq, Eq, Debug)]
pub(crate) enum Told {
    Judged { verdict: u8, displaced: usize },
    Fed(Fed),
    Audited(Option<(usize, usize)>),
    Listed(usize),
    Saved(usize),
    Denied(u8),
    Refused(Fault),
}

impl From<Denial> for Told {
    fn from(denial: Denial) -> Told {
        Told::Denied(denial.number())
    }
}

impl From<Fault> for Told {
    fn from(fault: Fault) -> Told {
        Told::Refused(fault)
    }
}

// Why nothing is restored: the number of the making's denial, or the first block at fault and its fault.
#[derive(Clone, Copy, PartialEq, Eq, Debug)]
pub(crate) enum NotRestored {
    Denied(u8),
    Block(usize, Fault),
}

impl NotRestored {
    // The number of the denial.
    pub(crate) fn number(&self) -> u8 {
        match self {
            NotRestored::Denied(number) => *number,
            NotRestored::Block(_, fault) => fault.number,
        }
    }
}
