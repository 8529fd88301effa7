// What the calls of an archive answer.
ghost use Rattle.std.specs.Prelude.{◌≡◌};
ghost use Rattle.history.specs.Feeding.{capped_fed, sum_fed};
ghost use Rattle.history.specs.Reports.{first_report};

use crate::denials::Denial;
use crate::faults::{DeniedTrial, FeedFault};
use crate::verdicts::Verdict;
use log_block::Report;

// How an offered trial fared.
#[derive(Clone, Copy, PartialEq, Eq, Debug)]
pub struct Offered {
    pub verdict: Verdict,
    // how many members went
    pub displaced: usize,
}

// What the trials of a block came to.
#[derive(Clone, Copy, PartialEq, Eq, Debug, Default)]
pub struct Fed {
    // how many trials entered, with any verdict but passed over
    pub entered: usize,
    // how many were passed over
    pub passed: usize,
    // how many were denied
    pub denied: usize,
    // how many members went
    pub displaced: usize,
    // the first trial that was denied
    pub first: Option<DeniedTrial>,
}

impl Fed {
    // What these trials and then others came to. A number that would pass the greatest of its type stays at it: no block has
    // so many trials, but blocks may be many.
    pub fn saturating_add(self, later: Fed) -> Fed
        ensures { result ≡ capped_fed (sum_fed self later) }
    {
        Fed {
            entered: self.entered.saturating_add(later.entered),
            passed: self.passed.saturating_add(later.passed),
            denied: self.denied.saturating_add(later.denied),
            displaced: self.displaced.saturating_add(later.displaced),
            first: self.first.or(later.first),
        }
    }

    // The first denied trial by its number, its layer and its place; all zeros if none was denied.
    pub fn first_report(&self) -> Report
        ensures { result ≡ first_report self.now.first }
    {
        self.first.map(|denied| denied.report()).unwrap_or_default()
    }
}

// The full answer of a call.
#[derive(Clone, Copy, PartialEq, Eq, Debug)]
pub enum Answer {
    // an offer
    Offered(Offered),
    // a feed
    Fed(Fed),
    // an audit: the first two rows that may not be members together
    Audited(Option<(usize, usize)>),
    // a list: how many tags were written
    Listed(usize),
    // a save: how many trials were written
    Saved(usize),
    // any call but a feed: why it is denied
    Denied(Denial),
    // a feed: what it is refused for
    Refused(FeedFault),
}
