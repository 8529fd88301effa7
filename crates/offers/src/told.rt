// What came of the offers, as it is printed.
use crate::chance::Point;
use history::{Denial, Offered, Verdict};
use space::Trial;
use std::fmt;

// How many offers had each verdict, and how many were denied, for either reason that there is for it here.
#[derive(Clone, Copy, PartialEq, Eq, Debug, Default)]
pub(crate) struct Verdicts {
    passed_over: u64,
    entered: u64,
    displaced: u64,
    replaced: u64,
    off_grid: u64,
    full: u64,
}

impl Verdicts {
    // Counts the answer to one offer, or hands back a denial that is not counted: none comes, since the rows and the list are the archive's
    // own. It is no error with a text yet: to make room for one takes as long as a look at some members.
    pub(crate) fn count(&mut self, answer: Result<Offered, Denial>) -> Result<(), Denial> {
        let counted = match answer {
            Ok(offered) => self.of_verdict(offered.verdict),
            Err(Denial::OffGrid) => &mut self.off_grid,
            Err(Denial::Full) => &mut self.full,
            Err(denial) => return Err(denial),
        };
        *counted = counted.saturating_add(1);
        Ok(())
    }

    // The count of one verdict.
    fn of_verdict(&mut self, verdict: Verdict) -> &mut u64 {
        match verdict {
            Verdict::PassedOver => &mut self.passed_over,
            Verdict::Entered => &mut self.entered,
            Verdict::Displaced => &mut self.displaced,
            Verdict::Replaced => &mut self.replaced,
        }
    }
}

impl fmt::Display for Verdicts {
    fn fmt<W: fmt::Write>(&self, f: &mut fmt::Formatter<W>) -> fmt::Result {
        write!(
            f,
            "[{}, {}, {}, {}, {}, {}]",
            self.passed_over, self.entered, self.displaced, self.replaced, self.off_grid, self.full
        )
    }
}

// The verdicts, and the members at the end: how many they are, and a number that their tags make in row order.
#[derive(Clone, Copy, PartialEq, Eq, Debug)]
pub(crate) struct Told {
    pub verdicts: Verdicts,
    pub members: usize,
    pub sum: u32,
}

impl fmt::Display for Told {
    fn fmt<W: fmt::Write>(&self, f: &mut fmt::Formatter<W>) -> fmt::Result {
        write!(
            f,
            "verdicts {} members {} sum {}",
            self.verdicts, self.members, self.sum
        )
    }
}

// The number that the tags make, of which each row's place is a part.
pub(crate) fn sum_of_tags(members: &[Trial<Point>]) -> u32 {
    members.iter().fold(
        0u32,
        |sum, member| sum.wrapping_mul(31).wrapping_add(member.tag),
    )
}
