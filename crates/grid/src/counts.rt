// What is counted of some trials while there are more: so no trial waits for another one, and the compiler looks at several at a time.
ghost use Rattle.std.specs.Prelude.{◌≡◌, ◌≤◌, cond};
ghost use Rattle.grid.specs.Counts.{counted, told_by};

use space::{Holders, Look};

// One if so, and zero if not.
#[inline(always)]
pub(crate) fn one_if(so: bool) -> u32
    ensures { result ≡ cond so 1 0 }
{
    u32::from(so)
}

// Whether a trial's box is not among those up to the point's box, and whether it is not among those from it on: one if so, and zero if not.
// They are numbers since they are added up: of a `bool` that a loop carries the compiler makes a byte, and a look then takes half as long
// again.
#[derive(Clone, Copy)]
pub(crate) struct Missed {
    pub(crate) most: u32,
    pub(crate) least: u32,
}

// How many boxes are not among those up to the point's box, how many not among those from it on, and how many not among both: all but those
// that are this box. The sum of the places of these is the place of the one where there is one alone. In 32 bits, which are as wide as
// figures.
#[derive(Clone, Copy, Default)]
pub(crate) struct Counts {
    most: u32,
    least: u32,
    others: u32,
    places: u32,
}

impl Counts {
    // What is counted, and one trial more, at place k.
    #[inline(always)]
    pub(crate) fn with(self, k: u32, missed: Missed) -> Counts
        ensures { result ≡ counted self k missed }
    {
        let other = missed.most | missed.least;
        Counts {
            most: self.most.wrapping_add(missed.most),
            least: self.least.wrapping_add(missed.least),
            others: self.others.wrapping_add(other),
            places: self.places.wrapping_add(if other == 0 { k } else { 0 }),
        }
    }

    // What the counts of n trials tell.
    pub(crate) fn end(self, n: u32) -> Look
        requires { self.others ≤ n }
        ensures { result ≡ told_by self n }
    {
        Look {
            below: self.most < self.others,
            holders: match n - self.others {
                0 => Holders::Nobody,
                1 => Holders::One(self.places as usize),
                _ => Holders::Several,
            },
            shut: self.least < n,
        }
    }
}
