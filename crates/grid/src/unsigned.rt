// Unsigned figures, which are their own bits.
ghost use Rattle.grid.specs.Bits.{unsigned_bits};
ghost use Rattle.std.proofs.Common.{rules};

use crate::figure::Figure;

impl Figure for u32 {
    ghost bits = { unsigned_bits };

    ghost exact = { Prim.search rules };

    fn to_bits(self) -> u32 {
        self
    }

    fn from_bits(number: u32) -> u32 {
        number
    }

    fn is_zero(self) -> bool {
        self == 0
    }

    fn rank(self) -> i32 {
        (i64::from(self) - 2_147_483_648) as i32
    }

    // None where the greatest is no signed number, or the range is empty: no grid of the house comes to either.
    fn span(from: u32, to: u32) -> Option<(i32, i32)> {
        if from <= to && to <= i32::MAX as u32 {
            Some((from as i32, to as i32))
        } else {
            None
        }
    }
}
