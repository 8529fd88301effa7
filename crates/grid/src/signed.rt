// Signed figures, in two's complement.
ghost use Rattle.grid.specs.Bits.{signed_bits};
ghost use Rattle.std.proofs.Common.{rules};

use crate::figure::Figure;

impl Figure for i32 {
    ghost bits = { signed_bits };

    ghost exact = { Prim.search rules };

    fn to_bits(self) -> u32 {
        self.cast_unsigned()
    }

    fn from_bits(number: u32) -> i32 {
        number.cast_signed()
    }

    fn is_zero(self) -> bool {
        self == 0
    }

    fn rank(self) -> i32 {
        self // its own rank
    }

    fn span(from: i32, to: i32) -> Option<(i32, i32)> {
        Some((from, to))
    }
}
