// A figure: a number of 32 bits, signed or not.
ghost use Rattle.std.specs.Prelude.{◌≡◌, ⊤, true, MatchOption};
ghost use Rattle.grid.specs.Bits.{Bits, Exact};
ghost use Rattle.grid.specs.Ranges.{NumbersPass, between};

pub trait Figure: Copy {
    ghost bits: { Bits Self };

    // The number that the figure's bits say.
    fn to_bits(self) -> u32
        ensures value { result ≡ bits.to self }
        ensures holds { bits.holds self ≡ true };

    // The figure that the number's bits are.
    fn from_bits(number: u32) -> Self
        ensures { result ≡ bits.from number };

    fn is_zero(self) -> bool
        ensures { result ≡ bits.is_zero self };

    // The figure's rank: a signed number, the greater the greater the figure is.
    fn rank(self) -> i32
        ensures { result ≡ bits.rank self };

    // The figures from the one to the other as a range of signed numbers, which are those that their bits say: none where it is not told.
    fn span(from: Self, to: Self) -> Option<(i32, i32)>
        ensures { MatchOption result ⊤ (NumbersPass bits (between bits (from, to))) };

    ghost exact: { Exact bits };
}

// The figure zero. It is turned to bits only for what that promises: 32 bits hold it.
pub(crate) fn zero<F: Figure>() -> F
    ensures value { result ≡ F.Figure.bits.zero }
    ensures held { F.Figure.bits.holds F.Figure.bits.zero ≡ true }
{
    let zero = F::from_bits(0);
    let _ = zero.to_bits();
    zero
}
