// Numbers by chance, the same from the same seed.

// How the points of a history lie: anywhere, or mostly along a front, so that many stand together.
#[derive(Clone, Copy, PartialEq, Eq)]
pub(crate) enum Spread {
    Anywhere,
    Front,
}

// Where the row of numbers is, never zero; and how the points lie that are made by it.
#[derive(Clone, Copy)]
pub(crate) struct Chance {
    state: u64,
    pub spread: Spread,
}

impl Chance {
    // The row of numbers of one history.
    pub(crate) fn new(seed: u64, number: u64) -> Chance {
        let mixed = seed
            .wrapping_mul(0x9e37_79b9_7f4a_7c15)
            .wrapping_add(number.wrapping_mul(0xd1b5_4a32_d192_ed03));
        let mut chance = Chance {
            state: mixed | 1,
            spread: Spread::Anywhere,
        };
        for _ in 0..8 {
            chance.next();
        }
        chance
    }

    // The next number.
    fn next(&mut self) -> u64 {
        self.state ^= self.state.wrapping_shl(13);
        self.state ^= self.state.wrapping_shr(7);
        self.state ^= self.state.wrapping_shl(17);
        self.state.wrapping_mul(0x2545_f491_4f6c_dd1d)
    }

    // A number below this one; zero if there is none.
    pub(crate) fn below(&mut self, most: u64) -> u64 {
        self.next().wrapping_shr(11).checked_rem(most).unwrap_or(0)
    }

    // Whether something happens that does once in so many times.
    pub(crate) fn once_in(&mut self, times: u64) -> bool {
        self.below(times) == 0
    }

    // A number below this one, as a size.
    pub(crate) fn size(&mut self, most: usize) -> usize {
        usize::try_from(self.below(u64::try_from(most).unwrap_or(0))).unwrap_or(0)
    }

    // A whole number of these or between them.
    pub(crate) fn between(&mut self, low: i64, high: i64) -> i64 {
        let span = u64::try_from(high.saturating_sub(low)).unwrap_or(0);
        low.saturating_add(i64::try_from(self.below(span.saturating_add(1))).unwrap_or(0))
    }

    // A byte.
    pub(crate) fn byte(&mut self) -> u8 {
        u8::try_from(self.below(256)).unwrap_or(0)
    }

    // Whether the points are to lie along a front.
    pub(crate) fn is_front(&self) -> bool {
        self.spread == Spread::Front
    }
}
