// The numbers that a ratio rule is made from.
ghost use Rattle.std.specs.Prelude.{◌≡◌};
ghost use Rattle.ratio.specs.Rule.{in_range};

// Boxes that grow by a per cent, for figures of 1 up to a ceiling.
#[derive(Clone, Copy)]
pub struct Scale {
    pub per_cent: u32,
    pub ceiling: u32,
}

impl Scale {
    // Whether the per cent is 1 to 100 and the ceiling 1 to 1,000,000.
    pub(crate) fn is_in_range(&self) -> bool
        ensures { result ≡ in_range self.now }
    {
        (1..=100).contains(&self.per_cent) && (1..=1_000_000).contains(&self.ceiling)
    }
}
