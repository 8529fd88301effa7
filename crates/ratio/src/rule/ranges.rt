// The figures of the boxes up to a number, and from a number on.
ghost use Rattle.std.specs.Prelude.{◌≡◌, ℕ};
ghost use Rattle.grid.specs.Bits.{unsigned_bits};
ghost use Rattle.grid.specs.Ranges.{between, box_at_least, box_at_most};
ghost use Rattle.ratio.specs.Rule.{ratio_line};

use crate::rule::RatioAxis;

impl RatioAxis {
    // The figures below the next box, where there is one.
    pub(super) fn figures_up_to(&self, n: u32) -> (u32, u32)
        ensures { (v : ℕ) → between unsigned_bits result v ≡ box_at_most (ratio_line self.now.scale) n v }
    {
        let next = n as usize + 1;
        if next < self.extent as usize {
            (1, self.edges[next] - 1)
        } else {
            (1, self.scale.ceiling)
        }
    }

    // The figures from the edge of the box on, if there is such a box.
    pub(super) fn figures_from(&self, n: u32) -> (u32, u32)
        ensures { (v : ℕ) → between unsigned_bits result v ≡ box_at_least (ratio_line self.now.scale) n v }
    {
        if n < self.extent {
            (self.edges[n as usize], self.scale.ceiling)
        } else {
            (1, 0)
        }
    }
}
