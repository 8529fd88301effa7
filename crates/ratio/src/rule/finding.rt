// Looking a figure up in the table of edges. That is done for each trial, and the processor would guess a branch on the figure wrong half
// the time. So there is none: what a comparison says is a number that is added. The table is narrowed by quarters and not by halves, since
// the compiler turns a single comparison that is multiplied back into a branch.
ghost use Rattle.std.specs.Prelude.{◌≡◌, ◌+◌, ◌<◌, ◌≤◌, cond, nat_le};
ghost use Rattle.ratio.specs.Edges.{box_of};
ghost use Rattle.ratio.specs.Rule.{extent_of};

use crate::rule::RatioAxis;

// So few edges are all compared, which the processor does several at a time.
const FEW: usize = 32;

impl RatioAxis {
    // 1 where box k begins at the figure or below, and else 0.
    fn begins(&self, k: usize, v: u32) -> u32
        requires { (k < extent_of self.now.scale) × (1 ≤ v) }
        ensures { result ≡ cond (nat_le k (box_of self.now.scale.per_cent v)) 1 0 }
    {
        u32::from(self.edges[k] <= v)
    }

    // A few boxes among which is the figure's: the first of them, and how many they are.
    fn narrow(&self, v: u32) -> (usize, usize)
        requires { (1 ≤ v) × (v ≤ self.now.scale.ceiling) }
        ensures { (result.0 ≤ box_of self.now.scale.per_cent v) × (box_of self.now.scale.per_cent v < result.0 + result.1) × (result.0 + result.1 ≤ extent_of self.now.scale) }
    {
        let mut first = 0;
        let mut count = self.extent as usize;
        while count > FEW {
            let quarter = count / 4;
            let begun = self.begins(first + quarter, v)
                + self.begins(first + 2 * quarter, v)
                + self.begins(first + 3 * quarter, v);
            first += quarter * begun as usize;
            count -= 3 * quarter;
        }
        (first, count)
    }

    // How many of these boxes begin at the figure or below, where its own is among them.
    fn count_begun(&self, first: usize, count: usize, v: u32) -> u32
        requires { (1 ≤ v) × (first ≤ box_of self.now.scale.per_cent v) × (box_of self.now.scale.per_cent v < first + count) × (first + count ≤ extent_of self.now.scale) }
        ensures { first + result ≡ box_of self.now.scale.per_cent v + 1 }
    {
        let mut begun = 0;
        for k in first..first + count {
            begun += self.begins(k, v);
        }
        begun
    }

    // The box of a figure on the grid: the last of those that begin at it or below.
    pub(super) fn find_box(&self, v: u32) -> u32
        requires { (1 ≤ v) × (v ≤ self.now.scale.ceiling) }
        ensures { result ≡ box_of self.now.scale.per_cent v }
    {
        let (first, count) = self.narrow(v);
        first as u32 + self.count_begun(first, count, v) - 1
    }
}
