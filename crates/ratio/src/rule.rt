// The rule itself: its edges are a table, made once.
ghost use Rattle.std.specs.Prelude.{◌≡◌, ℕ, ◌<◌, ◌≤◌, true, slice_index};
ghost use Rattle.ratio.specs.Edges.{edge, Holds};
ghost use Rattle.ratio.specs.Rule.{extent_of, ratio_sound, ratio_line};
ghost use Rattle.ratio.specs.Laws.{ratio_lawful};

mod finding;
mod ranges;

use crate::edges::{MOST, fill_edges};
use crate::scaling::Scale;
use grid::{Axis, Grid};

// A scale with the edges of its boxes: as many as the extent stand in the table, and past them nothing is said.
// The scale is sound, so the extent is at most the table's length. The table is an array with its count beside it, and no `Vec`:
// a logger has no heap, and a rule is a plain value that can be copied.
#[derive(Clone, Copy)]
pub struct RatioAxis {
    scale: Scale,
    extent: u32,
    edges: [u32; MOST],
    ghost sound: { ratio_sound scale ≡ true },
    ghost counted: { extent ≡ extent_of scale },
    ghost filled: { (k : ℕ) → k < extent → slice_index edges k ≡ edge scale.per_cent k },
}

// A space of one to six objectives, each divided by a ratio rule of its own.
pub type RatioSpace = Grid<RatioAxis>;

impl Axis for RatioAxis {
    type Figure = u32;

    type Scale = Scale;

    ghost line = { λ a. ratio_line a.scale };

    ghost sound = { ratio_sound };

    ghost rule = { ratio_line };

    ghost lawful = { λ a. ratio_lawful a.scale a.sound };

    fn new(scale: Scale) -> Option<RatioAxis> {
        if !scale.is_in_range() {
            return None;
        }
        let mut edges = [0; MOST];
        let extent = fill_edges(scale, &mut edges)?;
        Some(RatioAxis {
            scale,
            extent,
            edges,
        })
    }

    fn admits(&self, v: u32) -> bool {
        (1..=self.scale.ceiling).contains(&v)
    }

    fn no_worse(&self, v: u32, w: u32) -> bool {
        v >= w
    }

    fn extent(&self) -> u32 {
        self.extent
    }

    fn box_number(&self, v: u32) -> u32
        ensures value { result ≡ (ratio_line self.now.scale).box v }
        ensures enclosed { 1 ≤ v → v ≤ self.now.scale.ceiling → Holds self.now.scale.per_cent result v }
    {
        if self.admits(v) { self.find_box(v) } else { 0 }
    }

    fn covers(&self, v: u32, w: u32) -> bool {
        (100 + u64::from(self.scale.per_cent)) * u64::from(v) >= 100 * u64::from(w)
    }

    fn at_most(&self, n: u32) -> (u32, u32) {
        self.figures_up_to(n)
    }

    fn at_least(&self, n: u32) -> (u32, u32) {
        self.figures_from(n)
    }
}
