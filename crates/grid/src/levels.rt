// One objective of a point's box, by levels. A figure's level is a signed number: its rank, or where smaller figures have the higher boxes
// the rank turned round. So the higher level never has the lower box, and on the grid one comparison tells on which side of a box a figure
// lies.
ghost use Rattle.std.specs.Prelude.{◌≡◌, ℕ, ◌<◌, ◌≤◌, true, List, map, length, slice_index};
ghost use Rattle.grid.specs.Levels.{LevelsOf, level, levels_at, turned};
ghost use Rattle.grid.specs.Line.{Line as LineOf};
ghost use Rattle.grid.specs.Ranges.{between, box_at_least, box_at_most};
ghost use Rattle.grid.specs.Space.{box_at, grid_meaning, line_at};

use crate::axis::Axis;
use crate::figure::Figure;

#[derive(Clone, Copy)]
pub struct Levels {
    // whether smaller figures have the higher boxes
    pub turned: bool,
    // the levels on the grid, from the one to the other
    pub lowest: i32,
    pub highest: i32,
    // the lowest level of the boxes from this one on, and the highest of those up to it
    pub bottom: i32,
    pub top: i32,
}

// A rank turned round: of two ranks the greater one becomes the less.
fn turn(rank: i32) -> i32
    ensures { result ≡ turned rank }
{
    -1 - rank
}

impl Levels {
    // The levels of a box that holds a figure, by the range of the figures of the boxes up to it and that of those of the boxes from it on.
    pub(crate) fn of<F: Figure>(most: (F, F), least: (F, F)) -> Levels
        ensures { (line : LineOf F) (n : ℕ) → ((v : F) → between F.Figure.bits most v ≡ box_at_most line n v) → ((v : F) → between F.Figure.bits least v ≡ box_at_least line n v) → (v : F) → line.admits v ≡ true → line.box v ≡ n → LevelsOf F.Figure.bits line n result }
    {
        let (first, last) = (most.0.rank(), most.1.rank());
        let (from, to) = (least.0.rank(), least.1.rank());
        if first <= from && last <= to {
            Levels {
                turned: false,
                lowest: first,
                highest: to,
                bottom: from,
                top: last,
            }
        } else {
            Levels {
                turned: true,
                lowest: turn(last),
                highest: turn(from),
                bottom: turn(to),
                top: turn(first),
            }
        }
    }

    // No level of any figure: what stands past the last objective.
    fn none() -> Levels {
        Levels {
            turned: false,
            lowest: 0,
            highest: 0,
            bottom: 0,
            top: 0,
        }
    }

    // The level of a figure.
    #[inline(always)]
    pub(crate) fn level<F: Figure>(&self, v: F) -> i32
        ensures { result ≡ level F.Figure.bits self.now v }
    {
        let rank = v.rank();
        if self.turned { turn(rank) } else { rank }
    }
}

// The levels of a point's box in each of the first N objectives, by its numbers.
pub(crate) fn levels_of<A: Axis, const N: usize>(axes: &[A], numbers: &[u32; 6]) -> [Levels; 6]
    requires { (N ≤ length axes.now) × (N ≤ 6) }
    ensures { (p : List A.Figure) → (grid_meaning A.Figure.Figure.bits (map A.Axis.line axes.now)).admits p ≡ true → ((i : ℕ) → i < 6 → slice_index numbers.now i ≡ box_at A.Figure.Figure.bits (map A.Axis.line axes.now) p i) → (i : ℕ) → i < N → LevelsOf A.Figure.Figure.bits (line_at A.Figure.Figure.bits (map A.Axis.line axes.now) i) (slice_index numbers.now i) (levels_at result i) }
{
    let mut levels = [Levels::none(); 6];
    // by place: of what is written through a zipped `iter_mut` a proof knows nothing
    for i in 0..N {
        levels[i] = axes[i].levels(numbers[i]);
    }
    levels
}
