// The spans of a point's box: in each objective the figures of the boxes up to it are a range, and so are those of the boxes from it on.
// Each range is told by what the bytes of its figures say.
ghost use Rattle.std.specs.Prelude.{◌≡◌, ◌≤◌, true, map, length};
ghost use Rattle.space.specs.Spans.{Alike, SpansOf, spans_from};
ghost use Rattle.grid.specs.Bytes.{grid_recording};
ghost use Rattle.grid.specs.Space.{grid_meaning};

use crate::axis::Axis;
use crate::compare::{admits, figure_at};
use crate::figure::Figure;
use space::Spans;

// Writes both spans of p's box at the places from `at` on, if p is on the grid and there are places for them; says whether it did. Each rule is
// asked once.
pub(crate) fn spans<A: Axis>(axes: &[A], p: &[A::Figure; 6], at: usize, out: &mut Spans) -> bool
    requires { length axes.now ≤ 6 }
    ensures told { result ≡ true → SpansOf (grid_meaning A.Figure.Figure.bits (map A.Axis.line axes.now)) (grid_recording A.Figure.Figure.bits (length axes.now)) p.now (spans_from at out.new) }
    ensures before { Alike at out.new.most out.old.most × Alike at out.new.least out.old.least }
{
    if at > 6 - axes.len() || !admits(axes, p) {
        return false;
    }
    // by place: both ends come at once, and each goes to a row of its own
    for (i, axis) in axes.iter().enumerate() {
        let n = axis.box_number(figure_at(p, i));
        let (low, high) = axis.at_most(n);
        let Some(most) = Figure::span(low, high) else {
            return false;
        };
        let (low, high) = axis.at_least(n);
        let Some(least) = Figure::span(low, high) else {
            return false;
        };
        (out.most.from[at + i], out.most.to[at + i]) = most;
        (out.least.from[at + i], out.least.to[at + i]) = least;
    }
    true
}
