// The questions of a grid, over the rules of its objectives. Six places are asked, and past the last objective
// a place has no rule: only zero may stand there, and it makes no difference. The rules and the two points stand apart in the parameters,
// as a space is asked: the points are what is asked about, and a pair of them is nothing of its own.
ghost use Rattle.std.specs.Prelude.{◌≡◌, ℕ, ◌≤◌, Bool, map, length, MatchOption};
ghost use Rattle.std.specs.List.{range_with_len};
ghost use Rattle.space.specs.Boxes.{boxes_on};
ghost use Rattle.grid.specs.Space.{admits_at, all_below, box_at, covers_at, figure_at, grid_meaning, line_at, no_worse_at, unused};

use crate::axis::Axis;
use crate::figure::{Figure, zero};

// The figure at place i; zero where the point has none.
pub(crate) fn figure_at<F: Figure>(p: &[F], i: usize) -> F
    ensures { result ≡ figure_at F.Figure.bits p.now i }
{
    p.get(i).copied().unwrap_or(zero())
}

// The rule of place i; none past the last objective.
pub(crate) fn axis_at<A: Axis>(axes: &[A], i: usize) -> Option<&A>
    ensures { MatchOption result (line_at A.Figure.Figure.bits (map A.Axis.line axes.now) i ≡ unused A.Figure.Figure.bits) (λ a. line_at A.Figure.Figure.bits (map A.Axis.line axes.now) i ≡ A.Axis.line a.now) }
{
    axes.get(i)
}

// Whether p's figure may stand at place i.
fn admits_at<A: Axis>(axes: &[A], p: &[A::Figure], i: usize) -> bool
    ensures { result ≡ admits_at A.Figure.Figure.bits (map A.Axis.line axes.now) p.now i }
{
    let v = figure_at(p, i);
    axis_at(axes, i).map_or(v.is_zero(), |axis| axis.admits(v))
}

// Whether p's figure is no worse than q's at place i. This question and that of covering are two functions: one for both takes an
// enum of the two or a closure, and its contract then says again, over any relation, what each of these says in a line.
fn no_worse_at<A: Axis>(axes: &[A], p: &[A::Figure], q: &[A::Figure], i: usize) -> bool
    ensures { result ≡ no_worse_at A.Figure.Figure.bits (map A.Axis.line axes.now) p.now q.now i }
{
    axis_at(axes, i).is_none_or(|axis| axis.no_worse(figure_at(p, i), figure_at(q, i)))
}

// Whether p's figure covers q's at place i.
fn covers_at<A: Axis>(axes: &[A], p: &[A::Figure], q: &[A::Figure], i: usize) -> bool
    ensures { result ≡ covers_at A.Figure.Figure.bits (map A.Axis.line axes.now) p.now q.now i }
{
    axis_at(axes, i).is_none_or(|axis| axis.covers(figure_at(p, i), figure_at(q, i)))
}

// Whether the test holds at each of the first n places.
fn all_below<T: Fn(usize) -> bool>(n: usize, test: T) -> bool
    requires { T.IsAlwaysCallable test }
    ensures { (f : ℕ → Bool) → ((i : ℕ) (b : Bool) → T.post test i b → b ≡ f i) → result ≡ all_below f n }
{
    (0..n).all(|i| test(i))
}

// Whether the point is on the grid of these rules.
pub fn admits<A: Axis>(axes: &[A], p: &[A::Figure]) -> bool
    ensures { result ≡ (grid_meaning A.Figure.Figure.bits (map A.Axis.line axes.now)).admits p.now }
{
    all_below(6, |i| admits_at(axes, p, i))
}

// Whether p is at least as good as q in every objective.
pub fn no_worse<A: Axis>(axes: &[A], p: &[A::Figure], q: &[A::Figure]) -> bool
    ensures { result ≡ (grid_meaning A.Figure.Figure.bits (map A.Axis.line axes.now)).no_worse p.now q.now }
{
    all_below(6, |i| no_worse_at(axes, p, q, i))
}

// How many boxes objective i has.
pub fn extent<A: Axis>(axes: &[A], i: usize) -> u32
    ensures { result ≡ (grid_meaning A.Figure.Figure.bits (map A.Axis.line axes.now)).extent i }
{
    axis_at(axes, i).map_or(1, |axis| axis.extent())
}

// Which box of objective i holds the point; 0 off the grid.
pub fn box_number<A: Axis>(axes: &[A], i: usize, p: &[A::Figure]) -> u32
    ensures { result ≡ (grid_meaning A.Figure.Figure.bits (map A.Axis.line axes.now)).box i p.now }
{
    if !admits(axes, p) {
        return 0;
    }
    axis_at(axes, i).map_or(0, |axis| axis.box_number(figure_at(p, i)))
}

// The boxes of a point's figures at all six places: asked of each rule, and 0 past the last objective.
fn numbers<A: Axis>(axes: &[A], p: &[A::Figure]) -> [u32; 6]
    requires { length axes.now ≤ 6 }
    ensures { result ≡ map (box_at A.Figure.Figure.bits (map A.Axis.line axes.now) p.now) (range_with_len 0 6) }
{
    let mut numbers = [0; 6];
    // by place: of what is written through a zipped `iter_mut` a proof knows nothing
    for (i, axis) in axes.iter().enumerate() {
        numbers[i] = axis.box_number(figure_at(p, i));
    }
    numbers
}

// The point's box numbers at all six places, if it is on the grid, which is asked once.
pub(crate) fn boxes<A: Axis>(axes: &[A], p: &[A::Figure]) -> Option<[u32; 6]>
    requires { length axes.now ≤ 6 }
    ensures { result ≡ boxes_on (grid_meaning A.Figure.Figure.bits (map A.Axis.line axes.now)) p.now }
{
    if admits(axes, p) {
        Some(numbers(axes, p))
    } else {
        None
    }
}

// Whether p is within the tolerance of q, or better, in every objective.
pub fn covers<A: Axis>(axes: &[A], p: &[A::Figure], q: &[A::Figure]) -> bool
    ensures { result ≡ (grid_meaning A.Figure.Figure.bits (map A.Axis.line axes.now)).covers p.now q.now }
{
    all_below(6, |i| covers_at(axes, p, q, i))
}
