// How two points and their boxes compare. The space and the points stand apart in the parameters, as a space is asked: a pair of points
// is nothing of its own.
ghost use Rattle.std.specs.Prelude.{◌≡◌, ℕ, ◌<◌, false, Decides, nat_le};
ghost use Rattle.space.specs.Boxes.{Dominates, AtLeast, SameBox, BoxDominates};
ghost use Rattle.standing.specs.Standing.{Related};

use space::Space;

// What one point may be to another: it dominates it, its box dominates the other's, or the boxes are the same.
// An enum and not a closure: contracts name the relation by it.
#[derive(Clone, Copy)]
pub(crate) enum Relation {
    Point,
    Box,
    Same,
}

// Whether p dominates q: it is no worse, and q is worse.
pub fn dominates<S: Space>(space: &S, p: &S::Point, q: &S::Point) -> bool
    ensures { Decides result (Dominates (S.Space.meaning space.now) p.now q.now) }
{
    space.no_worse(p, q) && !space.no_worse(q, p)
}

// Whether p's box is at least q's in objective i.
fn at_least_in<S: Space>(space: &S, i: usize, p: &S::Point, q: &S::Point) -> bool
    ensures { result ≡ nat_le ((S.Space.meaning space.now).box i q.now) ((S.Space.meaning space.now).box i p.now) }
{
    space.box_number(i, p) >= space.box_number(i, q)
}

// Whether p's box is at least q's in every objective; where it is not, some objective shows it.
fn at_least<S: Space>(space: &S, p: &S::Point, q: &S::Point) -> bool
    ensures test { Decides result (AtLeast (S.Space.meaning space.now) p.now q.now) }
    ensures shown { result ≡ false → (i : ℕ) × ((S.Space.meaning space.now).box i p.now < (S.Space.meaning space.now).box i q.now) }
{
    (0..space.objectives()).all(|i| at_least_in(space, i, p, q))
}

// Whether p's box dominates q's: at least as great in every objective, and greater in one.
pub fn box_dominates<S: Space>(space: &S, p: &S::Point, q: &S::Point) -> bool
    ensures { Decides result (BoxDominates (S.Space.meaning space.now) p.now q.now) }
{
    at_least(space, p, q) && !at_least(space, q, p)
}

// Whether p and q are in the same box.
pub fn same_box<S: Space>(space: &S, p: &S::Point, q: &S::Point) -> bool
    ensures { Decides result (SameBox (S.Space.meaning space.now) p.now q.now) }
{
    at_least(space, p, q) && at_least(space, q, p)
}

// Whether p is so related to q.
pub(crate) fn related<S: Space>(space: &S, relation: Relation, p: &S::Point, q: &S::Point) -> bool
    ensures { Decides result (Related relation (S.Space.meaning space.now) p.now q.now) }
{
    match relation {
        Relation::Point => dominates(space, p, q),
        Relation::Box => box_dominates(space, p, q),
        Relation::Same => same_box(space, p, q),
    }
}
