// A space of one to six objectives, each divided by a rule of its own.
ghost use Rattle.std.specs.Prelude.{◌≡◌, ◌≤◌, ⊤, length};

mod bytes;
mod make;
mod questions;

use std::alloc::AllocError;

// The rules in front are in use, one an objective; past them stand rules that are never asked. They are an array with their
// count beside it, and no `Vec`: a logger has no heap, and a space is a plain value that can be copied.
pub struct Grid<A> {
    axes: [A; 6],
    objectives: usize,
    ghost few: { (1 ≤ objectives) × (objectives ≤ 6) × (length axes ≡ 6) },
}

// By hand: no derive of `Clone` or `Copy` takes a type that has both a parameter and a ghost field.
impl<A: Copy> Copy for Grid<A> {}

impl<A: Copy> Clone for Grid<A> {
    ghost is_clone = { λ s r. r ≡ s };

    ghost is_infallible = { λ _. ⊤ };

    fn clone(&self) -> Result<Grid<A>, AllocError> {
        Ok(*self)
    }
}
