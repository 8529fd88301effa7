// The spaces tried from outside: a space of this crate's own, which is no grid and has no bytes, shows that what is
// written for any space serves any space; and the house spaces are held to their worked figures and refusals.
#![tactic(auto)]

mod triangle;

pub use triangle::{Share, Triangle};

#[cfg(test)]
mod any_space;
#[cfg(test)]
mod points;
#[cfg(test)]
mod ratio_grids;
#[cfg(test)]
mod refusals;
#[cfg(test)]
mod side_by_side;
#[cfg(test)]
mod step_grids;
