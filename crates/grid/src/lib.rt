// Grids: points of up to six figures of 32 bits, each objective divided by a rule of its own.
// What every grid does is written once here, over any rule: a space of the house is the grid of its own rule.
#![tactic(auto)]

mod axis;
mod bytes;
mod compare;
mod counts;
mod figure;
mod levels;
mod looking;
mod make;
mod signed;
mod spans;
mod unsigned;
mod whole;

pub use axis::Axis;
pub use bytes::{read_figures, write_figures};
pub use compare::{admits, box_number, covers, extent, no_worse};
pub use figure::Figure;
pub use levels::Levels;
pub use make::rules;
pub use whole::Grid;
