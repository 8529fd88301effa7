// The step space: each objective is divided into boxes of one width between two ends, larger or smaller figures being better.
// One figure covers another that is better by less than the width.
#![tactic(auto)]

mod rule;
mod scaling;

pub use rule::{StepAxis, StepSpace};
pub use scaling::{Direction, Scale};
