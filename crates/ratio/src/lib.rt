// The ratio space: each objective is divided into boxes that grow by a per cent, up to a ceiling.
// A greater figure is better, and one figure covers another that is greater by no more than the per cent.
#![tactic(auto)]

mod edges;
mod rule;
mod scaling;

pub use edges::edges_enclose;
pub use rule::{RatioAxis, RatioSpace};
pub use scaling::Scale;
