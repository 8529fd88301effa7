// Any two spaces side by side are a space: the first one's objectives in front, at most six together.
#![tactic(auto)]

mod pair;

pub use pair::Beside;
