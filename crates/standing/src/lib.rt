// Which trials of a list stand, and which boxes: by definition alone, pair by pair, with no archive.
// It is slow and plain on purpose, the yardstick for what an archive may hold.
#![tactic(auto)]

mod above;
mod among;
mod compare;

pub use above::{box_above, trial_within};
pub use among::{box_stands, opens_box, trial_stands};
pub use compare::{box_dominates, dominates, same_box};
