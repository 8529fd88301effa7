// Replay: an archive is made over lent rows, and a list of calls is run on it, denied ones among them. It hands back every
// answer beside its call, and its contract says of what history they are: so a journal of what an archive was asked can be
// held against it.
#![tactic(auto)]

mod asking;
mod kinds;
mod lender;
mod recorded;
mod replaying;
mod running;

pub use asking::{Ask, RecordedAsk, Turn};
pub use replaying::{replay, replay_recorded};
