// The archive: it keeps the best trials that it was offered, one for each box that no other box dominates, in rows that are
// lent to every call. What its rows then hold is what the history of its calls says they must: the contract of each call
// says so.
#![tactic(auto)]

mod auditing;
mod boxing;
mod closing;
mod deciding;
mod feeding;
mod holding;
mod knowing;
mod listing;
mod making;
mod members;
mod needing;
mod offering;
mod restoring;
mod saving;
mod summing;

pub use holding::Archive;
pub use making::Refused;
pub use needing::row_need;
pub use restoring::{RestoreFault, Restored, Unrestored, restore};
