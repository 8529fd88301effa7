// What an archive was asked and what it answered, and all that must hold after it: one step of a trial against the members,
// the five calls with their defined answers, the state that the arguments alone decide, the promises, and the theorems that
// every space with the laws keeps them. The types of the answers live here; there is hardly any code.
#![tactic(auto)]

mod answers;
mod denials;
mod faults;
mod theorems;
mod verdicts;

pub use answers::{Answer, Fed, Offered};
pub use denials::Denial;
pub use faults::{DeniedTrial, FeedFault};
pub use theorems::{
    audit_clears, audit_tells, call_keeps, history_keeps_promises, idle_call_keeps, making_begins,
    round_trip, row_need_is_least, step_is_two_level, step_is_two_level_after,
};
pub use verdicts::Verdict;
