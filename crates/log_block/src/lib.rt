// One block of a log: 512 bytes that carry trials and notes. It is checked byte by byte, its records are handed out as parts
// of it, and blocks are written, of trials alone or of trials and notes. Of spaces it knows only how many objectives there
// are, and of archives nothing.
#![tactic(auto)]

mod checking;
mod drafting;
mod faults;
mod parts;
mod reading;
mod sums;
mod theorems;
mod writing;

pub use checking::check;
pub use faults::{BlockFault, Fault, Layer, RecordFault, Report};
pub use parts::{Placed, Record};
pub use reading::Records;
pub use sums::seal;
pub use theorems::{reads_back, same_bytes, writes_back};
pub use writing::{TrialBytes, write, write_records};
