// Reading trials from text, one from each line, `TAG DELAY LIFE`: three decimal numbers between spaces.
// A line that says anything else is refused, with what is wrong about it.
#![tactic(auto)]

mod before;
mod fields;
mod numbers;
mod outcome;
mod reading;
mod text;

pub use fields::without_return;
pub use outcome::{Entry, Malformed};
pub use reading::read_entry;
pub use text::{TextLines, lines, next_line, read_entries};

#[cfg(test)]
mod tests;
