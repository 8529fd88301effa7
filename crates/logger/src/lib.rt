// What a logger's trials are: the space that they are compared in, the write delay beside the flash life, and the trial that
// an entry of a text tells of. Every program over the figures of one logger shares it.
#![tactic(auto)]

mod entries;
mod scales;

pub use entries::{trial_of, trials_of};
pub use scales::{HIGHEST, LONGEST, LoggerSpace, Point, logger_space};
