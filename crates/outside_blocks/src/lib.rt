// The blocks of a log tried from outside, at every fault and place.
#![tactic(auto)]

#[cfg(test)]
mod log_blocks;
#[cfg(test)]
mod records;
