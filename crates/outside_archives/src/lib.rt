// The archive and the replay of its calls tried from outside, at their worked figures and at each denial.
#![tactic(auto)]

#[cfg(test)]
mod any_space;
#[cfg(test)]
mod archives;
#[cfg(test)]
mod replays;
#[cfg(test)]
mod squares;
