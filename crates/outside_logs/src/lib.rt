// Feed, save, restore and the replay of calls of every kind, tried from outside: over a step space, and over one beside a ratio
// space.
#![tactic(auto)]

#[cfg(test)]
mod blocks;
#[cfg(test)]
mod feeds;
#[cfg(test)]
mod pairs;
#[cfg(test)]
mod refused_feeds;
#[cfg(test)]
mod replays;
#[cfg(test)]
mod restores;
#[cfg(test)]
mod saves;
#[cfg(test)]
mod squares;
