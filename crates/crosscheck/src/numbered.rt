// What has a number of the product's own, and a word that it displays: the verdicts and the denials.
use std::fmt::Display;

pub(crate) trait Numbered: Copy + Display + 'static {
    // What one of them is.
    const NOUN: &'static str;

    // All of them.
    const ALL: &'static [Self];

    // The number of this one.
    fn number(self) -> u8;

    // Which of these counts is of this one: they are in the places of the numbers.
    fn count_in(self, counts: &[u64]) -> u64 {
        counts.get(usize::from(self.number())).copied().unwrap_or(0)
    }
}
