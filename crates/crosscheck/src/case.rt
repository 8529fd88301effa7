// One history over one of the first archive's spaces: what every comparison of the two archives is given.
use crate::denial::Denial;
use crate::figures::Rules;
use crate::histories::History;
use crate::second::Second;
use std::alloc::Global;

// The space that the first archive is made for, the same as rules for the second, and the history. What is compared over it are
// methods, each in the file of what it compares.
#[derive(Clone, Copy)]
pub(crate) struct Case<'a, S> {
    pub heap: Global,
    pub space: S,
    pub rules: Rules,
    pub history: &'a History,
}

impl<'a, S> Case<'a, S> {
    // The case of a history over this space.
    pub(crate) fn new(heap: Global, space: S, history: &'a History) -> Case<'a, S> {
        Case {
            heap,
            space,
            rules: history.scales.rules(),
            history,
        }
    }

    // The second archive over as many rows, with no members.
    pub(crate) fn second(&self) -> Result<Second, Denial> {
        Second::new(self.heap, self.rules, self.history.rows)
    }
}
