// What has been tried so far.
use crate::denial::Denial;
use crate::numbered::Numbered;
use crate::told::{Fed, Told};
use crate::verdict::Verdict;

// How often each thing occurred. Verdicts and denials are counted in the places of their numbers, and no denial has the number 0.
#[derive(Clone, Copy, Default)]
pub(crate) struct Tally {
    pub histories: u64,
    pub calls: u64,
    pub trials: u64,
    pub verdicts: [u64; 4],
    pub denials: [u64; 15],
    pub displaced: u64,
    pub members: usize,
    pub most_blocks: usize,
    pub replays: u64,
    pub blocks: u64,
    pub restored: u64,
    pub not_restored: u64,
    pub audits: u64,
    pub offers: u64,
    pub spaces: u64,
    pub questions: u64,
}

// One more.
pub(crate) fn one_more(count: &mut u64) {
    *count = count.saturating_add(1);
}

// So many more.
fn more(count: &mut u64, by: usize) {
    *count = count.saturating_add(u64::try_from(by).unwrap_or(0));
}

// One more in the place of this number.
fn one_more_at(counts: &mut [u64], number: u8) {
    if let Some(count) = counts.get_mut(usize::from(number)) {
        one_more(count);
    }
}

// Whether each of a kind occurred.
fn has_each<K: Numbered>(counts: &[u64]) -> bool {
    K::ALL.iter().all(|kind| kind.count_in(counts) > 0)
}

impl Tally {
    // A denial of this number.
    pub(crate) fn denial(&mut self, number: u8) {
        one_more_at(&mut self.denials, number);
    }

    // What the trials of a block came to.
    fn fed(&mut self, fed: &Fed) {
        more(&mut self.trials, fed.entered);
        more(&mut self.trials, fed.passed);
        more(&mut self.trials, fed.denied);
        more(&mut self.displaced, fed.displaced);
        if let Some(fault) = fed.first {
            self.denial(fault.number);
        }
    }

    // What a call told.
    pub(crate) fn told(&mut self, told: &Told) {
        one_more(&mut self.calls);
        match told {
            Told::Judged { verdict, displaced } => {
                one_more(&mut self.trials);
                more(&mut self.displaced, *displaced);
                one_more_at(&mut self.verdicts, *verdict);
            }
            Told::Fed(fed) => self.fed(fed),
            Told::Denied(number) => {
                if *number == Denial::OffGrid.number() || *number == Denial::Full.number() {
                    one_more(&mut self.trials);
                }
                self.denial(*number);
            }
            Told::Refused(fault) => self.denial(fault.number),
            _ => {}
        }
    }

    // Whether each verdict and each denial occurred.
    pub(crate) fn is_whole(&self) -> bool {
        has_each::<Verdict>(&self.verdicts) && has_each::<Denial>(&self.denials)
    }
}
