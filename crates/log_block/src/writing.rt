// Writing a block: of trials alone, or of records of both kinds. The block that is lent, its objectives and its number are what the
// caller gives; together they are a value once the block is begun, as `Draft`.
ghost use Rattle.std.specs.Prelude.{◌≡◌, ◌+◌, ◌≤◌, ℕ, map, length, take, Ok, IfOk, OnOk};
ghost use Rattle.std.specs.List.{AllByRecursion};
ghost use Rattle.log_block.specs.Block.{block_of, checked, filled};
ghost use Rattle.log_block.specs.Items.{Item};
ghost use Rattle.log_block.specs.Reading.{seen};
ghost use Rattle.log_block.specs.Theorems.{Holds, placed_from};
ghost use Rattle.log_block.specs.Writing.{fitting_items, records_answer, records_over, so_far, trial_item, write_answer, written_items, written_over};

use crate::drafting::Draft;
use crate::faults::BlockFault;
use crate::parts::{Block, Record};
use crate::sums::seal_block;

// A trial as bytes: its tag, and its point's bytes in front. What lies past the bytes of its objectives is not looked at. An array, and
// no `Vec`: a logger has no heap.
#[derive(Clone, Copy)]
pub struct TrialBytes {
    pub tag: u32,
    pub point: [u8; 24],
}

// What a block is filled with: a value that is a record in a block of any number of objectives.
trait AsRecord {
    ghost item: { ℕ → Self → Item };

    // what its type says of each value
    ghost typed: { Self → Type 0 };

    fn record(&self, objectives: u8) -> Record<'_>
        ensures item { seen result ≡ item objectives self.now }
        ensures typed { typed self.now };
}

impl AsRecord for Record<'_> {
    ghost item = { λ m given. seen given };

    ghost typed = { λ given. Unit {0} };

    fn record(&self, _objectives: u8) -> Record<'_> {
        *self
    }
}

impl AsRecord for TrialBytes {
    ghost item = { trial_item };

    ghost typed = { λ trial. length trial.point ≡ 24 };

    fn record(&self, objectives: u8) -> Record<'_> {
        let width = (4 * usize::from(objectives)).min(24);
        Record::Trial {
            tag: self.tag,
            point: &self.point[..width],
        }
    }
}

// Writes as many of these as fit, with no count of them yet and zeros after them, and answers how many these are.
fn draft<T: AsRecord>(block: &mut Block, objectives: u8, number: u32, given: &[T]) -> usize
    ensures value { result ≡ length (fitting_items objectives (map (T.item objectives) given.now)) }
    ensures typed { AllByRecursion T.typed (take (result + 1) given.now) }
    ensures holds { AllByRecursion (Holds objectives) (fitting_items objectives (map (T.item objectives) given.now)) }
    ensures within { length (so_far objectives number 0 (fitting_items objectives (map (T.item objectives) given.now))) ≤ 508 }
    ensures after { block.new ≡ filled 512 (so_far objectives number 0 (fitting_items objectives (map (T.item objectives) given.now))) }
{
    let mut draft = Draft::begin(block, objectives, number);
    for (i, one) in given.iter().enumerate() {
        let record = one.record(objectives);
        if !draft.has_room(&record) {
            return i;
        }
        draft.put_record(&record);
    }
    given.len()
}

// Writes a block of as many of these as fit, in order, and answers how many these are. The first that does not fit, or that
// no block of so many objectives may hold, ends them.
fn write_block<T: AsRecord>(
    block: &mut [u8],
    objectives: u8,
    number: u32,
    given: &[T],
) -> Result<usize, BlockFault>
    ensures value { result ≡ records_answer objectives (map (T.item objectives) given.now) block.old }
    ensures typed { IfOk result (λ n. AllByRecursion T.typed (take (n + 1) given.now)) }
    ensures after { block.new ≡ records_over objectives number (map (T.item objectives) given.now) block.old }
    ensures accepted { OnOk result (checked objectives block.new ≡ Ok (placed_from 8 (fitting_items objectives (map (T.item objectives) given.now)))) }
{
    let block: &mut Block = block.as_mut_array().ok_or(BlockFault::WrongLength)?;
    let count = draft(block, objectives, number, given);
    block[1] = count as u8;
    seal_block(block);
    Ok(count)
}

// Writes a block with as many of the trials as it has room for, in order, and answers how many these are.
#[tactic(auto, using(crate::proofs::Capacity::same_block))]
pub fn write(
    block: &mut [u8],
    objectives: u8,
    number: u32,
    trials: &[TrialBytes],
) -> Result<usize, BlockFault>
    ensures value { result ≡ write_answer objectives trials.now block.old }
    ensures after { block.new ≡ written_over objectives number trials.now block.old }
    ensures accepted { OnOk result (checked objectives block.new ≡ Ok (placed_from 8 (written_items objectives trials.now))) }
{
    write_block(block, objectives, number, trials)
}

// Writes a block of as many of the records as fit, in order, and answers how many these are. The first that does not fit,
// or that no block of so many objectives may hold, ends them.
pub fn write_records(
    block: &mut [u8],
    objectives: u8,
    number: u32,
    records: &[Record<'_>],
) -> Result<usize, BlockFault>
    ensures value { result ≡ records_answer objectives (map seen records.now) block.old }
    ensures after { block.new ≡ records_over objectives number (map seen records.now) block.old }
    ensures accepted { OnOk result (checked objectives block.new ≡ Ok (placed_from 8 (fitting_items objectives (map seen records.now)))) }
{
    write_block(block, objectives, number, records)
}
