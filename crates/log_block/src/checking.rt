// The check of a block: the first fault in a fixed order, or the block's records.
ghost use Rattle.std.specs.Prelude.{◌≡◌, ℕ, ◌<◌, ◌≤◌, length, Ok, Err, MatchResult, ◌≢◌, slice_index};
ghost use Rattle.log_block.specs.Block.{checked, header_check, records_check, tail_check};
ghost use Rattle.log_block.specs.Reading.{left_to_read};

use crate::faults::{BlockFault, Fault, RecordFault};
use crate::parts::Block;
use crate::reading::{Records, first_record, place};
use crate::sums::is_sealed;

// The block as a whole: its sums, bytes 0, 3 and 2.
fn check_header(block: &Block, objectives: u8) -> Result<(), BlockFault>
    ensures { result ≡ header_check objectives block.now }
{
    if !is_sealed(block) {
        return Err(BlockFault::Torn);
    }
    if block[0] != 1 {
        return Err(BlockFault::StrangeFirst);
    }
    if block[3] != 0 {
        return Err(BlockFault::StrangeFourth);
    }
    if block[2] != objectives {
        return Err(BlockFault::OtherGrid);
    }
    Ok(())
}

// How many zeros there are in front.
fn zeros(bytes: &[u8]) -> usize
    ensures within { result ≤ length bytes.now }
    ensures before { (k : ℕ) → k < result → slice_index bytes.now k ≡ 0 }
    ensures found { result < length bytes.now → slice_index bytes.now result ≢ 0 }
{
    bytes.iter().take_while(|byte| **byte == 0).count()
}

// The bytes after the last record are zero.
fn check_tail(rest: &[u8]) -> Result<(), RecordFault>
    ensures { result ≡ tail_check rest.now }
{
    let (_, odd) = rest.split_at(zeros(rest));
    if !odd.is_empty() {
        return Err(RecordFault::Tail(place(odd)));
    }
    Ok(())
}

// The records that are left, and then the tail.
fn check_records(records: Records<'_>) -> Result<(), RecordFault>
    ensures { result ≡ records_check records.entry.objectives records.entry.count records.entry.rest.now }
{
    let mut rest = records.rest;
    for _ in 0..records.count {
        (_, rest) = first_record(rest, records.objectives)?;
    }
    check_tail(rest)
}

// The records of a block of so many objectives, or what is wrong with it.
pub fn check(bytes: &[u8], objectives: u8) -> Result<Records<'_>, Fault>
    ensures { MatchResult result (λ found. checked objectives bytes.now ≡ Ok (left_to_read found)) (λ f. checked objectives bytes.now ≡ Err f) }
{
    let block: &Block = bytes.as_array().ok_or(BlockFault::WrongLength)?;
    check_header(block, objectives)?;
    let records = Records {
        rest: &block[8..508],
        count: block[1],
        objectives,
    };
    check_records(records)?;
    Ok(records)
}
