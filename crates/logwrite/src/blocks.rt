// Records shared out to blocks, each filled as far as the next record fits.
ghost use Rattle.std.specs.Prelude.{◌≡◌, ◌%◌, ◌^◌, map, length, true, Ok, IfOk};
ghost use Rattle.std.specs.List.{AllByRecursion};
ghost use Rattle.log_block.specs.Block.{block_of, checked};
ghost use Rattle.log_block.specs.Reading.{seen};
ghost use Rattle.log_block.specs.Theorems.{placed_from};
ghost use Rattle.log_block.specs.Writing.{fits, fitting_items};
ghost use Rattle.logwrite.specs.Blocks.{ReadAs, blocks_of};

use log_block::Record;
use std::alloc::{AllocError, Global};

// The next block of a log, and how many of the records are in it.
fn next_block(number: u32, records: &[Record<'_>]) -> ([u8; 512], usize)
    ensures block { result.0 ≡ block_of 2 number (fitting_items 2 (map seen records.now)) }
    ensures accepted { checked 2 result.0 ≡ Ok (placed_from 8 (fitting_items 2 (map seen records.now))) }
    ensures count { result.1 ≡ length (fitting_items 2 (map seen records.now)) }
{
    let mut block = [0; 512];
    let count = log_block::write_records(&mut block, 2, number, records).unwrap();
    (block, count)
}

// The blocks of a log of these records, each of which a block may hold.
pub(crate) fn write_blocks(
    heap: Global,
    records: &[Record<'_>],
) -> Result<Vec<[u8; 512]>, AllocError>
    requires { AllByRecursion (λ x. fits 2 500 x ≡ true) (map seen records.now) }
    ensures blocks { IfOk result (λ v. v.items ≡ blocks_of (map seen records.now)) }
    ensures read { IfOk result (λ v. ReadAs (map seen records.now) v.items) }
{
    let mut blocks = Vec::new(heap);
    // a place and no slice of what is left: a slice of borrowed records that a loop cuts gets no proof
    let mut place = 0;
    while place < records.len() {
        // a block number has 32 bits
        let number = (blocks.len() % (1 << 32)) as u32;
        let (block, count) = next_block(number, &records[place..]);
        blocks.push(block)?;
        place += count;
    }
    Ok(blocks)
}
