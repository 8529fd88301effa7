// The log of a text.
ghost use Rattle.std.specs.Prelude.{◌≡◌, true, map, IfOk};
ghost use Rattle.std.specs.List.{flat_map, AllByRecursion};
ghost use Rattle.log_block.specs.Writing.{fits};
ghost use Rattle.logwrite.specs.Blocks.{ReadAs, blocks_of};
ghost use Rattle.logwrite.specs.Lines.{given, told};
ghost use Rattle.logwrite.specs.Log.{LogOf};

use crate::blocks::write_blocks;
use crate::reading::Reader;
use crate::records::records_of;
use crate::saying::{Line, Unsaid};
use std::alloc::{AllocError, Global};

// What each line of a text gives, and the blocks of the records among that.
#[derive(Drop)]
pub(crate) struct Log<'t> {
    pub lines: Vec<Result<Line<'t>, Unsaid>>,
    pub blocks: Vec<[u8; 512]>,
}

// The blocks of the records that lines give.
fn blocks_of_lines(
    heap: Global,
    lines: &[Result<Line<'_>, Unsaid>],
) -> Result<Vec<[u8; 512]>, AllocError>
    requires { AllByRecursion (λ x. fits 2 500 x ≡ true) (flat_map given (map told lines.now)) }
    ensures blocks { IfOk result (λ v. v.items ≡ blocks_of (flat_map given (map told lines.now))) }
    ensures read { IfOk result (λ v. ReadAs (flat_map given (map told lines.now)) v.items) }
{
    let records = records_of(heap, lines)?;
    write_blocks(heap, records.as_slice())
}

// The log of a text: only want of memory is refused.
pub(crate) fn write_log(heap: Global, text: &[u8]) -> Result<Log<'_>, AllocError>
    ensures { IfOk result (λ log. LogOf text.now log) }
{
    let lines = Reader::new().read_lines(heap, text)?;
    let blocks = blocks_of_lines(heap, lines.as_slice())?;
    Ok(Log { lines, blocks })
}
