// The records that lines give.
ghost use Rattle.std.specs.Prelude.{◌≡◌, map, IfOk};
ghost use Rattle.std.specs.List.{flat_map};
ghost use Rattle.log_block.specs.Reading.{seen};
ghost use Rattle.logwrite.specs.Lines.{given, line_item, told};

use crate::saying::{Line, Unsaid};
use log_block::Record;
use std::alloc::{AllocError, Global};

// The record of a line: of a trial's point, the bytes of two objectives.
fn record_of<'l>(line: &'l Line<'_>) -> Record<'l>
    ensures { seen result ≡ line_item line.now }
{
    match line {
        Line::Trial { tag, point } => Record::Trial {
            tag: *tag,
            point: &point[..8],
        },
        Line::Note(text) => Record::Note(text),
    }
}

// The records of the lines that give one, in their order.
pub(crate) fn records_of<'l>(
    heap: Global,
    lines: &'l [Result<Line<'_>, Unsaid>],
) -> Result<Vec<Record<'l>>, AllocError>
    ensures { IfOk result (λ v. map seen v.items ≡ flat_map given (map told lines.now)) }
{
    let mut records = Vec::new(heap);
    // a loop and no chain: a record lends parts of its line, which no chain's contract names
    for line in lines {
        if let Ok(said) = line {
            records.push(record_of(said))?;
        }
    }
    Ok(records)
}
