// A line as an entry.
ghost use Rattle.std.specs.Prelude.{◌≡◌};
ghost use Rattle.entry.specs.Line.{entry_of, entry_of_fields, fields, joined, signed, unsigned};

use crate::fields::{Fields, without_return};
use crate::numbers::{read_signed, read_unsigned};
use crate::outcome::{Entry, Malformed};

// The entry that three fields say, or the first of them that is no number in range.
fn read_three(tag: &[u8], delay: &[u8], life: &[u8]) -> Result<Entry, Malformed>
    ensures { result ≡ joined (unsigned tag.now) (signed delay.now) (unsigned life.now) }
{
    let tag = read_unsigned(tag).ok_or(Malformed::Tag)?;
    let delay = read_signed(delay).ok_or(Malformed::Delay)?;
    let life = read_unsigned(life).ok_or(Malformed::Life)?;
    Ok(Entry { tag, delay, life })
}

// What the fields of a line say.
fn read_fields(line: &[u8]) -> Result<Entry, Malformed>
    ensures { result ≡ entry_of_fields (fields line.now) }
{
    let mut fields = Fields { rest: line };
    let Some(tag) = fields.next() else {
        return Err(Malformed::Fields(0));
    };
    let Some(delay) = fields.next() else {
        return Err(Malformed::Fields(1));
    };
    let Some(life) = fields.next() else {
        return Err(Malformed::Fields(2));
    };
    match fields.count() {
        0 => read_three(tag, delay, life),
        more => Err(Malformed::Fields(3 + more)),
    }
}

// What a line says: `TAG DELAY LIFE`, or what is wrong with it.
pub fn read_entry(line: &[u8]) -> Result<Entry, Malformed>
    ensures { result ≡ entry_of line.now }
{
    read_fields(without_return(line))
}
