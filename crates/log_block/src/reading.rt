// Taking the records of a block apart, from the bytes that are left of it up to byte 507.
ghost use Rattle.std.specs.Prelude.{◌≡◌, [], ◌∷◌, MatchOption};
ghost use Rattle.log_block.specs.Items.{first_item, item_of, place_of};
ghost use Rattle.log_block.specs.Reading.{left_to_read, seen_at, seen_both, seen_record};

use crate::faults::RecordFault;
use crate::parts::{NOTE, Placed, Record, TRIAL};

// The records of a checked block that have still to be handed out. Their count stands beside the bytes, since the bytes alone do not
// tell where the records end.
#[derive(Clone, Copy)]
pub struct Records<'a> {
    pub(crate) rest: &'a [u8],
    pub(crate) count: u8,
    pub(crate) objectives: u8,
}

// The place of the first of these bytes, whose last is byte 507.
pub(crate) fn place(rest: &[u8]) -> usize
    ensures { result ≡ place_of rest.now }
{
    508usize.saturating_sub(rest.len())
}

// The trial of this content: a tag, and four bytes an objective.
fn trial_of(content: &[u8], place: usize, objectives: u8) -> Result<Record<'_>, RecordFault>
    ensures { seen_record result ≡ item_of objectives place 1 content.now }
{
    match content.split_first_chunk() {
        Some((tag, point)) if point.len() == 4 * usize::from(objectives) => Ok(Record::Trial {
            tag: u32::from_be_bytes(*tag),
            point,
        }),
        _ => Err(RecordFault::OtherLength(place)),
    }
}

// The record of this kind and content.
fn record_of(
    kind: u8,
    content: &[u8],
    place: usize,
    objectives: u8,
) -> Result<Record<'_>, RecordFault>
    ensures { seen_record result ≡ item_of objectives place kind content.now }
{
    match kind {
        TRIAL => trial_of(content, place, objectives),
        NOTE => Ok(Record::Note(content)),
        _ => Err(RecordFault::OtherKind(place)),
    }
}

// The first record of the bytes up to byte 507, and the bytes after it.
pub(crate) fn first_record(rest: &[u8], objectives: u8) -> Result<(Record<'_>, &[u8]), RecordFault>
    ensures { seen_both result ≡ first_item objectives rest.now }
{
    let place = place(rest);
    let [kind, length, after @ ..] = rest else {
        return Err(RecordFault::Overlong(place));
    };
    let Some((content, after)) = after.split_at_checked(usize::from(*length)) else {
        return Err(RecordFault::Overlong(place));
    };
    let record = record_of(*kind, content, place, objectives)?;
    Ok((record, after))
}

impl<'a> Records<'a> {
    // The next record with its place, and the reader past it.
    fn split(&self) -> Option<(Placed<'a>, Records<'a>)>
        ensures { MatchOption result (left_to_read self.now ≡ []) (λ p. left_to_read self.now ≡ seen_at p.0 ∷ left_to_read p.1) }
    {
        let count = self.count.checked_sub(1)?;
        let (record, rest) = first_record(self.rest, self.objectives).ok()?;
        let place = place(self.rest);
        let after = Records {
            rest,
            count,
            objectives: self.objectives,
        };
        Some((Placed { place, record }, after))
    }
}

impl<'a> Iterator for Records<'a> {
    ghost use Rattle.std.specs.Iterator.{item_count, YieldsFirstBy};
    ghost use Rattle.log_block.specs.Reading.{left_to_read, seen_at};

    type Item = Placed<'a>;

    ghost next_gives = { YieldsFirstBy seen_at left_to_read };

    ghost remaining = { item_count left_to_read };

    // The next record with its place, or none after the last.
    fn next(&mut self) -> Option<Placed<'a>> {
        let (placed, after) = self.split()?;
        *self = after;
        Some(placed)
    }
}
