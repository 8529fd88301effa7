// The blocks of the second archive: how it reads and writes them, byte by byte.
use crate::denial::Denial;
use crate::failed::Failed;
use crate::figures::{PLACES, Point, Rule, Rules, objectives};
use crate::numbered::Numbered;
use crate::second::Member;
use std::alloc::{AllocError, Global};

// How long a block is.
pub(crate) const BLOCK: usize = 512;

// Where its records begin.
pub(crate) const RECORDS_AT: usize = 8;

// Where its sums begin, behind the records.
pub(crate) const SUMS_AT: usize = 508;

// How many bytes of it are for records.
pub(crate) const ROOM: usize = SUMS_AT - RECORDS_AT;

// How many bytes a record has in front of a trial's figures: its kind, its length and the tag.
pub(crate) const BEFORE_FIGURES: usize = 6;

// What finds a fault: the check of a block as a whole, the check of its records, or the archive.
#[derive(Clone, Copy)]
pub(crate) enum Layer {
    Block = 1,
    Record = 2,
    Archive = 3,
}

// What is wrong with a block, as it is told: its number, the number of the layer that it is found in, and the place. Numbers and no
// enums: the faults of both archives are compared by the product's numbers, and the two share no type.
#[derive(Clone, Copy, PartialEq, Eq, Debug)]
pub(crate) struct Fault {
    pub number: u8,
    pub layer: u8,
    pub place: usize,
}

impl Fault {
    // What is denied for this, in this layer and at this place.
    pub(crate) fn new(denial: Denial, layer: Layer, place: usize) -> Fault {
        Fault {
            number: denial.number(),
            layer: layer as u8,
            place,
        }
    }
}

// What a record holds, with the byte that says so.
#[derive(Clone, Copy, PartialEq, Eq)]
pub(crate) enum Kind {
    Trial = 1,
    Note = 2,
}

impl Kind {
    // The byte of this kind.
    pub(crate) fn byte(self) -> u8 {
        self as u8
    }

    // The kind of this byte.
    fn of_byte(byte: u8) -> Option<Kind> {
        [Kind::Trial, Kind::Note]
            .into_iter()
            .find(|kind| kind.byte() == byte)
    }
}

// A record: what it holds, and where it ends.
#[derive(Clone, Copy)]
struct Record {
    kind: Kind,
    after: usize,
}

// A trial that a block carries, and the place of its record.
#[derive(Clone, Copy)]
pub(crate) struct Found {
    pub tag: u32,
    pub point: Point,
    pub place: usize,
}

// The byte in this place; past the end it is zero.
fn byte_at(bytes: &[u8], place: usize) -> u8 {
    bytes.get(place).copied().unwrap_or(0)
}

// The number of 32 bits that begins in this place, the highest byte first.
fn word_at(bytes: &[u8], place: usize) -> u32 {
    u32::from_be_bytes([
        byte_at(bytes, place),
        byte_at(bytes, place.saturating_add(1)),
        byte_at(bytes, place.saturating_add(2)),
        byte_at(bytes, place.saturating_add(3)),
    ])
}

// The sum of the bytes in front of the sums, and the sum of the values that it has on its way, each as two bytes.
fn check_bytes(bytes: &[u8]) -> [u8; 4] {
    let mut a = 0u32;
    let mut b = 0u32;
    for byte in bytes.iter().take(SUMS_AT) {
        a = a.wrapping_add(u32::from(*byte));
        b = b.wrapping_add(a);
    }
    let [_, _, c, d] = a.to_be_bytes();
    let [_, _, e, f] = b.to_be_bytes();
    [c, d, e, f]
}

// The check of everything but the records.
fn check_head(rules: &Rules, bytes: &[u8]) -> Result<(), Fault> {
    let fault = |denial, place| Err(Fault::new(denial, Layer::Block, place));
    if bytes.len() != BLOCK {
        return fault(Denial::WrongLength, 0);
    }
    if word_at(bytes, SUMS_AT) != u32::from_be_bytes(check_bytes(bytes)) {
        return fault(Denial::Torn, SUMS_AT);
    }
    if byte_at(bytes, 0) != 1 {
        return fault(Denial::StrangeBlock, 0);
    }
    if byte_at(bytes, 3) != 0 {
        return fault(Denial::StrangeBlock, 3);
    }
    if usize::from(byte_at(bytes, 2)) != objectives(rules) {
        return fault(Denial::OtherGrid, 2);
    }
    Ok(())
}

// How many bytes the figures of a point take: four for each objective.
pub(crate) fn figures_length(rules: &Rules) -> usize {
    objectives(rules).saturating_mul(4)
}

// The length that the record of a trial says: the tag and the figures.
pub(crate) fn trial_length(rules: &Rules) -> usize {
    figures_length(rules).saturating_add(4)
}

// The record in this place.
fn record_at(rules: &Rules, bytes: &[u8], place: usize) -> Result<Record, Fault> {
    let bad = Fault::new(Denial::BadRecord, Layer::Record, place);
    let kind = Kind::of_byte(byte_at(bytes, place)).ok_or(bad)?;
    let length = usize::from(byte_at(bytes, place.saturating_add(1)));
    let after = place.saturating_add(2).saturating_add(length);
    if after > SUMS_AT || (kind == Kind::Trial && length != trial_length(rules)) {
        return Err(bad);
    }
    Ok(Record { kind, after })
}

// The figure that a number of 32 bits says.
fn figure_of(rule: &Rule, word: u32) -> i64 {
    match rule {
        Rule::Step(_) => i64::from(word.cast_signed()),
        Rule::Ratio(_) => i64::from(word),
    }
}

// The point that the bytes from this place on say: four bytes for each objective.
fn point_at(rules: &Rules, bytes: &[u8], place: usize) -> Point {
    let (_, figures) = bytes.split_at(place.min(bytes.len()));
    let mut point = [0; PLACES];
    let used = point
        .iter_mut()
        .zip(rules)
        .filter_map(|(figure, rule)| rule.map(|rule| (figure, rule)));
    for ((figure, rule), word) in used.zip(figures.chunks(4)) {
        *figure = figure_of(&rule, word_at(word, 0));
    }
    point
}

// Goes on where nothing follows the last record, which ends here.
fn check_tail(bytes: &[u8], end: usize) -> Result<(), Fault> {
    let mut tail = bytes.iter().enumerate().take(SUMS_AT).skip(end);
    tail.find(|(_, byte)| **byte != 0)
        .map_or(Ok(()), |(place, _)| {
            Err(Fault::new(Denial::BadRecord, Layer::Record, place))
        })
}

// The trials of a block in their order, or what is wrong with it.
pub(crate) fn read_block(
    heap: Global,
    rules: &Rules,
    bytes: &[u8],
) -> Result<Vec<Found>, Failed<Fault>> {
    check_head(rules, bytes)?;
    let mut trials = Vec::new(heap);
    // no record says how many come after it, but each says where the next one begins
    let mut place = RECORDS_AT;
    for _ in 0..byte_at(bytes, 1) {
        let record = record_at(rules, bytes, place)?;
        if record.kind == Kind::Trial {
            trials.push(Found {
                tag: word_at(bytes, place.saturating_add(2)),
                point: point_at(rules, bytes, place.saturating_add(BEFORE_FIGURES)),
                place,
            })?;
        }
        place = record.after;
    }
    check_tail(bytes, place)?;
    Ok(trials)
}

// Writes some bytes after the others.
pub(crate) fn put(block: &mut Vec<u8>, bytes: &[u8]) -> Result<(), AllocError> {
    block.extend_from_slice(bytes)
}

// The four bytes of a figure, negative ones in two's complement.
fn figure_bytes(figure: i64) -> [u8; 4] {
    let [_, _, _, _, a, b, c, d] = figure.to_be_bytes();
    [a, b, c, d]
}

// Writes the figures of a point, one for each objective.
pub(crate) fn figures_bytes(
    rules: &Rules,
    point: &Point,
    block: &mut Vec<u8>,
) -> Result<(), AllocError> {
    for (rule, figure) in rules.iter().zip(point) {
        if rule.is_some() {
            put(block, &figure_bytes(*figure))?;
        }
    }
    Ok(())
}

// How many trials a block has room for.
pub(crate) fn trials_to_a_block(rules: &Rules) -> usize {
    let each = figures_length(rules).saturating_add(BEFORE_FIGURES);
    ROOM.checked_div(each).unwrap_or(0)
}

// The block of these members with this number.
pub(crate) fn write_block(
    heap: Global,
    rules: &Rules,
    number: u32,
    members: &[Member],
) -> Result<Vec<u8>, AllocError> {
    let count = u8::try_from(members.len()).unwrap_or(0);
    let m = u8::try_from(objectives(rules)).unwrap_or(0);
    let length = u8::try_from(trial_length(rules)).unwrap_or(0);
    let mut block = Vec::new(heap);
    put(&mut block, &[1, count, m, 0])?;
    put(&mut block, &number.to_be_bytes())?;
    for member in members {
        put(&mut block, &[Kind::Trial.byte(), length])?;
        put(&mut block, &member.tag.to_be_bytes())?;
        figures_bytes(rules, &member.point, &mut block)?;
    }
    block.resize(SUMS_AT, 0)?;
    let sums = check_bytes(block.as_slice());
    put(&mut block, &sums)?;
    Ok(block)
}
