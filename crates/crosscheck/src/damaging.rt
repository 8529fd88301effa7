// Blocks made up by chance: sound ones, and ones with one or two things wrong.
use crate::blocks::{
    BEFORE_FIGURES, BLOCK, Kind, RECORDS_AT, ROOM, SUMS_AT, figures_bytes, figures_length, put,
    trial_length,
};
use crate::chance::Chance;
use crate::figures::{Point, Rules, objectives};
use crate::making::tag_by;
use crate::source::Source;
use log_block::seal;
use std::alloc::{AllocError, Global};

// The last byte for records.
const LAST: usize = SUMS_AT - 1;

// Writes a byte over another, if the block reaches so far.
fn set(block: &mut Vec<u8>, place: usize, byte: u8) {
    if let Some(there) = block.get_mut(place) {
        *there = byte;
    }
}

// A block that is being filled: its bytes so far, and where its last record begins.
#[derive(Drop)]
struct Filling {
    bytes: Vec<u8>,
    last: usize,
}

impl Filling {
    // A block with no records and any number.
    fn new(heap: Global, chance: &mut Chance, rules: &Rules) -> Result<Filling, AllocError> {
        let mut bytes = Vec::new(heap);
        put(&mut bytes, &[1, 0])?;
        put(
            &mut bytes,
            &[u8::try_from(objectives(rules)).unwrap_or(0), 0],
        )?;
        for _ in 0..4 {
            bytes.push(chance.byte())?;
        }
        Ok(Filling {
            bytes,
            last: RECORDS_AT,
        })
    }

    // How many bytes there still are for records.
    fn room(&self) -> usize {
        SUMS_AT.saturating_sub(self.bytes.len())
    }

    // How many records there are.
    fn records(&self) -> u8 {
        self.bytes.get(1).copied().unwrap_or(0)
    }

    // One record more, which begins here.
    fn begin(&mut self, kind: Kind, length: usize) -> Result<(), AllocError> {
        self.last = self.bytes.len();
        let records = self.records().saturating_add(1);
        set(&mut self.bytes, 1, records);
        put(
            &mut self.bytes,
            &[kind.byte(), u8::try_from(length).unwrap_or(0)],
        )
    }

    // A trial, if there is room.
    fn trial(&mut self, rules: &Rules, tag: u32, point: &Point) -> Result<(), AllocError> {
        if self.room() >= figures_length(rules).saturating_add(BEFORE_FIGURES) {
            self.begin(Kind::Trial, trial_length(rules))?;
            put(&mut self.bytes, &tag.to_be_bytes())?;
            figures_bytes(rules, point, &mut self.bytes)?;
        }
        Ok(())
    }

    // A note of so many bytes, if there is room.
    fn note(&mut self, chance: &mut Chance, length: usize) -> Result<(), AllocError> {
        if self.room() >= length.saturating_add(2) && length <= 255 {
            self.begin(Kind::Note, length)?;
            for _ in 0..length {
                self.bytes.push(chance.byte())?;
            }
        }
        Ok(())
    }

    // One thing wrong with the block, whose records end here; it is sealed again after it.
    fn damage(&mut self, chance: &mut Chance, end: usize) {
        let byte = chance.byte();
        let records = self.records();
        let (place, byte) = match chance.below(12) {
            0 => (0, byte),
            1 => (3, byte),
            2 => (2, byte),
            3 => (2, byte % 8),
            4 => (self.last, byte % 5),
            5 => (self.last.saturating_add(1), byte),
            6 => (1, records.wrapping_add(1)),
            7 => (1, records.wrapping_sub(1)),
            8 => {
                let after = chance.size(SUMS_AT.saturating_sub(end));
                (end.saturating_add(after), byte)
            }
            9 => (LAST, byte),
            _ => (chance.size(ROOM).saturating_add(RECORDS_AT), byte),
        };
        set(&mut self.bytes, place, byte)
    }

    // A byte more or fewer, a byte of another value, or nothing but zeros: the block is not sealed again.
    fn tear(&mut self, chance: &mut Chance) -> Result<(), AllocError> {
        match chance.below(5) {
            0 => {
                let length = chance.size(BLOCK + 1);
                self.bytes.truncate(length);
            }
            1 => self.bytes.push(0)?,
            2 => {
                self.bytes.fill(0);
            }
            3 => {
                let place = chance.size(4).saturating_add(SUMS_AT);
                let byte = chance.byte();
                set(&mut self.bytes, place, byte);
            }
            _ => {
                let place = chance.size(BLOCK);
                let byte = chance.byte();
                set(&mut self.bytes, place, byte);
            }
        }
        Ok(())
    }
}

impl Source<'_> {
    // Fills a block with trials and notes: a few, or at times as many as there is room for, to the last byte.
    fn fill(&mut self) -> Result<Filling, AllocError> {
        let mut filling = Filling::new(self.heap, &mut self.chance, self.rules)?;
        let whole = self.chance.once_in(8);
        let wanted = if whole { 60 } else { self.chance.size(8) };
        for _ in 0..wanted {
            if self.chance.once_in(6) {
                let length = self.chance.size(20);
                filling.note(&mut self.chance, length)?;
            } else {
                let point = self.some_point();
                filling.trial(self.rules, tag_by(&mut self.chance), &point)?;
            }
        }
        if whole {
            let rest = filling.room().saturating_sub(2);
            filling.note(&mut self.chance, rest)?;
        }
        Ok(filling)
    }

    // A block of 512 bytes, and mostly a sound one.
    pub(crate) fn block(&mut self) -> Result<Vec<u8>, AllocError> {
        let mut filling = self.fill()?;
        let end = filling.bytes.len();
        filling.bytes.resize(BLOCK, 0)?;
        let chance = &mut self.chance;
        if chance.once_in(3) {
            filling.damage(chance, end);
            if chance.once_in(3) {
                filling.damage(chance, end);
            }
        }
        let _ = seal(filling.bytes.as_mut_slice());
        if chance.once_in(8) {
            filling.tear(chance)?;
        }
        let Filling { bytes, last: _ } = filling;
        Ok(bytes)
    }
}
