// A block that is being written: a header, records one after the other, and zeros after them.
ghost use Rattle.std.specs.Prelude.{◌≡◌, ◌+◌, ◌-◌, ◌≤◌, List, ℕ, [], ◌++◌, length, true};
ghost use Rattle.log_block.specs.Items.{item_bytes};
ghost use Rattle.log_block.specs.Reading.{seen};
ghost use Rattle.log_block.specs.Theorems.{Holds};
ghost use Rattle.log_block.specs.Writing.{fits, so_far};

use crate::parts::{Block, NOTE, Record, TRIAL};

// What is written stands up to the place, and zeros after it. The place stands beside the lent block, and no `Vec` grows: a logger has
// no heap.
#[derive(Drop)]
pub(crate) struct Draft<'b> {
    block: &'b mut Block,
    objectives: u8,
    place: usize,
}

impl<'b> Draft<'b> {
    ghost use Rattle.log_block.specs.Drafts.{Drafted, SameDraft};

    // A draft with a header, which counts no records yet.
    pub(crate) fn begin(block: &'b mut Block, objectives: u8, number: u32) -> Draft<'b>
        ensures same_block { result.block.ghost_name ≡ block.entry.ghost_name }
        ensures objectives { result.objectives ≡ objectives }
        ensures drafted { Drafted (so_far objectives number 0 []) result }
    {
        block.fill(0);
        let mut draft = Draft {
            block,
            objectives,
            place: 0,
        };
        let [a, b, c, d] = number.to_be_bytes();
        draft.put(&[1, 0, objectives, 0, a, b, c, d]);
        draft
    }

    // Whether there is room for the record, and a block of so many objectives may hold it.
    pub(crate) fn has_room(&self, given: &Record<'_>) -> bool
        requires { self.now.place ≤ 508 }
        ensures { result ≡ fits self.now.objectives (508 - self.now.place) (seen given.now) }
    {
        let left = 508 - self.place;
        if self.objectives > 6 {
            return false;
        }
        match given {
            Record::Trial { point, .. } => {
                point.len() == 4 * usize::from(self.objectives) && 6 + point.len() <= left
            }
            Record::Note(text) => text.len() <= 255 && 2 + text.len() <= left,
        }
    }

    // Writes the record after what is written.
    pub(crate) fn put_record(&mut self, given: &Record<'_>)
        requires within { self.old.place ≤ 508 }
        requires fits { fits self.old.objectives (508 - self.old.place) (seen given.now) ≡ true }
        ensures same { SameDraft self.old self.new }
        ensures holds { Holds self.old.objectives (seen given.now) }
        ensures drafted { (xs : List ℕ) → Drafted xs self.old → Drafted (xs ++ item_bytes (seen given.now)) self.new }
    {
        match given {
            Record::Trial { tag, point } => {
                let [a, b, c, d] = tag.to_be_bytes();
                self.put(&[TRIAL, 4 + point.len() as u8, a, b, c, d]);
                self.put(point);
            }
            Record::Note(text) => {
                self.put(&[NOTE, text.len() as u8]);
                self.put(text);
            }
        }
    }

    // Writes these bytes after what is written.
    fn put(&mut self, bytes: &[u8])
        requires { self.old.place + length bytes.now ≤ 508 }
        ensures same { SameDraft self.old self.new }
        ensures place { self.new.place ≡ self.old.place + length bytes.now }
        ensures drafted { (xs : List ℕ) → Drafted xs self.old → Drafted (xs ++ bytes.now) self.new }
    {
        let end = self.place + bytes.len();
        let block = &mut *self.block;
        block[self.place..end].copy_from_slice(bytes);
        self.place = end;
    }
}
