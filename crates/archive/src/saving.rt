// Save: the members as blocks of a log.
ghost use Rattle.std.specs.Prelude.{◌≡◌, ◌+◌, ◌*◌, ◌^◌, ◌<◌, ◌≤◌, List, [], map, length, take};
ghost use Rattle.space.specs.Recording.{FourEach, WritableIfAdmitted};
ghost use Rattle.space.specs.declared.tagged.Trial.{Trial as TrialOf};
ghost use Rattle.log_block.specs.Block.{block_of};
ghost use Rattle.log_block.specs.Writing.{trial_item, written_over};
ghost use Rattle.history.specs.Lists.{EachIn};
ghost use Rattle.history.specs.Saving.{block_count, item_for, part, per_block};
ghost use Rattle.archive.specs.Lent.{lending};
ghost use Rattle.archive.specs.Saving.{SaveRight, blocks_of};

use crate::holding::Archive;
use history::Denial;
use log_block::{TrialBytes, write};
use space::{Recorded, Trial, point_bytes};

// How the members of a space are laid out in blocks, and for how many a block has room.
#[derive(Drop)]
struct Layout<'a, S: Recorded> {
    space: &'a S,
    room: usize,
    ghost fits: { room ≡ per_block (S.Space.meaning space.now) },
    ghost four_each: { FourEach (S.Space.meaning space.now) (S.Recorded.recording space.now) },
}

impl<'a, S: Recorded> Layout<'a, S> {
    fn new(space: &'a S) -> Layout<'a, S>
        ensures { result.space.now ≡ space.now }
    {
        Layout {
            space,
            room: 500 / (6 + space.width()),
        }
    }

    // How many blocks so many members fill: one if there is no member.
    fn block_count(&self, count: usize) -> usize
        ensures { result ≡ block_count (per_block (S.Space.meaning self.now.space.now)) count }
    {
        count.div_ceil(self.room).max(1)
    }

    // The members of one block.
    fn part<'m>(&self, members: &'m [Trial<S::Point>], number: usize) -> &'m [Trial<S::Point>]
        requires { number * self.now.room ≤ length members.now }
        ensures { result.now ≡ part (per_block (S.Space.meaning self.now.space.now)) members.now number }
    {
        let rest = &members[number * self.room..];
        &rest[..self.room.min(rest.len())]
    }

    // A trial as bytes.
    fn trial_bytes(&self, trial: &Trial<S::Point>) -> TrialBytes
        ensures value { trial_item (S.Space.meaning self.now.space.now).objectives result ≡ item_for (S.Recorded.recording self.now.space.now) trial.now }
        ensures writable { WritableIfAdmitted (S.Space.meaning self.now.space.now) (S.Recorded.recording self.now.space.now) trial.now.point }
    {
        TrialBytes {
            tag: trial.tag,
            point: point_bytes(self.space, &trial.point),
        }
    }

    // Some trials as bytes, in front: no block has room for more than fifty. An array, and no `Vec`: an archive has no heap.
    fn part_bytes(&self, part: &[Trial<S::Point>]) -> [TrialBytes; 50]
        requires { length part.now ≤ 50 }
        ensures value { map (trial_item (S.Space.meaning self.now.space.now).objectives) (take (length part.now) result) ≡ map (item_for (S.Recorded.recording self.now.space.now)) part.now }
        ensures writable { EachIn part.now (λ r. WritableIfAdmitted (S.Space.meaning self.now.space.now) (S.Recorded.recording self.now.space.now) r.point) }
    {
        let mut bytes = [TrialBytes {
            tag: 0,
            point: [0; 24],
        }; 50];
        // by place: what is written through a zipped `iter_mut` is not known afterwards
        for (i, trial) in part.iter().enumerate() {
            bytes[i] = self.trial_bytes(trial);
        }
        bytes
    }

    // Writes these trials, for which there is room, over the whole of a block.
    fn write_part(&self, part: &[Trial<S::Point>], number: usize, block: &mut [u8])
        requires few { length part.now ≤ per_block (S.Space.meaning self.now.space.now) }
        requires fits { (number < 2 ^ 32) × (length block.old ≡ 512) }
        ensures after { block.new ≡ block_of (S.Space.meaning self.now.space.now).objectives number (map (item_for (S.Recorded.recording self.now.space.now)) part.now) }
        ensures writable { EachIn part.now (λ r. WritableIfAdmitted (S.Space.meaning self.now.space.now) (S.Recorded.recording self.now.space.now) r.point) }
    {
        let bytes = self.part_bytes(part);
        let (trials, _) = bytes.split_at(part.len());
        write_trials(block, self.space.objectives() as u8, number, trials);
    }
}

// Writes these trials over the whole of a block, as far as it has room for them.
fn write_trials(block: &mut [u8], objectives: u8, number: usize, trials: &[TrialBytes])
    requires { number < 2 ^ 32 }
    ensures { block.new ≡ written_over objectives number trials.now block.old }
{
    let _ = write(block, objectives, number as u32, trials);
}

impl<S: Recorded> Archive<S> {
    // How many blocks the members are saved as: as many as they fill, and one if there is no member.
    pub fn blocks(&self) -> usize
        ensures { (held : List (TrialOf S.Point)) → result ≡ blocks_of (S.Space.meaning self.now.space) (lending self.now held []) }
    {
        Layout::new(&self.space).block_count(self.count)
    }

    // The save that `save` hands on.
    // Apart from `save`: this proof cites a law of the space in a file, and a wrong `save` is to be refused at its own line.
    fn save_members(
        &self,
        rows: &[Trial<S::Point>],
        number: usize,
        block: &mut [u8],
    ) -> Result<usize, Denial>
        ensures { SaveRight (S.Space.meaning self.now.space) (S.Recorded.recording self.now.space) number (lending self.now rows.now []) block.old result block.new }
    {
        let members = self.members(rows)?;
        if block.len() != 512 {
            return Err(Denial::WrongLength);
        }
        let layout = Layout::new(&self.space);
        if layout.block_count(members.len()) <= number {
            return Err(Denial::NoSuchBlock);
        }
        let part = layout.part(members, number);
        layout.write_part(part, number, block);
        Ok(part.len())
    }

    // Writes a block of the members, counted from 0, over the whole of the lent block, and answers how many members are in it.
    pub fn save(
        &self,
        rows: &[Trial<S::Point>],
        number: usize,
        block: &mut [u8],
    ) -> Result<usize, Denial>
        ensures { SaveRight (S.Space.meaning self.now.space) (S.Recorded.recording self.now.space) number (lending self.now rows.now []) block.old result block.new }
    {
        self.save_members(rows, number, block)
    }
}
