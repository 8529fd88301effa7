// Feed: the trials of a block of a log are tried one after the other.
ghost use Rattle.std.specs.Prelude.{◌≡◌, ◌≤◌, [], ◌∷◌, length, Ok};
ghost use Rattle.space.specs.Recording.{read_point};
ghost use Rattle.log_block.specs.Reading.{left_to_read, seen_at};
ghost use Rattle.history.specs.BlockTrials.{trials_of};
ghost use Rattle.archive.specs.Feeding.{FeedRight, TakenRight, TriedRight};
ghost use Rattle.archive.specs.Held.{held_by};
ghost use Rattle.archive.specs.Knowing.{KnowsIfTold, MeetsAlone, Roomy};
ghost use Rattle.archive.specs.Lent.{lending};

use crate::boxing::dominates;
use crate::holding::Archive;
use crate::knowing::{Glance, Known};
use crate::members::Members;
use crate::offering::{passed_over, step};
use crate::summing::one_fed;
use history::{Denial, Fed, FeedFault, Offered};
use log_block::{Placed, Record, Records, check};
use space::{Recorded, Space, Trial, read_or_blank};

// A trial of a block that has to be read: it is denied off the grid, and else judged. There is no list for the tags of those that go.
fn try_trial<S: Space>(
    space: &S,
    trial: Trial<S::Point>,
    members: &mut Members<'_, S::Point>,
) -> Result<Offered, Denial>
    ensures { TriedRight (S.Space.meaning space.now) trial members.old result members.new }
{
    let Some(look) = space.look(&trial.point, members.as_slice()) else {
        return Err(Denial::OffGrid);
    };
    step(space, trial, members, look, &mut [])
}

// A trial whose box is that of the member in this row, and equals or dominates no other: the two decide alone.
fn meet<S: Space>(
    space: &S,
    trial: Trial<S::Point>,
    row: usize,
    members: &mut Members<'_, S::Point>,
) -> Offered
    requires { MeetsAlone (S.Space.meaning space.now) trial row (held_by members.old) }
    ensures { TriedRight (S.Space.meaning space.now) trial members.old (Ok result) members.new }
{
    let rival = &members.as_slice()[row];
    if dominates(space, &trial.point, &rival.point) {
        members.replace(row, trial, &mut [])
    } else {
        passed_over()
    }
}

// A trial of a block, by the bytes of its point: what is known of the members tells of most trials that they are passed over, and then
// there is no point to be read.
fn try_bytes<S: Recorded>(
    space: &S,
    tag: u32,
    bytes: &[u8],
    known: &Known,
    members: &mut Members<'_, S::Point>,
) -> Result<Offered, Denial>
    requires { KnowsIfTold (S.Space.meaning space.now) (S.Recorded.recording space.now) (held_by members.old) known.now }
    ensures { TriedRight (S.Space.meaning space.now) (record { point = read_point (S.Recorded.recording space.now) bytes.now; tag = tag }) members.old result members.new }
{
    let glance = known.glance(bytes);
    if let Glance::Shut = glance {
        return Ok(passed_over());
    }
    let trial = Trial {
        point: read_or_blank(space, bytes),
        tag,
    };
    match glance {
        Glance::Rival(row) => Ok(meet(space, trial, row, members)),
        _ => try_trial(space, trial, members),
    }
}

// A record of a block: a note is skipped, and a trial is tried.
fn take_record<S: Recorded>(
    space: &S,
    placed: Placed<'_>,
    known: &Known,
    members: &mut Members<'_, S::Point>,
) -> Fed
    requires { KnowsIfTold (S.Space.meaning space.now) (S.Recorded.recording space.now) (held_by members.old) known.now }
    ensures { TakenRight (S.Space.meaning space.now) (trials_of (read_point (S.Recorded.recording space.now)) (seen_at placed.entry ∷ [])) members.old result members.new }
{
    match placed.record {
        Record::Trial { tag, point } => one_fed(
            placed.place,
            try_bytes(space, tag, point, known, members),
        ),
        Record::Note(_) => Fed::default(),
    }
}

// After so many records in a row of which none entered, more of the kind are likely, and the spans of all members are worth asking.
const IDLE: usize = 4;

// Where a block has a record for so many members at least, the spans are worth asking for its first trial.
const MEMBERS_A_RECORD: usize = 8;

// Learns the spans of the members for this record, if it is a trial, they are not known, and it is worth it.
fn prepare<S: Recorded>(
    space: &S,
    placed: &Placed<'_>,
    idle: usize,
    known: &mut Known,
    members: &[Trial<S::Point>],
)
    requires room { Roomy known.old.most × Roomy known.old.least }
    requires known { KnowsIfTold (S.Space.meaning space.now) (S.Recorded.recording space.now) members.now known.old }
    ensures room { Roomy known.new.most × Roomy known.new.least }
    ensures known { KnowsIfTold (S.Space.meaning space.now) (S.Recorded.recording space.now) members.now known.new }
{
    if let Record::Trial { .. } = placed.record
        && idle >= IDLE
        && !known.is_told()
    {
        known.learn(space, members);
    }
}

// All records of a block, in order. How many the block says they are decides alone how soon the spans of the members are asked.
fn take_records<S: Recorded>(
    space: &S,
    records: Records<'_>,
    count: u8,
    members: &mut Members<'_, S::Point>,
) -> Fed
    requires known { members.old.count ≤ 4096 }
    requires few { length (left_to_read records) ≤ 255 }
    ensures { TakenRight (S.Space.meaning space.now) (trials_of (read_point (S.Recorded.recording space.now)) (left_to_read records.entry)) members.old result members.new }
{
    let mut known = Known::nothing();
    let worth = members.count <= MEMBERS_A_RECORD * usize::from(count);
    let mut idle = if worth { IDLE } else { 0 };
    let mut fed = Fed::default();
    for placed in records {
        prepare(space, &placed, idle, &mut known, members.as_slice());
        let came = take_record(space, placed, &known, members);
        idle = idle.saturating_add(1);
        if came.entered > 0 {
            known.forget();
            idle = 0;
        }
        fed = fed.saturating_add(came);
    }
    fed
}

impl<S: Recorded> Archive<S> {
    // A feed, check by check.
    // Apart from `feed`: this proof cites a law of the space in a file, and a wrong `feed` is to be refused at its own line.
    fn take_block(&mut self, block: &[u8], rows: &mut [Trial<S::Point>]) -> Result<Fed, FeedFault>
        ensures space { self.new.space ≡ self.old.space }
        ensures right { FeedRight (S.Space.meaning self.old.space) (read_point (S.Recorded.recording self.old.space)) block.now (lending self.old rows.old []) result (lending self.new rows.new []) }
    {
        if rows.len() != self.rows {
            return Err(FeedFault::StrangeRows);
        }
        let records = check(block, self.space.objectives() as u8)?;
        let mut members = Members {
            rows,
            count: self.count,
        };
        let count = block.get(1).copied().unwrap_or(0);
        let fed = take_records(&self.space, records, count, &mut members);
        self.count = members.count;
        Ok(fed)
    }

    // Offers the trials of a block of a log, in order, to the archive over its own rows. The whole block is checked before; a
    // denied trial does not stop the rest.
    pub fn feed(&mut self, block: &[u8], rows: &mut [Trial<S::Point>]) -> Result<Fed, FeedFault>
        ensures space { self.new.space ≡ self.old.space }
        ensures right { FeedRight (S.Space.meaning self.old.space) (read_point (S.Recorded.recording self.old.space)) block.now (lending self.old rows.old []) result (lending self.new rows.new []) }
    {
        self.take_block(block, rows)
    }
}
