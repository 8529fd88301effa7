// Restore: a fresh archive from saved blocks.
ghost use Rattle.std.specs.Prelude.{◌≡◌, ℕ, List, [], ◌∷◌, ◌++◌, map, length, Some, None, MatchResult};
ghost use Rattle.space.specs.Recording.{FourEach, read_point};
ghost use Rattle.history.specs.Theorems.{RoundTrip};
ghost use Rattle.archive.specs.Lent.{lending};
ghost use Rattle.archive.specs.Restoring.{FedAll, RestoreRight, first_at_fault, restore_fault};
ghost use Rattle.archive.specs.Standing.{Begins};

use crate::holding::Archive;
use crate::making::Refused;
use history::{Denial, Fed};
use log_block::{Fault, check};
use space::{Recorded, Trial};

// The archive, and what the trials of all blocks came to. Each number stays at the greatest of its type.
#[derive(Drop)]
pub struct Restored<S> {
    pub archive: Archive<S>,
    pub fed: Fed,
}

// Why nothing is restored.
#[derive(Clone, Copy, PartialEq, Eq, Debug)]
pub enum RestoreFault {
    // no archive is made over these rows
    Denied(Denial),
    // the first block at fault, counted from 0, with its whole fault
    Block { index: usize, fault: Fault },
}

// The space that an archive was to be restored for, and why it is not.
#[derive(Clone, Copy, Drop)]
pub struct Unrestored<S> {
    pub space: S,
    pub fault: RestoreFault,
}

impl<S> From<Refused<S>> for Unrestored<S> {
    ghost use Rattle.archive.specs.declared.restoring.RestoreFault.TheVariants.{Denied};

    ghost from_gives = { λ r u. (u.space ≡ r.space) × (u.fault ≡ Denied r.denial) };

    fn from(refused: Refused<S>) -> Unrestored<S> {
        Unrestored {
            space: refused.space,
            fault: RestoreFault::Denied(refused.denial),
        }
    }
}

// How many objectives a recorded space has, as a block says it.
fn objectives_of<S: Recorded>(space: &S) -> u8
    ensures value { result ≡ (S.Space.meaning space.now).objectives }
    ensures four_each { FourEach (S.Space.meaning space.now) (S.Recorded.recording space.now) }
{
    (space.width() / 4) as u8
}

// Checks all of these blocks: the first that is at fault is told.
fn check_all(objectives: u8, blocks: &[&[u8]]) -> Result<(), RestoreFault>
    ensures { MatchResult result (λ _. first_at_fault objectives 0 (map (λ b. b.now) blocks.now) ≡ None) (λ f. first_at_fault objectives 0 (map (λ b. b.now) blocks.now) ≡ Some f) }
{
    for (index, block) in blocks.iter().enumerate() {
        // with `map_err` and `?` the proof does not learn what the closure gave
        if let Err(fault) = check(block, objectives) {
            return Err(RestoreFault::Block { index, fault });
        }
    }
    Ok(())
}

// Feeds one block more, after some whose sum is given. A refused feed tells of no trials.
fn feed_more<S: Recorded>(
    archive: &mut Archive<S>,
    rows: &mut [Trial<S::Point>],
    total: Fed,
    block: &[u8],
) -> Fed
    ensures { (space : S) (fed : List (List ℕ)) → archive.old.space ≡ space → FedAll (S.Space.meaning space) (read_point (S.Recorded.recording space)) fed total (lending archive.old rows.old []) → (archive.new.space ≡ space) × FedAll (S.Space.meaning space) (read_point (S.Recorded.recording space)) (fed ++ block.now ∷ []) result (lending archive.new rows.new []) }
{
    total.saturating_add(archive.feed(block, rows).unwrap_or_default())
}

// Feeds all blocks to an archive that has just been made, in order.
fn feed_all<S: Recorded>(
    archive: &mut Archive<S>,
    rows: &mut [Trial<S::Point>],
    blocks: &[&[u8]],
) -> Fed
    requires { Begins (S.Space.meaning archive.old.space) archive.old.rows archive.old.count rows.old }
    ensures space { archive.new.space ≡ archive.old.space }
    ensures right { FedAll (S.Space.meaning archive.old.space) (read_point (S.Recorded.recording archive.old.space)) (map (λ b. b.now) blocks.now) result (lending archive.new rows.new []) }
{
    let mut total = Fed::default();
    for block in blocks {
        total = feed_more(archive, rows, total, block);
    }
    total
}

// The restore that `restore` hands on.
// Apart from `restore`: this proof cites a law of the space in a file, and a wrong `restore` is to be refused at its own line.
#[tactic(auto, using(history::proofs::Feeds::round_trip))]
fn restore_all<S: Recorded>(
    space: S,
    rows: &mut [Trial<S::Point>],
    blocks: &[&[u8]],
) -> Result<Restored<S>, Unrestored<S>>
    ensures value { MatchResult result (λ r. (restore_fault (S.Space.meaning space) (length rows.old) (map (λ b. b.now) blocks.now) ≡ None) × (r.archive.space ≡ space) × RestoreRight (S.Space.meaning space) (S.Recorded.recording space) (map (λ b. b.now) blocks.now) r.fed (lending r.archive rows.new [])) (λ e. (restore_fault (S.Space.meaning space) (length rows.old) (map (λ b. b.now) blocks.now) ≡ Some e.fault) × (e.space ≡ space) × (rows.new ≡ rows.old)) }
    ensures law { RoundTrip S.Point }
{
    let objectives = objectives_of(&space);
    let mut archive = Archive::new(space, rows)?;
    // by `if let`: the closure of a `map_err` would take the archive, whose space is handed back
    if let Err(fault) = check_all(objectives, blocks) {
        let Archive { space, .. } = archive;
        return Err(Unrestored { space, fault });
    }
    let fed = feed_all(&mut archive, rows, blocks);
    Ok(Restored { archive, fed })
}

// A fresh archive of this space over the rows, from saved blocks, in order. Every block is checked before the first trial is
// offered.
pub fn restore<S: Recorded>(
    space: S,
    rows: &mut [Trial<S::Point>],
    blocks: &[&[u8]],
) -> Result<Restored<S>, Unrestored<S>>
    ensures value { MatchResult result (λ r. (restore_fault (S.Space.meaning space) (length rows.old) (map (λ b. b.now) blocks.now) ≡ None) × (r.archive.space ≡ space) × RestoreRight (S.Space.meaning space) (S.Recorded.recording space) (map (λ b. b.now) blocks.now) r.fed (lending r.archive rows.new [])) (λ e. (restore_fault (S.Space.meaning space) (length rows.old) (map (λ b. b.now) blocks.now) ≡ Some e.fault) × (e.space ≡ space) × (rows.new ≡ rows.old)) }
    ensures law { RoundTrip S.Point }
{
    restore_all(space, rows, blocks)
}
