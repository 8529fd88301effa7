// What an archive saves, and what is restored from it, on both.
use crate::apart::{Stop, same, same_told};
use crate::blocks::BLOCK;
use crate::bridge::Figured;
use crate::case::Case;
use crate::compare::{hold_members, same_rows};
use crate::failed::Failed;
use crate::figures::PLACES;
use crate::house::rows_of;
use crate::replays::Both;
use crate::second::{Restored, Second, restore as restore_second};
use crate::tally::{Tally, one_more};
use crate::told::{Fed, NotRestored, Told};
use archive::{Archive, restore};
use space::{Recorded, Trial};
use std::alloc::{AllocError, Global};

// The blocks as parts that are lent.
fn parts_of<'a>(heap: Global, blocks: &'a [Vec<u8>]) -> Result<Vec<&'a [u8]>, AllocError> {
    blocks.iter().map(|block| block.as_slice()).collect(heap)
}

impl<S: Recorded + Copy> Case<'_, S>
where
    S::Point: Figured,
{
    // Every block of the members, as both archives write it.
    fn hold_saves(
        &self,
        archive: &Archive<S>,
        rows: &[Trial<S::Point>],
        second: &Second,
        tally: &mut Tally,
    ) -> Result<Vec<Vec<u8>>, Stop> {
        let blocks = second.all_blocks()?;
        tally.members = tally.members.max(second.members.len());
        tally.most_blocks = tally.most_blocks.max(blocks.len());
        same(archive.blocks() == blocks.len(), "the number of blocks")?;
        let mut lent = vec![in self.heap; 99u8; BLOCK]?;
        for (k, block) in blocks.iter().enumerate() {
            let saved = archive.save(rows, k, lent.as_mut_slice()).is_ok();
            same(saved, "whether a block is saved")?;
            same(lent.as_slice() == block.as_slice(), "the bytes of a block")?;
            one_more(&mut tally.blocks);
        }
        Ok(blocks)
    }

    // The block that a restore is given in front, if any, and the others.
    fn with_first(&self, blocks: Vec<Vec<u8>>) -> Result<Vec<Vec<u8>>, AllocError> {
        let mut all = Vec::new(self.heap);
        if let Some(first) = &self.history.restore_first {
            all.push(first.clone()?)?;
        }
        all.extend(blocks)?;
        Ok(all)
    }

    // What is restored: the members, what the trials came to, and the blocks that it saves in turn.
    fn hold_restored(
        &self,
        first: &archive::Restored<S>,
        rows: &[Trial<S::Point>],
        second: &Restored,
        tally: &mut Tally,
    ) -> Result<(), Stop> {
        same_told(
            Told::Fed(Fed::from(first.fed)),
            Told::Fed(second.fed),
            "what a restore told",
        )?;
        same(
            hold_members(
                rows,
                first.archive.count(),
                second.archive.members.as_slice(),
            ),
            "the members that are restored",
        )?;
        let _ = self.hold_saves(&first.archive, rows, &second.archive, tally)?;
        one_more(&mut tally.restored);
        Ok(())
    }

    // The blocks of the members restored by both archives, behind another block at times.
    pub(crate) fn hold_restore(&self, both: &Both<S>, tally: &mut Tally) -> Result<(), Stop> {
        let Case { heap, history, .. } = *self;
        let own = both.lent.own.as_slice();
        let saved = self.hold_saves(&both.archive, own, &both.second, tally)?;
        let blocks = self.with_first(saved)?;
        let mut rows = rows_of::<S::Point>(heap, history.restore_rows, 5, &[3; PLACES])?;
        let before = rows.clone()?;
        let parts = parts_of(heap, blocks.as_slice())?;
        let first = restore(self.space, rows.as_mut_slice(), parts.as_slice());
        let second = restore_second(heap, self.rules, history.restore_rows, blocks.as_slice());
        match (first, second) {
            (Ok(first), Ok(second)) => self.hold_restored(&first, rows.as_slice(), &second, tally),
            (Err(first), Err(Failed::For(second))) => {
                same(
                    NotRestored::from(first.fault) == second,
                    "why nothing is restored",
                )?;
                same(
                    same_rows(rows.as_slice(), before.as_slice()),
                    "rows that a refused restore altered",
                )?;
                one_more(&mut tally.not_restored);
                tally.denial(second.number());
                Ok(())
            }
            (_, Err(Failed::Memory(failed))) => Err(Stop::from(failed)),
            _ => Err(Stop::apart("whether an archive is restored")),
        }
    }
}
