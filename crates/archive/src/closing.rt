// Closing up rows in place.
ghost use Rattle.std.specs.Prelude.{◌≡◌, ◌<◌, length, slice_index_or, slice_set};
ghost use Rattle.space.specs.declared.tagged.Trial.{Trial as TrialOf};
ghost use Rattle.history.specs.Step.{below};
ghost use Rattle.archive.specs.Offering.{Closed};

use crate::boxing::Boxed;
use space::{Space, Trial};

// Copies a row to another place, its point and its tag together.
fn copy_row<P: Copy>(rows: &mut [Trial<P>], from: usize, to: usize)
    requires { (from < length rows.old) × (to < length rows.old) }
    ensures { (row : TrialOf P) → rows.new ≡ slice_set rows.old to (slice_index_or rows.old from row) }
{
    let row = rows[from];
    rows[to] = row;
}

// Writes a tag to the list, if the list has a place for it.
pub(crate) fn note(list: &mut [u32], at: usize, tag: u32)
    ensures { list.new ≡ slice_set list.old at tag }
{
    // by index: what is written through `get_mut` is not known afterwards
    if at < list.len() {
        list[at] = tag;
    }
}

impl<S: Space> Boxed<'_, S> {
    // Those members close up that stay, in their order: all whose box the trial's box does not dominate. The tags of the others
    // are written to the front of the list, as far as it reaches. Answers how many stay.
    pub(crate) fn close_up(&self, members: &mut [Trial<S::Point>], gone: &mut [u32]) -> usize
        ensures { Closed (below (S.Space.meaning self.now.space.now) self.now.trial) members.old gone.old result members.new gone.new }
    {
        let mut stay = 0;
        let mut went = 0;
        // by index, since what stays is written to the front of the rows that are still read
        for i in 0..members.len() {
            if self.tops(&members[i]) {
                note(gone, went, members[i].tag);
                went += 1;
            } else {
                copy_row(members, i, stay);
                stay += 1;
            }
        }
        stay
    }
}
