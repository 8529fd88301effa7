// The first archive, asked by its own calls, with what it is lent.
use crate::bridge::{Figured, told};
use crate::figures::{PLACES, Point};
use crate::histories::{Call, History, Task};
use crate::told::{Fed, Told};
use archive::Archive;
use space::{Recorded, Trial};
use std::alloc::{AllocError, Global};

// How much the calls of a history can be lent: the archive's own rows, strange rows and a list, and a block.
#[derive(Clone, Copy)]
pub(crate) struct Sizes {
    own: usize,
    pub more: usize,
    pub block: usize,
}

impl Sizes {
    // As much as every call of this history may ask for.
    pub(crate) fn of(history: &History) -> Sizes {
        Sizes {
            own: history.rows,
            more: history.rows.saturating_add(2),
            block: 520,
        }
    }

    // How many rows are lent where so many are wanted: the archive's own or strange ones.
    pub(crate) fn rows(&self, want: usize) -> usize {
        if want == self.own {
            self.own
        } else {
            want.min(self.more)
        }
    }
}

// What the calls of a history are lent: the archive's own rows, strange rows, a list and a block.
#[derive(Clone, Drop)]
pub(crate) struct Lent<P: Copy> {
    pub own: Vec<Trial<P>>,
    pub strange: Vec<Trial<P>>,
    pub list: Vec<u32>,
    pub block: Vec<u8>,
}

// Rows with the same trial throughout.
pub(crate) fn rows_of<P: Figured>(
    heap: Global,
    count: usize,
    tag: u32,
    point: &Point,
) -> Result<Vec<Trial<P>>, AllocError> {
    let row = Trial {
        point: P::of_figures(point),
        tag,
    };
    Ok(vec![in heap; row; count]?)
}

// What is lent, before any call.
pub(crate) fn lent_of<P: Figured>(heap: Global, sizes: &Sizes) -> Result<Lent<P>, AllocError> {
    Ok(Lent {
        own: rows_of(heap, sizes.own, 7, &[0; PLACES])?,
        strange: rows_of(heap, sizes.more, 9, &[1; PLACES])?,
        list: vec![in heap; 77; sizes.more]?,
        block: vec![in heap; 88; sizes.block]?,
    })
}

// The rows that are lent where so many are wanted. Both kinds are parameters and not all that is lent, since a call borrows the
// list or the block beside them.
fn rows_for<'a, P: Copy>(
    own: &'a mut Vec<Trial<P>>,
    strange: &'a mut Vec<Trial<P>>,
    want: usize,
) -> &'a mut [Trial<P>] {
    if want == own.len() {
        return own.as_mut_slice();
    }
    let count = want.min(strange.len());
    &mut strange.as_mut_slice()[..count]
}

// One call on the first archive.
pub(crate) fn ask<S: Recorded>(
    archive: &mut Archive<S>,
    lent: &mut Lent<S::Point>,
    call: &Call,
) -> Told
where
    S::Point: Figured,
{
    let rows = rows_for(&mut lent.own, &mut lent.strange, call.rows);
    let list = lent.list.as_mut_slice();
    match &call.task {
        Task::Offer { room, tag, point } => {
            let trial = Trial {
                point: S::Point::of_figures(point),
                tag: *tag,
            };
            let room = (*room).min(list.len());
            told(archive.offer(trial, rows, &mut list[..room]), Told::from)
        }
        Task::Feed { block } => {
            told(
                archive.feed(block.as_slice(), rows),
                |fed| Told::Fed(Fed::from(fed)),
            )
        }
        Task::Audit => told(archive.audit(rows), Told::Audited),
        Task::List { room } => {
            let room = (*room).min(list.len());
            told(archive.list(rows, &mut list[..room]), Told::Listed)
        }
        Task::Save { number, size } => {
            let size = (*size).min(lent.block.len());
            let block = &mut lent.block.as_mut_slice()[..size];
            told(archive.save(rows, *number, block), Told::Saved)
        }
    }
}
