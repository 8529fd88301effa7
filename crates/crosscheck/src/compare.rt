// One call on both archives, and everything that it answers and writes compared.
use crate::apart::{Stop, same, same_told};
use crate::bridge::Figured;
use crate::case::Case;
use crate::figures::Point;
use crate::histories::{Call, Task};
use crate::house::{Lent, Sizes, ask};
use crate::replays::Both;
use crate::reply::{Reply, Written, reply_of};
use crate::second::{Member, Second};
use crate::tally::Tally;
use crate::told::Told;
use space::{Recorded, Trial};
use std::alloc::AllocError;

// A call on the second archive.
pub(crate) fn answer(second: &mut Second, sizes: &Sizes, call: &Call) -> Result<Reply, AllocError> {
    let rows = sizes.rows(call.rows);
    match &call.task {
        Task::Offer { room, tag, point } => {
            let said = second.offer(rows, (*room).min(sizes.more), *tag, point);
            reply_of(said, Reply::judged)
        }
        Task::Feed { block } => reply_of(second.feed(rows, block.as_slice()), Reply::fed),
        Task::Audit => reply_of(second.audit(rows), Reply::audited),
        Task::List { room } => {
            reply_of(second.list(rows, (*room).min(sizes.more)), Reply::listed)
        }
        Task::Save { number, size } => {
            let said = second.save(rows, *number, (*size).min(sizes.block));
            reply_of(said, Reply::saved)
        }
    }
}

// A row by its tag and its figures, since a point of any space has these alone.
fn plain<P: Figured>(row: &Trial<P>) -> (u32, Point) {
    (row.tag, row.point.figures())
}

// Whether the first rows, so many, hold these members, each point with its own tag, in order.
pub(crate) fn hold_members<P: Figured>(
    rows: &[Trial<P>],
    count: usize,
    members: &[Member],
) -> bool {
    let held = rows.iter().take(count).map(plain);
    held.eq(members.iter().map(|member| (member.tag, member.point)))
}

// Whether rows hold what others hold.
pub(crate) fn same_rows<P: Figured>(rows: &[Trial<P>], others: &[Trial<P>]) -> bool {
    rows.iter().map(plain).eq(others.iter().map(plain))
}

// How often a tag is among these.
fn times(tags: &[u32], tag: u32) -> usize {
    tags.iter().filter(|other| **other == tag).count()
}

// Whether the front, this long, is as it should be, and the rest as it was.
fn front_fits<T: Eq, F: FnOnce(&[T]) -> bool>(
    before: &[T],
    after: &[T],
    long: usize,
    fits: F,
) -> bool
    requires { F.IsAlwaysCallable fits }
{
    match (before.split_at_checked(long), after.split_at_checked(long)) {
        (Some((_, rest_before)), Some((front, rest))) => rest == rest_before && fits(front),
        _ => false,
    }
}

// Whether the list has the tags that were written, if some were, and the rest is as it was.
fn list_fits(before: &[u32], after: &[u32], written: &Written) -> bool {
    match written {
        Written::Tags(tags) => front_fits(before, after, tags.len(), |front| {
            let tags = tags.as_slice();
            tags.iter()
                .all(|tag| times(front, *tag) == times(tags, *tag))
        }),
        Written::List(tags) => {
            front_fits(before, after, tags.len(), |front| front == tags.as_slice())
        }
        Written::Nothing | Written::Block(_) => before == after,
    }
}

// Whether the lent block has the block that was written, if one was, and the rest is as it was.
fn block_fits(before: &[u8], after: &[u8], written: &Written) -> bool {
    match written {
        Written::Block(block) => {
            front_fits(
                before,
                after,
                block.len(),
                |front| front == block.as_slice(),
            )
        }
        Written::Nothing | Written::Tags(_) | Written::List(_) => before == after,
    }
}

// Whether this told of a refusal.
fn is_refusal(told: &Told) -> bool {
    matches!(told, Told::Denied(_) | Told::Refused(_))
}

// All that a call may have written: the rows, the list, the block.
fn hold_writes<P: Figured>(
    before: &Lent<P>,
    after: &Lent<P>,
    count: usize,
    reply: &Reply,
    members: &[Member],
) -> Result<(), Stop> {
    let own = after.own.as_slice();
    same(
        hold_members(own, count, members),
        "the members, or their tags, or their order",
    )?;
    same(
        !is_refusal(&reply.told) || same_rows(own, before.own.as_slice()),
        "rows that a refused call altered",
    )?;
    same(
        same_rows(after.strange.as_slice(), before.strange.as_slice()),
        "strange rows that a call altered",
    )?;
    same(
        list_fits(
            before.list.as_slice(),
            after.list.as_slice(),
            &reply.written,
        ),
        "the tags in the list",
    )?;
    same(
        block_fits(
            before.block.as_slice(),
            after.block.as_slice(),
            &reply.written,
        ),
        "the bytes of the block",
    )
}

impl<S: Recorded> Case<'_, S>
where
    S::Point: Figured,
{
    // One call on both.
    pub(crate) fn hold_call(
        &self,
        both: &mut Both<S>,
        call: &Call,
        tally: &mut Tally,
    ) -> Result<Told, Stop> {
        let before = both.lent.clone()?;
        let told = ask(&mut both.archive, &mut both.lent, call);
        let reply = answer(&mut both.second, &Sizes::of(self.history), call)?;
        let count = both.archive.count();
        let members = both.second.members.as_slice();
        tally.told(&reply.told);
        same_told(told, reply.told, "the answers")?;
        same(count == members.len(), "the number of members")?;
        hold_writes(&before, &both.lent, count, &reply, members)?;
        Ok(told)
    }
}
