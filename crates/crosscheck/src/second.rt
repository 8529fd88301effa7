// The second archive, written from the definitions as plain sets: a trial's box that dominates members' boxes sends these
// away, within one box a trial that dominates the member takes its place, and a trial whose box a member's equals or dominates
// is passed over. This file is what is believed; everything else is held against it.
use crate::blocks::{BLOCK, Fault, Found, Layer, read_block, trials_to_a_block, write_block};
use crate::denial::Denial;
use crate::failed::Failed;
use crate::figures::{Point, Rules, admits, boxes, dominates, worths};
use crate::numbered::Numbered;
use crate::told::{Fed, NotRestored};
use crate::verdict::Verdict;
use std::alloc::{AllocError, Global};

// The most rows that an archive may have.
const MOST_ROWS: usize = 4096;

// A trial with its worths, and with its box.
#[derive(Clone, Copy)]
pub(crate) struct Member {
    pub tag: u32,
    pub point: Point,
    pub worths: Point,
    pub boxes: Point,
}

impl Member {
    // A trial with what is said of its point.
    pub(crate) fn new(rules: &Rules, tag: u32, point: Point) -> Member {
        Member {
            tag,
            point,
            worths: worths(rules, &point),
            boxes: boxes(rules, &point),
        }
    }

    // Whether this trial and the other may not be members together.
    fn clashes_with(&self, other: &Member) -> bool {
        self.boxes == other.boxes
            || dominates(&self.boxes, &other.boxes)
            || dominates(&other.boxes, &self.boxes)
    }
}

// How a trial fared that was judged: its verdict, and the tags of the members that went.
#[derive(Drop)]
pub(crate) struct Judged {
    pub verdict: Verdict,
    pub gone: Vec<u32>,
}

// The rules of its space, how many rows it has, and its members, the eldest first.
#[derive(Drop)]
pub(crate) struct Second {
    heap: Global,
    rules: Rules,
    rows: usize,
    pub members: Vec<Member>,
}

impl Second {
    // An archive with no members.
    pub(crate) fn new(heap: Global, rules: Rules, rows: usize) -> Result<Second, Denial> {
        if rows == 0 {
            return Err(Denial::NoRows);
        }
        if rows > MOST_ROWS {
            return Err(Denial::Overlong);
        }
        Ok(Second {
            heap,
            rules,
            rows,
            members: Vec::new(heap),
        })
    }

    // Goes on where as many rows are lent as at the making.
    fn check_rows(&self, rows: usize) -> Result<(), Denial> {
        if rows == self.rows {
            Ok(())
        } else {
            Err(Denial::StrangeRows)
        }
    }

    // The rows whose members' boxes the trial's box dominates.
    fn rows_below(&self, trial: &Member) -> Result<Vec<usize>, AllocError> {
        self.members
            .iter()
            .enumerate()
            .filter(|(_, member)| dominates(&trial.boxes, &member.boxes))
            .map(|(row, _)| row)
            .collect(self.heap)
    }

    // The lowest row whose member has the trial's box and is dominated by the trial.
    fn row_beaten(&self, trial: &Member) -> Option<usize> {
        self.members.iter().position(|member| member.boxes == trial.boxes
            && dominates(&trial.worths, &member.worths))
    }

    // Whether some member's box equals the trial's or dominates it.
    fn is_shut_out(&self, trial: &Member) -> bool {
        self.members.iter().any(|member| member.boxes == trial.boxes
            || dominates(&member.boxes, &trial.boxes))
    }

    // The members become those in other rows than these, and the trial after them. Says which tags went.
    fn trade(&mut self, rows: &[usize], trial: Member) -> Result<Vec<u32>, AllocError> {
        let mut stay = Vec::new(self.heap);
        let mut gone = Vec::new(self.heap);
        for (row, member) in self.members.iter().enumerate() {
            if rows.contains(&row) {
                gone.push(member.tag)?;
            } else {
                stay.push(*member)?;
            }
        }
        stay.push(trial)?;
        self.members = stay;
        Ok(gone)
    }

    // A trial on the grid goes against the members.
    fn update(&mut self, trial: Member) -> Result<Judged, Failed<Denial>> {
        let below = self.rows_below(&trial)?;
        if !below.is_empty() {
            return Ok(self.enter(Verdict::Displaced, below.as_slice(), trial)?);
        }
        if let Some(row) = self.row_beaten(&trial) {
            return Ok(self.enter(Verdict::Replaced, &[row], trial)?);
        }
        if self.is_shut_out(&trial) {
            return Ok(Judged {
                verdict: Verdict::PassedOver,
                gone: Vec::new(self.heap),
            });
        }
        if self.members.len() >= self.rows {
            return Err(Failed::For(Denial::Full));
        }
        Ok(self.enter(Verdict::Entered, &[], trial)?)
    }

    // The trial enters with this verdict, and the members in these rows go.
    fn enter(
        &mut self,
        verdict: Verdict,
        rows: &[usize],
        trial: Member,
    ) -> Result<Judged, AllocError> {
        let gone = self.trade(rows, trial)?;
        Ok(Judged { verdict, gone })
    }

    // An offer over so many rows and so long a list.
    pub(crate) fn offer(
        &mut self,
        rows: usize,
        room: usize,
        tag: u32,
        point: &Point,
    ) -> Result<Judged, Failed<Denial>> {
        self.check_rows(rows)?;
        if room < self.rows {
            return Err(Failed::For(Denial::ShortList));
        }
        if !admits(&self.rules, point) {
            return Err(Failed::For(Denial::OffGrid));
        }
        let trial = Member::new(&self.rules, tag, *point);
        self.update(trial)
    }

    // The first pair of rows that may not stand, the lowest first; a row with itself where its trial is off the grid.
    fn first_clash(&self) -> Option<(usize, usize)> {
        let mut rows = self.members.iter().enumerate();
        rows.find_map(|(i, one)| {
            if !admits(&self.rules, &one.point) {
                return Some((i, i));
            }
            let mut later = self.members.iter().enumerate().skip(i.saturating_add(1));
            later
                .find(|(_, other)| one.clashes_with(other))
                .map(|(j, _)| (i, j))
        })
    }

    // An audit over so many rows.
    pub(crate) fn audit(&self, rows: usize) -> Result<Option<(usize, usize)>, Failed<Denial>> {
        self.check_rows(rows)?;
        Ok(self.first_clash())
    }

    // A list over so many rows and so long a list: the tags, in the order of the members.
    pub(crate) fn list(&self, rows: usize, room: usize) -> Result<Vec<u32>, Failed<Denial>> {
        self.check_rows(rows)?;
        if room < self.members.len() {
            return Err(Failed::For(Denial::ShortList));
        }
        let tags = self.members.iter().map(|member| member.tag);
        Ok(tags.collect(self.heap)?)
    }

    // All blocks of the members: one after the other as many as fit, and one if there is no member.
    pub(crate) fn all_blocks(&self) -> Result<Vec<Vec<u8>>, AllocError> {
        let mut blocks = Vec::new(self.heap);
        let each = trials_to_a_block(&self.rules).max(1);
        for (number, part) in (0u32..).zip(self.members.as_slice().chunks(each)) {
            blocks.push(write_block(self.heap, &self.rules, number, part)?)?;
        }
        if blocks.is_empty() {
            blocks.push(write_block(self.heap, &self.rules, 0, &[])?)?;
        }
        Ok(blocks)
    }

    // A save over so many rows of the block of this number, into a lent block of so many bytes.
    pub(crate) fn save(
        &self,
        rows: usize,
        number: usize,
        size: usize,
    ) -> Result<Vec<u8>, Failed<Denial>> {
        self.check_rows(rows)?;
        if size != BLOCK {
            return Err(Failed::For(Denial::WrongLength));
        }
        let blocks = self.all_blocks()?;
        let block = blocks.into_iter().nth(number);
        block.ok_or(Failed::For(Denial::NoSuchBlock))
    }

    // A feed over so many rows: the whole block is looked at before its first trial.
    pub(crate) fn feed(&mut self, rows: usize, bytes: &[u8]) -> Result<Fed, Failed<Fault>> {
        self.check_rows(rows)
            .map_err(|denial| Fault::new(denial, Layer::Archive, 0))?;
        let trials = read_block(self.heap, &self.rules, bytes)?;
        Ok(self.take(trials.as_slice())?)
    }

    // One trial after the other; a denied one does not stop the rest, and the first is told.
    fn take(&mut self, trials: &[Found]) -> Result<Fed, AllocError> {
        let mut fed = Fed::default();
        for found in trials {
            let one = match self.offer(self.rows, self.rows, found.tag, &found.point) {
                Ok(judged) => Fed::of_judged(judged.verdict, judged.gone.len()),
                Err(Failed::For(denial)) => {
                    Fed::of_denied(Fault::new(denial, Layer::Archive, found.place))
                }
                Err(Failed::Memory(failed)) => return Err(failed),
            };
            fed = fed.saturating_add(one);
        }
        Ok(fed)
    }
}

// An archive that is restored, and what the trials of its blocks came to.
#[derive(Drop)]
pub(crate) struct Restored {
    pub archive: Second,
    pub fed: Fed,
}

impl From<Denial> for Failed<NotRestored> {
    fn from(denial: Denial) -> Failed<NotRestored> {
        Failed::For(NotRestored::Denied(denial.number()))
    }
}

// A fresh archive that is fed these blocks, if it can be made and none of them is at fault.
pub(crate) fn restore(
    heap: Global,
    rules: Rules,
    rows: usize,
    blocks: &[Vec<u8>],
) -> Result<Restored, Failed<NotRestored>> {
    let mut archive = Second::new(heap, rules, rows)?;
    let mut read = Vec::new(heap);
    for (k, block) in blocks.iter().enumerate() {
        let trials = read_block(heap, &rules, block.as_slice());
        read.push(trials.map_err(|failed| failed.map(|fault| NotRestored::Block(k, fault)))?)?;
    }
    let mut fed = Fed::default();
    for trials in read.iter() {
        fed = fed.saturating_add(archive.take(trials.as_slice())?);
    }
    Ok(Restored { archive, fed })
}
