// Histories made up by chance: calls of all five kinds, with strange rows, short lists and short blocks among them.
use crate::blocks::BLOCK;
use crate::chance::{Chance, Spread};
use crate::figures::{Point, Rules, row_need};
use crate::histories::{Call, History, Scales, Task};
use crate::making::{bent_scales_by, point_by, scales_by, tag_by, wide_scales_by};
use crate::source::Source;
use std::alloc::{AllocError, Global};

// How many rows: as many as the space needs or a few more, few, and at times none, the most that there may be, or too many.
fn rows_by(chance: &mut Chance, rules: &Rules) -> usize {
    let need = usize::try_from(row_need(rules)).unwrap_or(0);
    if chance.is_front() {
        return chance.size(25).saturating_add(40);
    }
    match chance.below(60) {
        0 => 0,
        1 => 4097,
        2 => 4096,
        3..32 => {
            if need <= 64 {
                need.saturating_add(chance.size(3))
            } else {
                chance.size(60).saturating_add(1)
            }
        }
        _ => chance.size(5).saturating_add(1),
    }
}

impl Source<'_> {
    // How many rows a call asks for: mostly the archive's own.
    fn rows_asked(&mut self) -> usize {
        if !self.chance.once_in(25) {
            return self.rows;
        }
        match self.chance.below(4) {
            0 => self.rows.saturating_sub(1),
            1 => self.rows.saturating_add(1),
            2 => self.chance.size(self.rows),
            _ => usize::MAX,
        }
    }

    // How long a list an offer asks for: mostly as long as the rows.
    fn room_asked(&mut self) -> usize {
        match self.chance.below(24) {
            0 => self.rows.saturating_sub(1),
            1 => self.chance.size(self.rows),
            2 => usize::MAX,
            3 => self.rows.saturating_add(1),
            _ => self.rows,
        }
    }

    // An offer.
    fn offer(&mut self) -> Call {
        let point = self.some_point();
        Call {
            rows: self.rows_asked(),
            task: Task::Offer {
                room: self.room_asked(),
                tag: tag_by(&mut self.chance),
                point,
            },
        }
    }

    // A save: of one of the first blocks into a block of the right length, but for a few.
    fn save(&mut self) -> Call {
        let number = match self.chance.below(8) {
            0 => usize::MAX,
            1 => 4_294_967_296,
            2 => self.chance.size(100),
            3 | 4 => self.chance.size(3),
            _ => 0,
        };
        let size = match self.chance.below(12) {
            0 => 0,
            1 => 511,
            2 => 513,
            _ => BLOCK,
        };
        Call {
            rows: self.rows_asked(),
            task: Task::Save { number, size },
        }
    }

    // One call.
    fn call(&mut self) -> Result<Call, AllocError> {
        Ok(match self.chance.below(24) {
            0 => Call {
                rows: self.rows_asked(),
                task: Task::Audit,
            },
            1 => Call {
                rows: self.rows_asked(),
                task: Task::List {
                    room: self.chance.size(self.rows.saturating_add(2)),
                },
            },
            2 => self.save(),
            3..8 => Call {
                rows: self.rows_asked(),
                task: Task::Feed {
                    block: self.block()?,
                },
            },
            _ => self.offer(),
        })
    }

    // The calls of a history: few where there are many rows, and many where many points stand together.
    fn calls(&mut self) -> Result<Vec<Call>, AllocError> {
        let wanted = if self.chance.is_front() {
            self.chance.size(80).saturating_add(40)
        } else if self.rows > 100 {
            6
        } else {
            self.chance.size(50)
        };
        let mut calls = Vec::new(self.heap);
        for _ in 0..wanted {
            calls.push(self.call()?)?;
        }
        Ok(calls)
    }

    // A block that a restore is given in front, at times.
    fn block_in_front(&mut self) -> Result<Option<Vec<u8>>, AllocError> {
        self.chance.once_in(4).then(|| self.block()).transpose()
    }

    // How many rows there are to restore to: mostly as many again.
    fn rows_again(&mut self) -> usize {
        if self.chance.once_in(4) {
            self.chance.size(4)
        } else {
            self.rows
        }
    }
}

// The history of this number.
pub(crate) fn history_by(heap: Global, seed: u64, number: u64) -> Result<History, AllocError> {
    let mut chance = Chance::new(seed, number);
    if chance.once_in(4) {
        chance.spread = Spread::Front;
    }
    let scales = match chance.below(10) {
        0 => bent_scales_by(heap, &mut chance)?,
        1 => wide_scales_by(heap, &mut chance)?,
        _ => scales_by(heap, &mut chance)?,
    };
    let rules = scales.rules();
    let rows = rows_by(&mut chance, &rules);
    let points: Vec<Point> = (0..12)
        .map(|_| point_by(&mut chance, &rules))
        .collect(heap)?;
    let mut source = Source {
        heap,
        chance,
        rules: &rules,
        points: points.as_slice(),
        rows,
    };
    let calls = source.calls()?;
    let restore_first = source.block_in_front()?;
    let restore_rows = source.rows_again();
    Ok(History {
        scales,
        rows,
        calls,
        points,
        fillings: Chance::new(number, seed),
        restore_rows,
        restore_first,
    })
}

// A history over scales, rows and calls that are given.
pub(crate) fn history_of(heap: Global, scales: Scales, rows: usize, calls: Vec<Call>) -> History {
    History {
        scales,
        rows,
        calls,
        points: Vec::new(heap),
        fillings: Chance::new(0, 0),
        restore_rows: rows,
        restore_first: None,
    }
}
