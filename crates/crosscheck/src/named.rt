// Histories that are tried by name.
use crate::blocks::BLOCK;
use crate::calling::history_of;
use crate::figures::{Better, Ratios, Rule, Steps};
use crate::histories::{Call, History, Scales, Shape, Side, Task};
use std::alloc::{AllocError, Global};

// A history and its name.
#[derive(Drop)]
pub(crate) struct Named {
    pub name: &'static str,
    pub history: History,
}

// Two objectives from 0 up to the same high end, larger being better, in boxes of this width.
fn square(heap: Global, high: i32, step: u32) -> Result<Scales, AllocError> {
    let rule = Rule::Step(Steps {
        better: Better::Larger,
        low: 0,
        high,
        step,
    });
    Ok(Scales::Alone(Side {
        shape: Shape::Step,
        rules: vec![in heap; rule; 2]?,
    }))
}

// An offer of each of these points over so many rows, with tags from 1 on, and then an audit, a list and a save.
fn offers(heap: Global, rows: usize, points: &[(i64, i64)]) -> Result<Vec<Call>, AllocError> {
    let mut calls: Vec<Call> = (1u32..)
        .zip(points)
        .map(|(tag, (x, y))| Call {
            rows,
            task: Task::Offer {
                room: rows,
                tag,
                point: [*x, *y, 0, 0, 0, 0, 0, 0, 0, 0, 0, 0],
            },
        })
        .collect(heap)?;
    end(&mut calls, rows)?;
    Ok(calls)
}

// An audit, a list and a save.
fn end(calls: &mut Vec<Call>, rows: usize) -> Result<(), AllocError> {
    let save = Task::Save {
        number: 0,
        size: BLOCK,
    };
    for task in [Task::Audit, Task::List { room: rows }, save] {
        calls.push(Call { rows, task })?;
    }
    Ok(())
}

// Offers of these points to an archive over a square.
fn over_square(
    heap: Global,
    name: &'static str,
    scales: Scales,
    rows: usize,
    points: &[(i64, i64)],
) -> Result<Named, AllocError> {
    let calls = offers(heap, rows, points)?;
    Ok(Named {
        name,
        history: history_of(heap, scales, rows, calls),
    })
}

// The histories that are tried by name, but for the log.
pub(crate) fn named_histories(heap: Global) -> Result<Vec<Named>, AllocError> {
    Ok(vec![in heap;
        over_square(
            heap,
            "the same point twice",
            square(heap, 9, 1)?,
            10,
            &[(5, 5), (5, 5)],
        )?,
        over_square(
            heap,
            "member (19, 19) against (25, 12) over boxes of ten",
            square(heap, 99, 10)?,
            10,
            &[(19, 19), (25, 12)],
        )?,
        over_square(
            heap,
            "one trial for two members",
            square(heap, 9, 1)?,
            10,
            &[(1, 9), (3, 3), (5, 1), (9, 0), (6, 4)],
        )?,
        over_square(
            heap,
            "a full archive",
            square(heap, 9, 1)?,
            2,
            &[(1, 9), (9, 0), (5, 5), (9, 1)],
        )?,
    ]?)
}

// How many rows the log is fed to.
const LOG_ROWS: usize = 32;

// The log of these bytes, fed block by block to 32 rows over delay beside life, with an audit, a list and a save at the end.
pub(crate) fn log_history(heap: Global, bytes: &[u8]) -> Result<History, AllocError> {
    let delay = Rule::Step(Steps {
        better: Better::Smaller,
        low: 0,
        high: 9999,
        step: 500,
    });
    let life = Rule::Ratio(Ratios {
        per_cent: 50,
        ceiling: 1000,
    });
    let delays = Side {
        shape: Shape::Step,
        rules: vec![in heap; delay]?,
    };
    let lives = Side {
        shape: Shape::Ratio,
        rules: vec![in heap; life]?,
    };
    let mut calls = Vec::new(heap);
    for piece in bytes.chunks(BLOCK) {
        let block = piece.to_vec(heap)?;
        calls.push(Call {
            rows: LOG_ROWS,
            task: Task::Feed { block },
        })?;
    }
    end(&mut calls, LOG_ROWS)?;
    Ok(history_of(heap, Scales::Pair(delays, lives), LOG_ROWS, calls))
}
