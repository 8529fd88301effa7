// Histories: a space, so many rows, and calls with what each is to be lent.
use crate::chance::Chance;
use crate::figures::{Point, Rule, Rules};
use std::array;

// How a space of the first archive divides its objectives.
#[derive(Clone, Copy, PartialEq, Eq, Debug)]
pub(crate) enum Shape {
    Step,
    Ratio,
}

// The rules of one space, and how it divides its objectives: beside them, since a space that is not to be made may have no rule.
#[derive(Drop)]
pub(crate) struct Side {
    pub shape: Shape,
    pub rules: Vec<Rule>,
}

// Which of the first archive's spaces a history is over: one alone, or two side by side.
#[derive(Drop)]
pub(crate) enum Scales {
    Alone(Side),
    Pair(Side, Side),
}

// What a call does, with what it is to be lent beside the rows: how much of the list, how much of the block.
#[derive(Drop)]
pub(crate) enum Task {
    Offer { room: usize, tag: u32, point: Point },
    Feed { block: Vec<u8> },
    Audit,
    List { room: usize },
    Save { number: usize, size: usize },
}

// A call, and how many rows it is to be lent.
#[derive(Drop)]
pub(crate) struct Call {
    pub rows: usize,
    pub task: Task,
}

// A history over a space that can be made.
#[derive(Drop)]
pub(crate) struct History {
    pub scales: Scales,
    pub rows: usize,
    pub calls: Vec<Call>,
    // points to fill rows with, and to ask the space about
    pub points: Vec<Point>,
    // what rows are filled by that come from no history
    pub fillings: Chance,
    // how many rows there are to restore to
    pub restore_rows: usize,
    // a block that the restore is given in front of the others, if any
    pub restore_first: Option<Vec<u8>>,
}

impl Scales {
    // The rules of the space alone, or of the one in front.
    pub(crate) fn first(&self) -> &[Rule] {
        match self {
            Scales::Alone(side) | Scales::Pair(side, _) => side.rules.as_slice(),
        }
    }

    // The rules of the space behind, none where there is one space alone.
    pub(crate) fn second(&self) -> &[Rule] {
        match self {
            Scales::Alone(_) => &[],
            Scales::Pair(_, side) => side.rules.as_slice(),
        }
    }

    // The rules, place by place: six of each space.
    pub(crate) fn rules(&self) -> Rules {
        let first = self.first();
        let second = self.second();
        array::from_fn(|i| {
            let rule = if i < 6 {
                first.get(i)
            } else {
                second.get(i - 6)
            };
            rule.copied()
        })
    }
}
