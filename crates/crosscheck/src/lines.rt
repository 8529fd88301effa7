// A history as lines of text, and where the archives were found apart.
use crate::apart::Apart;
use crate::figures::{Point, Ratios, Rule, Steps};
use crate::histories::{Call, History, Task};
use crate::told::Told;
use std::{fmt, io};

impl fmt::Display for Rule {
    fn fmt<W: fmt::Write>(&self, f: &mut fmt::Formatter<W>) -> fmt::Result {
        match self {
            Rule::Step(
                Steps {
                    better,
                    low,
                    high,
                    step,
                },
            ) => write!(
                f,
                "step, {better} is better, from {low} to {high} by {step}"
            ),
            Rule::Ratio(Ratios { per_cent, ceiling }) => {
                write!(f, "ratio, {per_cent} per cent, up to {ceiling}")
            }
        }
    }
}

// The figures of a point, six of each space.
fn print_point(rt: &HostRuntime, point: &Point) -> io::Result<()> {
    for figure in point {
        print!(rt; " {figure}")?;
    }
    println!(rt; "")
}

// The bytes of a block.
fn print_bytes(rt: &HostRuntime, block: &[u8]) -> io::Result<()> {
    let length = block.len();
    print!(rt; "{length} bytes ")?;
    for byte in block {
        print!(rt; "{byte:02x}")?;
    }
    println!(rt; "")
}

// One call.
fn print_call(rt: &HostRuntime, number: usize, call: &Call) -> io::Result<()> {
    let rows = call.rows;
    print!(rt; "call {number} ")?;
    match &call.task {
        Task::Offer { room, tag, point } => {
            print!(rt; "offer rows {rows} list {room} tag {tag} figures")?;
            print_point(rt, point)
        }
        Task::Feed { block } => {
            print!(rt; "feed rows {rows} block of ")?;
            print_bytes(rt, block.as_slice())
        }
        Task::Audit => println!(rt; "audit rows {rows}"),
        Task::List { room } => println!(rt; "list rows {rows} list {room}"),
        Task::Save { number, size } => {
            println!(rt; "save rows {rows} number {number} block of {size} bytes")
        }
    }
}

// A history: its space, its rows, its calls, and what is restored to.
pub(crate) fn print_history(rt: &HostRuntime, history: &History) -> io::Result<()> {
    for rule in history.scales.first() {
        println!(rt; "first space: {rule}")?;
    }
    for rule in history.scales.second() {
        println!(rt; "second space: {rule}")?;
    }
    let rows = history.rows;
    println!(rt; "rows {rows}")?;
    for (number, call) in history.calls.iter().enumerate() {
        print_call(rt, number, call)?;
    }
    let rows = history.restore_rows;
    println!(rt; "restore rows {rows}")?;
    if let Some(block) = &history.restore_first {
        print!(rt; "restore in front a block of ")?;
        print_bytes(rt, block.as_slice())?;
    }
    Ok(())
}

// What one archive told. What a feed came to has its own name in front already.
fn print_told(rt: &HostRuntime, archive: &str, told: &Told) -> io::Result<()> {
    match told {
        Told::Fed(fed) => println!(rt; "the {archive} tells {fed:?}"),
        _ => println!(rt; "the {archive} tells {told:?}"),
    }
}

// Where the archives are apart.
pub(crate) fn print_apart(rt: &HostRuntime, apart: &Apart) -> io::Result<()> {
    let what = apart.what;
    println!(rt; "the archives are apart: {what}")?;
    if let Some(moment) = apart.moment {
        println!(rt; "{moment}")?;
    }
    if let Some((first, second)) = &apart.told {
        print_told(rt, "first", first)?;
        print_told(rt, "second", second)?;
    }
    Ok(())
}
