// Makes a log without a logger: reads trials and notes from standard input, a line each, and writes the blocks that hold them
// to standard output. A line that says neither is told on standard error.
#![tactic(auto)]

mod blocks;
mod reading;
mod records;
mod saying;
mod writing;

use saying::{Line, Unsaid};
use std::io;
use std::io::{Read, Write};
use writing::write_log;

fn main(rt: HostRuntime) -> anyhow::Result<()> {
    run(&rt)
}

fn run(rt: &HostRuntime) -> anyhow::Result<()> {
    let mut text = Vec::new(rt.alloc());
    rt.stdin().read_to_end(&mut text)?;
    let log = write_log(rt.alloc(), text.as_slice())?;
    tell_malformed(rt, log.lines.as_slice())?;
    print_blocks(rt, log.blocks.as_slice())
}

// Each line that gives no record, with its number, from 1 on, and why.
fn tell_malformed(rt: &HostRuntime, lines: &[Result<Line<'_>, Unsaid>]) -> anyhow::Result<()> {
    for (number, line) in (1usize..).zip(lines) {
        // no `filter_map`: it would take a line's number and its reason into a pair and out again
        if let Err(why) = line {
            eprintln!(rt; "line {number} malformed: {why}")?;
        }
    }
    Ok(())
}

// The bytes of the blocks.
fn print_blocks(rt: &HostRuntime, blocks: &[[u8; 512]]) -> anyhow::Result<()> {
    let mut out = io::writer(rt);
    for block in blocks {
        out.write_all(block)?;
    }
    out.flush()?;
    Ok(())
}

#[cfg(test)]
mod tests;
