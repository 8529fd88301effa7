// Reads a log from standard input, block by block, and prints what an archive makes of it: how each block's trials fared, and
// the members at the end. What is printed are values of proved functions; `main` only reads and prints.
#![tactic(auto)]

mod fronts;
mod lines;
mod reading;

use archive::Archive;
use fronts::{begin, blank_rows, feed, members};
use lines::line_of;
use logger::{LoggerSpace, Point};
use reading::fill;
use space::Trial;
use std::io;
use std::io::{BufWriter, Write};

// How many bytes a block has.
const BLOCK: usize = 512;

// How many bytes are read at a time: a whole number of blocks.
const PIECE: usize = 128 * BLOCK;

fn main(rt: HostRuntime) -> anyhow::Result<()> {
    run(&rt)
}

fn run(rt: &HostRuntime) -> anyhow::Result<()> {
    let mut rows = blank_rows();
    let mut archive = begin(&rows);
    let mut piece = vec![in rt.alloc(); 0u8; PIECE]?;
    let mut input = rt.stdin();
    let mut out = BufWriter::new(rt.alloc(), io::writer(rt))?;
    // counted by hand: the number goes on from piece to piece
    let mut number = 0u64;
    writeln!(out, "front 1")?;
    // a bound that no input reaches: every loop is shown to end
    for _ in 0..u64::MAX {
        let filled = fill(&mut input, &mut piece)?;
        for block in piece[..filled].chunks(BLOCK) {
            let line = line_of(&feed(&mut archive, &mut rows, block));
            writeln!(out, "block {number} {line}")?;
            number = number.saturating_add(1);
        }
        if filled < PIECE {
            break;
        }
    }
    print_members(&mut out, members(&archive, &rows))?;
    out.flush()?;
    Ok(())
}

// Each member in row order, and how many there are.
fn print_members<W: Write>(out: &mut W, members: &[Trial<Point>]) -> anyhow::Result<()> {
    for (row, member) in members.iter().enumerate() {
        writeln!(out, "row {row} tag {}", member.tag)?;
    }
    writeln!(out, "members {}", members.len())?;
    Ok(())
}
