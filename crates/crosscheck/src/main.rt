// Holds the archive against a second one, which is written apart from it from the definitions: over histories made up
// by chance, over rows filled with anything, and over the log on standard input. It prints an account of what was tried, or the
// first history at which the two are apart.
#![tactic(auto)]

mod account;
mod apart;
mod arbitrary;
mod blocks;
mod bridge;
mod calling;
mod case;
mod chance;
mod compare;
mod damaging;
mod denial;
mod failed;
mod figures;
mod histories;
mod house;
mod lines;
mod making;
mod named;
mod narrow;
mod numbered;
mod questions;
mod replays;
mod reply;
mod restores;
mod second;
mod source;
mod spaces;
mod tally;
mod told;
mod verdict;

use account::{print_account, print_missing};
use anyhow::anyhow;
use apart::Stop;
use calling::history_by;
use histories::History;
use lines::{print_apart, print_history};
use named::{log_history, named_histories};
use std::env;
use std::io::Read;
use tally::Tally;

// The seed of the histories that are run where no other is asked for.
const SEED: u64 = 1;

// How many of them there are.
const HISTORIES: u64 = 800;

fn main(rt: HostRuntime) -> anyhow::Result<()> {
    let mut asked = env::args(&rt)?.skip(1);
    match (asked.next(), asked.next()) {
        (Some(seed), Some(number)) => {
            run_one(
                &rt,
                seed.as_str().parse::<u64>()?,
                number.as_str().parse::<u64>()?,
            )
        }
        _ => run_all(&rt),
    }
}

// One history again: its lines, and whether the archives are apart.
fn run_one(rt: &HostRuntime, seed: u64, number: u64) -> anyhow::Result<()> {
    let history = history_by(rt.alloc(), seed, number)?;
    println!(rt; "history {seed} {number}")?;
    print_history(rt, &history)?;
    history
        .hold(rt.alloc(), &mut Tally::default())
        .or_else(|stop| tell(rt, stop))?;
    println!(rt; "the archives agree")?;
    Ok(())
}

// What ends a run early.
fn tell(rt: &HostRuntime, stop: Stop) -> anyhow::Result<()> {
    if let Stop::Apart(apart) = &stop {
        print_apart(rt, apart)?;
    }
    Err(stop.into())
}

// The history at which a run ends early, and what ends it.
fn tell_at(rt: &HostRuntime, history: &History, stop: Stop) -> anyhow::Result<()> {
    print_history(rt, history)?;
    tell(rt, stop)
}

// A history that has a name; where the archives are apart it is printed.
fn run_named(
    rt: &HostRuntime,
    name: &str,
    history: &History,
    tally: &mut Tally,
) -> anyhow::Result<()> {
    let held = history.hold(rt.alloc(), tally);
    println!(rt; "case: {name}")?;
    held.or_else(|stop| tell_at(rt, history, stop))
}

// The history of this number; where the archives are apart it is printed.
fn run_number(rt: &HostRuntime, number: u64, tally: &mut Tally) -> anyhow::Result<()> {
    let history = history_by(rt.alloc(), SEED, number)?;
    history.hold(rt.alloc(), tally).or_else(|stop| {
        println!(rt; "history {SEED} {number}")?;
        tell_at(rt, &history, stop)
    })
}

// All histories: those with a name, the log, and those made up by chance.
fn run_all(rt: &HostRuntime) -> anyhow::Result<()> {
    println!(rt; "crosscheck 1")?;
    let mut tally = Tally::default();
    for case in named_histories(rt.alloc())?.iter() {
        run_named(rt, case.name, &case.history, &mut tally)?;
    }
    let mut log = Vec::new(rt.alloc());
    rt.stdin().read_to_end(&mut log)?;
    let history = log_history(rt.alloc(), log.as_slice())?;
    run_named(rt, "the log on standard input", &history, &mut tally)?;
    for number in 0..HISTORIES {
        run_number(rt, number, &mut tally)?;
    }
    print_account(rt, &tally)?;
    if !tally.is_whole() {
        print_missing(rt, &tally)?;
        return Err(anyhow!("not every verdict and every denial occurred"));
    }
    println!(rt; "0 disagreements")?;
    Ok(())
}
