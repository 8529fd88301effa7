// Reads the trials of one logger from standard input, a line each, and prints which of them stand: the boxes that no
// other trial's box dominates and the trials that no other dominates, by definition alone. Then it offers the trials to an
// archive, and prints each verdict, the rows at the end, and that these hold the boxes that stand.
#![tactic(auto)]

mod account;
mod figures;
mod offers;
mod verdicts;

use account::{Trials, print_refusals, print_space};
use anyhow::anyhow;
use entry::read_entries;
use logger::{logger_space, trials_of};
use offers::offer_all;
use space::Space;
use std::io::Read;
use verdicts::{print_offers, print_rows};

fn main(rt: HostRuntime) -> anyhow::Result<()> {
    run(&rt)
}

fn run(rt: &HostRuntime) -> anyhow::Result<()> {
    let space = logger_space();
    let mut text = Vec::new(rt.alloc());
    rt.stdin().read_to_end(&mut text)?;
    let lines = read_entries(rt.alloc(), text.as_slice())?;
    let trials = trials_of(rt.alloc(), lines.as_slice())?;

    print_space(rt, &space)?;
    print_refusals(rt, &space, lines.as_slice())?;
    let read_trials = Trials {
        space: &space,
        all: trials.as_slice(),
    };
    let not_dominated = read_trials.print_each(rt)?;
    let boxes = read_trials.print_boxes(rt)?;

    let read = lines.len();
    let malformed = lines.iter().filter(|line| line.is_err()).count();
    let judged = trials
        .iter()
        .filter(|trial| space.admits(&trial.point))
        .count();
    let off_grid = trials.len().saturating_sub(judged);
    println!(rt;
        "lines {read} malformed {malformed} refused {off_grid} trials {judged} not dominated {not_dominated} boxes {boxes}"
    )?;

    let offers = offer_all(rt.alloc(), trials.as_slice())?;
    print_offers(rt, offers.turns.as_slice())?;
    print_rows(rt, &space, offers.members.as_slice())?;
    if !read_trials.are_held(offers.members.as_slice(), boxes) {
        return Err(anyhow!("the boxes held are not those that stand"));
    }
    println!(rt; "the boxes held are those that stand")?;
    Ok(())
}
