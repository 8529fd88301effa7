// The account that is printed: what was refused and why, where each trial lies, which boxes stand, and the totals.
use crate::figures::Figures;
use entry::{Entry, Malformed};
use history::Denial;
use logger::{HIGHEST, LONGEST, LoggerSpace, Point, trial_of};
use space::{Space, Trial};
use standing::{opens_box, same_box, trial_stands};

// What the space is.
pub(crate) fn print_space(rt: &HostRuntime, space: &LoggerSpace) -> anyhow::Result<()> {
    let delays = space.extent(0);
    let lives = space.extent(1);
    println!(rt; "shortlist 1")?;
    println!(rt; "delay from 0 to {LONGEST} in {delays} boxes, shorter is better")?;
    println!(rt; "life from 1 to {HIGHEST} in {lives} boxes, longer is better")?;
    Ok(())
}

// Each line that is no trial on the grid, with its number, from 1 on, and why.
pub(crate) fn print_refusals(
    rt: &HostRuntime,
    space: &LoggerSpace,
    lines: &[Result<Entry, Malformed>],
) -> anyhow::Result<()> {
    for (number, line) in (1usize..).zip(lines) {
        match line {
            Err(fault) => println!(rt; "line {number} malformed: {fault}")?,
            Ok(entry) if !space.admits(&trial_of(entry).point) => {
                print_off_grid(rt, number, entry)?
            }
            Ok(_) => {}
        }
    }
    Ok(())
}

// Which figure of the entry is off the grid.
fn print_off_grid(rt: &HostRuntime, number: usize, entry: &Entry) -> anyhow::Result<()> {
    let denied = Denial::OffGrid.number();
    let tag = entry.tag;
    let delay = entry.delay;
    let life = entry.life;
    print!(rt; "line {number} refused {denied}, off the grid: tag {tag}")?;
    if !(0..=LONGEST).contains(&delay) {
        print!(rt; ", delay {delay} is not from 0 to {LONGEST}")?;
    }
    if !(1..=HIGHEST).contains(&life) {
        print!(rt; ", life {life} is not from 1 to {HIGHEST}")?;
    }
    println!(rt; "")?;
    Ok(())
}

// All trials that were read, with the space that they lie in.
#[derive(Clone, Copy)]
pub(crate) struct Trials<'a> {
    pub space: &'a LoggerSpace,
    pub all: &'a [Trial<Point>],
}

impl Trials<'_> {
    // Each trial on the grid, with its figures and its boxes, and whether another dominates it. Says how many stand: they are
    // counted as they are printed, since to ask of each again would go over all pairs again.
    pub(crate) fn print_each(&self, rt: &HostRuntime) -> anyhow::Result<usize> {
        let Trials { space, all } = *self;
        let mut standing = 0usize;
        for (i, trial) in all.iter().enumerate() {
            if space.admits(&trial.point) {
                let figures = Figures { space, trial };
                if trial_stands(space, all, i) {
                    println!(rt; "{figures}, not dominated")?;
                    standing = standing.saturating_add(1);
                } else {
                    println!(rt; "{figures}, dominated")?;
                }
            }
        }
        Ok(standing)
    }

    // Each box that no other trial's box dominates, once, with the tags of the trials in it. Says how many stand: they are counted
    // as they are printed, for the same reason.
    pub(crate) fn print_boxes(&self, rt: &HostRuntime) -> anyhow::Result<usize> {
        let Trials { space, all } = *self;
        let mut standing = 0usize;
        for (i, trial) in all.iter().enumerate() {
            if opens_box(space, all, i) {
                let delay_box = space.box_number(0, &trial.point);
                let life_box = space.box_number(1, &trial.point);
                print!(rt; "box {delay_box} {life_box} stands with")?;
                self.print_tags_in(rt, &trial.point)?;
                standing = standing.saturating_add(1);
            }
        }
        Ok(standing)
    }

    // The tags of the trials on the grid that have the point's box.
    fn print_tags_in(&self, rt: &HostRuntime, point: &Point) -> anyhow::Result<()> {
        let Trials { space, all } = *self;
        for trial in all.iter().filter(|trial| space.admits(&trial.point)
            && same_box(space, &trial.point, point))
        {
            let tag = trial.tag;
            print!(rt; " tag {tag}")?;
        }
        println!(rt; "")?;
        Ok(())
    }
}
