// What an archive made of the trials: the verdict on each, the rows at the end, and whether they hold the boxes that stand.
use crate::account::Trials;
use crate::figures::Figures;
use history::{Answer, Offered, Verdict};
use logger::{LoggerSpace, Point};
use replay::{Ask, Turn};
use space::Trial;
use standing::{box_stands, opens_box, same_box};
use std::fmt;

// How many offers had each verdict, how many were denied, and how many members went.
#[derive(Clone, Copy, Default)]
struct Sums {
    passed_over: usize,
    entered: usize,
    displacing: usize,
    replacing: usize,
    denied: usize,
    displaced: usize,
}

impl Sums {
    // Adds the answer to one offer.
    fn add(&mut self, offered: Offered) {
        // one arm a verdict: the sums are named, since each is printed under its own name
        match offered.verdict {
            Verdict::PassedOver => self.passed_over = self.passed_over.saturating_add(1),
            Verdict::Entered => self.entered = self.entered.saturating_add(1),
            Verdict::Displaced => self.displacing = self.displacing.saturating_add(1),
            Verdict::Replaced => self.replacing = self.replacing.saturating_add(1),
        }
        self.displaced = self.displaced.saturating_add(offered.displaced);
    }
}

impl fmt::Display for Sums {
    fn fmt<W: fmt::Write>(&self, f: &mut fmt::Formatter<W>) -> fmt::Result {
        write!(
            f,
            "verdict {} {} verdict {} {} verdict {} {} verdict {} {} denied {} displaced {}",
            Verdict::PassedOver.number(),
            self.passed_over,
            Verdict::Entered.number(),
            self.entered,
            Verdict::Displaced.number(),
            self.displacing,
            Verdict::Replaced.number(),
            self.replacing,
            self.denied,
            self.displaced
        )
    }
}

// One offer with its answer, which is added to the sums.
fn print_offer(rt: &HostRuntime, turn: &Turn<Ask<Point>>, sums: &mut Sums) -> anyhow::Result<()> {
    let Ask::Offer { trial, .. } = &turn.ask else {
        return Ok(());
    };
    let tag = trial.tag;
    match turn.answer {
        Some(Answer::Offered(offered)) => {
            let number = offered.verdict.number();
            let displaced = offered.displaced;
            sums.add(offered);
            println!(rt; "offer tag {tag} verdict {number} displaced {displaced}")?;
        }
        Some(Answer::Denied(denial)) => {
            let number = denial.number();
            sums.denied = sums.denied.saturating_add(1);
            println!(rt; "offer tag {tag} denied {number}")?;
        }
        _ => {}
    }
    Ok(())
}

// The offers one by one, and then what they add up to.
pub(crate) fn print_offers(rt: &HostRuntime, turns: &[Turn<Ask<Point>>]) -> anyhow::Result<()> {
    let mut sums = Sums::default();
    for turn in turns {
        print_offer(rt, turn, &mut sums)?;
    }
    let made = turns.len();
    println!(rt; "offers {made} {sums}")?;
    Ok(())
}

// Each row that holds a member.
pub(crate) fn print_rows(
    rt: &HostRuntime,
    space: &LoggerSpace,
    members: &[Trial<Point>],
) -> anyhow::Result<()> {
    for (row, trial) in members.iter().enumerate() {
        let figures = Figures { space, trial };
        println!(rt; "row {row} {figures}")?;
    }
    let count = members.len();
    println!(rt; "members {count}")?;
    Ok(())
}

// Whether a member has the box of this point.
fn holds(space: &LoggerSpace, members: &[Trial<Point>], point: &Point) -> bool {
    members
        .iter()
        .any(|member| same_box(space, &member.point, point))
}

impl Trials<'_> {
    // Whether the box of this point stands among the trials.
    fn stands(&self, point: &Point) -> bool {
        let Trials { space, all } = *self;
        all.iter().enumerate().any(|(i, trial)| box_stands(space, all, i)
            && same_box(space, &trial.point, point))
    }

    // Whether the members hold exactly the boxes that stand, of which there are so many: each of these, no other, and none twice.
    pub(crate) fn are_held(&self, members: &[Trial<Point>], boxes: usize) -> bool {
        let Trials { space, all } = *self;
        boxes == members.len()
            && all.iter().enumerate().all(|(i, trial)| {
                !opens_box(space, all, i) || holds(space, members, &trial.point)
            })
            && members.iter().all(|member| self.stands(&member.point))
    }
}
