// The first archive's spaces, made from the rules of a history, and a history held over its space.
use crate::apart::{Stop, same};
use crate::bridge::Figured;
use crate::case::Case;
use crate::denial::Denial;
use crate::figures::{Better, Rule};
use crate::histories::{History, Scales, Shape};
use crate::numbered::Numbered;
use crate::tally::{Tally, one_more};
use beside::Beside;
use ratio::RatioSpace;
use space::{BadGrid, Recorded, Space};
use std::alloc::Global;
use step::{Direction, StepSpace};

impl From<Better> for Direction {
    fn from(better: Better) -> Direction {
        match better {
            Better::Larger => Direction::LargerIsBetter,
            Better::Smaller => Direction::SmallerIsBetter,
        }
    }
}

// A space of the first archive that is made from rules of one kind.
trait OfRules: Recorded + Copy {
    type Scale: Copy;

    // The scale of a rule of this kind.
    fn scale_of(rule: &Rule) -> Option<Self::Scale>;

    // The space of these scales.
    fn of_scales(scales: &[Self::Scale]) -> Result<Self, BadGrid>;
}

impl OfRules for StepSpace {
    type Scale = step::Scale;

    fn scale_of(rule: &Rule) -> Option<step::Scale> {
        match rule {
            Rule::Step(steps) => Some(step::Scale {
                direction: Direction::from(steps.better),
                low: steps.low,
                high: steps.high,
                step: steps.step,
            }),
            Rule::Ratio(_) => None,
        }
    }

    fn of_scales(scales: &[step::Scale]) -> Result<StepSpace, BadGrid> {
        StepSpace::new(scales)
    }
}

impl OfRules for RatioSpace {
    type Scale = ratio::Scale;

    fn scale_of(rule: &Rule) -> Option<ratio::Scale> {
        match rule {
            Rule::Ratio(ratios) => Some(ratio::Scale {
                per_cent: ratios.per_cent,
                ceiling: ratios.ceiling,
            }),
            Rule::Step(_) => None,
        }
    }

    fn of_scales(scales: &[ratio::Scale]) -> Result<RatioSpace, BadGrid> {
        RatioSpace::new(scales)
    }
}

// What is wrong with the rules of one space: that they are none or more than six, or the lowest that is not sound.
#[derive(Clone, Copy)]
enum Unsound {
    Count,
    Rule(u8),
}

impl Unsound {
    // What is told of the number of rules in place of a rule.
    const COUNT: u8 = 255;

    // What is wrong with these rules.
    fn of(rules: &[Rule]) -> Option<Unsound> {
        if rules.is_empty() || rules.len() > 6 {
            return Some(Unsound::Count);
        }
        let place = rules.iter().position(|rule| !rule.is_sound())?;
        u8::try_from(place).ok().map(Unsound::Rule)
    }

    // The number that tells it.
    fn told(&self) -> u8 {
        match self {
            Unsound::Count => Unsound::COUNT,
            Unsound::Rule(place) => *place,
        }
    }
}

// The space, where both archives find nothing wrong with it; none where both tell the same fault.
fn made<S: OfRules>(heap: Global, rules: &[Rule], tally: &mut Tally) -> Result<Option<S>, Stop> {
    one_more(&mut tally.spaces);
    let scales: Vec<S::Scale> = rules
        .iter()
        .filter_map(|rule| S::scale_of(rule))
        .collect(heap)?;
    match (S::of_scales(scales.as_slice()), Unsound::of(rules)) {
        (Ok(space), None) => Ok(Some(space)),
        (Err(bad), Some(unsound)) => {
            let number = Denial::BadGrid.number();
            same(
                bad.number() == number && bad.told() == unsound.told(),
                "which objective of a grid is at fault",
            )?;
            tally.denial(number);
            Ok(None)
        }
        _ => Err(Stop::apart("whether a grid is made")),
    }
}

// Two spaces side by side, where both archives say that they fit.
fn paired<A: Space + Copy, B: Space + Copy>(
    first: A,
    second: B,
    scales: &Scales,
    tally: &mut Tally,
) -> Result<Option<Beside<A, B>>, Stop> {
    let all = scales.first().len().saturating_add(scales.second().len());
    match Beside::new(first, second) {
        Ok(space) => {
            same(all <= 6, "whether two spaces fit")?;
            Ok(Some(space))
        }
        Err(refused) => {
            let number = Denial::TooMany.number();
            same(
                all > 6 && refused.number() == number,
                "whether two spaces fit",
            )?;
            tally.denial(number);
            Ok(None)
        }
    }
}

impl<S: Recorded + Copy> Case<'_, S>
where
    S::Point: Figured,
{
    // The history over its space, in every way.
    fn hold(&self, tally: &mut Tally) -> Result<(), Stop> {
        one_more(&mut tally.histories);
        self.hold_questions(tally)?;
        let mut both = self.hold_calls(tally)?;
        self.hold_recorded(&both, tally)?;
        self.hold_plain(tally)?;
        if let Some(both) = &mut both {
            self.hold_restore(both, tally)?;
            self.hold_arbitrary(both, tally)?;
        }
        Ok(())
    }
}

impl History {
    // The history over one space.
    fn hold_alone<S: OfRules>(&self, heap: Global, tally: &mut Tally) -> Result<(), Stop>
    where
        S::Point: Figured,
    {
        let Some(space) = made::<S>(heap, self.scales.first(), tally)? else {
            return Ok(());
        };
        Case::new(heap, space, self).hold(tally)
    }

    // The history over two spaces side by side.
    fn hold_pair<A: OfRules, B: OfRules>(&self, heap: Global, tally: &mut Tally) -> Result<(), Stop>
    where
        (A::Point, B::Point): Figured,
    {
        let scales = &self.scales;
        let Some(first) = made::<A>(heap, scales.first(), tally)? else {
            return Ok(());
        };
        let Some(second) = made::<B>(heap, scales.second(), tally)? else {
            return Ok(());
        };
        let Some(space) = paired(first, second, scales, tally)? else {
            return Ok(());
        };
        Case::new(heap, space, self).hold(tally)
    }

    // The history over its space, if that can be made. The shape is a value and the space a type, so each has an arm.
    pub(crate) fn hold(&self, heap: Global, tally: &mut Tally) -> Result<(), Stop> {
        match &self.scales {
            Scales::Alone(side) => match side.shape {
                Shape::Step => self.hold_alone::<StepSpace>(heap, tally),
                Shape::Ratio => self.hold_alone::<RatioSpace>(heap, tally),
            },
            Scales::Pair(first, second) => match (first.shape, second.shape) {
                (Shape::Step, Shape::Step) => {
                    self.hold_pair::<StepSpace, StepSpace>(heap, tally)
                }
                (Shape::Step, Shape::Ratio) => {
                    self.hold_pair::<StepSpace, RatioSpace>(heap, tally)
                }
                (Shape::Ratio, Shape::Step) => {
                    self.hold_pair::<RatioSpace, StepSpace>(heap, tally)
                }
                (Shape::Ratio, Shape::Ratio) => {
                    self.hold_pair::<RatioSpace, RatioSpace>(heap, tally)
                }
            },
        }
    }
}
