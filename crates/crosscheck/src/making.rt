// Spaces and points made up by chance: points on every edge of a box, at the ends of the grid and off it. The heap and the chance come
// apart here, and not as a `Source`: that needs rules, and rules are made here.
use crate::chance::Chance;
use crate::figures::{Better, PLACES, Point, Ratios, Rule, Rules, Steps, edge_after};
use crate::histories::{Scales, Shape, Side};
use crate::narrow::narrowed;
use std::alloc::{AllocError, Global};

// A step rule with so many boxes.
fn step_rule(chance: &mut Chance, boxes: i64) -> Rule {
    let step = match chance.below(12) {
        0 => chance.between(1, 1_000_000),
        1 => 1,
        _ => chance.between(1, 12),
    };
    let low = match chance.below(10) {
        0 => i64::from(i32::MIN),
        1 => 0,
        _ => chance.between(-40, 40),
    };
    let span = step
        .saturating_mul(boxes.saturating_sub(1))
        .saturating_add(chance.between(0, step.saturating_sub(1)));
    let better = if chance.once_in(2) {
        Better::Smaller
    } else {
        Better::Larger
    };
    Rule::Step(Steps {
        better,
        low: narrowed(low),
        high: narrowed(low.saturating_add(span)),
        step: narrowed(step),
    })
}

// The edge of this box.
fn edge_of(per_cent: u32, number: i64) -> i64 {
    (0..number.min(1100)).fold(1, |edge, _| edge_after(per_cent, edge))
}

// A ratio rule with so many boxes.
fn ratio_rule(chance: &mut Chance, boxes: i64) -> Rule {
    let per_cent = match chance.below(8) {
        0 => 100,
        1 => 1,
        2 => 50,
        _ => narrowed(chance.between(1, 100)),
    };
    let last = edge_of(per_cent, boxes.saturating_sub(1)).min(1_000_000);
    let most = edge_after(per_cent, last).saturating_sub(1).min(1_000_000);
    let ceiling = if chance.once_in(2) {
        last
    } else {
        chance.between(last, most)
    };
    Rule::Ratio(Ratios {
        per_cent,
        ceiling: narrowed(ceiling),
    })
}

// How many boxes an objective is to have: few, so that trials meet, and at times very many.
fn boxes_for(chance: &mut Chance, objectives: usize) -> i64 {
    if chance.once_in(30) {
        return chance.between(100, 1024);
    }
    if objectives > 3 {
        return chance.between(1, 4);
    }
    if chance.is_front() || chance.once_in(5) {
        chance.between(30, 60)
    } else {
        chance.between(1, 8)
    }
}

// A rule of this kind, of a space with so many objectives in all.
fn rule_by(chance: &mut Chance, shape: Shape, objectives: usize) -> Rule {
    let boxes = boxes_for(chance, objectives);
    match shape {
        Shape::Step => step_rule(chance, boxes),
        Shape::Ratio => ratio_rule(chance, boxes),
    }
}

// A space of so many rules of one kind.
fn side_of(
    heap: Global,
    chance: &mut Chance,
    shape: Shape,
    count: usize,
    objectives: usize,
) -> Result<Side, AllocError> {
    let rules = (0..count)
        .map(|_| rule_by(chance, shape, objectives))
        .collect(heap)?;
    Ok(Side { shape, rules })
}

// The shapes of two spaces side by side, of which there are four pairs.
fn pair_of(number: u64) -> (Shape, Shape) {
    match number {
        0 => (Shape::Step, Shape::Step),
        1 => (Shape::Step, Shape::Ratio),
        2 => (Shape::Ratio, Shape::Step),
        _ => (Shape::Ratio, Shape::Ratio),
    }
}

// Scales of one space, with one to six objectives.
fn alone_by(heap: Global, chance: &mut Chance, shape: Shape) -> Result<Scales, AllocError> {
    let all = chance.size(6).saturating_add(1);
    Ok(Scales::Alone(side_of(heap, chance, shape, all, all)?))
}

// Scales of two spaces side by side, with two to six objectives in all.
fn pair_by(
    heap: Global,
    chance: &mut Chance,
    shapes: (Shape, Shape),
) -> Result<Scales, AllocError> {
    let (first, second) = shapes;
    let front = chance.size(5).saturating_add(1);
    let back = chance.size(6usize.saturating_sub(front)).saturating_add(1);
    let all = front.saturating_add(back);
    Ok(Scales::Pair(
        side_of(heap, chance, first, front, all)?,
        side_of(heap, chance, second, back, all)?,
    ))
}

// Scales of a space that can be made, with one to six objectives.
pub(crate) fn scales_by(heap: Global, chance: &mut Chance) -> Result<Scales, AllocError> {
    match chance.below(8) {
        0 | 1 => alone_by(heap, chance, Shape::Step),
        2 | 3 => alone_by(heap, chance, Shape::Ratio),
        drawn => pair_by(heap, chance, pair_of(drawn.saturating_sub(4))),
    }
}

// A step rule with something wrong, or so many boxes that it may be.
fn bent_steps(chance: &mut Chance, steps: Steps) -> Steps {
    match chance.below(5) {
        0 => Steps {
            low: steps.high.saturating_add(1),
            ..steps
        },
        1 => Steps { step: 0, ..steps },
        2 => Steps {
            step: narrowed(chance.between(2_147_483_646, 2_147_483_649)),
            ..steps
        },
        3 => {
            let over = i64::from(steps.step)
                .saturating_mul(1024)
                .saturating_add(chance.between(-1, 0));
            Steps {
                high: narrowed(i64::from(steps.low).saturating_add(over)),
                ..steps
            }
        }
        _ => Steps {
            low: i32::MIN,
            high: i32::MAX,
            step: narrowed(chance.between(4_194_303, 4_194_304)),
            ..steps
        },
    }
}

// A ratio rule with something wrong, or so many boxes that it may be.
fn bent_ratios(chance: &mut Chance, ratios: Ratios) -> Ratios {
    match chance.below(5) {
        0 => Ratios {
            per_cent: 0,
            ..ratios
        },
        1 => Ratios {
            per_cent: narrowed(chance.between(100, 101)),
            ..ratios
        },
        2 => Ratios {
            ceiling: 0,
            ..ratios
        },
        3 => Ratios {
            per_cent: 100,
            ceiling: narrowed(chance.between(1_000_000, 1_000_001)),
        },
        _ => {
            let last = edge_of(1, 1024).saturating_add(chance.between(-1, 0));
            Ratios {
                per_cent: 1,
                ceiling: narrowed(last.min(1_000_000)),
            }
        }
    }
}

// A rule with something wrong, or so many boxes that it may be.
fn bent_rule(chance: &mut Chance, rule: Rule) -> Rule {
    match rule {
        Rule::Step(steps) => Rule::Step(bent_steps(chance, steps)),
        Rule::Ratio(ratios) => Rule::Ratio(bent_ratios(chance, ratios)),
    }
}

// A space of rules of which some may be wrong, and as many as may be too many or none.
fn bent_side(heap: Global, chance: &mut Chance, shape: Shape) -> Result<Side, AllocError> {
    let count = chance.size(8);
    let mut side = side_of(heap, chance, shape, count, count)?;
    for rule in side.rules.iter_mut() {
        if chance.once_in(4) {
            *rule = bent_rule(chance, *rule);
        }
    }
    Ok(side)
}

// Scales of a space that perhaps cannot be made.
pub(crate) fn bent_scales_by(heap: Global, chance: &mut Chance) -> Result<Scales, AllocError> {
    let shape = if chance.once_in(2) {
        Shape::Ratio
    } else {
        Shape::Step
    };
    Ok(Scales::Alone(bent_side(heap, chance, shape)?))
}

// Scales of two sound spaces, of up to six objectives each, which may be too many together.
pub(crate) fn wide_scales_by(heap: Global, chance: &mut Chance) -> Result<Scales, AllocError> {
    let front = chance.size(6).saturating_add(1);
    let back = chance.size(6).saturating_add(1);
    let (first, second) = pair_of(chance.below(4));
    Ok(Scales::Pair(
        side_of(heap, chance, first, front, 4)?,
        side_of(heap, chance, second, back, 4)?,
    ))
}

// A figure at or near the lower edge of a box, the upper one, or within it; `from` and `to` are both edges.
fn near(chance: &mut Chance, from: i64, to: i64) -> i64 {
    match chance.below(6) {
        0 => from.saturating_sub(1),
        1 => from,
        2 => from.saturating_add(1),
        3 => to.saturating_sub(1),
        _ => chance.between(from, to.saturating_sub(1)),
    }
}

// A figure for one place, at the box of this number and mostly on the grid.
fn figure_by(chance: &mut Chance, rule: Option<Rule>, number: i64) -> i64 {
    let stays = !chance.once_in(40);
    match rule {
        None => i64::from(chance.once_in(400)),
        Some(Rule::Step(steps)) => {
            let width = i64::from(steps.step);
            let from = number.saturating_mul(width);
            let figure = steps.figure_of(near(chance, from, from.saturating_add(width)));
            let figure = if stays {
                figure.max(i64::from(steps.low)).min(i64::from(steps.high))
            } else {
                figure.max(i64::from(i32::MIN))
            };
            i64::from(narrowed::<i32>(figure))
        }
        Some(Rule::Ratio(ratios)) => {
            let from = edge_of(ratios.per_cent, number);
            let figure = near(chance, from, edge_after(ratios.per_cent, from));
            let figure = if stays {
                figure.max(1).min(i64::from(ratios.ceiling))
            } else {
                figure.max(0)
            };
            i64::from(narrowed::<u32>(figure))
        }
    }
}

// A part of the last box number, in sixtieths.
fn part(rule: &Rule, sixtieths: i64) -> i64 {
    rule.extent()
        .saturating_sub(1)
        .saturating_mul(sixtieths)
        .checked_div(60)
        .unwrap_or(0)
}

// The box numbers of a point: any, or good in every second place by as much as bad in the others, so that many stand together.
fn numbers_by(chance: &mut Chance, rules: &Rules) -> Point {
    let trades = chance.is_front() && !chance.once_in(50);
    let mut sixtieths = chance.between(0, 60);
    let mut numbers = [0; PLACES];
    for (number, rule) in numbers.iter_mut().zip(rules) {
        if !trades {
            sixtieths = chance.between(0, 60);
        }
        if let Some(rule) = rule {
            *number = part(rule, sixtieths);
            sixtieths = 60i64.saturating_sub(sixtieths);
        }
    }
    numbers
}

// A point, mostly on the grid. Where there is one space alone, there are no figures of a second.
pub(crate) fn point_by(chance: &mut Chance, rules: &Rules) -> Point {
    let pair = rules.iter().skip(6).any(|rule| rule.is_some());
    let numbers = numbers_by(chance, rules);
    let used = if pair { PLACES } else { 6 };
    let mut point = [0; PLACES];
    let places = rules.iter().zip(numbers.iter());
    for (figure, (rule, number)) in point.iter_mut().zip(places).take(used) {
        *figure = figure_by(chance, *rule, *number);
    }
    point
}

// A tag: small ones come again and again, and at times the largest of all.
pub(crate) fn tag_by(chance: &mut Chance) -> u32 {
    match chance.below(20) {
        0 => u32::MAX,
        1 => narrowed(chance.between(0, i64::from(u32::MAX))),
        _ => narrowed(chance.between(0, 30)),
    }
}
