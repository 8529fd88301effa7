// The spaces of the second archive: a rule for each objective, and plain arithmetic on whole numbers.
use std::{array, fmt, iter};

// How many places a point has: six of each of two spaces side by side.
pub(crate) const PLACES: usize = 12;

// A point: a figure in each place.
pub(crate) type Point = [i64; PLACES];

// Which figures of an objective are better.
#[derive(Clone, Copy)]
pub(crate) enum Better {
    Larger,
    Smaller,
}

impl fmt::Display for Better {
    fn fmt<W: fmt::Write>(&self, f: &mut fmt::Formatter<W>) -> fmt::Result {
        f.write_str(match self {
            Better::Larger => "larger",
            Better::Smaller => "smaller",
        })
    }
}

// Boxes of one width, from a low end to a high end.
#[derive(Clone, Copy)]
pub(crate) struct Steps {
    pub better: Better,
    pub low: i32,
    pub high: i32,
    pub step: u32,
}

// Boxes whose edges grow by a per cent, from 1 to a ceiling.
#[derive(Clone, Copy)]
pub(crate) struct Ratios {
    pub per_cent: u32,
    pub ceiling: u32,
}

// How the figures of one objective are judged.
#[derive(Clone, Copy)]
pub(crate) enum Rule {
    Step(Steps),
    Ratio(Ratios),
}

// The rules of a space, place by place. A place with none has no objective, and only zero is on the grid there.
pub(crate) type Rules = [Option<Rule>; PLACES];

// The most edges that are looked at: more than any extent that is allowed has.
const EDGES: usize = 2000;

// The edge after this one.
pub(crate) fn edge_after(per_cent: u32, edge: i64) -> i64 {
    let grown = edge
        .saturating_mul(i64::from(per_cent).saturating_add(100))
        .checked_div(100)
        .unwrap_or(0);
    edge.saturating_add(1).max(grown)
}

impl Ratios {
    // The box of a figure: how many edges after the first are at most the figure.
    fn find_box(&self, figure: i64) -> i64 {
        let edges = iter::successors(Some(1), |edge| Some(edge_after(self.per_cent, *edge)));
        let below = edges.skip(1).take(EDGES).take_while(|edge| *edge <= figure);
        i64::try_from(below.count()).unwrap_or(0)
    }
}

impl Steps {
    // The figure turned so that more is better.
    fn worth(&self, figure: i64) -> i64 {
        match self.better {
            Better::Larger => figure.saturating_sub(i64::from(self.low)),
            Better::Smaller => i64::from(self.high).saturating_sub(figure),
        }
    }

    // The figure of this worth.
    pub(crate) fn figure_of(&self, worth: i64) -> i64 {
        match self.better {
            Better::Larger => i64::from(self.low).saturating_add(worth),
            Better::Smaller => i64::from(self.high).saturating_sub(worth),
        }
    }

    // The best figure.
    fn best(&self) -> i64 {
        i64::from(match self.better {
            Better::Larger => self.high,
            Better::Smaller => self.low,
        })
    }

    // The box of a figure on the grid.
    fn find_box(&self, figure: i64) -> i64 {
        self.worth(figure)
            .checked_div(i64::from(self.step))
            .unwrap_or(0)
    }
}

impl Rule {
    // Whether the numbers of the rule are allowed.
    pub(crate) fn is_sound(&self) -> bool {
        let in_range = match self {
            Rule::Step(steps) => {
                steps.low <= steps.high && (1..=2_147_483_647).contains(&steps.step)
            }
            Rule::Ratio(ratios) => {
                (1..=100).contains(&ratios.per_cent) && (1..=1_000_000).contains(&ratios.ceiling)
            }
        };
        in_range && self.extent() <= 1024
    }

    // Whether a figure is on the grid.
    pub(crate) fn admits(&self, figure: i64) -> bool {
        match self {
            Rule::Step(steps) => {
                i64::from(steps.low) <= figure && figure <= i64::from(steps.high)
            }
            Rule::Ratio(ratios) => 1 <= figure && figure <= i64::from(ratios.ceiling),
        }
    }

    // The figure turned so that more is better.
    pub(crate) fn worth(&self, figure: i64) -> i64 {
        match self {
            Rule::Step(steps) => steps.worth(figure),
            Rule::Ratio(_) => figure,
        }
    }

    // The box of a figure on the grid.
    fn find_box(&self, figure: i64) -> i64 {
        match self {
            Rule::Step(steps) => steps.find_box(figure),
            Rule::Ratio(ratios) => ratios.find_box(figure),
        }
    }

    // How many boxes there are.
    pub(crate) fn extent(&self) -> i64 {
        let best = match self {
            Rule::Step(steps) => steps.best(),
            Rule::Ratio(ratios) => i64::from(ratios.ceiling),
        };
        self.find_box(best).saturating_add(1)
    }

    // Whether one figure covers another: it is less than a step below it, or at most the per cent below it.
    pub(crate) fn covers(&self, figure: i64, other: i64) -> bool {
        match self {
            Rule::Step(steps) => {
                steps.worth(figure).saturating_add(i64::from(steps.step)) > steps.worth(other)
            }
            Rule::Ratio(ratios) => {
                i64::from(ratios.per_cent)
                    .saturating_add(100)
                    .saturating_mul(figure)
                    >= other.saturating_mul(100)
            }
        }
    }
}

// How many objectives a space has.
pub(crate) fn objectives(rules: &Rules) -> usize {
    rules.iter().flatten().count()
}

// Whether a point is on the grid.
pub(crate) fn admits(rules: &Rules, point: &Point) -> bool {
    rules.iter().zip(point).all(|(rule, figure)| rule.map_or(
        *figure == 0,
        |rule| rule.admits(*figure),
    ))
}

// The figures of a point turned so that more is better in every place.
pub(crate) fn worths(rules: &Rules, point: &Point) -> Point {
    array::from_fn(|i| rules[i].map_or(0, |rule| rule.worth(point[i])))
}

// The box of a point; of a point off the grid all zeros.
pub(crate) fn boxes(rules: &Rules, point: &Point) -> Point {
    if !admits(rules, point) {
        return [0; PLACES];
    }
    array::from_fn(|i| rules[i].map_or(0, |rule| rule.find_box(point[i])))
}

// Whether one point covers another.
pub(crate) fn covers(rules: &Rules, point: &Point, other: &Point) -> bool {
    let figures = point.iter().zip(other);
    rules.iter().zip(figures).all(|(rule, (one, another))| rule.is_none_or(|rule| rule.covers(
        *one, *another,
    )))
}

// Whether one vector is at least as great as another in every place.
pub(crate) fn no_worse(one: &Point, other: &Point) -> bool {
    one.iter().zip(other).all(|(a, b)| a >= b)
}

// Whether one vector dominates another: it is at least as great in every place, and greater in one.
pub(crate) fn dominates(one: &Point, other: &Point) -> bool {
    no_worse(one, other) && one != other
}

// The product of all extents but a largest.
pub(crate) fn row_need(rules: &Rules) -> i64 {
    let extents = || rules.iter().flatten().map(|rule| rule.extent());
    let largest = extents().fold(1i64, |largest, extent| largest.max(extent));
    let product = extents().fold(1i64, |product, extent| product.saturating_mul(extent));
    product.checked_div(largest).unwrap_or(0)
}
