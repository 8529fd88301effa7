// What the calls of a history are made up from.
use crate::chance::Chance;
use crate::figures::{PLACES, Point, Rule, Rules};
use crate::making::point_by;
use std::alloc::Global;

// Chance, the rules of the space, points to come back to, and how many rows the archive has.
#[derive(Clone, Copy)]
pub(crate) struct Source<'a> {
    pub heap: Global,
    pub chance: Chance,
    pub rules: &'a Rules,
    pub points: &'a [Point],
    pub rows: usize,
}

impl Source<'_> {
    // A figure of the point by chance, with its rule; none where that place has none.
    fn some_figure<'p>(&mut self, point: &'p mut Point) -> Option<(&'p mut i64, Rule)> {
        let rules = self.rules;
        let i = self.chance.size(PLACES);
        let rule = rules.get(i).copied().flatten()?;
        Some((point.get_mut(i)?, rule))
    }

    // The point with one figure moved by one, so that it may be better or worse within a box.
    fn nudged(&mut self, mut point: Point) -> Point {
        if let Some((figure, rule)) = self.some_figure(&mut point) {
            let moved = figure.saturating_add(self.chance.between(-1, 1));
            if rule.admits(moved) {
                *figure = moved;
            }
        }
        point
    }

    // The point with one figure off the grid, where there is room for one.
    pub(crate) fn stray(&mut self, mut point: Point) -> Point {
        if let Some((figure, rule)) = self.some_figure(&mut point) {
            *figure = match rule {
                Rule::Step(steps) => i64::from(steps.high.saturating_add(1)),
                Rule::Ratio(_) => 0,
            };
        }
        point
    }

    // A point: one of those to come back to, one near it, or a new one.
    pub(crate) fn some_point(&mut self) -> Point {
        let at = self.chance.size(self.points.len());
        match (self.chance.below(7), self.points.get(at)) {
            (0, Some(point)) => *point,
            (1..4, Some(point)) => self.nudged(*point),
            _ => point_by(&mut self.chance, self.rules),
        }
    }
}
