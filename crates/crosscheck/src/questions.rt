// The questions of a space, and its bytes, against the second archive's own arithmetic.
use crate::apart::{Stop, same};
use crate::blocks::figures_bytes;
use crate::bridge::Figured;
use crate::case::Case;
use crate::figures::{Point, admits, boxes, covers, no_worse, objectives, row_need, worths};
use crate::tally::{Tally, one_more};
use archive::row_need as first_need;
use space::{Recorded, point_bytes, read_or_blank};

impl<S: Recorded> Case<'_, S>
where
    S::Point: Figured,
{
    // How many objectives and boxes there are, and how many rows are needed.
    fn hold_extents(&self) -> Result<(), Stop> {
        let Case { space, rules, .. } = self;
        same(
            space.objectives() == objectives(rules),
            "the number of objectives",
        )?;
        for (i, rule) in rules.iter().flatten().enumerate() {
            same(i64::from(space.extent(i)) == rule.extent(), "an extent")?;
        }
        same(
            space.extent(objectives(rules)) == 1,
            "an extent past the last objective",
        )?;
        same(
            i64::try_from(first_need(space)).unwrap_or(-1) == row_need(rules),
            "row need",
        )
    }

    // One point: whether it is on the grid, and its box.
    fn hold_point(&self, point: &Point) -> Result<(), Stop> {
        let Case { space, rules, .. } = self;
        let first = S::Point::of_figures(point);
        same(
            space.admits(&first) == admits(rules, point),
            "whether a point is on the grid",
        )?;
        let numbers = boxes(rules, point);
        let used = rules
            .iter()
            .zip(numbers.iter())
            .filter(|(rule, _)| rule.is_some());
        for (i, (_, number)) in used.enumerate() {
            same(
                i64::from(space.box_number(i, &first)) == *number,
                "a box number",
            )?;
        }
        Ok(())
    }

    // The bytes of a point on the grid, and the point that they say.
    fn hold_bytes(&self, point: &Point) -> Result<(), Stop> {
        let Case { space, rules, .. } = self;
        let first = S::Point::of_figures(point);
        let mut bytes = Vec::new(self.heap);
        figures_bytes(rules, point, &mut bytes)?;
        same(space.width() == bytes.len(), "how many bytes a point takes")?;
        let written = point_bytes(space, &first);
        same(
            written.starts_with(bytes.as_slice()),
            "the bytes of a point",
        )?;
        same(
            read_or_blank(space, bytes.as_slice()).figures() == *point,
            "the point that bytes say",
        )
    }

    // Two points: whether the one is no worse, and whether it covers the other.
    fn hold_two(&self, point: &Point, other: &Point) -> Result<(), Stop> {
        let Case { space, rules, .. } = self;
        let p = S::Point::of_figures(point);
        let q = S::Point::of_figures(other);
        same(
            space.no_worse(&p, &q) == no_worse(&worths(rules, point), &worths(rules, other)),
            "whether a point is no worse",
        )?;
        same(
            space.covers(&p, &q) == covers(rules, point, other),
            "whether a point covers another",
        )
    }

    // All questions, at the points of the history.
    pub(crate) fn hold_questions(&self, tally: &mut Tally) -> Result<(), Stop> {
        let points = self.history.points.as_slice();
        self.hold_extents()?;
        for point in points {
            self.hold_point(point)?;
            if admits(&self.rules, point) {
                self.hold_bytes(point)?;
            }
            for other in points {
                self.hold_two(point, other)?;
                one_more(&mut tally.questions);
            }
        }
        Ok(())
    }
}
