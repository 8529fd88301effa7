// Rows that came from no history: filled with anything, audited and offered to on both archives.
use crate::apart::{Moment, Stop};
use crate::bridge::Figured;
use crate::case::Case;
use crate::histories::{Call, Task};
use crate::making::tag_by;
use crate::replays::Both;
use crate::second::Member;
use crate::source::Source;
use crate::tally::{Tally, one_more};
use space::{Recorded, Trial};
use std::alloc::AllocError;

impl Source<'_> {
    // A trial to fill a row with: mostly on the grid, and often one that another row has too.
    fn filling<P: Figured>(&mut self) -> Trial<P> {
        let point = self.some_point();
        let point = if self.chance.once_in(12) {
            self.stray(point)
        } else {
            point
        };
        Trial {
            point: P::of_figures(&point),
            tag: tag_by(&mut self.chance),
        }
    }

    // Fills rows that hold members with anything, and gives the second archive the same.
    fn fill_rows<S: Recorded>(&mut self, both: &mut Both<S>) -> Result<(), AllocError>
    where
        S::Point: Figured,
    {
        let count = both.archive.count();
        let mut members = Vec::new(self.heap);
        for row in both.lent.own.iter_mut().take(count) {
            *row = self.filling();
            members.push(Member::new(self.rules, row.tag, row.point.figures()))?;
        }
        both.second.members = members;
        Ok(())
    }

    // An offer over the archive's own rows.
    fn plain_offer(&mut self) -> Call {
        Call {
            rows: self.rows,
            task: Task::Offer {
                room: self.rows,
                tag: tag_by(&mut self.chance),
                point: self.some_point(),
            },
        }
    }
}

impl<S: Recorded> Case<'_, S>
where
    S::Point: Figured,
{
    // An audit of the rows, and then some offers to them.
    fn hold_round(
        &self,
        source: &mut Source<'_>,
        both: &mut Both<S>,
        tally: &mut Tally,
    ) -> Result<(), Stop> {
        one_more(&mut tally.audits);
        let audit = Call {
            rows: self.history.rows,
            task: Task::Audit,
        };
        self.hold_call(both, &audit, tally)?;
        for _ in 0..3 {
            one_more(&mut tally.offers);
            self.hold_call(both, &source.plain_offer(), tally)?;
        }
        Ok(())
    }

    // Some rounds of such rows, after a history that left members.
    pub(crate) fn hold_arbitrary(&self, both: &mut Both<S>, tally: &mut Tally) -> Result<(), Stop> {
        let history = self.history;
        if history.points.is_empty() || both.archive.count() < 2 || history.rows > 100 {
            return Ok(());
        }
        let mut source = Source {
            heap: self.heap,
            chance: history.fillings,
            rules: &self.rules,
            points: history.points.as_slice(),
            rows: history.rows,
        };
        for round in 0..6 {
            source.fill_rows(both)?;
            self.hold_round(&mut source, both, tally)
                .map_err(|stop| stop.at(Moment::Round(round)))?;
        }
        Ok(())
    }
}
