// The six questions, asked of the rules in use.
ghost use Rattle.std.specs.Prelude.{◌≡◌, map, take};
ghost use Rattle.std.proofs.Common.{arith};
ghost use Rattle.space.specs.Boxes.{boxes_on};
ghost use Rattle.grid.specs.InUse.{lawful_rules};
ghost use Rattle.grid.specs.Whole.{meaning_by};

use crate::axis::Axis;
use crate::compare::{admits, box_number, boxes, covers, extent, no_worse};
use crate::looking::look_on_grid;
use crate::whole::Grid;
use space::{Lie, Look, Space, Trial, look_one_by_one};

impl<A: Axis> Grid<A> {
    // The rules in use, one an objective.
    pub(super) fn rules(&self) -> &[A]
        ensures { result.now ≡ take self.now.objectives self.now.axes }
    {
        let (rules, _) = self.axes.split_at(self.objectives);
        rules
    }
}

impl<A: Axis> Space for Grid<A> {
    type Point = [A::Figure; 6];

    ghost meaning = { meaning_by A.Figure.Figure.bits A.Axis.line };

    ghost lawful = { λ s. lawful_rules A.Figure.Figure.bits A.Axis.line s.axes s.objectives (omega (arith, s.few)) A.Axis.lawful s.few.0 s.few.1 };

    fn objectives(&self) -> usize
        ensures value { result ≡ (meaning_by A.Figure.Figure.bits A.Axis.line self.now).objectives }
        ensures kept { result ≡ self.now.objectives }
    {
        self.rules().len()
    }

    fn admits(&self, p: &[A::Figure; 6]) -> bool {
        admits(self.rules(), p)
    }

    fn no_worse(&self, p: &[A::Figure; 6], q: &[A::Figure; 6]) -> bool {
        no_worse(self.rules(), p, q)
    }

    fn extent(&self, i: usize) -> u32 {
        extent(self.rules(), i)
    }

    fn box_number(&self, i: usize, p: &[A::Figure; 6]) -> u32 {
        box_number(self.rules(), i, p)
    }

    fn covers(&self, p: &[A::Figure; 6], q: &[A::Figure; 6]) -> bool {
        covers(self.rules(), p, q)
    }

    fn boxes(&self, p: &[A::Figure; 6]) -> Option<[u32; 6]> {
        boxes(self.rules(), p)
    }

    fn lie(&self, mine: &[u32; 6], p: &[A::Figure; 6]) -> Lie {
        Lie::of(mine, &self.boxes(p).unwrap_or([0; 6]))
    }

    fn look(&self, p: &[A::Figure; 6], trials: &[Trial<[A::Figure; 6]>]) -> Option<Look> {
        let numbers = self.boxes(p)?;
        match look_on_grid(self.rules(), &numbers, trials) {
            Some(look) => Some(look),
            None => Some(look_one_by_one(
                &numbers,
                trials,
                |q: &[A::Figure; 6]| -> Option<[u32; 6]>
                    ensures { result ≡ boxes_on (meaning_by A.Figure.Figure.bits A.Axis.line self.entry.now) q.now }
                { self.boxes(q) },
            )),
        }
    }
}
