// Making a grid from its scales.
ghost use Rattle.std.specs.Prelude.{◌≡◌, map, Some, None, MatchResult};
ghost use Rattle.grid.specs.Making.{grid_fault};
ghost use Rattle.grid.specs.Space.{grid_meaning};
ghost use Rattle.grid.specs.Whole.{meaning_by};

use crate::axis::Axis;
use crate::make::rules;
use crate::whole::Grid;
use space::BadGrid;

impl<A: Axis> Grid<A> {
    // The grid of these scales, one an objective, or the fault of the lowest objective that has one.
    pub fn new(scales: &[A::Scale]) -> Result<Grid<A>, BadGrid>
        ensures { MatchResult result (λ s. (grid_fault A.Axis.sound scales.now ≡ None) × (meaning_by A.Figure.Figure.bits A.Axis.line s ≡ grid_meaning A.Figure.Figure.bits (map A.Axis.rule scales.now))) (λ e. grid_fault A.Axis.sound scales.now ≡ Some e) }
    {
        let axes = rules(scales)?;
        Ok(Grid {
            axes,
            objectives: scales.len(),
        })
    }
}
