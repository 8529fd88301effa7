// Making the rules of a grid from its scales.
ghost use Rattle.std.specs.Prelude.{◌≡◌, map, length, take, if◌then◌else◌, Some, None, MatchResult};
ghost use Rattle.space.specs.declared.refusal.BadGrid.TheVariants.{Objective};
ghost use Rattle.grid.specs.Making.{grid_fault, six_rules};

use crate::axis::Axis;
use space::BadGrid;

// The rule of one objective's scale.
fn rule_of<A: Axis>(scale: A::Scale, objective: u8) -> Result<A, BadGrid>
    ensures { MatchResult result (λ a. Some (A.Axis.line a) ≡ (if A.Axis.sound scale then Some (A.Axis.rule scale) else None)) (λ e. (None ≡ (if A.Axis.sound scale then Some (A.Axis.rule scale) else None)) × (e ≡ Objective objective)) }
{
    A::new(scale).ok_or(BadGrid::Objective(objective))
}

// The rules of these scales, one an objective, or the fault of the lowest objective that has one.
// The places past the last objective repeat the first rule.
pub fn rules<A: Axis>(scales: &[A::Scale]) -> Result<[A; 6], BadGrid>
    ensures { MatchResult result (λ axes. (grid_fault A.Axis.sound scales.now ≡ None) × (map A.Axis.line (take (length scales.now) axes) ≡ map A.Axis.rule scales.now) × (map A.Axis.line axes ≡ six_rules (map A.Axis.rule scales.now))) (λ e. grid_fault A.Axis.sound scales.now ≡ Some e) }
{
    if scales.is_empty() || scales.len() > 6 {
        return Err(BadGrid::Objectives);
    }
    let first = rule_of(scales[0], 0)?;
    let mut axes = [first; 6];
    // i is the objective, which a fault tells, and its place in both arrays; of what is written through a zipped `iter_mut` a
    // proof knows nothing
    for i in 1..scales.len() {
        axes[i] = rule_of(scales[i], i as u8)?;
    }
    Ok(axes)
}
