// The rule itself.
ghost use Rattle.std.specs.Prelude.{◌≡◌, true};
ghost use Rattle.step.specs.Rule.{step_sound, step_line};
ghost use Rattle.step.specs.Laws.{step_lawful};

use crate::scaling::Scale;
use grid::{Axis, Grid, Levels};

// A sound scale, with what a height is multiplied by for a guess at its box.
#[derive(Clone, Copy)]
pub struct StepAxis {
    scale: Scale,
    inverse: u64,
    ghost sound: { step_sound scale ≡ true },
}

// A space of one to six objectives, each divided by a step rule of its own.
pub type StepSpace = Grid<StepAxis>;

impl Axis for StepAxis {
    type Figure = i32;

    type Scale = Scale;

    ghost line = { λ a. step_line a.scale };

    ghost sound = { step_sound };

    ghost rule = { step_line };

    ghost lawful = { λ a. step_lawful a.scale a.sound };

    fn new(scale: Scale) -> Option<StepAxis> {
        // by `if`: in the closure of a `then` it is not known that the scale is sound
        if scale.is_sound() {
            Some(StepAxis {
                scale,
                inverse: scale.inverse(),
            })
        } else {
            None
        }
    }

    fn admits(&self, v: i32) -> bool {
        // `contains` of this range gets its proof from a file of answers alone, and the project wants a wrong `admits` refused at its own
        // line
        self.scale.low <= v && v <= self.scale.high
    }

    fn no_worse(&self, v: i32, w: i32) -> bool {
        self.scale.height(v) >= self.scale.height(w)
    }

    fn extent(&self) -> u32 {
        self.scale.last_box() + 1
    }

    fn box_number(&self, v: i32) -> u32 {
        if self.admits(v) {
            self.scale.find_box(v, self.inverse)
        } else {
            0
        }
    }

    fn covers(&self, v: i32, w: i32) -> bool {
        self.scale.reach(v) > self.scale.height(w)
    }

    fn at_most(&self, n: u32) -> (i32, i32) {
        self.scale.at_most(n)
    }

    fn at_least(&self, n: u32) -> (i32, i32) {
        self.scale.at_least(n)
    }

    fn levels(&self, n: u32) -> Levels {
        self.scale.levels(n)
    }
}
