// Points drawn by chance, the same in every run.
use crate::asked::Objectives;

// A point of up to six figures, zero past the last objective.
pub(crate) type Point = [i32; 6];

// The greatest figure of an objective.
pub(crate) const HIGHEST: u16 = 65_535;

// A row of numbers, of which each follows from the one before.
#[derive(Clone, Copy)]
pub(crate) struct Chance {
    state: u32,
}

impl Chance {
    pub(crate) fn new() -> Chance {
        Chance { state: 1 }
    }

    // The next number: the upper half of the state, since the lower half comes round again sooner.
    fn next(&mut self) -> u16 {
        self.state = self
            .state
            .wrapping_mul(1_664_525)
            .wrapping_add(1_013_904_223);
        (self.state >> 16) as u16
    }

    // A point whose figures have the same sum as those of every other, so that few points dominate another: the last objective
    // takes what the others leave.
    pub(crate) fn point(&mut self, objectives: Objectives) -> Point {
        let last = objectives.count() - 1;
        let mut point = [0; 6];
        let mut left = HIGHEST;
        for figure in point[..last].iter_mut() {
            let drawn = objectives.share_of(self.next());
            *figure = i32::from(drawn);
            // something is always left: saturating only so that no proof has to say it
            left = left.saturating_sub(drawn);
        }
        point[last] = i32::from(left);
        point
    }
}
