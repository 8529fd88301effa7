// A space of two objectives for the tests.
use step::{Direction, Scale, StepSpace};

// Not by the one of `outside_logs`, whose boxes are all of one figure: a public one would need a contract on the whole space.
// Both objectives from 0 up to the highest figure, the larger the better, in boxes of this width.
pub(crate) fn square(high: i32, step: u32) -> Option<StepSpace> {
    let side = Scale {
        direction: Direction::LargerIsBetter,
        low: 0,
        high,
        step,
    };
    StepSpace::new(&[side, side]).ok()
}
