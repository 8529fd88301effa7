// The space that a logger's trials are compared in: the write delay beside the flash life.
ghost use Rattle.std.specs.Prelude.{◌≡◌};
ghost use Rattle.step.specs.Space.{step_meaning, step_recording};
ghost use Rattle.ratio.specs.Space.{ratio_meaning, ratio_recording};
ghost use Rattle.beside.specs.Pair.{meaning_of, recording_of};
ghost use Rattle.logger.specs.Logger.{delay_bytes, delay_meaning, life_bytes, life_meaning, logger, logger_bytes};

use beside::Beside;
use ratio::RatioSpace;
use step::{Direction, StepSpace};

// Delays are from 0 to the longest, and the shorter is the better.
pub const LONGEST: i32 = 9999;

// Lives are from 1 to the highest, and the longer is the better.
pub const HIGHEST: u32 = 1000;

pub type LoggerSpace = Beside<StepSpace, RatioSpace>;

pub type Point = ([i32; 6], [u32; 6]);

// Delays, in boxes of 500.
fn delays() -> StepSpace
    ensures meaning { step_meaning result ≡ delay_meaning }
    ensures bytes { step_recording result ≡ delay_bytes }
{
    let delay = step::Scale {
        direction: Direction::SmallerIsBetter,
        low: 0,
        high: LONGEST,
        step: 500,
    };
    StepSpace::new(&[delay]).unwrap()
}

// Lives, in boxes that grow by half.
fn lives() -> RatioSpace
    ensures meaning { ratio_meaning result ≡ life_meaning }
    ensures bytes { ratio_recording result ≡ life_bytes }
{
    let life = ratio::Scale {
        per_cent: 50,
        ceiling: HIGHEST,
    };
    RatioSpace::new(&[life]).unwrap()
}

// The space: the delays beside the lives.
pub fn logger_space() -> LoggerSpace
    ensures meaning { meaning_of step_meaning ratio_meaning result ≡ logger }
    ensures bytes { recording_of step_meaning ratio_meaning step_recording ratio_recording result ≡ logger_bytes }
{
    Beside::new(delays(), lives()).unwrap()
}
