// A trial as it is printed, in the account and among the rows.
use logger::{LoggerSpace, Point};
use space::{Space, Trial};
use std::fmt;

// A trial's figures and its boxes.
#[derive(Clone, Copy)]
pub(crate) struct Figures<'a> {
    pub space: &'a LoggerSpace,
    pub trial: &'a Trial<Point>,
}

impl fmt::Display for Figures<'_> {
    fn fmt<W: fmt::Write>(&self, f: &mut fmt::Formatter<W>) -> fmt::Result {
        let point = &self.trial.point;
        write!(
            f,
            "tag {} delay {} life {} box {} {}",
            self.trial.tag,
            point.0[0],
            point.1[0],
            self.space.box_number(0, point),
            self.space.box_number(1, point)
        )
    }
}
