// The trials that the entries of a text tell of.
ghost use Rattle.std.specs.Prelude.{◌≡◌, IfOk};
ghost use Rattle.logger.specs.Logger.{trial_of, trial_of_line, trials_of};

use crate::scales::Point;
use entry::{Entry, Malformed};
use space::Trial;
use std::alloc::{AllocError, Global};

// The trial that an entry tells of.
pub fn trial_of(entry: &Entry) -> Trial<Point>
    ensures { result ≡ trial_of entry.now }
{
    Trial {
        point: ([entry.delay, 0, 0, 0, 0, 0], [entry.life, 0, 0, 0, 0, 0]),
        tag: entry.tag,
    }
}

// The trial of a line, on the grid or not, if it tells of one.
fn trial_of_line(line: &Result<Entry, Malformed>) -> Option<Trial<Point>>
    ensures { result ≡ trial_of_line line.now }
{
    line.as_ref().ok().map(trial_of)
}

// The trials of the lines that tell of one, in their order.
pub fn trials_of(
    heap: Global,
    lines: &[Result<Entry, Malformed>],
) -> Result<Vec<Trial<Point>>, AllocError>
    ensures { IfOk result (λ v. v.items ≡ trials_of lines.now) }
{
    lines.iter().filter_map(trial_of_line).collect(heap)
}
