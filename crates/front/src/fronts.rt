// The archive of a log: made over 32 rows, and fed block by block.
ghost use Rattle.std.specs.Prelude.{◌≡◌, length};
ghost use Rattle.history.specs.Calls.{History, begun};
ghost use Rattle.history.specs.State.{state};
ghost use Rattle.logger.specs.Logger.{logger};
ghost use Rattle.front.specs.Fronts.{FedUnder, Point as PointOf, StandsUnder, reads};

use archive::Archive;
use history::{Fed, FeedFault};
use logger::{LoggerSpace, Point, logger_space};
use space::Trial;

// How many rows there are: more than row need, so that no trial is denied for want of one.
pub(crate) const ROWS: usize = 32;

// Rows that hold nothing of note.
pub(crate) fn blank_rows() -> [Trial<Point>; 32]
    ensures { length result ≡ 32 }
{
    [Trial {
        point: ([0; 6], [0; 6]),
        tag: 0,
    }; ROWS]
}

// An archive of the logger's space over these rows, which has been asked nothing yet.
pub(crate) fn begin(rows: &[Trial<Point>]) -> Archive<LoggerSpace>
    requires { length rows.now ≡ 32 }
    ensures { StandsUnder (begun 32) result rows.now }
{
    Archive::new(logger_space(), rows).unwrap()
}

// Feeds a block to the archive over its rows.
pub(crate) fn feed(
    archive: &mut Archive<LoggerSpace>,
    rows: &mut [Trial<Point>],
    block: &[u8],
) -> Result<Fed, FeedFault>
    ensures { FedUnder block.now archive.old rows.old result archive.new rows.new }
{
    archive.feed(block, rows)
}

// The members: the rows that hold them, in front.
pub(crate) fn members<'r>(
    archive: &Archive<LoggerSpace>,
    rows: &'r [Trial<Point>],
) -> &'r [Trial<Point>]
    ensures { (h : History PointOf) → StandsUnder h archive.now rows.now → result.now ≡ (state logger reads h).members }
{
    let (members, _) = rows.split_at(archive.count().min(rows.len()));
    members
}
