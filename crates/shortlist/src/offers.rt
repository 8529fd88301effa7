// The trials offered one after the other to an archive with rows enough, by a replay: each call with its answer, and the
// members at the end.
ghost use Rattle.std.specs.Prelude.{◌≡◌, map, None, IfOk};
ghost use Rattle.replay.specs.declared.asking.Ask.TheVariants.{Offer};
ghost use Rattle.shortlist.specs.Offers.{OfferedAll};

use anyhow::anyhow;
use archive::row_need;
use logger::{LoggerSpace, Point, logger_space};
use replay::{Ask, Turn, replay};
use space::Trial;
use std::alloc::{AllocError, Global};

// What came of the offers: each with its answer, and the members at the end, row by row.
#[derive(Drop)]
pub(crate) struct Offers {
    pub turns: Vec<Turn<Ask<Point>>>,
    pub members: Vec<Trial<Point>>,
}

// An offer of each trial, on the grid or not, in their order, over so many rows and as long a list; none is answered yet.
fn offers_of(
    heap: Global,
    trials: &[Trial<Point>],
    rows: usize,
) -> Result<Vec<Turn<Ask<Point>>>, AllocError>
    ensures { IfOk result (λ v. v.items ≡ map (λ t. record { ask = Offer rows rows t; answer = None }) trials.now) }
{
    trials
        .iter()
        .map(|trial| {
            Turn::new(Ask::Offer {
                rows,
                room: rows,
                trial: *trial,
            })
        })
        .collect(heap)
}

// Makes an archive with as many rows as the space needs, and offers it the trials.
pub(crate) fn offer_all(heap: Global, trials: &[Trial<Point>]) -> anyhow::Result<Offers>
    ensures { IfOk result (λ o. OfferedAll trials.now o.turns.items o.members.items) }
{
    let space: LoggerSpace = logger_space();
    let need = row_need(&space) as usize;
    let empty = Trial {
        point: ([0; 6], [0; 6]),
        tag: 0,
    };
    let mut rows = vec![in heap; empty; need]?;
    let mut list = vec![in heap; 0; need]?;
    let mut turns = offers_of(heap, trials, need)?;
    let archive = replay(space, &mut rows, &mut [], &mut list, &mut turns).map_err(
        |refused| anyhow!("no archive is made: denied {}", refused.denial.number()),
    )?;
    rows.truncate(archive.count());
    Ok(Offers {
        turns,
        members: rows,
    })
}
