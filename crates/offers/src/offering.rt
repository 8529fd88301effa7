// The offers, one after the other, to an archive that is made for them.
ghost use Rattle.std.specs.Prelude.{◌≡◌, take};

use crate::asked::{Asked, Objectives};
use crate::chance::{Chance, HIGHEST, Point};
use crate::told::{Told, Verdicts, sum_of_tags};
use anyhow::{Result, anyhow, bail};
use archive::Archive;
use space::Trial;
use std::alloc::Global;
use step::{Direction, Scale, StepSpace};

// A space of so many objectives, each in 1,024 boxes, as many as an objective may have.
fn space_of(objectives: Objectives) -> Result<StepSpace> {
    let scale = Scale {
        direction: Direction::LargerIsBetter,
        low: 0,
        high: i32::from(HIGHEST),
        step: 64,
    };
    StepSpace::new(&[scale; 6][..objectives.count()]).map_err(|bad| anyhow!(
        "no space is made: refused {}, {}",
        bad.number(),
        bad.told()
    ))
}

// Makes an archive over so many rows, and offers it so many points, each with its number as its tag.
pub(crate) fn offer_all(heap: Global, asked: Asked) -> Result<Told> {
    let blank = Trial {
        point: [0; 6],
        tag: 0,
    };
    let mut rows = vec![in heap; blank; asked.rows]?;
    let mut displaced = vec![in heap; 0u32; asked.rows]?;
    let mut archive = Archive::new(space_of(asked.objectives)?, &rows).map_err(|refused| anyhow!(
        "no archive is made: denied {}",
        refused.denial.number()
    ))?;
    let mut chance = Chance::new();
    let mut verdicts = Verdicts::default();
    for tag in 0..asked.offers {
        let trial = Trial {
            point: chance.point(asked.objectives),
            tag,
        };
        if let Err(denial) = verdicts.count(archive.offer(trial, &mut rows, &mut displaced)) {
            bail!("an offer is denied {}", denial.number());
        }
    }
    let members = members_of(&archive, &rows);
    Ok(Told {
        verdicts,
        members: members.len(),
        sum: sum_of_tags(members),
    })
}

// The members: the rows that hold them, in front.
fn members_of<'r>(archive: &Archive<StepSpace>, rows: &'r [Trial<Point>]) -> &'r [Trial<Point>]
    ensures { result.now ≡ take archive.now.count rows.now }
{
    let (members, _) = rows.split_at(archive.count().min(rows.len()));
    members
}
