// Spaces of a few objectives for the tests, and archives of them.
use archive::Archive;
use outside_parts::at;
use space::Trial;
use step::{Direction, Scale, StepSpace};

// So many objectives from 0 up to the highest figure, the larger the better, each figure a box of its own.
pub(crate) fn square(objectives: usize, high: i32) -> Option<StepSpace> {
    let side = Scale {
        direction: Direction::LargerIsBetter,
        low: 0,
        high,
        step: 1,
    };
    StepSpace::new(&[side; 6][..objectives.min(6)]).ok()
}

// An archive of two objectives from 0 to 9 over these rows, with one member.
pub(crate) fn holding(
    member: Trial<[i32; 6]>,
    rows: &mut [Trial<[i32; 6]>],
) -> Option<Archive<StepSpace>> {
    let mut archive = Archive::new(square(2, 9)?, rows).ok()?;
    archive.offer(member, rows, &mut [0; 10]).ok()?;
    Some(archive)
}

// An archive of so many objectives over these rows, with so many members: none has a box above another's.
pub(crate) fn filled(
    objectives: usize,
    members: u8,
    rows: &mut [Trial<[i32; 6]>],
) -> Option<Archive<StepSpace>> {
    let mut archive = Archive::new(square(objectives, 255)?, rows).ok()?;
    // by number: each member's tag and figures are made of it
    for i in 0..members {
        let trial = at(1000 + u32::from(i), i32::from(i), 255 - i32::from(i));
        archive.offer(trial, rows, &mut [0; 64]).ok()?;
    }
    Some(archive)
}

// The members' tags, and zeros after them.
pub(crate) fn tags(archive: &Archive<StepSpace>, rows: &[Trial<[i32; 6]>]) -> [u32; 4] {
    let mut tags = [0; 4];
    let _ = archive.list(rows, &mut tags);
    tags
}

// Whether these rows are the same, point by point and tag by tag.
pub(crate) fn same_rows(a: &[Trial<[i32; 6]>], b: &[Trial<[i32; 6]>]) -> bool {
    let parts = |row: &Trial<[i32; 6]>| (row.point, row.tag);
    a.iter().map(parts).eq(b.iter().map(parts))
}
