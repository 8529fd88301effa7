// An archive's own calls: the worked figures, and what is denied.
use crate::squares::square;
use archive::{Archive, row_need};
use history::{Denial, Offered, Verdict};
use outside_parts::at;
use std::test::Fail;

// The answer to an offered trial that is judged. Not by the one of `outside_parts`, which is what a replay writes down.
fn judged(verdict: Verdict, displaced: usize) -> Result<Offered, Denial> {
    Ok(Offered { verdict, displaced })
}

#[test]
fn one_trial_for_two_members(rt: HostRuntime) -> Result<(), Fail> {
    let space = square(9, 1).ok_or("a space")?;
    let mut rows = [at(0, 0, 0); 5];
    let mut list = [77; 5];
    let mut archive = Archive::new(space, &rows).ok().ok_or("rows")?;
    for trial in [at(1, 1, 9), at(2, 3, 3), at(3, 5, 1), at(4, 9, 0)] {
        assert_eq!(rt;
            archive.offer(trial, &mut rows, &mut list),
            judged(Verdict::Entered, 0)
        );
    }
    assert_eq!(rt;
        archive.offer(at(5, 6, 4), &mut rows, &mut list),
        judged(Verdict::Displaced, 2)
    );
    assert!(rt; list == [2, 3, 77, 77, 77] || list == [3, 2, 77, 77, 77]);
    assert_eq!(rt; archive.audit(&rows), Ok(None));
    assert_eq!(rt; archive.list(&rows, &mut list), Ok(3));
    assert!(rt; list[..3] == [1, 4, 5]);
    assert_eq!(rt; rows[2].point, [6, 4, 0, 0, 0, 0]);
    Ok(())
}

#[test]
fn a_full_archive(rt: HostRuntime) -> Result<(), Fail> {
    let space = square(9, 1).ok_or("a space")?;
    let mut rows = [at(0, 0, 0); 2];
    let mut list = [77; 2];
    let mut archive = Archive::new(space, &rows).ok().ok_or("rows")?;
    assert_eq!(rt;
        archive.offer(at(1, 1, 9), &mut rows, &mut list),
        judged(Verdict::Entered, 0)
    );
    assert_eq!(rt;
        archive.offer(at(2, 9, 0), &mut rows, &mut list),
        judged(Verdict::Entered, 0)
    );
    assert_eq!(rt;
        archive.offer(at(3, 5, 5), &mut rows, &mut list),
        Err(Denial::Full)
    );
    assert_eq!(rt; list, [77, 77]);
    assert_eq!(rt;
        archive.offer(at(4, 9, 1), &mut rows, &mut list),
        judged(Verdict::Displaced, 1)
    );
    assert_eq!(rt; list, [2, 77]);
    assert_eq!(rt; archive.list(&rows, &mut list), Ok(2));
    assert_eq!(rt; list, [1, 4]);
    Ok(())
}

#[test]
fn boxes_before_points(rt: HostRuntime) -> Result<(), Fail> {
    let space = square(99, 10).ok_or("a space")?;
    let mut rows = [at(0, 0, 0); 3];
    let mut list = [77; 3];
    let mut archive = Archive::new(space, &rows).ok().ok_or("rows")?;
    assert_eq!(rt;
        archive.offer(at(1, 19, 19), &mut rows, &mut list),
        judged(Verdict::Entered, 0)
    );
    assert_eq!(rt;
        archive.offer(at(2, 19, 19), &mut rows, &mut list),
        judged(Verdict::PassedOver, 0)
    );
    assert_eq!(rt;
        archive.offer(at(3, 25, 12), &mut rows, &mut list),
        judged(Verdict::Displaced, 1)
    );
    assert_eq!(rt;
        archive.offer(at(4, 29, 19), &mut rows, &mut list),
        judged(Verdict::Replaced, 1)
    );
    assert_eq!(rt; list, [3, 77, 77]);
    Ok(())
}

#[test]
fn denials(rt: HostRuntime) -> Result<(), Fail> {
    let space = square(9, 1).ok_or("a space")?;
    assert_eq!(rt; row_need(&space), 10);
    let none = Archive::new(space, &[]).err();
    assert_eq!(rt; none.map(|refused| refused.denial), Some(Denial::NoRows));
    let long = Archive::new(space, &[at(0, 0, 0); 4097]).err();
    assert_eq!(rt; long.map(|refused| refused.denial), Some(Denial::Overlong));
    let mut rows = [at(0, 0, 0); 2];
    let mut archive = Archive::new(space, &rows).ok().ok_or("rows")?;
    let mut list = [77; 2];
    assert_eq!(rt;
        archive.offer(at(1, 1, 9), &mut rows[..1], &mut []),
        Err(Denial::StrangeRows)
    );
    assert_eq!(rt;
        archive.offer(at(1, 10, 9), &mut rows, &mut list[..1]),
        Err(Denial::ShortList)
    );
    assert_eq!(rt;
        archive.offer(at(1, 10, 9), &mut rows, &mut list),
        Err(Denial::OffGrid)
    );
    assert_eq!(rt; archive.audit(&rows[..1]), Err(Denial::StrangeRows));
    assert_eq!(rt;
        archive.offer(at(1, 1, 9), &mut rows, &mut list),
        judged(Verdict::Entered, 0)
    );
    assert_eq!(rt; archive.list(&rows[..1], &mut []), Err(Denial::StrangeRows));
    assert_eq!(rt; archive.list(&rows, &mut []), Err(Denial::ShortList));
    Ok(())
}

#[test]
fn rows_that_came_from_no_history(rt: HostRuntime) -> Result<(), Fail> {
    let space = square(9, 1).ok_or("a space")?;
    let mut rows = [at(0, 0, 0); 4];
    let mut list = [77; 4];
    let mut archive = Archive::new(space, &rows).ok().ok_or("rows")?;
    for trial in [at(1, 1, 9), at(2, 5, 5), at(3, 9, 1)] {
        assert_eq!(rt;
            archive.offer(trial, &mut rows, &mut list),
            judged(Verdict::Entered, 0)
        );
    }
    rows[2] = at(3, 5, 5);
    assert_eq!(rt; archive.audit(&rows), Ok(Some((1, 2))));
    rows[2] = at(3, 0, 9);
    assert_eq!(rt; archive.audit(&rows), Ok(Some((0, 2))));
    rows[1] = at(2, 10, 5);
    assert_eq!(rt; archive.audit(&rows), Ok(Some((0, 1))));
    rows[0] = at(1, -1, 9);
    assert_eq!(rt; archive.audit(&rows), Ok(Some((0, 0))));
    rows[0] = at(1, 1, 9);
    rows[1] = at(2, 9, 1);
    rows[2] = at(3, 9, 1);
    assert_eq!(rt; archive.audit(&rows), Ok(Some((1, 2))));
    assert_eq!(rt;
        archive.offer(at(4, 9, 1), &mut rows, &mut list),
        judged(Verdict::PassedOver, 0)
    );
    assert_eq!(rt;
        archive.offer(at(5, 9, 2), &mut rows, &mut list),
        judged(Verdict::Displaced, 2)
    );
    assert!(rt; list == [2, 3, 77, 77] || list == [3, 2, 77, 77]);
    assert_eq!(rt; archive.list(&rows, &mut list), Ok(2));
    assert!(rt; list[..2] == [1, 5]);
    Ok(())
}
