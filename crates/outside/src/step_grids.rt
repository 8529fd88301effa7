// Step spaces: the worked figures, both ends of each range, and every refusal in every objective.
use crate::points::only;
use crate::refusals::told;
use space::{Recorded, Space};
use std::test::Fail;
use step::{Direction, Scale, StepSpace};

fn scale(direction: Direction, low: i32, high: i32, step: u32) -> Scale {
    Scale {
        direction,
        low,
        high,
        step,
    }
}

#[test]
fn larger_is_better(rt: HostRuntime) -> Result<(), Fail> {
    let space = StepSpace::new(&[scale(Direction::LargerIsBetter, -10, 10, 4)])
        .ok()
        .ok_or("a space")?;
    assert_eq!(rt; space.extent(0), 6);
    for (v, number) in [(-10, 0), (-7, 0), (-6, 1), (1, 2), (2, 3), (10, 5)] {
        assert!(rt; space.admits(&only(v)));
        assert_eq!(rt; space.box_number(0, &only(v)), number);
    }
    for v in [-11, 11, i32::MIN, i32::MAX] {
        assert!(rt; !space.admits(&only(v)));
        assert_eq!(rt; space.box_number(0, &only(v)), 0);
    }
    assert!(rt; !space.admits(&[1, 1, 0, 0, 0, 0]));
    assert!(rt; space.covers(&only(2), &only(5)));
    assert!(rt; !space.covers(&only(2), &only(6)));
    Ok(())
}

#[test]
fn smaller_is_better(rt: HostRuntime) -> Result<(), Fail> {
    let space = StepSpace::new(&[scale(Direction::SmallerIsBetter, -10, 10, 4)])
        .ok()
        .ok_or("a space")?;
    for (v, number) in [(10, 0), (7, 0), (6, 1), (-10, 5)] {
        assert_eq!(rt; space.box_number(0, &only(v)), number);
    }
    assert!(rt; space.no_worse(&only(-10), &only(10)));
    assert!(rt; !space.no_worse(&only(10), &only(-10)));
    Ok(())
}

#[test]
fn all_signed_figures(rt: HostRuntime) -> Result<(), Fail> {
    let wide = scale(Direction::LargerIsBetter, i32::MIN, i32::MAX, 4_194_304);
    let space = StepSpace::new(&[wide]).ok().ok_or("a space")?;
    assert_eq!(rt; space.extent(0), 1024);
    assert_eq!(rt; space.box_number(0, &only(i32::MIN)), 0);
    assert_eq!(rt; space.box_number(0, &only(i32::MAX)), 1023);
    assert!(rt; space.no_worse(&only(i32::MAX), &only(i32::MIN)));
    assert!(rt; !space.covers(&only(i32::MIN), &only(i32::MAX)));
    let finer = scale(Direction::LargerIsBetter, i32::MIN, i32::MAX, 4_194_303);
    assert_eq!(rt; told(StepSpace::new(&[finer])), Some((7, 0)));
    let whole = scale(
        Direction::SmallerIsBetter,
        i32::MIN,
        i32::MAX,
        2_147_483_647,
    );
    assert_eq!(rt; told(StepSpace::new(&[whole])), None);
    Ok(())
}

#[test]
fn refusals(rt: HostRuntime) {
    let good = scale(Direction::SmallerIsBetter, 5, 5, 1);
    let faults = [
        scale(Direction::LargerIsBetter, 6, 5, 1),
        scale(Direction::LargerIsBetter, 0, 9, 0),
        scale(Direction::SmallerIsBetter, 0, 9, 2_147_483_648),
        scale(Direction::SmallerIsBetter, 0, 1024, 1),
    ];
    // tried over any `Grid<A>`: what the maker asks there of the size of a rule got no proof
    for fault in faults {
        // by place: the fault stands at each in turn
        for at in 0..6usize {
            let mut scales = [good; 6];
            scales[at] = fault;
            assert_eq!(rt; told(StepSpace::new(&scales)), Some((7, at as u8)));
        }
        assert_eq!(rt; told(StepSpace::new(&[good, fault, fault])), Some((7, 1)));
    }
    assert_eq!(rt; told(StepSpace::new(&[good; 6])), None);
    assert_eq!(rt; told(StepSpace::new(&[])), Some((7, 255)));
    assert_eq!(rt; told(StepSpace::new(&[good; 7])), Some((7, 255)));
}

#[test]
fn bytes(rt: HostRuntime) -> Result<(), Fail> {
    let scales = [
        scale(Direction::LargerIsBetter, -10, 10, 4),
        scale(
            Direction::SmallerIsBetter,
            i32::MIN,
            0,
            i32::MAX.cast_unsigned(),
        ),
    ];
    let space = StepSpace::new(&scales).ok().ok_or("a space")?;
    assert_eq!(rt; space.width(), 8);
    let mut out = [7u8; 8];
    assert!(rt; space.write(&[-2, i32::MIN, 0, 0, 0, 0], &mut out).is_ok());
    assert_eq!(rt; out, [255, 255, 255, 254, 128, 0, 0, 0]);
    let back = space.read(&out).ok().ok_or("a point")?;
    assert_eq!(rt; back, [-2, i32::MIN, 0, 0, 0, 0]);
    let mut long = [7u8; 12];
    assert!(rt; space.write(&back, &mut long).is_err());
    assert_eq!(rt; long, [7; 12]);
    let unread = space.read(&long).err().ok_or("a refusal")?;
    assert_eq!(rt; unread.blank, [0; 6]);
    Ok(())
}
