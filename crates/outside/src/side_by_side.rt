// Any two spaces side by side, with bytes where both have them.
use crate::triangle::{Share, Triangle};
use beside::Beside;
use ratio::RatioSpace;
use space::{Recorded, Space, point_bytes};
use std::test::Fail;
use step::{Direction, StepSpace};

const DELAY: step::Scale = step::Scale {
    direction: Direction::SmallerIsBetter,
    low: 0,
    high: 9999,
    step: 500,
};

const LIFE: ratio::Scale = ratio::Scale {
    per_cent: 50,
    ceiling: 1000,
};

#[test]
fn spaces_of_any_kind(rt: HostRuntime) -> Result<(), Fail> {
    let two = Beside::new(Triangle, Triangle).ok().ok_or("two spaces")?;
    assert_eq!(rt; two.objectives(), 6);
    let point = (
        Share {
            reads: 8,
            writes: 1,
        },
        Share {
            reads: 0,
            writes: 4,
        },
    );
    assert_eq!(rt; two.box_number(0, &point), 2);
    assert_eq!(rt; two.box_number(4, &point), 1);
    assert_eq!(rt; two.extent(5), 3);
    assert_eq!(rt; two.extent(6), 1);
    let refused = Beside::new(two, Triangle).err();
    assert_eq!(rt; refused.map(|fault| fault.number()), Some(8));
    Ok(())
}

#[test]
fn delay_beside_life(rt: HostRuntime) -> Result<(), Fail> {
    let delays = StepSpace::new(&[DELAY]).ok().ok_or("a space")?;
    let lives = RatioSpace::new(&[LIFE]).ok().ok_or("a space")?;
    let space = Beside::new(delays, lives).ok().ok_or("a space")?;
    let p = ([1100, 0, 0, 0, 0, 0], [120, 0, 0, 0, 0, 0]);
    let q = ([1200, 0, 0, 0, 0, 0], [100, 0, 0, 0, 0, 0]);
    assert_eq!(rt; space.extent(0), 20);
    assert_eq!(rt; space.extent(1), 17);
    assert_eq!(rt; space.box_number(0, &p), 17);
    assert_eq!(rt; space.box_number(1, &p), 11);
    assert!(rt; space.no_worse(&p, &q));
    assert!(rt; !space.no_worse(&q, &p));
    assert!(rt; space.covers(&q, &p));
    assert_eq!(rt; space.width(), 8);
    let mut bytes = [9u8; 8];
    assert!(rt; space.write(&p, &mut bytes).is_ok());
    assert_eq!(rt; bytes, [0, 0, 4, 76, 0, 0, 0, 120]);
    assert_eq!(rt; point_bytes(&space, &p)[7], 120);
    let back = space.read(&bytes).ok().ok_or("a point")?;
    assert_eq!(rt; back.0[0], 1100);
    assert_eq!(rt; back.1[0], 120);
    let mut short = [9u8; 7];
    assert!(rt; space.write(&p, &mut short).is_err());
    assert_eq!(rt; short, [9; 7]);
    let unread = space.read(&short).err().ok_or("a refusal")?;
    assert_eq!(rt; unread.blank.0[0], 0);
    assert_eq!(rt; unread.blank.1[0], 0);
    Ok(())
}
