// Ratio spaces: the worked figures, both ends of each range, and every refusal in every objective.
use crate::points::only;
use crate::refusals::told;
use ratio::{RatioSpace, Scale};
use space::{Recorded, Space};
use std::test::Fail;

fn scale(per_cent: u32, ceiling: u32) -> Scale {
    Scale { per_cent, ceiling }
}

#[test]
fn half_as_much_again(rt: HostRuntime) -> Result<(), Fail> {
    let space = RatioSpace::new(&[scale(50, 1000)]).ok().ok_or("a space")?;
    assert_eq!(rt; space.extent(0), 17);
    for (i, edge) in [1, 2, 3, 4, 6, 9, 13, 19].iter().enumerate() {
        assert_eq!(rt; space.box_number(0, &only(*edge)) as usize, i);
    }
    for (v, number) in [(5, 3), (8, 4), (12, 5), (18, 6), (1000, 16)] {
        assert_eq!(rt; space.box_number(0, &only(v)), number);
    }
    for v in [0, 1001, u32::MAX] {
        assert!(rt; !space.admits(&only(v)));
        assert_eq!(rt; space.box_number(0, &only(v)), 0);
    }
    assert!(rt; !space.admits(&[1, 1, 0, 0, 0, 0]));
    assert!(rt; space.covers(&only(9), &only(13)));
    assert!(rt; !space.covers(&only(9), &only(14)));
    Ok(())
}

#[test]
fn one_per_cent(rt: HostRuntime) -> Result<(), Fail> {
    let space = RatioSpace::new(&[scale(1, 563_381)]).ok().ok_or("a space")?;
    assert_eq!(rt; space.extent(0), 1024);
    assert_eq!(rt; space.box_number(0, &only(563_381)), 1023);
    assert_eq!(rt; told(RatioSpace::new(&[scale(1, 563_382)])), Some((7, 0)));
    Ok(())
}

#[test]
fn refusals(rt: HostRuntime) {
    let good = scale(100, 1_000_000);
    let faults = [
        scale(0, 10),
        scale(101, 10),
        scale(50, 0),
        scale(50, 1_000_001),
        scale(1, 1_000_000),
    ];
    // tried over any `Grid<A>`: what the maker asks there of the size of a rule got no proof
    for fault in faults {
        // by place: the fault stands at each in turn
        for at in 0..6usize {
            let mut scales = [good; 6];
            scales[at] = fault;
            assert_eq!(rt; told(RatioSpace::new(&scales)), Some((7, at as u8)));
        }
        assert_eq!(rt; told(RatioSpace::new(&[good, fault, fault])), Some((7, 1)));
    }
    assert_eq!(rt; told(RatioSpace::new(&[scale(1, 1); 6])), None);
    assert_eq!(rt; told(RatioSpace::new(&[])), Some((7, 255)));
    assert_eq!(rt; told(RatioSpace::new(&[good; 7])), Some((7, 255)));
}

#[test]
fn bytes(rt: HostRuntime) -> Result<(), Fail> {
    let space = RatioSpace::new(&[scale(50, 1000), scale(50, 1000)])
        .ok()
        .ok_or("a space")?;
    let mut out = [7u8; 8];
    assert!(rt; space.write(&[258, u32::MAX, 0, 0, 0, 0], &mut out).is_ok());
    assert_eq!(rt; out, [0, 0, 1, 2, 255, 255, 255, 255]);
    let back = space.read(&out).ok().ok_or("a point")?;
    assert_eq!(rt; back, [258, u32::MAX, 0, 0, 0, 0]);
    Ok(())
}
