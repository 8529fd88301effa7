// A step space beside a ratio space: points whose bytes are of both parts.
use crate::blocks::{block_of, trial};
use archive::Archive;
use beside::Beside;
use history::{DeniedTrial, Fed, FeedFault};
use log_block::BlockFault;
use ratio::RatioSpace;
use space::Trial;
use std::test::Fail;
use step::{Direction, StepSpace};

type Pair = Beside<StepSpace, RatioSpace>;

type Point = ([i32; 6], [u32; 6]);

// One objective of steps beside one of 50 per cent up to 1,000.
fn pair(direction: Direction, low: i32, high: i32, step: u32) -> Option<Pair> {
    let steps = StepSpace::new(&[step::Scale {
        direction,
        low,
        high,
        step,
    }])
    .ok()?;
    let lives = RatioSpace::new(&[ratio::Scale {
        per_cent: 50,
        ceiling: 1000,
    }])
    .ok()?;
    Beside::new(steps, lives).ok()
}

fn at(tag: u32, figure: i32, life: u32) -> Trial<Point> {
    Trial {
        point: ([figure, 0, 0, 0, 0, 0], [life, 0, 0, 0, 0, 0]),
        tag,
    }
}

#[test]
fn a_block_of_a_log(rt: HostRuntime) -> Result<(), Fail> {
    let space = pair(Direction::SmallerIsBetter, 0, 9999, 500).ok_or("a space")?;
    let mut rows = [at(0, 0, 0); 32];
    let mut archive = Archive::new(space, &rows).ok().ok_or("rows")?;
    let block = block_of(&[
        trial(101, 1200, 100),
        trial(102, 1100, 120),
        trial(103, 1000, 95),
        trial(104, 4000, 300),
        trial(105, 3500, 320),
        trial(106, 10000, 5),
    ]);
    assert!(rt; block[508..512] == [8, 0, 99, 147]);
    assert_eq!(rt;
        archive.feed(&block, &mut rows),
        Ok(Fed {
            entered: 4,
            passed: 1,
            denied: 1,
            displaced: 2,
            first: Some(DeniedTrial::OffGrid(78)),
        })
    );
    assert_eq!(rt;
        archive.feed(&[0; 512], &mut rows),
        Err(FeedFault::Block(BlockFault::StrangeFirst))
    );
    let mut tags = [0; 3];
    assert_eq!(rt; archive.list(&rows, &mut tags), Ok(2));
    assert_eq!(rt; tags, [102, 105, 0]);
    Ok(())
}

#[test]
fn negative_figures(rt: HostRuntime) -> Result<(), Fail> {
    let space = pair(Direction::LargerIsBetter, -10, 10, 4).ok_or("a space")?;
    let mut rows = [at(0, 0, 0); 3];
    let mut archive = Archive::new(space, &rows).ok().ok_or("rows")?;
    let block = block_of(&[
        trial(1, -7, 300),
        trial(2, -11, 5),
        trial(3, 10, 1),
        trial(4, 2, 0),
    ]);
    assert_eq!(rt;
        archive.feed(&block, &mut rows),
        Ok(Fed {
            entered: 2,
            passed: 0,
            denied: 2,
            displaced: 0,
            first: Some(DeniedTrial::OffGrid(22)),
        })
    );
    assert_eq!(rt; rows[0].point.0, [-7, 0, 0, 0, 0, 0]);
    assert_eq!(rt; rows[0].point.1, [300, 0, 0, 0, 0, 0]);
    let mut saved = [9; 512];
    assert_eq!(rt; archive.save(&rows, 0, &mut saved), Ok(2));
    assert!(rt; saved[8..22] == [1, 12, 0, 0, 0, 1, 255, 255, 255, 249, 0, 0, 1, 44]);
    assert!(rt; saved == block_of(&[trial(1, -7, 300), trial(3, 10, 1)]));
    Ok(())
}
