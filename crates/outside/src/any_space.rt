// What stands, over a space that is no grid.
use crate::triangle::{Share, Triangle};
use space::{Space, Trial};
use standing::{box_dominates, box_stands, dominates, opens_box, same_box, trial_stands};

fn share(reads: u32, writes: u32) -> Share {
    Share { reads, writes }
}

// Boxes (1, 1, 0), (2, 0, 0), (0, 0, 2), off the grid, (1, 1, 0) and (0, 0, 1).
fn trials() -> [Trial<Share>; 6] {
    [
        Trial {
            point: share(4, 4),
            tag: 1,
        },
        Trial {
            point: share(8, 1),
            tag: 2,
        },
        Trial {
            point: share(0, 0),
            tag: 3,
        },
        Trial {
            point: share(7, 7),
            tag: 4,
        },
        Trial {
            point: share(5, 5),
            tag: 5,
        },
        Trial {
            point: share(2, 2),
            tag: 6,
        },
    ]
}

#[test]
fn questions(rt: HostRuntime) {
    let space = Triangle;
    assert_eq!(rt; space.objectives(), 3);
    assert!(rt; space.admits(&share(10, 0)));
    assert!(rt; !space.admits(&share(10, 1)));
    assert!(rt; !space.admits(&share(u32::MAX, u32::MAX)));
    assert_eq!(rt; space.box_number(0, &share(8, 1)), 2);
    assert_eq!(rt; space.box_number(2, &share(0, 0)), 2);
    assert_eq!(rt; space.box_number(3, &share(0, 0)), 0);
    assert_eq!(rt; space.box_number(0, &share(8, 9)), 0);
    assert_eq!(rt; space.extent(2), 3);
    assert_eq!(rt; space.extent(3), 1);
    assert!(rt; space.covers(&share(4, 4), &share(5, 5)));
    assert!(rt; !space.covers(&share(0, 0), &share(4, 0)));
}

#[test]
fn pairs(rt: HostRuntime) {
    let space = Triangle;
    assert!(rt; !dominates(&space, &share(4, 4), &share(5, 5)));
    assert!(rt; !dominates(&space, &share(4, 4), &share(4, 4)));
    assert!(rt; same_box(&space, &share(4, 4), &share(5, 5)));
    assert!(rt; !same_box(&space, &share(4, 4), &share(8, 1)));
    assert!(rt; box_dominates(&space, &share(0, 0), &share(2, 2)));
    assert!(rt; !box_dominates(&space, &share(2, 2), &share(0, 0)));
    assert!(rt; !box_dominates(&space, &share(4, 4), &share(5, 5)));
}

#[test]
fn what_stands(rt: HostRuntime) {
    let space = Triangle;
    let trials = trials();
    // of each trial: whether its box stands, whether it opens that box, and whether it stands itself
    let fates = [
        (true, true, true),
        (true, true, true),
        (true, true, true),
        (false, false, false),
        (true, false, true),
        (false, false, true),
    ];
    for (i, (boxed, opens, stands)) in fates.iter().enumerate() {
        assert_eq!(rt; box_stands(&space, &trials, i), *boxed);
        assert_eq!(rt; opens_box(&space, &trials, i), *opens);
        assert_eq!(rt; trial_stands(&space, &trials, i), *stands);
    }
    assert!(rt; !box_stands(&space, &trials, 6));
}
