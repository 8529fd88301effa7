// Blocks of a log for the tests: their points are made of bare figures, and not by a space.
use log_block::{TrialBytes, seal, write};

// A trial of two figures as bytes.
pub(crate) fn trial(tag: u32, x: i32, y: i32) -> TrialBytes {
    let mut point = [0; 24];
    point[..4].copy_from_slice(&x.to_be_bytes());
    point[4..8].copy_from_slice(&y.to_be_bytes());
    TrialBytes { tag, point }
}

// A block of two objectives with these trials.
pub(crate) fn block_of(trials: &[TrialBytes]) -> [u8; 512] {
    let mut block = [0; 512];
    let _ = write(&mut block, 2, 0, trials);
    block
}

// Puts these bytes at these places of a block, and seals it again.
// Not one with the like of `outside_blocks`: what a public one would promise takes a definition, an invariant and lemmas.
pub(crate) fn changed(mut block: [u8; 512], changes: &[(usize, u8)]) -> [u8; 512] {
    for (place, byte) in changes {
        if *place < 512 {
            block[*place] = *byte;
        }
    }
    let _ = seal(&mut block);
    block
}

// The block with one byte raised by one, and not sealed again.
pub(crate) fn torn(mut block: [u8; 512], place: usize) -> [u8; 512] {
    if place < 512 {
        block[place] = block[place].wrapping_add(1);
    }
    block
}

// Four trials for two objectives from 0 to 9; the second is off the grid.
pub(crate) fn four() -> [u8; 512] {
    block_of(&[
        trial(7, 1, 9),
        trial(8, 10, 3),
        trial(9, 9, 0),
        trial(10, 5, 5),
    ])
}
