// Whole numbers in 32 bits, with a sign or without, as the first archive takes them.
use std::num::TryFromIntError;

pub(crate) trait Narrow: Copy + Into<i64> + TryFrom<i64, Error = TryFromIntError> {
    // The greatest of them.
    const MOST: Self;
}

impl Narrow for i32 {
    const MOST: i32 = i32::MAX;
}

impl Narrow for u32 {
    const MOST: u32 = u32::MAX;
}

// The number in 32 bits, or the greatest of these if it does not fit.
pub(crate) fn narrowed<N: Narrow>(number: i64) -> N {
    N::try_from(number).unwrap_or(N::MOST)
}
