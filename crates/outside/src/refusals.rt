// What the making of a grid is refused for.
use space::BadGrid;

// What a refusal tells, with its number; none where the space is made.
pub(crate) fn told<S: Drop>(made: Result<S, BadGrid>) -> Option<(u8, u8)> {
    made.err().map(|fault| (fault.number(), fault.told()))
}
