// The parts of a block: its bytes, and its records as parts of them.

// The bytes of one block.
pub(crate) type Block = [u8; 512];

// A record's first byte says its kind. The kinds are matched once, as a record is read: an enum of them would only be read and
// matched again.
pub(crate) const TRIAL: u8 = 1;

pub(crate) const NOTE: u8 = 2;

#[derive(Clone, Copy)]
pub enum Record<'a> {
    // a trial: its tag, and the bytes of its point
    Trial { tag: u32, point: &'a [u8] },
    // a note: any bytes
    Note(&'a [u8]),
}

// A record and the place of its first byte, counted from byte 0 of the block.
#[derive(Clone, Copy)]
pub struct Placed<'a> {
    pub place: usize,
    pub record: Record<'a>,
}
