// A space whose points are also bytes: exactly four an objective, the highest byte of each figure first.
ghost use Rattle.std.specs.Prelude.{◌≡◌, ◌-◌, ◌≤◌, true, drop, length, replicate, take};
ghost use Rattle.space.specs.Recording.{Recording, Faithful, FourEach, WritableIfAdmitted, as_wide, blank_point, read_answer, read_point, write_answer, written_over};
ghost use Rattle.space.specs.Spans.{Alike, SpansOf, spans_from};

use crate::meaning::Space;
use crate::spans::Spans;

// The bytes are not as many as a point takes; the point is the one that zero bytes give.
#[derive(Clone, Copy)]
pub struct Unread<P> {
    pub blank: P,
}

// The part to write to is not as long as a point takes, and is as it was.
#[derive(Clone, Copy)]
pub struct Unwritten;

// The laws speak of the bytes alone: a trait's law cannot name the meaning of the trait above it.
// So each function promises what ties the two together: that a point takes four bytes an objective,
// and that an admitted point is writable where it is written.
pub trait Recorded: Space {
    ghost recording: { Self → Recording Self.Point };

    // How many bytes a point takes.
    fn width(&self) -> usize
        ensures value { result ≡ (recording self.now).width }
        ensures four_each { FourEach (Self.Space.meaning self.now) (recording self.now) };

    // The point that the bytes say.
    fn read(&self, bytes: &[u8]) -> Result<Self::Point, Unread<Self::Point>>
        ensures value { result ≡ read_answer (recording self.now) bytes.now }
        ensures four_each { FourEach (Self.Space.meaning self.now) (recording self.now) };

    // Writes the point's bytes over the whole of the part that is lent.
    fn write(&self, p: &Self::Point, out: &mut [u8]) -> Result<(), Unwritten>
        ensures value { result ≡ write_answer (recording self.now) out.old }
        ensures after { out.new ≡ written_over (recording self.now) p.now out.old }
        ensures four_each { FourEach (Self.Space.meaning self.now) (recording self.now) }
        ensures writable { as_wide (recording self.now) out.old ≡ true → WritableIfAdmitted (Self.Space.meaning self.now) (recording self.now) p.now };

    // Writes the spans of p's box at the places from `at` on, if p is on the grid, the space tells spans and there are places for them, and
    // says whether it did. Where it answers no, what stands at those places means nothing. Of a space that does not tell spans a feed asks
    // for points and boxes: that takes longer, and comes to the same. They are written where they stay, since rows that are copied right
    // after they were written number by number make the processor wait.
    fn spans(&self, p: &Self::Point, at: usize, out: &mut Spans) -> bool
        ensures told { result ≡ true → SpansOf (Self.Space.meaning self.now) (recording self.now) p.now (spans_from at out.new) }
        ensures before { Alike at out.new.most out.old.most × Alike at out.new.least out.old.least }
        ensures four_each { FourEach (Self.Space.meaning self.now) (recording self.now) }
    {
        // asked only for what it promises
        let _ = self.width();
        false
    }

    ghost faithful: { (s : Self) → Faithful (recording s) };
}

// The point that the bytes say, or the one that zero bytes give where they are not as many as a point takes.
pub fn read_or_blank<S: Recorded>(space: &S, bytes: &[u8]) -> S::Point
    ensures value { result ≡ read_point (S.Recorded.recording space.now) bytes.now }
    ensures four_each { FourEach (S.Space.meaning space.now) (S.Recorded.recording space.now) }
{
    space.read(bytes).unwrap_or_else(|unread| unread.blank)
}

// The point that zero bytes give: what reading answers to no bytes, since every point takes some.
pub fn blank<S: Recorded>(space: &S) -> S::Point
    ensures { result ≡ blank_point (S.Recorded.recording space.now) }
{
    space.read(&[]).unwrap_or_else(|unread| unread.blank)
}

// Writes the point over the front of a longer part, and leaves the rest.
fn write_front<S: Recorded>(space: &S, p: &S::Point, width: usize, out: &mut [u8])
    requires { (width ≡ (S.Recorded.recording space.now).width) × (width ≤ length out.old) }
    ensures front { take width out.new ≡ (S.Recorded.recording space.now).writes p.now }
    ensures rest { drop width out.new ≡ drop width out.old }
    ensures writable { WritableIfAdmitted (S.Space.meaning space.now) (S.Recorded.recording space.now) p.now }
{
    let _ = space.write(p, &mut out[0..width]);
}

// The bytes of a point, in front, and zeros after them: no point takes more than 24, and a logger has no heap for a `Vec`. It serves
// whoever has no part of the right length at hand, and tells of every admitted point that it is writable.
pub fn point_bytes<S: Recorded>(space: &S, p: &S::Point) -> [u8; 24]
    ensures front { take (S.Recorded.recording space.now).width result ≡ (S.Recorded.recording space.now).writes p.now }
    ensures rest { drop (S.Recorded.recording space.now).width result ≡ replicate (24 - (S.Recorded.recording space.now).width) 0 }
    ensures writable { WritableIfAdmitted (S.Space.meaning space.now) (S.Recorded.recording space.now) p.now }
{
    let mut bytes = [0; 24];
    write_front(space, p, space.width(), &mut bytes);
    bytes
}
