// Two spaces as one: what the pair means, and its bytes.
ghost use Rattle.std.specs.Prelude.{◌≡◌, ◌*◌, ◌<◌, ◌≤◌, true, length, map, take, drop, IfOk, if◌then◌else◌, Ok, Err};
ghost use Rattle.std.specs.List.{range_with_len};
ghost use Rattle.space.specs.Recording.{FourEach, WritableIfAdmitted, blank_point, read_point};
ghost use Rattle.space.specs.Spans.{Alike, SpansOf, spans_from};
ghost use Rattle.beside.specs.Pair.{boxes_joined, fit, joined, joined_bytes, meaning_of, recording_of};
ghost use Rattle.beside.specs.Rows.{row_joined};
ghost use Rattle.beside.specs.Laws.{lawful_pair};
ghost use Rattle.beside.specs.Recorded.{faithful_pair};

use space::{Lie, Recorded, Space, Spans, TooMany, Unread, Unwritten, blank, read_or_blank};

// Two spaces, the first one's objectives in front.
#[derive(Clone, Copy, Drop)]
pub struct Beside<A, B> {
    first: A,
    second: B,
}

impl<A: Space, B: Space> Beside<A, B> {
    // The two side by side, or both handed back where they have more than six objectives together.
    pub fn new(first: A, second: B) -> Result<Beside<A, B>, TooMany<A, B>>
        ensures value { result ≡ (if fit (A.Space.meaning first) (B.Space.meaning second) then Ok (record { first = first; second = second }) else Err (record { first = first; second = second })) }
        ensures meaning { IfOk result (λ s. meaning_of A.Space.meaning B.Space.meaning s ≡ joined (A.Space.meaning first) (B.Space.meaning second)) }
    {
        if first.objectives() + second.objectives() <= 6 {
            Ok(Beside { first, second })
        } else {
            Err(TooMany { first, second })
        }
    }

    // Whether the two have at most six objectives together. The maker lets no other pair out, but the laws speak of every value
    // of the type. A ghost field would say that they fit; but no derive of `Clone` or `Copy` takes a type that has both parameters
    // and such a field.
    fn fits(&self) -> bool
        ensures { result ≡ fit (A.Space.meaning self.now.first) (B.Space.meaning self.now.second) }
    {
        self.first.objectives() + self.second.objectives() <= 6
    }

    // The box numbers of both points, those of the first in front, if both are on their grids.
    fn boxes_joined(&self, p: &(A::Point, B::Point)) -> Option<[u32; 6]>
        ensures { result ≡ boxes_joined (A.Space.meaning self.now.first) (B.Space.meaning self.now.second) p.now }
    {
        let first = self.first.boxes(&p.0)?;
        let second = self.second.boxes(&p.1)?;
        Some(numbers_joined(self.first.objectives(), &first, &second))
    }
}

// Two rows of numbers as one: the front of the first, and then the second.
fn numbers_joined(front: usize, first: &[u32; 6], second: &[u32; 6]) -> [u32; 6]
    ensures { result ≡ map (row_joined front first.now second.now) (range_with_len 0 6) }
{
    let mut joined = *first;
    // by place: of what is written through a zipped `iter_mut` a proof knows nothing
    for i in front..6 {
        joined[i] = second[i - front];
    }
    joined
}

impl<A: Space, B: Space> Space for Beside<A, B> {
    type Point = (A::Point, B::Point);

    ghost meaning = { meaning_of A.Space.meaning B.Space.meaning };

    ghost lawful = { λ s. lawful_pair _ _ (A.Space.lawful s.first) (B.Space.lawful s.second) };

    // Like `width` below: one function for both takes two closures, or a trait for what adds up, and is no shorter.
    fn objectives(&self) -> usize {
        if self.fits() {
            self.first.objectives() + self.second.objectives()
        } else {
            self.first.objectives()
        }
    }

    fn admits(&self, p: &(A::Point, B::Point)) -> bool {
        self.fits() && self.first.admits(&p.0) && self.second.admits(&p.1)
    }

    fn no_worse(&self, p: &(A::Point, B::Point), q: &(A::Point, B::Point)) -> bool {
        self.first.no_worse(&p.0, &q.0) && (!self.fits() || self.second.no_worse(&p.1, &q.1))
    }

    fn extent(&self, i: usize) -> u32 {
        let front = self.first.objectives();
        if i < front || !self.fits() {
            self.first.extent(i)
        } else {
            self.second.extent(i - front)
        }
    }

    fn box_number(&self, i: usize, p: &(A::Point, B::Point)) -> u32 {
        if !self.admits(p) {
            return 0;
        }
        let front = self.first.objectives();
        if i < front {
            self.first.box_number(i, &p.0)
        } else {
            self.second.box_number(i - front, &p.1)
        }
    }

    fn boxes(&self, p: &(A::Point, B::Point)) -> Option<[u32; 6]> {
        if self.fits() {
            self.boxes_joined(p)
        } else {
            None
        }
    }

    fn lie(&self, mine: &[u32; 6], p: &(A::Point, B::Point)) -> Lie {
        Lie::of(mine, &self.boxes(p).unwrap_or([0; 6]))
    }

    fn covers(&self, p: &(A::Point, B::Point), q: &(A::Point, B::Point)) -> bool {
        self.first.covers(&p.0, &q.0) && (!self.fits() || self.second.covers(&p.1, &q.1))
    }
}

impl<A: Recorded, B: Recorded> Beside<A, B> {
    // What reading answers with where the length is not right: both points as from zero bytes.
    fn unread(&self) -> Unread<(A::Point, B::Point)>
        ensures { result.blank ≡ blank_point (recording_of A.Space.meaning B.Space.meaning A.Recorded.recording B.Recorded.recording self.now) }
    {
        Unread {
            blank: (blank(&self.first), blank(&self.second)),
        }
    }

    // The bytes of each point: those of the second start in the middle, after those of the first.
    fn halves<'b>(&self, bytes: &'b [u8]) -> (&'b [u8], &'b [u8])
        requires { 4 * (A.Space.meaning self.now.first).objectives ≤ length bytes.now }
        ensures front { result.0.now ≡ take (4 * (A.Space.meaning self.now.first).objectives) bytes.now }
        ensures back { result.1.now ≡ drop (4 * (A.Space.meaning self.now.first).objectives) bytes.now }
    {
        bytes.split_at(4 * self.first.objectives())
    }

    // Both points. Where the two spaces do not fit, no byte is left for the second, and it is as from zero bytes.
    fn read_both(&self, bytes: &[u8]) -> (A::Point, B::Point)
        requires { (length bytes.now ≡ (recording_of A.Space.meaning B.Space.meaning A.Recorded.recording B.Recorded.recording self.now).width) × (FourEach (meaning_of A.Space.meaning B.Space.meaning self.now) (recording_of A.Space.meaning B.Space.meaning A.Recorded.recording B.Recorded.recording self.now)) }
        ensures { result ≡ (recording_of A.Space.meaning B.Space.meaning A.Recorded.recording B.Recorded.recording self.now).reads bytes.now }
    {
        let (front, back) = self.halves(bytes);
        (
            read_or_blank(&self.first, front),
            read_or_blank(&self.second, back),
        )
    }

    // Writes the spans of both points, those of the second behind those of the first.
    fn both_spans(&self, p: &(A::Point, B::Point), at: usize, out: &mut Spans) -> bool
        requires { (fit (A.Space.meaning self.now.first) (B.Space.meaning self.now.second) ≡ true) × (at ≤ 6) }
        ensures told { result ≡ true → SpansOf (joined (A.Space.meaning self.now.first) (B.Space.meaning self.now.second)) (joined_bytes (A.Recorded.recording self.now.first) (B.Recorded.recording self.now.second)) p.now (spans_from at out.new) }
        ensures before { Alike at out.new.most out.old.most × Alike at out.new.least out.old.least }
    {
        let behind = at + self.first.objectives();
        if !self.first.spans(&p.0, at, out) {
            return false;
        }
        self.second.spans(&p.1, behind, out)
    }

    // Both points' bytes, one after the other; where the two spaces do not fit, the first one's alone.
    fn write_both(&self, p: &(A::Point, B::Point), out: &mut [u8]) -> Result<(), Unwritten>
        requires { (length out.old ≡ (recording_of A.Space.meaning B.Space.meaning A.Recorded.recording B.Recorded.recording self.now).width) × (FourEach (meaning_of A.Space.meaning B.Space.meaning self.now) (recording_of A.Space.meaning B.Space.meaning A.Recorded.recording B.Recorded.recording self.now)) }
        ensures value { result ≡ Ok tt }
        ensures after { out.new ≡ (recording_of A.Space.meaning B.Space.meaning A.Recorded.recording B.Recorded.recording self.now).writes p.now }
        ensures writable { WritableIfAdmitted (meaning_of A.Space.meaning B.Space.meaning self.now) (recording_of A.Space.meaning B.Space.meaning A.Recorded.recording B.Recorded.recording self.now) p.now }
    {
        let middle = 4 * self.first.objectives();
        self.first.write(&p.0, &mut out[0..middle])?;
        if self.fits() {
            self.second.write(&p.1, &mut out[middle..])?;
        }
        Ok(())
    }
}

impl<A: Recorded, B: Recorded> Recorded for Beside<A, B> {
    ghost recording = { recording_of A.Space.meaning B.Space.meaning A.Recorded.recording B.Recorded.recording };

    ghost faithful = { λ s. faithful_pair (A.Recorded.recording s.first) (B.Recorded.recording s.second) (A.Recorded.faithful s.first) (B.Recorded.faithful s.second) (fit (A.Space.meaning s.first) (B.Space.meaning s.second)) };

    fn width(&self) -> usize {
        if self.fits() {
            self.first.width() + self.second.width()
        } else {
            self.first.width()
        }
    }

    fn read(&self, bytes: &[u8]) -> Result<(A::Point, B::Point), Unread<(A::Point, B::Point)>> {
        if bytes.len() == self.width() {
            Ok(self.read_both(bytes))
        } else {
            Err(self.unread())
        }
    }

    fn write(&self, p: &(A::Point, B::Point), out: &mut [u8]) -> Result<(), Unwritten> {
        if out.len() == self.width() {
            self.write_both(p, out)
        } else {
            Err(Unwritten)
        }
    }

    // Where each point is on its own grid, which its spans tell, the pair is on its grid.
    fn spans(&self, p: &(A::Point, B::Point), at: usize, out: &mut Spans) -> bool {
        // asked only for what it promises
        let _ = self.width();
        if self.fits() && at <= 6 {
            self.both_spans(p, at, out)
        } else {
            false
        }
    }
}
