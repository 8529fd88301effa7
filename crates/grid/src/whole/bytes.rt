// Points as bytes.
ghost use Rattle.std.specs.Prelude.{◌≡◌, length};
ghost use Rattle.space.specs.Recording.{WritableIfAdmitted, blank_point};
ghost use Rattle.grid.specs.Recorded.{faithful_grid};
ghost use Rattle.grid.specs.Whole.{meaning_by, recording_by};

use crate::axis::Axis;
use crate::bytes::{read_figures, write_figures};
use crate::figure::{Figure, zero};
use crate::spans::spans;
use crate::whole::Grid;
use space::{Recorded, Space, Spans, Unread, Unwritten};

impl<A: Axis> Grid<A> {
    // The point that zero bytes give.
    fn blank(&self) -> [A::Figure; 6]
        ensures { result ≡ blank_point (recording_by A.Figure.Figure.bits self.now) }
    {
        [zero(); 6]
    }

    // Writes the point over a part of its width. Of each figure that is written it is known that 32 bits hold it; zero is asked for
    // only so that the same is known of those past the last objective.
    fn fill(&self, p: &[A::Figure; 6], out: &mut [u8])
        requires { length out.old ≡ (recording_by A.Figure.Figure.bits self.now).width }
        ensures after { out.new ≡ (recording_by A.Figure.Figure.bits self.now).writes p.now }
        ensures writable { WritableIfAdmitted (meaning_by A.Figure.Figure.bits A.Axis.line self.now) (recording_by A.Figure.Figure.bits self.now) p.now }
    {
        let _ = zero::<A::Figure>();
        write_figures(p, out);
    }
}

impl<A: Axis> Recorded for Grid<A> {
    ghost recording = { recording_by A.Figure.Figure.bits };

    ghost faithful = { λ s. faithful_grid A.Figure.Figure.bits A.Figure.Figure.exact s.objectives s.few.1 };

    fn width(&self) -> usize {
        4 * self.objectives()
    }

    fn read(&self, bytes: &[u8]) -> Result<[A::Figure; 6], Unread<[A::Figure; 6]>> {
        if bytes.len() != self.width() {
            return Err(Unread {
                blank: self.blank(),
            });
        }
        Ok(read_figures(bytes))
    }

    fn write(&self, p: &[A::Figure; 6], out: &mut [u8]) -> Result<(), Unwritten> {
        if out.len() != self.width() {
            return Err(Unwritten);
        }
        self.fill(p, out);
        Ok(())
    }

    fn spans(&self, p: &[A::Figure; 6], at: usize, out: &mut Spans) -> bool {
        spans(self.rules(), p, at, out)
    }
}
