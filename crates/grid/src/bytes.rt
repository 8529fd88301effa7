// Figures as bytes: four each, the highest first.
ghost use Rattle.std.specs.Prelude.{◌≡◌, ℕ, ◌/◌, ◌<◌, true, map, length, slice_index};
ghost use Rattle.std.specs.List.{range_with_len};
ghost use Rattle.word.specs.Word.{number_at};
ghost use Rattle.grid.specs.Bytes.{byte_at, figures_read};
ghost use Rattle.grid.specs.Space.{figure_at};

use crate::compare::figure_at;
use crate::figure::Figure;
use space::number_at;
use std::array;

// The six figures that the bytes say; bytes past the end count as 0.
pub fn read_figures<F: Figure>(bytes: &[u8]) -> [F; 6]
    ensures { result ≡ figures_read F.Figure.bits bytes.now }
{
    array::from_fn(|i| F::from_bits(number_at(bytes, i)))
}

// Byte k of the figures' bytes.
fn byte_of<F: Figure>(p: &[F], k: usize) -> u8
    ensures value { result ≡ byte_at F.Figure.bits p.now k }
    ensures held { F.Figure.bits.holds (figure_at F.Figure.bits p.now (k / 4)) ≡ true }
{
    figure_at(p, k / 4).to_bits().to_be_bytes()[k % 4]
}

// Writes the figures' bytes over the whole of the part that is lent. The figures that it writes are of 32 bits.
pub fn write_figures<F: Figure>(p: &[F], out: &mut [u8])
    ensures after { out.new ≡ map (byte_at F.Figure.bits p.now) (range_with_len 0 (length out.old)) }
    ensures held { (k : ℕ) → k < length out.old → F.Figure.bits.holds (figure_at F.Figure.bits p.now (k / 4)) ≡ true }
{
    for (k, byte) in out.iter_mut().enumerate() {
        *byte = byte_of(p, k);
    }
}
