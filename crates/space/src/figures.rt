// The numbers that the bytes of a point say, four bytes each, the highest first.
ghost use Rattle.std.specs.Prelude.{◌≡◌, slice_index};
ghost use Rattle.word.specs.Word.{number_at};

// The byte at place k; 0 past the end.
fn byte_at(bytes: &[u8], k: usize) -> u8
    ensures { result ≡ slice_index bytes.now k }
{
    bytes.get(k).copied().unwrap_or(0)
}

// The number that the four bytes of place i say; bytes past the end count as 0. Most points have less than six figures: so it is asked
// first whether there is a byte. There is none either where 4 * i is more than a number holds.
pub fn number_at(bytes: &[u8], i: usize) -> u32
    ensures { result ≡ number_at bytes.now i }
{
    let at = i.saturating_mul(4);
    if bytes.len() <= at {
        return 0;
    }
    u32::from_be_bytes([
        byte_at(bytes, at),
        byte_at(bytes, at + 1),
        byte_at(bytes, at + 2),
        byte_at(bytes, at + 3),
    ])
}
