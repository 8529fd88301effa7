// Reading a log in large pieces.
ghost use Rattle.std.specs.Prelude.{◌≤◌, length, IfOk};

use std::io;
use std::io::Read;

// Fills the buffer from its start, as far as the input reaches, and answers how many bytes there are. Fewer than the buffer holds
// are there only at the end of the input.
pub(crate) fn fill<R: Read>(input: &mut R, buffer: &mut [u8]) -> io::Result<usize>
    ensures { IfOk result (λ n. n ≤ length buffer.old) }
{
    let mut filled = 0;
    // a bound that no input reaches: every loop is shown to end
    for _ in 0..u64::MAX {
        let count = input.read(&mut buffer[filled..])?;
        filled += count;
        if count == 0 || filled == buffer.len() {
            break;
        }
    }
    Ok(filled)
}
