// The fields of a line: the bytes between its spaces.
ghost use Rattle.std.specs.Prelude.{◌≡◌};
ghost use Rattle.entry.specs.Line.{without_return};

use crate::before::len_before;

// The line without a carriage return at its end, which text from some systems has.
pub fn without_return(line: &[u8]) -> &[u8]
    ensures { result.now ≡ without_return line.now }
{
    match line {
        [text @ .., b'\r'] => text,
        _ => line,
    }
}

// The fields of what is left of a line.
#[derive(Clone, Copy)]
pub(crate) struct Fields<'a> {
    pub(crate) rest: &'a [u8],
}

impl<'a> Iterator for Fields<'a> {
    ghost use Rattle.std.specs.Iterator.{item_count, YieldsFirstRef};
    ghost use Rattle.entry.specs.Line.{fields};

    type Item = &'a [u8];

    ghost next_gives = { YieldsFirstRef (λ s. fields s.rest.now) };

    ghost remaining = { item_count (λ s. fields s.rest.now) };

    // The bytes up to the next space, without the spaces in front of them.
    fn next(&mut self) -> Option<&'a [u8]> {
        let start = self.rest.iter().position(|byte| *byte != b' ')?;
        let (_, rest) = self.rest.split_at(start);
        let (field, rest) = rest.split_at(len_before(rest, b' '));
        self.rest = rest;
        Some(field)
    }
}
