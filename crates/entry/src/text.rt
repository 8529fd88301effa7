// The lines of a text, and what each says.
ghost use Rattle.std.specs.Prelude.{◌≡◌, ℕ, ◌<◌, ◌≤◌, [], ◌∷◌, length, IfOk, MatchOption, ◌≢◌, slice_index};
ghost use Rattle.entry.specs.Text.{after_line, entries_of, first_line, lines};
ghost use Rattle.entry.specs.Lines.{lines_left};

use crate::before::len_before;
use crate::outcome::{Entry, Malformed};
use crate::reading::read_entry;
use std::alloc::{AllocError, Global};

// The first line and what follows its newline; nothing follows where there is none.
#[tactic(auto, using(crate::proofs::Newlines::parted, crate::proofs::Newlines::past_newline))]
pub fn next_line(text: &[u8]) -> (&[u8], &[u8])
    ensures line { result.0.now ≡ first_line text.now }
    ensures rest { result.1.now ≡ after_line text.now }
{
    let (line, rest) = text.split_at(len_before(text, b'\n'));
    match rest {
        [_, after @ ..] => (line, after),
        [] => (line, rest),
    }
}

// The lines of what is left of a text.
#[derive(Clone, Copy)]
pub struct TextLines<'a> {
    rest: &'a [u8],
}

// The lines of a text, one after the other.
pub fn lines(text: &[u8]) -> TextLines<'_>
    ensures { lines_left result ≡ lines text.now }
{
    TextLines { rest: text }
}

impl<'a> TextLines<'a> {
    ghost use Rattle.entry.specs.Lines.{lines_left};

    // The next line, and the reader past it.
    fn split(&self) -> Option<(&'a [u8], TextLines<'a>)>
        ensures { MatchOption result (lines_left self.now ≡ []) (λ p. lines_left self.now ≡ p.0.now ∷ lines_left p.1) }
    {
        if self.rest.is_empty() {
            return None;
        }
        let (line, rest) = next_line(self.rest);
        Some((line, TextLines { rest }))
    }
}

impl<'a> Iterator for TextLines<'a> {
    ghost use Rattle.std.specs.Iterator.{item_count, YieldsFirstRef};
    ghost use Rattle.entry.specs.Lines.{lines_left};

    type Item = &'a [u8];

    ghost next_gives = { YieldsFirstRef lines_left };

    ghost remaining = { item_count lines_left };

    // the lines of `next` of a block's records too: a trait for them, in a crate below both, would be longer
    fn next(&mut self) -> Option<&'a [u8]> {
        let (line, after) = self.split()?;
        *self = after;
        Some(line)
    }
}

// What each line of a text says, in their order; a line that is no entry does not stop the others.
pub fn read_entries(heap: Global, text: &[u8]) -> Result<Vec<Result<Entry, Malformed>>, AllocError>
    ensures { IfOk result (λ v. v.items ≡ entries_of text.now) }
{
    lines(text).map(read_entry).collect(heap)
}
