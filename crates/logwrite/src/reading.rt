// Reading what lines give a log.
ghost use Rattle.std.specs.Prelude.{◌≡◌, [], ◌∷◌, Ok, map, IfOk};
ghost use Rattle.std.specs.List.{flat_map};
ghost use Rattle.std.specs.Option.{option_map};
ghost use Rattle.beside.specs.Pair.{recording_of};
ghost use Rattle.step.specs.Space.{step_meaning, step_recording};
ghost use Rattle.ratio.specs.Space.{ratio_meaning, ratio_recording};
ghost use Rattle.entry.specs.Line.{entry_of};
ghost use Rattle.entry.specs.Text.{entries_of, lines};
ghost use Rattle.logger.specs.Logger.{logger_bytes, trials_of};
ghost use Rattle.logwrite.specs.Lines.{entry_item, given, item_of_line, line_item, note_of, told, trials_read};

use crate::saying::{LONGEST_NOTE, Line, Unsaid};
use entry::{Entry, lines, read_entry, without_return};
use logger::{LoggerSpace, logger_space, trial_of};
use space::point_bytes;
use std::alloc::{AllocError, Global};

// The bytes of the note, if the line is one.
fn note_of(line: &[u8]) -> Option<&[u8]>
    ensures { option_map (λ text. text.now) result ≡ note_of line.now }
{
    if line == b"note".as_slice() {
        return Some(&[]);
    }
    line.strip_prefix(b"note ".as_slice())
}

// Reads lines, with the space that turns a trial's point to bytes.
#[derive(Drop)]
pub(crate) struct Reader {
    space: LoggerSpace,
    ghost bytes: { recording_of step_meaning ratio_meaning step_recording ratio_recording space ≡ logger_bytes },
}

impl Reader {
    pub(crate) fn new() -> Reader {
        Reader {
            space: logger_space(),
        }
    }

    // The trial of an entry, as its tag and the bytes of its point.
    fn trial_line<'a>(&self, entry: Entry) -> Line<'a>
        ensures item { line_item result ≡ entry_item entry }
        ensures back { trials_read (line_item result ∷ []) ≡ trials_of (Ok entry ∷ []) }
    {
        let trial = trial_of(&entry);
        Line::Trial {
            tag: trial.tag,
            point: point_bytes(&self.space, &trial.point),
        }
    }

    // What a line gives, or why it gives nothing.
    fn read_line<'a>(&self, line: &'a [u8]) -> Result<Line<'a>, Unsaid>
        ensures item { told result ≡ item_of_line line.now }
        ensures back { trials_read (given (told result)) ≡ trials_of (entry_of line.now ∷ []) }
    {
        match note_of(without_return(line)) {
            Some(text) if text.len() > LONGEST_NOTE => Err(Unsaid::LongNote(text.len())),
            Some(text) => Ok(Line::Note(text)),
            None => read_entry(line)
                .map(|entry| self.trial_line(entry))
                .map_err(Unsaid::NoTrial),
        }
    }

    // What each line of a text gives, in their order; a line that gives nothing does not stop the others.
    pub(crate) fn read_lines<'t>(
        &self,
        heap: Global,
        text: &'t [u8],
    ) -> Result<Vec<Result<Line<'t>, Unsaid>>, AllocError>
        ensures items { IfOk result (λ v. map told v.items ≡ map item_of_line (lines text.now)) }
        ensures back { IfOk result (λ v. trials_read (flat_map given (map told v.items)) ≡ trials_of (entries_of text.now)) }
    {
        lines(text).map(|line| self.read_line(line)).collect(heap)
    }
}
