// A call of any kind, those of a log among them.
ghost use Rattle.std.specs.Prelude.{◌≡◌};
ghost use Rattle.history.specs.Answers.{told_feed};
ghost use Rattle.replay.specs.Asking.{recorded_call_of, recorded_rows_of};
ghost use Rattle.replay.specs.Leaving.{LeavesBoth};
ghost use Rattle.replay.specs.Replaying.{OwnReading};

use crate::asking::RecordedAsk;
use crate::kinds::Asked;
use crate::running::told;
use archive::Archive;
use history::{Answer, Fed, FeedFault};
use space::{Recorded, Trial};

// What a feed answers, as what any call may answer. Apart from `told`: a feed is refused for a fault and no denial, and one for both needs a
// `From` of each for `Answer`.
fn fed(said: Result<Fed, FeedFault>) -> Answer
    ensures { result ≡ told_feed said }
{
    said.map_or_else(Answer::Refused, Answer::Fed)
}

impl<S: Recorded> Asked<S> for RecordedAsk<'_, S::Point> {
    ghost wants = { recorded_rows_of };

    ghost call = { λ ask own other long wide. recorded_call_of own other long wide ask };

    ghost reading = { λ s. OwnReading (S.Recorded.recording s) };

    ghost leaves = { λ s. LeavesBoth (S.Space.meaning s) (S.Recorded.recording s) };

    fn rows(&self) -> usize {
        match self {
            RecordedAsk::Plain(ask) => Asked::<S>::rows(ask),
            RecordedAsk::Feed { rows, .. } | RecordedAsk::Save { rows, .. } => *rows,
        }
    }

    fn make(
        &self,
        archive: &mut Archive<S>,
        rows: &mut [Trial<S::Point>],
        list: &mut [u32],
        block: &mut [u8],
    ) -> Answer {
        match self {
            RecordedAsk::Plain(ask) => ask.make(archive, rows, list, block),
            RecordedAsk::Feed { block: written, .. } => fed(archive.feed(*written, rows)),
            RecordedAsk::Save { number, size, .. } => {
                let size = (*size).min(block.len());
                told(
                    archive.save(rows, *number, &mut block[..size]),
                    Answer::Saved,
                )
            }
        }
    }
}
