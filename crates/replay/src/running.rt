// An offer, an audit or a list, over the archive's own rows or over strange ones.
ghost use Rattle.std.specs.Prelude.{◌≡◌, MatchResult};
ghost use Rattle.history.specs.declared.answers.Answer.TheVariants as answer;
ghost use Rattle.replay.specs.Asking.{call_of, rows_of};
ghost use Rattle.replay.specs.Leaving.{LeavesList};
ghost use Rattle.replay.specs.Replaying.{AnyReading};

use crate::asking::Ask;
use crate::kinds::Asked;
use archive::Archive;
use history::{Answer, Denial};
use space::{Space, Trial};

// What a call is granted or denied, as what any call may answer.
pub(crate) fn told<T, F: FnOnce(T) -> Answer>(said: Result<T, Denial>, granted: F) -> Answer
    requires { F.IsAlwaysCallable granted }
    ensures { MatchResult said (λ x. F.post granted x result) (λ d. result ≡ answer.Denied d) }
{
    said.map_or_else(Answer::Denied, granted)
}

impl<S: Space> Asked<S> for Ask<S::Point> {
    ghost wants = { rows_of };

    ghost call = { λ ask own other long wide. call_of own other long ask };

    ghost reading = { λ s. AnyReading };

    ghost leaves = { λ s. LeavesList (S.Space.meaning s) };

    fn rows(&self) -> usize {
        match self {
            Ask::Offer { rows, .. } | Ask::Audit { rows } | Ask::List { rows, .. } => *rows,
        }
    }

    fn make(
        &self,
        archive: &mut Archive<S>,
        rows: &mut [Trial<S::Point>],
        list: &mut [u32],
        _block: &mut [u8],
    ) -> Answer {
        match self {
            Ask::Offer { room, trial, .. } => {
                let room = (*room).min(list.len());
                told(
                    archive.offer(*trial, rows, &mut list[..room]),
                    Answer::Offered,
                )
            }
            Ask::Audit { .. } => told(archive.audit(rows), Answer::Audited),
            Ask::List { room, .. } => {
                let room = (*room).min(list.len());
                told(archive.list(rows, &mut list[..room]), Answer::Listed)
            }
        }
    }
}
