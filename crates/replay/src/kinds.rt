// What can be asked of an archive: the calls of any space, or those of a recorded one.
ghost use Rattle.std.specs.Prelude.{◌≡◌, ℕ, [], List, length};
ghost use Rattle.space.specs.declared.tagged.Trial.{Trial as TrialOf};
ghost use Rattle.history.specs.Calls.{Call};
ghost use Rattle.archive.specs.Lent.{lending};
ghost use Rattle.replay.specs.Asking.{lent_of};
ghost use Rattle.replay.specs.Leaving.{Lendings};
ghost use Rattle.replay.specs.Replaying.{MadeAs};

use archive::Archive;
use history::Answer;
use space::{Space, Trial};

pub(crate) trait Asked<S: Space> {
    // How many rows the call wants.
    ghost wants: { Self → ℕ };

    // The call that is made, with so many rows of its own, so many strange rows, so long a list and so long a block at hand.
    ghost call: { Self → ℕ → ℕ → ℕ → ℕ → Call S.Point };

    // The ways in which bytes become points that the calls are meant with.
    ghost reading: { S → (List ℕ → S.Point) → Type 0 };

    // What one call leaves in the list and in the block, by the number of rows and the members before it.
    ghost leaves: { S → ℕ → List (TrialOf S.Point) → Call S.Point → Lendings → Lendings → Type 0 };

    fn rows(&self) -> usize
        ensures { result ≡ wants self.now };

    // Makes the call over these rows, which are as many as it is to be lent.
    // Not by a `Lender`: these are its own rows or its strange ones.
    fn make(
        &self,
        archive: &mut Archive<S>,
        rows: &mut [Trial<S::Point>],
        list: &mut [u32],
        block: &mut [u8],
    ) -> Answer
        ensures space { archive.new.space ≡ archive.old.space }
        ensures made { (own other : ℕ) → length rows.old ≡ lent_of own other (wants self.now) → MadeAs (S.Space.meaning archive.old.space) (reading archive.old.space) (leaves archive.old.space) (call self.now own other (length list.old) (length block.old)) (lending archive.old rows.old []) (record { list = list.old; block = block.old }) result (lending archive.new rows.new []) (record { list = list.new; block = block.new }) };
}
