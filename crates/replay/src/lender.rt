// Calls on an archive, over its own rows or over strange ones.
ghost use Rattle.std.specs.Prelude.{◌≡◌, [], length, map};
ghost use Rattle.archive.specs.Lent.{lending};
ghost use Rattle.archive.specs.Standing.{Begins};
ghost use Rattle.replay.specs.Asking.{answers_in, asks_in, lent_of};
ghost use Rattle.replay.specs.Lending.{SameLoans, call_by, lendings};
ghost use Rattle.replay.specs.Replaying.{RanAs, ReplayedAs};

use crate::asking::Turn;
use crate::kinds::Asked;
use archive::Archive;
use history::Answer;
use space::{Space, Trial};

// How many rows are lent where so many are wanted.
fn lent(own: usize, other: usize, want: usize) -> usize
    ensures { result ≡ lent_of own other want }
{
    if want == own { own } else { want.min(other) }
}

// What an archive's calls may be lent: its own rows, strange ones, a list and a block.
// Without the archive: tried as its owner and with a borrow of it, and `play` then got no proof of what is left behind the borrows.
#[derive(Drop)]
pub(crate) struct Lender<'a, S: Space> {
    pub own: &'a mut [Trial<S::Point>],
    pub strange: &'a mut [Trial<S::Point>],
    pub list: &'a mut [u32],
    pub block: &'a mut [u8],
}

impl<S: Space> Lender<'_, S> {
    // Makes a call over as many rows as `lent` tells: the archive's own, if it has just so many, or else the first strange ones.
    fn call<A: Asked<S>>(&mut self, archive: &mut Archive<S>, ask: &A) -> Answer
        requires { length self.old.own.now ≡ archive.old.rows }
        ensures space { archive.new.space ≡ archive.old.space }
        ensures loans { SameLoans self.old self.new }
        ensures ran { RanAs (S.Space.meaning archive.old.space) (A.Asked.reading archive.old.space) (A.Asked.leaves archive.old.space) (call_by A.Asked.call self.old ask.now) (lending archive.old self.old.own.now []) (lendings self.old) result (lending archive.new self.new.own.now []) (lendings self.new) }
    {
        let lent = lent(self.own.len(), self.strange.len(), ask.rows());
        if lent == self.own.len() {
            ask.make(archive, self.own, self.list, self.block)
        } else {
            ask.make(archive, &mut self.strange[..lent], self.list, self.block)
        }
    }

    // Makes the calls one after the other on an archive that has just been made, and writes down each answer.
    pub(crate) fn call_all<A: Asked<S>>(&mut self, archive: &mut Archive<S>, turns: &mut [Turn<A>])
        requires own_len { length self.old.own.now ≡ archive.old.rows }
        requires begins { Begins (S.Space.meaning archive.old.space) archive.old.rows archive.old.count self.old.own.now }
        ensures space { archive.new.space ≡ archive.old.space }
        ensures loans { SameLoans self.old self.new }
        ensures asks { asks_in turns.new ≡ asks_in turns.old }
        ensures right { ReplayedAs (S.Space.meaning archive.old.space) (A.Asked.reading archive.old.space) (A.Asked.leaves archive.old.space) (map (call_by A.Asked.call self.old) (asks_in turns.old)) (answers_in turns.new) (lendings self.old) (lending archive.new self.new.own.now []) (lendings self.new) }
    {
        for turn in turns {
            turn.answer = Some(self.call(archive, &turn.ask));
        }
    }
}
