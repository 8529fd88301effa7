// How a box lies to another, and to those of some trials: what an offer has to know of the members.
ghost use Rattle.std.specs.Prelude.{◌≡◌, ℕ, List, Option};
ghost use Rattle.space.specs.Boxes.{boxes_on, six_boxes};
ghost use Rattle.space.specs.Looking.{lie_between, lie_of, look_at_none, look_of, look_with};
ghost use Rattle.space.specs.Meaning.{Meaning, Lawful};

use crate::tagged::Trial;

// How a box lies to another: whether it is at least as great in every objective, and whether the other is.
#[derive(Clone, Copy, PartialEq, Eq, Debug)]
pub struct Lie {
    pub over: bool,
    pub under: bool,
}

impl Lie {
    // A box, by its six numbers, to another. No number waits for another one: so the compiler compares several at a time.
    pub fn of(mine: &[u32; 6], theirs: &[u32; 6]) -> Lie
        ensures { result ≡ lie_of mine.now theirs.now }
    {
        let mut over = true;
        let mut under = true;
        for i in 0..6 {
            over &= theirs[i] <= mine[i];
            under &= mine[i] <= theirs[i];
        }
        Lie { over, under }
    }
}

// Which of some trials have a point's box.
#[derive(Clone, Copy, PartialEq, Eq, Debug)]
pub enum Holders {
    Nobody,
    // the one at this place, and no other
    One(usize),
    Several,
}

// How a point's box lies to those of some trials: whether it dominates one of them, which of them it is, and whether one of them
// equals or dominates it.
#[derive(Clone, Copy, PartialEq, Eq, Debug)]
pub struct Look {
    pub below: bool,
    pub holders: Holders,
    pub shut: bool,
}

impl Look {
    // A look at no trial.
    pub fn nothing() -> Look
        ensures { result ≡ look_at_none }
    {
        Look {
            below: false,
            holders: Holders::Nobody,
            shut: false,
        }
    }

    // What a look tells with one trial more, at place k, whose box the point's box lies to so.
    pub fn with(self, k: usize, lie: Lie) -> Look
        ensures { result ≡ look_with self k lie }
    {
        Look {
            below: self.below | (lie.over & !lie.under),
            holders: match (lie.over & lie.under, self.holders) {
                (false, holders) => holders,
                (true, Holders::Nobody) => Holders::One(k),
                (true, _) => Holders::Several,
            },
            shut: self.shut | lie.under,
        }
    }
}

// How a box lies to those of these trials, by how it lies to each.
pub(crate) fn look_by_lies<P, F: Fn(&P) -> Lie>(trials: &[Trial<P>], lie: F) -> Look
    requires { F.IsAlwaysCallable lie }
    ensures { (M : Meaning P) (p : P) → ((q : _) (told : _) → F.post lie q told → told ≡ lie_between M p q.now) → result ≡ look_of M p trials.now }
{
    let mut seen = Look::nothing();
    for (k, trial) in trials.iter().enumerate() {
        seen = seen.with(k, lie(&trial.point));
    }
    seen
}

// How a box lies to those of these trials, asked for one by one; off the grid a point has none, and counts as one of zeros. A space that
// looks faster in the usual case falls back on this.
pub fn look_one_by_one<P, F: Fn(&P) -> Option<[u32; 6]>>(
    mine: &[u32; 6],
    trials: &[Trial<P>],
    boxes: F,
) -> Look
    requires { F.IsAlwaysCallable boxes }
    ensures { (M : Meaning P) (p : P) → Lawful M → mine.now ≡ six_boxes M p
        → ((q : _) (asked : Option (List ℕ)) → F.post boxes q asked → asked ≡ boxes_on M q.now)
        → result ≡ look_of M p trials.now }
{
    let mut look = Look::nothing();
    for (k, trial) in trials.iter().enumerate() {
        let theirs = boxes(&trial.point).unwrap_or([0; 6]);
        look = look.with(k, Lie::of(mine, &theirs));
    }
    look
}
