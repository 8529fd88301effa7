// A space of points: six questions that each read one part of its meaning, refuse nothing and change nothing. Three more put several
// of them at once; every space has them from the six, and may answer them faster.
ghost use Rattle.std.specs.Prelude.{◌≡◌};
ghost use Rattle.space.specs.Boxes.{boxes_on, six_boxes};
ghost use Rattle.space.specs.Looking.{lie_between, look_on};
ghost use Rattle.space.specs.Meaning.{Meaning, Lawful};

use crate::looking::{Lie, Look, look_by_lies};
use crate::tagged::Trial;
use std::array;

pub trait Space {
    type Point: Copy;

    ghost meaning: { Self → Meaning Self.Point };

    // How many objectives there are, from one to six.
    fn objectives(&self) -> usize
        ensures { result ≡ (meaning self.now).objectives };

    // Whether the point is on the grid.
    fn admits(&self, p: &Self::Point) -> bool
        ensures { result ≡ (meaning self.now).admits p.now };

    // Whether p is at least as good as q in every objective.
    fn no_worse(&self, p: &Self::Point, q: &Self::Point) -> bool
        ensures { result ≡ (meaning self.now).no_worse p.now q.now };

    // How many boxes objective i has, counted from 0; one past the last objective.
    fn extent(&self, i: usize) -> u32
        ensures { result ≡ (meaning self.now).extent i };

    // Which box of objective i holds p; 0 past the last objective, and for a point off the grid.
    fn box_number(&self, i: usize, p: &Self::Point) -> u32
        ensures { result ≡ (meaning self.now).box i p.now };

    // Whether p is within the space's tolerance of q, or better, in every objective.
    fn covers(&self, p: &Self::Point, q: &Self::Point) -> bool
        ensures { result ≡ (meaning self.now).covers p.now q.now };

    // The box numbers of p in six objectives, 0 past the last; none off the grid.
    fn boxes(&self, p: &Self::Point) -> Option<[u32; 6]>
        ensures { result ≡ boxes_on (meaning self.now) p.now }
    {
        if self.admits(p) {
            let used = self.objectives();
            Some(array::from_fn(|i| if i < used { self.box_number(i, p) } else { 0 }))
        } else {
            None
        }
    }

    // How the box of a point, which has these six numbers, lies to p's. Its numbers are asked one by one, and no more once nothing is open.
    fn lie(&self, mine: &[u32; 6], p: &Self::Point) -> Lie
        ensures { (q : Self.Point) → mine.now ≡ six_boxes (meaning self.now) q → result ≡ lie_between (meaning self.now) q p.now }
    {
        let mut over = true;
        let mut under = true;
        for i in 0..self.objectives() {
            let theirs = self.box_number(i, p);
            over &= theirs <= mine[i];
            under &= mine[i] <= theirs;
            if !over && !under {
                return Lie {
                    over: false,
                    under: false,
                };
            }
        }
        Lie { over, under }
    }

    // How p's box lies to those of these trials, if p is on the grid.
    fn look(&self, p: &Self::Point, trials: &[Trial<Self::Point>]) -> Option<Look>
        ensures { result ≡ look_on (meaning self.now) p.now trials.now }
    {
        let mine = self.boxes(p)?;
        Some(look_by_lies(trials, |q| self.lie(&mine, q)))
    }

    ghost lawful: { (s : Self) → Lawful (meaning s) };
}

// The box numbers of p in six objectives, 0 past the last, and for a point off the grid.
pub fn six_boxes<S: Space>(space: &S, p: &S::Point) -> [u32; 6]
    ensures { result ≡ six_boxes (S.Space.meaning space.now) p.now }
{
    space.boxes(p).unwrap_or([0; 6])
}
