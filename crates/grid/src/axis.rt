// The rule of one objective: which figures are on the grid, how two compare, and which box holds one.
ghost use Rattle.std.specs.Prelude.{◌≡◌, Bool, true, if◌then◌else◌, Some, None};
ghost use Rattle.std.specs.Option.{option_map};
ghost use Rattle.grid.specs.Levels.{LevelsOf};
ghost use Rattle.grid.specs.Line.{Line, LineLawful};
ghost use Rattle.grid.specs.Ranges.{between, box_at_least, box_at_most};

use crate::figure::Figure;
use crate::levels::Levels;

pub trait Axis: Copy {
    type Figure: Figure;

    // The numbers that a rule is made from.
    type Scale: Copy;

    ghost line: { Self → Line Self.Figure };

    // Which scales make a rule, and what that rule means.
    ghost sound: { Self.Scale → Bool };

    ghost rule: { Self.Scale → Line Self.Figure };

    // The rule that the scale makes, where it is sound.
    fn new(scale: Self::Scale) -> Option<Self>
        ensures { option_map line result ≡ (if sound scale then Some (rule scale) else None) };

    // Whether the figure is on the grid.
    fn admits(&self, v: Self::Figure) -> bool
        ensures { result ≡ (line self.now).admits v };

    // Whether v is at least as good as w.
    fn no_worse(&self, v: Self::Figure, w: Self::Figure) -> bool
        ensures { result ≡ (line self.now).no_worse v w };

    // How many boxes there are.
    fn extent(&self) -> u32
        ensures { result ≡ (line self.now).extent };

    // Which box holds the figure; 0 off the grid.
    fn box_number(&self, v: Self::Figure) -> u32
        ensures { result ≡ (line self.now).box v };

    // Whether v is within the tolerance of w, or better.
    fn covers(&self, v: Self::Figure, w: Self::Figure) -> bool
        ensures { result ≡ (line self.now).covers v w };

    // The figures on the grid whose box number is at most n: the least of them and the greatest. Where there is none, the first is above
    // the second.
    fn at_most(&self, n: u32) -> (Self::Figure, Self::Figure)
        ensures { (v : Self.Figure) → between Self.Figure.Figure.bits result v ≡ box_at_most (line self.now) n v };

    // Those whose box number is at least n, in the same way.
    fn at_least(&self, n: u32) -> (Self::Figure, Self::Figure)
        ensures { (v : Self.Figure) → between Self.Figure.Figure.bits result v ≡ box_at_least (line self.now) n v };

    // The levels of box n, if it holds a figure. A rule that knows them needs no ranges.
    fn levels(&self, n: u32) -> Levels
        ensures { (v : Self.Figure) → (line self.now).admits v ≡ true → (line self.now).box v ≡ n → LevelsOf Self.Figure.Figure.bits (line self.now) n result }
    {
        Levels::of(self.at_most(n), self.at_least(n))
    }

    ghost lawful: { (a : Self) → LineLawful (line a) };
}
