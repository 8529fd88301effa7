// The numbers that a step rule is made from.
ghost use Rattle.std.specs.Prelude.{◌≡◌, ◌+◌, ◌-◌, ◌*◌, ◌≤◌, true, ◌&&◌, ℤ, pos, negsuc, ◌+ℤ◌, ◌-ℤ◌, ◌≤ℤ◌, int_le, nat_le, nat_lt, unsigned_abs};
ghost use Rattle.grid.specs.Bits.{signed_bits};
ghost use Rattle.grid.specs.Levels.{LevelsOf};
ghost use Rattle.grid.specs.Ranges.{between, box_at_least, box_at_most};
ghost use Rattle.step.specs.Direction.{direction_number};
ghost use Rattle.step.specs.Levels.{levels_above};
ghost use Rattle.step.specs.Rule.{height, box_of, extent_of, on_grid, step_sound, step_line};

use grid::Levels;

// Which figures are better.
#[derive(Clone, Copy, PartialEq, Eq, Debug)]
pub enum Direction {
    LargerIsBetter = 0,
    SmallerIsBetter = 1,
}

impl Direction {
    // The number of the direction.
    pub fn number(&self) -> u8
        ensures { result ≡ direction_number self.now }
    {
        *self as u8
    }
}

// Boxes of one width, the step, for figures from a low end to a high end.
#[derive(Clone, Copy)]
pub struct Scale {
    pub direction: Direction,
    pub low: i32,
    pub high: i32,
    pub step: u32,
}

impl Scale {
    // Whether the ends are in order, the step is 1 to 2,147,483,647, and there are at most 1,024 boxes.
    pub(crate) fn is_sound(&self) -> bool
        ensures { result ≡ step_sound self.now }
    {
        self.low <= self.high && (1..=2_147_483_647).contains(&self.step) && self.last_box() < 1024
    }

    // The number of the last box. It is one below the extent, which may be one more than 32 bits hold.
    pub(crate) fn last_box(&self) -> u32
        requires { (int_le self.now.low self.now.high ≡ true) × (1 ≤ self.now.step) }
        ensures { result + 1 ≡ extent_of self.now }
    {
        self.span() / self.step
    }

    // How far the high end is from the low end.
    fn span(&self) -> u32
        requires { int_le self.now.low self.now.high ≡ true }
        ensures { result ≡ unsigned_abs (self.now.high -ℤ self.now.low) }
    {
        (i64::from(self.high) - i64::from(self.low)) as u32
    }

    // How far the figure is from the worse end, toward the better one; below zero past the worse end.
    // A step more still fits, which `near` is for.
    pub(crate) fn height(&self, v: i32) -> i64
        ensures value { result ≡ height self.now v }
        ensures near { (negsuc 4294967295 ≤ℤ result) × (result ≤ℤ pos 4294967295) }
    {
        match self.direction {
            Direction::LargerIsBetter => i64::from(v) - i64::from(self.low),
            Direction::SmallerIsBetter => i64::from(self.high) - i64::from(v),
        }
    }

    // What the figure covers lies below this height, a step above its own.
    pub(crate) fn reach(&self, v: i32) -> i64
        ensures { result ≡ height self.now v +ℤ pos self.now.step }
    {
        self.height(v) + i64::from(self.step)
    }

    // What a height is multiplied by for a guess at how many whole steps it has: 32 bits further down stands the guess.
    pub(crate) fn inverse(&self) -> u64
        requires { 1 ≤ self.now.step }
    {
        (1 << 32) / u64::from(self.step) + 1
    }

    // Whether the height has so many whole steps.
    fn is_whole(&self, n: u32, height: u32) -> bool
        ensures { result ≡ (nat_le (n * self.now.step) height && nat_lt (height - n * self.now.step) self.now.step) }
    {
        let from = u64::from(n) * u64::from(self.step);
        let height = u64::from(height);
        from <= height && height - from < u64::from(self.step)
    }

    // The box of a figure on the grid: how many whole steps its height has. That is asked for each member and block, and a division takes ten
    // times as long as a multiplication: so it is guessed by one, and divided out only where the guess is wrong.
    pub(crate) fn find_box(&self, v: i32, inverse: u64) -> u32
        requires { (on_grid self.now v ≡ true) × (1 ≤ self.now.step) }
        ensures { result ≡ box_of self.now v }
    {
        let height = self.height(v) as u32;
        let guess = (u64::from(height).wrapping_mul(inverse) >> 32) as u32;
        if self.is_whole(guess, height) {
            guess
        } else {
            height / self.step
        }
    }

    // The figure on the grid whose height is this distance.
    fn figure_at(&self, distance: u64) -> i32
        requires { pos distance ≤ℤ (self.now.high -ℤ self.now.low) }
        ensures { height self.now result ≡ pos distance }
    {
        match self.direction {
            Direction::LargerIsBetter => (i64::from(self.low) + distance as i64) as i32,
            Direction::SmallerIsBetter => (i64::from(self.high) - distance as i64) as i32,
        }
    }

    // The figures from one height to another: the least of them and the greatest. Where there is none, the first is above the second.
    fn figures(&self, from: u64, to: u64) -> (i32, i32)
        requires { pos to ≤ℤ (self.now.high -ℤ self.now.low) }
        ensures { (v : ℤ) → between signed_bits result v ≡ (int_le (pos from) (height self.now v) && int_le (height self.now v) (pos to)) }
    {
        if from > to {
            return (i32::MAX, i32::MIN);
        }
        let worst = self.figure_at(from);
        let best = self.figure_at(to);
        (worst.min(best), worst.max(best))
    }

    // The figures on the grid below the height at which the box after n begins.
    pub(crate) fn at_most(&self, n: u32) -> (i32, i32)
        requires { step_sound self.now ≡ true }
        ensures { (v : ℤ) → between signed_bits result v ≡ box_at_most (step_line self.now) n v }
    {
        let next = (u64::from(n) + 1) * u64::from(self.step);
        self.figures(0, (next - 1).min(u64::from(self.span())))
    }

    // The figures on the grid from the height at which box n begins.
    pub(crate) fn at_least(&self, n: u32) -> (i32, i32)
        requires { step_sound self.now ≡ true }
        ensures { (v : ℤ) → between signed_bits result v ≡ box_at_least (step_line self.now) n v }
    {
        self.figures(u64::from(n) * u64::from(self.step), u64::from(self.span()))
    }

    // The levels of box n, which a height is counted on to from the lowest: no range is looked for.
    pub(crate) fn levels(&self, n: u32) -> Levels
        requires { step_sound self.now ≡ true }
        ensures { (v : ℤ) → (step_line self.now).admits v ≡ true → (step_line self.now).box v ≡ n → LevelsOf signed_bits (step_line self.now) n result }
    {
        match self.direction {
            Direction::LargerIsBetter => self.levels_from(n, false, self.low, self.high),
            Direction::SmallerIsBetter => self.levels_from(n, true, -1 - self.high, -1 - self.low),
        }
    }

    // The same, where the levels on the grid are these.
    fn levels_from(&self, n: u32, turned: bool, lowest: i32, highest: i32) -> Levels
        requires sound { step_sound self.now ≡ true }
        requires way { highest ≡ lowest +ℤ (self.now.high -ℤ self.now.low) }
        ensures { result ≡ levels_above self.now n turned lowest highest }
    {
        let way = u64::from(self.span());
        let from = u64::from(n) * u64::from(self.step);
        let next = (u64::from(n) + 1) * u64::from(self.step);
        Levels {
            turned,
            lowest,
            highest,
            bottom: above(lowest, from.min(way)),
            top: above(lowest, (next - 1).min(way)),
        }
    }
}

// The level so far above the lowest.
fn above(lowest: i32, distance: u64) -> i32
    requires { (distance ≤ 4294967295) × ((lowest +ℤ pos distance) ≤ℤ pos 2147483647) }
    ensures { result ≡ lowest +ℤ pos distance }
{
    (i64::from(lowest) + distance as i64) as i32
}
