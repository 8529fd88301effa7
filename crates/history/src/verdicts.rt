// How a judged trial fared.
ghost use Rattle.std.specs.Prelude.{◌≡◌};
ghost use Rattle.history.specs.Numbers.{verdict_number};

#[derive(Clone, Copy, PartialEq, Eq, Debug)]
pub enum Verdict {
    // a member's box shuts it out
    PassedOver = 0,
    // it took a free row
    Entered = 1,
    // it entered, and every member went whose box its box dominates
    Displaced = 2,
    // it entered, and a member of its own box went that it dominates
    Replaced = 3,
}

impl Verdict {
    // The number of this verdict.
    pub fn number(&self) -> u8
        ensures { result ≡ verdict_number self.now }
    {
        *self as u8
    }
}
