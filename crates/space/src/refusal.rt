// Why a grid is not made: a rule that is broken, or too many objectives together.
ghost use Rattle.std.specs.Prelude.{◌≡◌};
ghost use Rattle.space.specs.Refusal.{bad_grid_number, told_place, too_many_number};

// A rule of a grid is broken: the number of objectives, or in the lowest objective at fault.
#[derive(Clone, Copy, PartialEq, Eq, Debug)]
pub enum BadGrid {
    Objectives,
    Objective(u8),
}

impl BadGrid {
    // The number of this refusal.
    pub fn number(&self) -> u8
        ensures { result ≡ bad_grid_number }
    {
        7
    }

    // What it tells: 255 for the number of objectives, else the objective.
    pub fn told(&self) -> u8
        ensures { result ≡ told_place self.now }
    {
        match self {
            // the product's number for it, which is told outside; no objective has it
            BadGrid::Objectives => 255,
            BadGrid::Objective(i) => *i,
        }
    }
}

// Two spaces with more than six objectives together, handed back.
#[derive(Clone, Copy)]
pub struct TooMany<A, B> {
    pub first: A,
    pub second: B,
}

impl<A, B> TooMany<A, B> {
    // The number of this refusal.
    pub fn number(&self) -> u8
        ensures { result ≡ too_many_number }
    {
        8
    }
}
