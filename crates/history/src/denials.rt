// Why a call of an archive is denied.
ghost use Rattle.std.specs.Prelude.{◌≡◌};
ghost use Rattle.history.specs.Numbers.{denial_number};

#[derive(Clone, Copy, PartialEq, Eq, Debug)]
pub enum Denial {
    // a making over 0 rows
    NoRows = 1,
    // a making over more than 4,096 rows
    Overlong = 2,
    // another number of rows is lent than at the making
    StrangeRows = 3,
    // the list is shorter than the rows, or where tags are listed than the count
    ShortList = 4,
    // the trial's point is not admitted
    OffGrid = 5,
    // the trial would enter, and every row holds a member
    Full = 6,
    // the lent block is not 512 bytes long
    WrongLength = 9,
    // the members do not reach to a block of this number
    NoSuchBlock = 14,
}

impl Denial {
    // The number of this denial.
    pub fn number(&self) -> u8
        ensures { result ≡ denial_number self.now }
    {
        *self as u8
    }
}
