// What may be wrong with a block: faults of the block as a whole, and faults of a record or of what follows the last one.
ghost use Rattle.std.specs.Prelude.{◌≡◌};
ghost use Rattle.log_block.specs.Faults.{block_report, fault_report, record_report};
ghost use Rattle.log_block.specs.declared.faults.Fault.TheVariants.{Block, Record};

// What is wrong with the block as a whole.
#[derive(Clone, Copy, PartialEq, Eq, Debug)]
pub enum BlockFault {
    // it is not 512 bytes long
    WrongLength,
    // a sum differs
    Torn,
    // byte 0 is not 1
    StrangeFirst,
    // byte 3 is not 0
    StrangeFourth,
    // byte 2 is another number of objectives
    OtherGrid,
}

// What is wrong with a record, or with what follows the last one; each holds the place, counted from byte 0 of the block.
#[derive(Clone, Copy, PartialEq, Eq, Debug)]
pub enum RecordFault {
    // the record does not end by byte 507
    Overlong(usize),
    // the record is neither a trial nor a note
    OtherKind(usize),
    // the record is a trial of another length
    OtherLength(usize),
    // the byte follows the last record and is not zero
    Tail(usize),
}

// What is wrong with a block: the first thing that the check finds.
#[derive(Clone, Copy, PartialEq, Eq, Debug)]
pub enum Fault {
    Block(BlockFault),
    Record(RecordFault),
}

// The layers that find faults, with the numbers that are told of them.
#[derive(Clone, Copy, PartialEq, Eq, Debug)]
pub enum Layer {
    // a block as a whole
    Block = 1,
    // the records of a block
    Record = 2,
    // an archive
    Archive = 3,
}

// A fault by its number, the layer that found it, and its place.
#[derive(Clone, Copy, PartialEq, Eq, Debug, Default)]
pub struct Report {
    pub number: u8,
    pub layer: u8,
    pub place: usize,
}

impl BlockFault {
    pub fn report(&self) -> Report
        ensures { result ≡ block_report self.now }
    {
        let (number, place) = match self {
            BlockFault::WrongLength => (9, 0),
            BlockFault::Torn => (10, 508),
            BlockFault::StrangeFirst => (11, 0),
            BlockFault::StrangeFourth => (11, 3),
            BlockFault::OtherGrid => (12, 2),
        };
        Report {
            number,
            layer: Layer::Block as u8,
            place,
        }
    }
}

impl RecordFault {
    pub fn report(&self) -> Report
        ensures { result ≡ record_report self.now }
    {
        let (RecordFault::Overlong(place)
        | RecordFault::OtherKind(place)
        | RecordFault::OtherLength(place)
        | RecordFault::Tail(place)) = *self;
        Report {
            number: 13,
            layer: Layer::Record as u8,
            place,
        }
    }
}

impl Fault {
    pub fn report(&self) -> Report
        ensures { result ≡ fault_report self.now }
    {
        match self {
            Fault::Block(fault) => fault.report(),
            Fault::Record(fault) => fault.report(),
        }
    }
}

impl From<BlockFault> for Fault {
    ghost from_gives = { λ f r. r ≡ Block f };

    fn from(block: BlockFault) -> Fault {
        Fault::Block(block)
    }
}

impl From<RecordFault> for Fault {
    ghost from_gives = { λ f r. r ≡ Record f };

    fn from(found: RecordFault) -> Fault {
        Fault::Record(found)
    }
}
