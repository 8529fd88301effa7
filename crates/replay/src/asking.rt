// What is asked of an archive, and what it answers.
ghost use Rattle.std.specs.Prelude.{◌≡◌, None};

use history::Answer;
use space::Trial;

// A call with what it is to be lent: how many rows, and how much of the list.
#[derive(Drop)]
pub enum Ask<P> {
    Offer {
        rows: usize,
        room: usize,
        trial: Trial<P>,
    },
    Audit {
        rows: usize,
    },
    List {
        rows: usize,
        room: usize,
    },
}

// The same, and the calls of a log, over a recorded space: a feed with its block, and a save with the number of its block and how
// much of the block that is lent.
#[derive(Drop)]
pub enum RecordedAsk<'a, P> {
    Plain(Ask<P>),
    Feed {
        rows: usize,
        block: &'a [u8],
    },
    Save {
        rows: usize,
        number: usize,
        size: usize,
    },
}

// A call that is asked for, with the place for its answer.
#[derive(Drop)]
pub struct Turn<A> {
    pub ask: A,
    pub answer: Option<Answer>,
}

impl<A> Turn<A> {
    // A call that is not answered yet.
    pub fn new(ask: A) -> Turn<A>
        ensures { result ≡ record { ask = ask; answer = None } }
    {
        Turn { ask, answer: None }
    }
}
