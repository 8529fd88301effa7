// What a run is asked for.
ghost use Rattle.std.specs.Prelude.{◌≤◌, IfOk};

use anyhow::{Result, bail};

// How many objectives the space has: those that are timed.
#[derive(Clone, Copy, PartialEq, Eq, Debug)]
pub(crate) enum Objectives {
    Two,
    Four,
    Six,
}

impl Objectives {
    // How many they are.
    pub(crate) fn count(self) -> usize
        ensures least { 2 ≤ result }
        ensures most { result ≤ 6 }
    {
        match self {
            Objectives::Two => 2,
            Objectives::Four => 4,
            Objectives::Six => 6,
        }
    }

    // A number shared out among all of them but the last. By constants, since a division by a number that is known only when
    // the program runs takes as long as a look at some members.
    pub(crate) fn share_of(self, number: u16) -> u16
        ensures { result ≤ number }
    {
        match self {
            Objectives::Two => number,
            Objectives::Four => number / 3,
            Objectives::Six => number / 5,
        }
    }
}

// How many objectives, rows and offers.
#[derive(Clone, Copy, PartialEq, Eq, Debug)]
pub(crate) struct Asked {
    pub objectives: Objectives,
    pub rows: usize,
    pub offers: u32,
}

// What the text asks for: three numbers with white space between them.
pub(crate) fn read_asked(text: &str) -> Result<Asked> {
    let mut words = text.split_whitespace();
    let (Some(objectives), Some(rows), Some(offers), None) = (
        words.next(),
        words.next(),
        words.next(),
        words.next(),
    ) else {
        bail!("wanted on standard input: OBJECTIVES ROWS OFFERS, three numbers");
    };
    Ok(Asked {
        objectives: read_objectives(objectives)?,
        rows: read_rows(rows)?,
        offers: read_offers(offers)?,
    })
}

// How many objectives the word says.
fn read_objectives(word: &str) -> Result<Objectives> {
    match word {
        "2" => Ok(Objectives::Two),
        "4" => Ok(Objectives::Four),
        "6" => Ok(Objectives::Six),
        _ => bail!("OBJECTIVES is to be 2, 4 or 6, and is {word:?}"),
    }
}

// How many rows the word says: as many as an archive is made over.
fn read_rows(word: &str) -> Result<usize>
    ensures { IfOk result (λ rows. (1 ≤ rows) × (rows ≤ 4096)) }
{
    match word.parse::<usize>() {
        Ok(rows) if (1..=4096).contains(&rows) => Ok(rows),
        _ => bail!("ROWS is to be a number from 1 to 4096, and is {word:?}"),
    }
}

// How many offers the word says: each has its number as its tag, so there are no more of them than tags.
fn read_offers(word: &str) -> Result<u32> {
    match word.parse::<u32>() {
        Ok(offers) => Ok(offers),
        Err(_) => bail!("OFFERS is to be a number from 0 to 4294967295, and is {word:?}"),
    }
}
