// What a call on the second archive comes to: what it tells, and what it writes.
use crate::failed::Failed;
use crate::numbered::Numbered;
use crate::second::Judged;
use crate::told::{Fed, Told};
use std::alloc::AllocError;

// What a call writes to the list or to the block that it is lent, at the front.
#[derive(Drop)]
pub(crate) enum Written {
    Nothing,
    // tags, in any order
    Tags(Vec<u32>),
    // tags, in this order
    List(Vec<u32>),
    Block(Vec<u8>),
}

// An answer with what the call writes.
#[derive(Drop)]
pub(crate) struct Reply {
    pub told: Told,
    pub written: Written,
}

impl Reply {
    // Of a call that writes nothing.
    fn only(told: Told) -> Reply {
        Reply {
            told,
            written: Written::Nothing,
        }
    }

    // Of an offer that was judged.
    pub(crate) fn judged(judged: Judged) -> Reply {
        let Judged { verdict, gone } = judged;
        Reply {
            told: Told::Judged {
                verdict: verdict.number(),
                displaced: gone.len(),
            },
            written: Written::Tags(gone),
        }
    }

    // Of a feed.
    pub(crate) fn fed(fed: Fed) -> Reply {
        Reply::only(Told::Fed(fed))
    }

    // Of an audit.
    pub(crate) fn audited(rows: Option<(usize, usize)>) -> Reply {
        Reply::only(Told::Audited(rows))
    }

    // Of a list.
    pub(crate) fn listed(tags: Vec<u32>) -> Reply {
        Reply {
            told: Told::Listed(tags.len()),
            written: Written::List(tags),
        }
    }

    // Of a save; the second byte of a block is how many trials it has.
    pub(crate) fn saved(block: Vec<u8>) -> Reply {
        let count = usize::from(block.get(1).copied().unwrap_or(0));
        Reply {
            told: Told::Saved(count),
            written: Written::Block(block),
        }
    }
}

// What a call comes to: what it grants as this says, or the reason why it grants nothing.
pub(crate) fn reply_of<T, E: Into<Told>, F: FnOnce(T) -> Reply>(
    said: Result<T, Failed<E>>,
    granted: F,
) -> Result<Reply, AllocError>
    requires { F.IsAlwaysCallable granted }
{
    match said {
        Ok(answer) => Ok(granted(answer)),
        Err(Failed::For(reason)) => Ok(Reply::only(reason.into())),
        Err(Failed::Memory(failed)) => Err(failed),
    }
}
