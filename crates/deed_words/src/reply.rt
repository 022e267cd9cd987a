//! Replies.
ghost use Rattle.std.specs.Prelude.{◌≡◌, IfOk};

use crate::Rule;
use gs1_keys::{Memory, Serials, Sscc};

/// What an accepted deed is told.
#[derive(Debug, Drop)]
pub enum Answer {
    /// That it is done.
    Plain,
    /// What became of the ordered batches.
    Orders {
        /// How many are new.
        added: u16,
        /// How many were there already.
        already: u16,
    },
    /// The serials that were drawn or lent, in their order.
    Listed(Serials),
    /// The SSCC of the container that was made.
    Made(Sscc),
    /// How many things were taken out.
    Taken(u32),
}

/// What a station is told of its request, and what is kept of it.
#[derive(Debug, Drop)]
pub enum Reply {
    /// The deed was done.
    Accepted(Answer),
    /// The deed breaks this rule, and nothing was done.
    Refused(Rule),
}

impl Answer {
    /// An equal answer.
    pub fn copy(&self) -> Result<Self, Memory>
        ensures { IfOk result (λ copy. copy ≡ self.now) }
    {
        match self {
            Answer::Plain => Ok(Answer::Plain),
            Answer::Orders { added, already } => Ok(Answer::Orders {
                added: *added,
                already: *already,
            }),
            Answer::Listed(serials) => Ok(Answer::Listed(serials.copy()?)),
            Answer::Made(sscc) => Ok(Answer::Made(*sscc)),
            Answer::Taken(count) => Ok(Answer::Taken(*count)),
        }
    }
}

impl Reply {
    /// An equal reply.
    pub fn copy(&self) -> Result<Self, Memory>
        ensures { IfOk result (λ copy. copy ≡ self.now) }
    {
        match self {
            Reply::Accepted(answer) => Ok(Reply::Accepted(answer.copy()?)),
            Reply::Refused(rule) => Ok(Reply::Refused(*rule)),
        }
    }
}
