//! What is asked, and what is kept of it.
ghost use Rattle.std.specs.Prelude.{◌≡◌, ◌↔◌, true, IfOk};
ghost use Rattle.deed_words.specs.Proper.{IsProperEntry};

use crate::{BatchId, Deed, Epcs, OrderRow, StationId};
use gs1_keys::{Memory, Serials, Sscc, Text20};

/// A numbered request of a station.
#[derive(Debug, Drop)]
pub struct Ask {
    /// Who asks.
    pub station: StationId,
    /// The station's own number of the request. Numbers begin at 1.
    pub number: u64,
    /// Who worked at the station, where it was told.
    pub operator: Option<Text20>,
    /// What is asked for.
    pub deed: Deed,
}

/// What a request says: the deed, and who worked at the station, where it was told.
#[derive(Debug, Drop)]
pub struct Said {
    /// What is asked for.
    pub deed: Deed,
    /// The operator.
    pub operator: Option<Text20>,
}

/// A request that got a reply: one line of the history.
#[derive(Debug, Drop)]
pub struct Entry {
    /// Who asked.
    pub station: StationId,
    /// The station's own number of the request.
    pub number: u64,
    /// The worker that served it.
    pub worker: u8,
    /// When it was served: milliseconds since 1970, at most 253402300799999, the last of the year 9999.
    pub stamp: u64,
    /// Who worked at the station, where it was told. Operators aren't compared: a repeat by another one is the same request.
    pub operator: Option<Text20>,
    /// What was asked for.
    pub deed: Deed,
    /// The serials that it drew; none where it is no accepted draw.
    pub drawn: Serials,
}

impl Entry {
    /// Whether each field is in its range: those of the deed, the stamp, and at most 10,000 drawn serials.
    pub fn is_proper(&self) -> bool
        ensures { (result ≡ true) ↔ IsProperEntry self.now }
    {
        self.stamp <= 253_402_300_799_999 && self.drawn.len() <= 10_000 && self.deed.is_proper()
    }

    /// An equal entry.
    pub fn copy(&self) -> Result<Self, Memory>
        ensures { IfOk result (λ copy. copy ≡ self.now) }
    {
        Ok(Entry {
            station: self.station,
            number: self.number,
            worker: self.worker,
            stamp: self.stamp,
            operator: self.operator,
            deed: self.deed.copy()?,
            drawn: self.drawn.copy()?,
        })
    }
}

/// What an accepted entry changed.
#[derive(Debug, Drop)]
pub struct Move {
    /// The entry's place in the history, from 0.
    pub place: u32,
    /// The entry.
    pub kept: Entry,
    /// The batch that it changed.
    pub batch: BatchId,
    /// The order of that batch.
    pub row: OrderRow,
    /// The items and containers that it is about, in their order.
    pub epcs: Epcs,
    /// The container that they were put into or taken out of.
    pub parent: Option<Sscc>,
}

/// What failed in a turn.
#[derive(Clone, Copy, Debug, PartialEq, Eq)]
pub enum FaultKind {
    /// The disk.
    Disk,
    /// The clock.
    Clock,
    /// The source of random words.
    Words,
    /// The clock was past the year 9999.
    Range,
    /// The random words gave too few new serials.
    Spent,
}

/// What a turn leaves, with the worker in whose turn it was.
#[derive(Clone, Copy, Debug, PartialEq, Eq)]
pub enum Note {
    /// The entry at this place of the history was settled.
    Done(u32, u8),
    /// Something failed.
    Fault(FaultKind, u8),
}
