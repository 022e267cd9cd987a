//! What the store gives.
use deed_words::{BatchId, State, StationId};
use gs1_keys::{Gtin, Text20};

/// A serial that was drawn.
#[derive(Clone, Copy, Debug, PartialEq, Eq)]
pub struct ItemRow {
    /// The GTIN of which it was drawn.
    pub gtin: Gtin,
    /// The serial.
    pub serial: Text20,
    /// The batch for which it was drawn.
    pub batch: BatchId,
    /// The line to which it was lent: none as long as it is Fresh.
    pub line: Option<StationId>,
    /// How it stands.
    pub state: State,
}

/// How many rows a batch has: all that were drawn, and the six that sum to them.
#[derive(Clone, Copy, Debug, PartialEq, Eq)]
pub struct Counts {
    /// All.
    pub drawn: u32,
    /// Fresh or Returned.
    pub unused: u32,
    /// Lent.
    pub lent: u32,
    /// Active.
    pub commissioned: u32,
    /// Sampled.
    pub sampled: u32,
    /// Rejected or Spoiled.
    pub rejected: u32,
    /// Gone.
    pub destroyed: u32,
}
