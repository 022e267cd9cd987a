//! What can stand in a unit, and a unit itself.
use deed_words::{BatchId, Level, Mark};
use gs1_keys::Sscc;

/// An item or a unit, by its place.
#[derive(Clone, Copy, Debug, PartialEq, Eq)]
pub enum Node {
    /// The serial row at the place.
    Item(u32),
    /// The unit at the place.
    Unit(u32),
}

/// A case or a pallet.
#[derive(Clone, Copy, Debug, PartialEq, Eq)]
pub struct UnitRow {
    /// Its SSCC, which no other unit has.
    pub sscc: Sscc,
    /// The batch that it is for.
    pub batch: BatchId,
    /// What it is, and so what goes into it.
    pub level: Level,
    /// Whether it is open, closed or out of use.
    pub mark: Mark,
}
