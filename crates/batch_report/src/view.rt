//! What a planner sees of a batch.
use crate::Lines;
use deed_words::{OrderRow, Phase};
use gs1_keys::Text20;
use item_store::Counts;

/// A batch as it stands.
#[derive(Debug, Drop)]
pub struct BatchView {
    /// The order as it was first accepted.
    pub row: OrderRow,
    /// The present quantity: 1 to 1,000,000 items.
    pub quantity: u32,
    /// How far it is.
    pub phase: Phase,
    /// How many serials were drawn for it, and how they stand.
    pub counts: Counts,
    /// How many cases it has that aren't void.
    pub cases: u32,
    /// How many pallets it has that aren't void.
    pub pallets: u32,
    /// How many events it has.
    pub events: u32,
    /// The lines that were lent serials of it, in the order of the site's stations.
    pub lines: Lines,
}

/// What a line made of the serials of a batch that it was lent.
#[derive(Clone, Copy, Debug, PartialEq, Eq)]
pub struct LineRow {
    /// The name of the line.
    pub name: Text20,
    /// How many were good, how many were spoiled, and how many were returned.
    pub numbers: [u32; 3],
}
