//! What stands in the world of a site. These are the rows of the definitions; a site keeps its own.
use crate::{Level, Mark, OrderRow, Phase, State, StationId};
use epc_urn::Epc;
use gs1_keys::{Gtin, Sscc, Text20};

/// A batch.
#[derive(Clone, Copy, Debug, PartialEq, Eq)]
pub struct Batch {
    /// The order as it was first accepted.
    pub order: OrderRow,
    /// The present quantity.
    pub quantity: u32,
    /// How far it is.
    pub phase: Phase,
}

/// A serial that was drawn.
#[derive(Clone, Copy, Debug, PartialEq, Eq)]
pub struct Row {
    /// The GTIN of which it was drawn.
    pub gtin: Gtin,
    /// The serial.
    pub serial: Text20,
    /// The name of the batch for which it was drawn.
    pub batch: Text20,
    /// The line to which it was lent.
    pub line: Option<StationId>,
    /// Its state.
    pub state: State,
}

/// A case or a pallet.
#[derive(Clone, Copy, Debug, PartialEq, Eq)]
pub struct Container {
    /// Its SSCC.
    pub sscc: Sscc,
    /// The name of its batch.
    pub batch: Text20,
    /// What it is.
    pub level: Level,
    /// How it stands.
    pub mark: Mark,
}

/// An item in a case, or a case on a pallet.
#[derive(Clone, Copy, Debug, PartialEq, Eq)]
pub struct Pair {
    /// What was put in.
    pub child: Epc,
    /// The container.
    pub parent: Sscc,
}

/// What a line declared of a batch.
#[derive(Clone, Copy, Debug, PartialEq, Eq)]
pub struct Declaration {
    /// The name of the batch.
    pub batch: Text20,
    /// The line.
    pub line: StationId,
    /// How many serials were printed well.
    pub good: u32,
    /// How many were spoiled.
    pub spoiled: u32,
    /// How many were given back.
    pub returned: u32,
}
