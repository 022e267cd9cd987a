//! What the book keeps of a declaration.
use deed_words::{BatchId, StationId};

/// What a line declared of a batch.
#[derive(Clone, Copy, Debug, PartialEq, Eq)]
pub struct DeclarationRow {
    /// The batch.
    pub batch: BatchId,
    /// The line.
    pub line: StationId,
    /// How many serials were printed well.
    pub good: u32,
    /// How many were spoiled.
    pub spoiled: u32,
    /// How many were given back.
    pub returned: u32,
}
