//! Notes as a store keeps them.

use deed_words::{Entry, FaultKind};
use site_core::Planned;
use std::snapshot::Snapshot;

/// A note, with its group of entries, which takes no room.
#[derive(Drop)]
pub enum Row {
    /// The entry at this place of the history was settled by this worker.
    Done(u32, u8, Snapshot<Entry>),
    /// Something failed, in this worker's turn, and left this pending, the last entry first.
    Fault(FaultKind, u8, Snapshot<Vec<Planned>>),
}
