//! What a disk in memory remembers beside its content.

use std::snapshot::Snapshot;

/// A range that a write named, the content that the write found, which takes no room, and what puts that content
/// back: the bytes that the write covered, and how many bytes there were.
#[derive(Drop)]
pub(crate) struct Named {
    pub(crate) at: u64,
    pub(crate) len: usize,
    pub(crate) found: Snapshot<Vec<u8>>,
    pub(crate) covered: Vec<u8>,
    pub(crate) size: usize,
}

/// What stood at the last sync, which takes no room, and the ranges that writes named since.
#[derive(Drop)]
pub(crate) struct Unsynced {
    pub(crate) synced: Snapshot<Vec<u8>>,
    pub(crate) writes: Vec<Named>,
}

/// A moment before, which takes no room.
#[derive(Drop)]
pub(crate) struct Past {
    pub(crate) bytes: Snapshot<Vec<u8>>,
    pub(crate) unsynced: Snapshot<Option<Unsynced>>,
}
