//! A payload that was loaded.

use outside::Bytes;

/// A payload, and the offset of its gate in the journal.
#[derive(Debug, Drop)]
pub struct Payload {
    pub at: u64,
    pub bytes: Bytes,
}
