//! What a journal holds.

use crate::payloads::Payloads;
use outside::Bytes;

/// What a journal holds: the site's bytes and the payloads, up to the first closed gate.
#[derive(Debug, Drop)]
pub struct Loaded {
    pub site: Bytes,
    pub payloads: Payloads,
}
