//! What the requests of a group have come to so far.

use crate::log::Row;
use gate_journal::Frame;
use site_core::{Committed, Site};
use std::snapshot::Snapshot;

/// What the requests of a group have come to so far: nothing of it was written.
#[derive(Drop)]
pub(crate) struct Group {
    /// The site before the group.
    pub(crate) base: Snapshot<Site>,
    /// The notes to come.
    pub(crate) rows: Vec<Row>,
    /// What was put into the site.
    pub(crate) committed: Vec<Committed>,
    /// The payload of that.
    pub(crate) frame: Frame,
}
