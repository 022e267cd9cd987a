//! A store. The struct stands alone.

use crate::log::Row;
use gate_journal::Journal;
use outside::{Clock, Disk, Words};
use site_core::{Planned, Site};
use std::alloc::Global;
use std::snapshot::Snapshot;

/// The devices of a store.
#[derive(Drop)]
pub struct Devices<D, C, W> {
    pub disk: D,
    pub clock: C,
    pub words: W,
}

/// A site with its journal and its devices.
#[derive(Drop)]
pub struct Store<D: Disk, C: Clock, W: Words> {
    pub(crate) alloc: Global,
    pub(crate) journal: Journal<D>,
    pub(crate) site: Site,
    pub(crate) clock: C,
    pub(crate) words: W,
    /// What is pending, the last entry first: it is taken back from the last, and put in again from the first.
    pub(crate) pending: Vec<Planned>,
    pub(crate) log: Vec<Row>,
    /// The site and the devices at the opening.
    pub(crate) opening: Snapshot<Site>,
    pub(crate) opened: Snapshot<Devices<D, C, W>>,
}
