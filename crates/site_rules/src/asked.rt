//! A deed, and what is worked out of it before its rules are tried.
use crate::found::Found;
use deed_words::{Deed, Setup, StationId};
use epc_urn::Epc;
use site_stores::Stores;

/// A station's deed, with the things that it names, what was found of its names, and the index of the first thing that
/// stands earlier too.
#[derive(Drop)]
pub struct Asked<'a> {
    /// The setup of the site.
    pub setup: &'a Setup,
    /// What the site holds.
    pub stores: &'a Stores,
    /// The station that asks.
    pub station: StationId,
    /// What it asks for.
    pub deed: &'a Deed,
    /// The names of the things that the deed names, in its order.
    pub names: &'a [Epc],
    /// Where the unit and the batch are that it is about, where each of the things is, and where the batches of its
    /// order rows were first ordered.
    pub found: Found,
    /// The index of the first of them that stands earlier too.
    pub repeat: Option<usize>,
    /// For a draw: how many serials are drawn of the batch's GTIN. It is read for no other deed.
    pub drawn: u32,
}
