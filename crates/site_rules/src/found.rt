//! What was found of the names in a deed.
use crate::origins::Origin;
use deed_words::{BatchId, UnitId};
use pack_tree::Node;

/// What was found of the names in a deed, each of which was looked up once.
#[derive(Drop)]
pub struct Found {
    /// Where the unit is that the deed names, if it names one and it is there.
    pub unit: Option<UnitId>,
    /// Where the batch is that the deed is about, if it is about one and it is there.
    pub batch: Option<BatchId>,
    /// Where each thing is that the deed names, if it is there.
    pub places: Vec<Option<Node>>,
    /// Where the batch of each order row was first ordered.
    pub origins: Vec<Origin>,
}
