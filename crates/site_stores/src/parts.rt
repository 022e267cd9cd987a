//! The stores one by one.
ghost use Rattle.std.specs.Prelude.{◌≡◌};

use crate::stores::Stores;
use batch_book::Book;
use item_store::Items;
use pack_tree::Tree;

impl Stores {
    /// The batches, and what was declared of them.
    pub fn book(&self) -> &Book
        ensures batches { result.now.batches ≡ self.now.content.batches }
        ensures said { result.now.declarations ≡ self.now.content.said }
    {
        &self.book
    }

    /// The serial rows.
    pub fn items(&self) -> &Items
        ensures { result.now.rows ≡ self.now.content.rows }
    {
        &self.items
    }

    /// The units, and what is packed in them.
    pub fn tree(&self) -> &Tree
        ensures units { result.now.units ≡ self.now.content.units }
        ensures links { result.now.pairs ≡ self.now.content.links }
        ensures last { result.now.last ≡ self.now.content.last }
    {
        &self.tree
    }
}
