//! What a plan asks of the stores beside look-ups by name.
ghost use Rattle.std.specs.Prelude.{◌≡◌, ◌<◌, IfOk, length, map, take};
ghost use Rattle.item_store.specs.Rows.{fresh_places};
ghost use Rattle.pack_tree.specs.Many.{CanTake, MayTake};
ghost use Rattle.pack_tree.specs.Pairs.{inside};
ghost use Rattle.site_stores.specs.Holding.{packed_in};

use crate::change::Gone;
use crate::stores::Stores;
use deed_words::{BatchId, Ids, UnitId};
use gs1_keys::Memory;
use pack_tree::{Children, Node, try_all, try_empty};
use std::alloc::Global;

impl Stores {
    /// How many batches there are: at most 4,096.
    pub fn batch_count(&self) -> u16
        ensures { result ≡ length self.now.content.batches }
    {
        self.book.len()
    }

    /// How many serial rows there are: at most 1,000,000.
    pub fn row_count(&self) -> u32
        ensures { result ≡ length self.now.content.rows }
    {
        self.items.len()
    }

    /// How many units there are.
    pub fn unit_count(&self) -> u32
        ensures { result ≡ length self.now.content.units }
    {
        self.tree.len()
    }

    /// The last number under which something was put into a unit.
    pub fn last_number(&self) -> u64
        ensures { result ≡ self.now.content.last }
    {
        self.tree.last()
    }

    /// The batch's first Fresh rows, or all where there are fewer.
    ///
    /// # Errors
    ///
    /// `Memory` where no memory was found.
    pub fn first_fresh(&self, alloc: Global, batch: BatchId, count: u32) -> Result<Ids, Memory>
        ensures { IfOk result (λ ids. ids ≡ take count (fresh_places batch self.now.content.rows)) }
    {
        self.items.first_fresh(alloc, batch, count)
    }

    /// What stands in a unit, the longest inside first.
    pub fn children(&self, unit: UnitId) -> Children<'_>
        requires { unit < length self.now.content.units }
        ensures { result ≡ inside unit self.now.content.links }
    {
        self.tree.children(unit)
    }

    /// Tells how these things would be taken out of their units, one after the other. The stores stay as they are.
    ///
    /// # Errors
    ///
    /// `Memory` where no memory was found for the answer.
    pub fn try_all(&mut self, alloc: Global, nodes: &[Node]) -> Result<Gone, Memory>
        requires can { CanTake self.old.content.links nodes.now }
        ensures content { self.new.content ≡ self.old.content }
        ensures room { self.new.room ≡ self.old.room }
        ensures may { IfOk result (λ gone. MayTake (packed_in self.old.content) gone) }
        ensures nodes { IfOk result (λ gone. map (λ taken. taken.child) gone ≡ nodes.now) }
    {
        match try_all(&mut self.tree, alloc, nodes) {
            Ok(gone) => Ok(Gone::of(gone)),
            Err(fault) => Err(fault),
        }
    }

    /// Tells how all that stands in a unit would be taken out, the longest inside first. The stores stay as they are.
    ///
    /// # Errors
    ///
    /// `Memory` where no memory was found for the answer.
    pub fn try_empty(&mut self, alloc: Global, unit: UnitId) -> Result<Gone, Memory>
        requires range { unit < length self.old.content.units }
        ensures content { self.new.content ≡ self.old.content }
        ensures room { self.new.room ≡ self.old.room }
        ensures may { IfOk result (λ gone. MayTake (packed_in self.old.content) gone) }
        ensures nodes { IfOk result (λ gone. map (λ taken. taken.child) gone ≡ inside unit self.old.content.links) }
    {
        match try_empty(&mut self.tree, alloc, unit) {
            Ok(gone) => Ok(Gone::of(gone)),
            Err(fault) => Err(fault),
        }
    }
}
