//! The book.
ghost use Rattle.std.specs.Prelude.{◌≡◌, ◌+◌, ◌-◌, ◌<◌, ◌≤◌, ◌∷◌, ◌++◌, [], false, length, take, All, IfNone, IsOk, OnOk, Some, ◌↔◌};
ghost use Rattle.std.specs.List.{HoldsAt, position, slice_get};
ghost use Rattle.deed_words.specs.declared.words.Phase.TheVariants.{Planned, Started, Closed};
ghost use Rattle.batch_book.specs.Batches.{is_called, AreApart, IsNamed, planned as planned_batch, phased, amended};
ghost use Rattle.batch_book.specs.Said.{declared as declared_row, declared_last};
ghost use Rattle.batch_book.specs.Ledgers.{AreOfBatches};
ghost use Rattle.std.specs.Result.{result_err};
ghost use Rattle.deed_words.specs.Setups.{Setup};
ghost use Rattle.deed_words.specs.Accounts.{finding};
ghost use Rattle.deed_words.specs.Accounted.{IsAccounted};
ghost use Rattle.batch_book.specs.Content.{world_of, name_at};

use crate::accounts::accounted;
use crate::declarations::Declarations;
use crate::orders::Orders;
use crate::row::DeclarationRow;
use deed_words::{Batch, BatchId, Finding, OrderRow, Phase, StationId, closes_where_accounted};
use gs1_keys::{Memory, Text20};
use item_store::Items;
use pack_tree::Tree;
use std::alloc::Global;
use std::marker::Model;

/// The batches, in the order in which they were accepted, and what was declared of them, in the order in which it came.
#[derive(Drop)]
pub struct Book {
    orders: Orders,
    declarations: Declarations,
}

impl Model for Book {
    ghost use Rattle.batch_book.specs.Ledgers.{Ledger, AreOfBatches};

    ghost Value = { Ledger };

    ghost view = { λ b. record {
      batches = b.orders.batches;
      declarations = b.declarations.declarations;
      batch_spare = b.orders.spare;
      declaration_spare = b.declarations.spare;
    } };

    ghost invariant = { λ b. AreOfBatches b.orders.batches b.declarations.declarations };
}

/// A batch as it is ordered.
fn planned(order: OrderRow) -> Batch
    ensures { result ≡ planned_batch order }
{
    let quantity = order.quantity;
    Batch {
        order,
        quantity,
        phase: Phase::Planned,
    }
}

/// A declaration, with its good, spoiled and returned serials.
fn declared(batch: BatchId, line: StationId, numbers: [u32; 3]) -> DeclarationRow
    ensures { result ≡ declared_row batch line numbers }
{
    DeclarationRow {
        batch,
        line,
        good: numbers[0],
        spoiled: numbers[1],
        returned: numbers[2],
    }
}

impl Book {
    /// No batches, no declarations, and no room.
    pub fn new(alloc: Global) -> Book
        ensures batches { result.batches ≡ [] }
        ensures declarations { result.declarations ≡ [] }
        ensures batch_spare { result.batch_spare ≡ 0 }
        ensures declaration_spare { result.declaration_spare ≡ 0 }
    {
        Book {
            orders: Orders::new(alloc),
            declarations: Declarations::new(alloc),
        }
    }

    /// How many batches there are: at most 4,096.
    pub fn len(&self) -> u16
        ensures is { result ≡ length self.now.batches }
        ensures few { result ≤ 4096 }
    {
        self.orders.len() as u16
    }

    /// Makes room for so many more batches and declarations. No other call takes memory.
    ///
    /// # Errors
    ///
    /// `Memory` where no memory was found, or for 2^31 declarations and more. What is there, and the room that there was,
    /// stay.
    pub fn ready(&mut self, batches: u16, declarations: u16) -> Result<(), Memory>
        requires { length self.old.batches + batches ≤ 4096 }
        ensures batches { self.new.batches ≡ self.old.batches }
        ensures declarations { self.new.declarations ≡ self.old.declarations }
        ensures ok { OnOk result ((batches ≤ self.new.batch_spare) × (declarations ≤ self.new.declaration_spare)) }
        ensures batch_spare { self.old.batch_spare ≤ self.new.batch_spare }
        ensures declaration_spare { self.old.declaration_spare ≤ self.new.declaration_spare }
    {
        self.orders.ready(batches)?;
        self.declarations.ready(declarations)?;
        Ok(())
    }

    /// The batch of the name.
    pub fn find(&self, name: &Text20) -> Option<BatchId>
        ensures is { result ≡ position (is_called name.now) self.now.batches }
        ensures absent { IfNone result (All (λ batch. is_called name.now batch ≡ false) self.now.batches) }
        ensures apart { AreApart self.now.batches }
    {
        self.orders.tell_named();
        self.orders.find(name)
    }

    /// Tells that no two batches have one name, and that each has one.
    pub fn tell_named(&self)
        ensures apart { AreApart self.now.batches }
        ensures named { All IsNamed self.now.batches }
    {
        self.orders.tell_named();
    }

    /// Tells that the batch of each declaration is there.
    pub fn tell_there(&self)
        ensures { AreOfBatches self.now.batches self.now.declarations }
    {
        let _count = self.orders.len();
    }

    /// A batch.
    pub fn batch(&self, batch: BatchId) -> Batch
        requires { batch < length self.now.batches }
        ensures { slice_get self.now.batches batch ≡ Some result }
    {
        self.orders.batch(batch.0)
    }

    /// The order of a batch, as it was first accepted.
    pub fn row(&self, batch: BatchId) -> OrderRow
        requires { batch < length self.now.batches }
        ensures { HoldsAt (λ kept. kept.order ≡ result) self.now.batches batch }
    {
        self.orders.batch(batch.0).order
    }

    /// The present quantity of a batch.
    pub fn quantity(&self, batch: BatchId) -> u32
        requires { batch < length self.now.batches }
        ensures { HoldsAt (λ kept. kept.quantity ≡ result) self.now.batches batch }
    {
        self.orders.batch(batch.0).quantity
    }

    /// How far a batch is.
    pub fn phase(&self, batch: BatchId) -> Phase
        requires { batch < length self.now.batches }
        ensures { HoldsAt (λ kept. kept.phase ≡ result) self.now.batches batch }
    {
        self.orders.batch(batch.0).phase
    }

    /// Good, spoiled and returned serials of a batch, as the line declared them last. It costs a look at each
    /// declaration of the batch.
    pub fn declared(&self, batch: BatchId, line: StationId) -> Option<[u32; 3]>
        ensures { result ≡ declared_last batch line self.now.declarations }
    {
        self.declarations.last(batch, line)
    }

    /// Whether a batch is accounted for: no serial of it is lent or rejected, each Active one stands in a unit, each unit
    /// that isn't Void is Sealed, each such case stands on a pallet where the order has pallets, and each line that was
    /// lent serials of it declared last what is counted. The lines are looked for among so many stations.
    ///
    /// The rows and the tree are of one site: the tree's items are the rows. It costs a look at what the batch has, not
    /// at what the site has.
    ///
    /// # Errors
    ///
    /// The first finding, in the order of their list; within one finding the first row, unit or station.
    pub fn accounted(
        &self,
        items: &Items,
        tree: &Tree,
        batch: BatchId,
        stations: u8,
    ) -> Result<(), Finding>
        requires range { batch < length self.now.batches }
        requires items { tree.now.items ≡ length items.now.rows }
        ensures found { (site : Setup) → length site.stations ≡ stations → result_err result ≡ finding site (world_of self.now items.now tree.now) (name_at self.now.batches batch) }
        ensures ok { (site : Setup) → length site.stations ≡ stations → IsOk result ↔ IsAccounted site (world_of self.now items.now tree.now) (name_at self.now.batches batch) }
    {
        closes_where_accounted();
        accounted(self, items, tree, batch, stations)
    }

    /// Puts a Planned batch last.
    pub fn add(&mut self, order: OrderRow) -> BatchId
        requires spare { 0 < self.old.batch_spare }
        requires new { All (λ batch. is_called order.batch batch ≡ false) self.old.batches }
        ensures batch { result ≡ length self.old.batches }
        ensures batches { self.new.batches ≡ self.old.batches ++ planned_batch order ∷ [] }
        ensures declarations { self.new.declarations ≡ self.old.declarations }
        ensures batch_spare { self.new.batch_spare + 1 ≡ self.old.batch_spare }
        ensures declaration_spare { self.new.declaration_spare ≡ self.old.declaration_spare }
    {
        let batch = self.orders.len() as u16;
        self.orders.add(planned(order));
        BatchId(batch)
    }

    /// Takes the last batch back, and its room is there again.
    pub fn remove_last(&mut self)
        requires there { 0 < length self.old.batches }
        requires undeclared { All (λ said. said.batch + 1 ≡ length self.old.batches → ⊥) self.old.declarations }
        ensures batches { self.new.batches ≡ take (length self.old.batches - 1) self.old.batches }
        ensures declarations { self.new.declarations ≡ self.old.declarations }
        ensures batch_spare { self.new.batch_spare ≡ self.old.batch_spare + 1 }
        ensures declaration_spare { self.new.declaration_spare ≡ self.old.declaration_spare }
    {
        self.orders.remove_last();
    }

    /// A batch is in another phase from now on.
    pub fn set_phase(&mut self, batch: BatchId, phase: Phase)
        requires { batch < length self.old.batches }
        ensures batches { self.new.batches ≡ phased self.old.batches batch phase }
        ensures declarations { self.new.declarations ≡ self.old.declarations }
        ensures batch_spare { self.new.batch_spare ≡ self.old.batch_spare }
        ensures declaration_spare { self.new.declaration_spare ≡ self.old.declaration_spare }
    {
        self.orders.set_phase(batch.0, phase);
    }

    /// Starts a Planned batch.
    pub fn start(&mut self, batch: BatchId)
        requires range { batch < length self.old.batches }
        requires planned { HoldsAt (λ kept. kept.phase ≡ Planned) self.old.batches batch }
        ensures batches { self.new.batches ≡ phased self.old.batches batch Started }
        ensures declarations { self.new.declarations ≡ self.old.declarations }
        ensures batch_spare { self.new.batch_spare ≡ self.old.batch_spare }
        ensures declaration_spare { self.new.declaration_spare ≡ self.old.declaration_spare }
    {
        self.set_phase(batch, Phase::Started);
    }

    /// Closes a Started batch.
    pub fn close(&mut self, batch: BatchId)
        requires range { batch < length self.old.batches }
        requires started { HoldsAt (λ kept. kept.phase ≡ Started) self.old.batches batch }
        ensures batches { self.new.batches ≡ phased self.old.batches batch Closed }
        ensures declarations { self.new.declarations ≡ self.old.declarations }
        ensures batch_spare { self.new.batch_spare ≡ self.old.batch_spare }
        ensures declaration_spare { self.new.declaration_spare ≡ self.old.declaration_spare }
    {
        self.set_phase(batch, Phase::Closed);
    }

    /// Gives a batch that isn't Closed another quantity. Its order stays as it was first accepted.
    pub fn amend(&mut self, batch: BatchId, quantity: u32)
        requires range { batch < length self.old.batches }
        requires open { HoldsAt (λ kept. kept.phase ≡ Closed → ⊥) self.old.batches batch }
        ensures batches { self.new.batches ≡ amended self.old.batches batch quantity }
        ensures declarations { self.new.declarations ≡ self.old.declarations }
        ensures batch_spare { self.new.batch_spare ≡ self.old.batch_spare }
        ensures declaration_spare { self.new.declaration_spare ≡ self.old.declaration_spare }
    {
        self.orders.amend(batch.0, quantity);
    }

    /// Keeps what a line declares of a Started batch: good, spoiled and returned serials. It counts in place of what the
    /// line declared of the batch before.
    pub fn declare(&mut self, batch: BatchId, line: StationId, numbers: [u32; 3])
        requires range { batch < length self.old.batches }
        requires started { HoldsAt (λ kept. kept.phase ≡ Started) self.old.batches batch }
        requires spare { 0 < self.old.declaration_spare }
        ensures batches { self.new.batches ≡ self.old.batches }
        ensures declarations { self.new.declarations ≡ self.old.declarations ++ declared_row batch line numbers ∷ [] }
        ensures batch_spare { self.new.batch_spare ≡ self.old.batch_spare }
        ensures declaration_spare { self.new.declaration_spare + 1 ≡ self.old.declaration_spare }
    {
        self.declarations.add(declared(batch, line, numbers));
    }

    /// Takes the last declaration back, and its room is there again. What its line declared of the batch before counts
    /// again.
    pub fn undeclare(&mut self)
        requires { 0 < length self.old.declarations }
        ensures batches { self.new.batches ≡ self.old.batches }
        ensures declarations { self.new.declarations ≡ take (length self.old.declarations - 1) self.old.declarations }
        ensures batch_spare { self.new.batch_spare ≡ self.old.batch_spare }
        ensures declaration_spare { self.new.declaration_spare ≡ self.old.declaration_spare + 1 }
    {
        self.declarations.remove_last();
    }
}
