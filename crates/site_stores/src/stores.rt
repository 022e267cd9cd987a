//! The stores.
ghost use Rattle.std.specs.Prelude.{◌≡◌, ◌+◌, ◌<◌, ◌≤◌, [], length, OnOk, Some};
ghost use Rattle.std.specs.List.{position, slice_get};
ghost use Rattle.deed_words.specs.Accounts.{finding};
ghost use Rattle.deed_words.specs.Setups.{Setup};
ghost use Rattle.deed_words.specs.World.{row_of, unit_of, parent, inside};
ghost use Rattle.item_store.specs.Rows.{is_named, IsLined};
ghost use Rattle.pack_tree.specs.Units.{is_coded};
ghost use Rattle.batch_book.specs.Batches.{is_called};
ghost use Rattle.batch_book.specs.Content.{world_in, name_at};
ghost use Rattle.site_stores.specs.Holding.{IsWhole, IsWithin};
ghost use Rattle.site_stores.specs.Places.{place_of};

use crate::told::{told_row, told_unit};
use batch_book::Book;
use deed_words::{Batch, BatchId, Container, Finding, ItemId, Row, UnitId};
use epc_urn::Epc;
use gs1_keys::{Gtin, Memory, Sscc, Text20};
use item_store::{ItemRow, Items};
use pack_tree::{Node, Tree, UnitRow};
use std::alloc::Global;
use std::marker::Model;

/// The batches, the serial rows, the units and what is packed in them.
#[derive(Drop)]
pub struct Stores {
    pub(crate) book: Book,
    pub(crate) items: Items,
    pub(crate) tree: Tree,
    /// How many more rows have room, in the rows and in the tree.
    pub(crate) row_room: u32,
}

impl Model for Stores {
    ghost use Rattle.batch_book.specs.Content.{content_of};
    ghost use Rattle.site_stores.specs.Holding.{Held, room_of, AreOne};

    ghost Value = { Held };

    ghost view = { λ s. record { content = content_of s.book s.items s.tree; room = room_of s.book s.tree s.row_room } };

    ghost invariant = { λ s. AreOne s.book s.items s.tree s.row_room };
}

impl Stores {
    /// Nothing, and no room.
    pub fn new(alloc: Global) -> Stores
        ensures content { result.content ≡ record { batches = []; rows = []; units = []; links = []; last = 0; said = [] } }
        ensures room { result.room ≡ record { batches = 0; declarations = 0; rows = 0; units = 0 } }
    {
        Stores {
            book: Book::new(alloc),
            items: Items::new(alloc),
            tree: Tree::new(alloc),
            row_room: 0,
        }
    }

    /// Makes room for so many more batches, declarations, rows and units. Of the other calls none takes memory.
    ///
    /// # Errors
    ///
    /// `Memory` where no memory was found. What is there, and the room that there was, stay.
    pub fn ready(
        &mut self,
        batches: u16,
        declarations: u16,
        rows: u32,
        units: u32,
    ) -> Result<(), Memory>
        requires batches { length self.old.content.batches + batches ≤ 4096 }
        requires rows { length self.old.content.rows + rows ≤ 1000000 }
        requires units { length self.old.content.units + units ≤ 65536 }
        ensures content { self.new.content ≡ self.old.content }
        ensures ok { OnOk result (IsWithin (record { batches = batches; declarations = declarations; rows = rows; units = units }) self.new.room) }
        ensures room { IsWithin self.old.room self.new.room }
    {
        self.book.ready(batches, declarations)?;
        let items = self.items.len() + rows;
        let all_units = self.tree.len() + units;
        self.tree.ready(items, all_units)?;
        self.items.ready(rows)?;
        self.row_room = self.row_room.max(rows);
        Ok(())
    }

    /// Tells contracts what every site's stores keep. It does nothing.
    pub fn tell_whole(&self)
        ensures { IsWhole self.now.content }
    {
        self.book.tell_named();
        self.book.tell_there();
        self.items.tell_apart();
        self.tree.tell_apart();
        self.tree.tell_once();
        self.tree.tell_there();
    }

    /// The place of the batch of the name.
    pub fn find_batch(&self, name: &Text20) -> Option<BatchId>
        ensures { result ≡ position (is_called name.now) self.now.content.batches }
    {
        self.book.find(name)
    }

    /// The batch at a place.
    pub fn batch_at(&self, batch: BatchId) -> Batch
        requires { batch < length self.now.content.batches }
        ensures { slice_get self.now.content.batches batch ≡ Some result }
    {
        self.book.batch(batch)
    }

    /// The place of the row of the name.
    pub fn find_item(&self, gtin: &Gtin, serial: &Text20) -> Option<ItemId>
        ensures { result ≡ position (is_named gtin.now serial.now) self.now.content.rows }
    {
        self.items.find(gtin, serial)
    }

    /// The row at a place.
    pub fn item_at(&self, item: ItemId) -> ItemRow
        requires { item < length self.now.content.rows }
        ensures is { slice_get self.now.content.rows item ≡ Some result }
        ensures lined { IsLined result.line result.state }
    {
        self.items.row(item)
    }

    /// The row of the name, with its batch's name.
    pub fn row(&self, gtin: &Gtin, serial: &Text20) -> Option<Row>
        ensures { result ≡ row_of (world_in self.now.content) gtin.now serial.now }
    {
        let Some(item) = self.items.find(gtin, serial) else {
            return None;
        };
        let row = self.items.row(item);
        Some(told_row(&self.book, &row))
    }

    /// The place of the unit of the code.
    pub fn find_unit(&self, sscc: &Sscc) -> Option<UnitId>
        ensures { result ≡ position (is_coded sscc.now) self.now.content.units }
    {
        self.tree.find(sscc)
    }

    /// The unit at a place.
    pub fn unit_at(&self, unit: UnitId) -> UnitRow
        requires { unit < length self.now.content.units }
        ensures { slice_get self.now.content.units unit ≡ Some result }
    {
        self.tree.unit(unit)
    }

    /// The unit of the code, with its batch's name.
    pub fn unit(&self, sscc: &Sscc) -> Option<Container>
        ensures { result ≡ unit_of (world_in self.now.content) sscc.now }
    {
        let Some(at) = self.tree.find(sscc) else {
            return None;
        };
        let unit = self.tree.unit(at);
        Some(told_unit(&self.book, &unit))
    }

    /// The place of the thing of the name.
    #[tactic(auto, unfolding(crate::specs::Places::place_of))]
    pub fn place(&self, name: &Epc) -> Option<Node>
        ensures { result ≡ place_of self.now.content.rows self.now.content.units name.now }
    {
        match name {
            Epc::Item(gtin, serial) => match self.items.find(gtin, serial) {
                Some(item) => Some(Node::Item(item.0)),
                None => None,
            },
            Epc::Unit(sscc) => match self.tree.find(sscc) {
                Some(unit) => Some(Node::Unit(unit.0)),
                None => None,
            },
        }
    }

    /// The code of the unit that the thing of the name stands in.
    pub fn parent(&self, name: &Epc) -> Option<Sscc>
        ensures { result ≡ parent (world_in self.now.content) name.now }
    {
        self.parent_at(name, self.place(name))
    }

    /// The same, where the place of the thing is known.
    pub fn parent_at(&self, name: &Epc, place: Option<Node>) -> Option<Sscc>
        requires place { place ≡ place_of self.now.content.rows self.now.content.units name.now }
        ensures { result ≡ parent (world_in self.now.content) name.now }
    {
        let _known = name;
        self.items.tell_apart();
        self.tree.tell_apart();
        self.tree.tell_there();
        let Some(node) = place else {
            return None;
        };
        let Some(unit) = self.tree.parent_of(node) else {
            return None;
        };
        Some(self.tree.unit(unit).sscc)
    }

    /// How many things stand in the unit of the code.
    pub fn count_inside(&self, sscc: &Sscc) -> u64
        ensures { result ≡ length (inside (world_in self.now.content) sscc.now) }
    {
        self.tree.tell_apart();
        self.tree.tell_there();
        let Some(unit) = self.tree.find(sscc) else {
            return 0;
        };
        self.tree.count(unit)
    }

    /// Why the batch at a place isn't accounted for: nothing where it is. The lines are looked for among so many
    /// stations. It costs a look at what the batch has, not at what the site has.
    pub fn finding(&self, batch: BatchId, stations: u8) -> Option<Finding>
        requires { batch < length self.now.content.batches }
        ensures { (site : Setup) → length site.stations ≡ stations → result ≡ finding site (world_in self.now.content) (name_at self.now.content.batches batch) }
    {
        match self
            .book
            .accounted(&self.items, &self.tree, batch, stations)
        {
            Ok(()) => None,
            Err(finding) => Some(finding),
        }
    }
}
