//! Changes made in the stores, and taken back.
ghost use Rattle.std.specs.Prelude.{◌≡◌, ◌+◌, ◌-◌, ◌<◌, ◌≤◌, ◌∷◌, ◌++◌, [], None, length, take, All};
ghost use Rattle.std.specs.List.{HoldsAt, position};
ghost use Rattle.deed_words.specs.declared.words.Phase.TheVariants.{Started, Closed};
ghost use Rattle.pack_tree.specs.declared.node.Node.TheVariants.{Unit as AUnit};
ghost use Rattle.pack_tree.specs.Packing.{IsThereIn};
ghost use Rattle.pack_tree.specs.Pairs.{parent_in, inside};
ghost use Rattle.pack_tree.specs.Units.{is_coded, marked, new_unit};
ghost use Rattle.batch_book.specs.Batches.{phased, amended};
ghost use Rattle.batch_book.specs.Said.{declared};
ghost use Rattle.pack_tree.specs.Many.{with_all_put, MayPut, but_all_put, WerePut, without_all, MayTake, with_all_back, WereTaken};
ghost use Rattle.site_stores.specs.Changes.{turned, MayTurn, turned_back, WereTurned, ordered, MayOrder, unordered, WereOrdered, AreUnused, drawn, MayDraw, undrawn, WereDrawn, applied, taken_back, MayApply, WasApplied, room_for, with_room};
ghost use Rattle.site_stores.specs.Holding.{packed_in, with_packed, IsWithin};

use crate::change::{Change, Turn};
use crate::drawing::{draw_all, less_room, more_room, undraw_all};
use crate::stores::Stores;
use batch_book::Book;
use deed_words::{BatchId, ItemId, Level, Mark, OrderRow, Phase, StationId, UnitId};
use gs1_keys::{Gtin, Sscc, Text20};
use item_store::Items;
use pack_tree::{Node, Taken, put_all, take_all, unput_all, untake_all};

/// Turns the rows, one after the other.
fn turn_items(items: &mut Items, turns: &[Turn])
    requires may { MayTurn items.old.rows turns.now }
    ensures rows { items.new.rows ≡ turned items.old.rows turns.now }
    ensures spare { items.new.spare ≡ items.old.spare }
{
    for turn in turns {
        items.set_row(ItemId(turn.item), turn.new_line(), turn.new_state);
    }
}

/// Turns the rows back, the last one first.
fn turn_items_back(items: &mut Items, turns: &[Turn])
    requires done { WereTurned items.old.rows turns.now }
    ensures rows { items.new.rows ≡ turned_back items.old.rows turns.now }
    ensures spare { items.new.spare ≡ items.old.spare }
{
    let mut left = turns;
    while let Some((turn, first)) = left.split_last() {
        items.set_row(ItemId(turn.item), turn.old_line(), turn.old_state);
        left = first;
    }
}

/// Adds the batches, one after the other.
fn order_all(book: &mut Book, orders: &[OrderRow])
    requires may { MayOrder book.old.batches orders.now }
    requires room { length orders.now ≤ book.old.batch_spare }
    ensures batches { book.new.batches ≡ ordered book.old.batches orders.now }
    ensures declarations { book.new.declarations ≡ book.old.declarations }
    ensures batch_spare { book.new.batch_spare + length orders.now ≡ book.old.batch_spare }
    ensures declaration_spare { book.new.declaration_spare ≡ book.old.declaration_spare }
{
    for order in orders {
        let _batch = book.add(*order);
    }
}

/// Takes the last batches back, the last one first.
fn unorder_all(book: &mut Book, orders: &[OrderRow])
    requires done { WereOrdered book.old.batches orders.now }
    requires unused { All (λ said. said.batch + length orders.now < length book.old.batches) book.old.declarations }
    ensures batches { book.new.batches ≡ unordered book.old.batches orders.now }
    ensures declarations { book.new.declarations ≡ book.old.declarations }
    ensures batch_spare { book.new.batch_spare ≡ book.old.batch_spare + length orders.now }
    ensures declaration_spare { book.new.declaration_spare ≡ book.old.declaration_spare }
{
    let mut left = orders;
    while let Some((_order, first)) = left.split_last() {
        book.remove_last();
        left = first;
    }
}

impl Stores {
    /// Makes the change. It takes no memory.
    pub fn apply(&mut self, change: &Change)
        requires may { MayApply self.old.content change.now }
        requires room { IsWithin (room_for change.now) self.old.room }
        ensures content { self.new.content ≡ applied self.old.content change.now }
        ensures room { self.old.room ≡ with_room self.new.room (room_for change.now) }
    {
        match change {
            Change::Nothing => {}
            Change::Turned(turns) => self.turn(turns.as_slice()),
            Change::Put(unit, nodes) => self.put(*unit, nodes.as_slice()),
            Change::Taken(gone) => self.take(gone.as_slice()),
            Change::Phased(batch, _, phase) => self.set_phase(*batch, *phase),
            Change::Amended(batch, _, quantity) => self.set_quantity(*batch, *quantity),
            Change::Marked(unit, _, mark) => self.set_mark(*unit, *mark),
            Change::Said(batch, line, numbers) => self.say(*batch, *line, *numbers),
            Change::Made(sscc, batch, level) => self.make(*sscc, *batch, *level),
            Change::Ordered(orders) => self.order(orders.as_slice()),
            Change::Drawn(batch, gtin, serials) => self.draw(*batch, gtin, serials.as_slice()),
        }
    }

    /// Takes the change back that was made last. It takes no memory, and its room is there again.
    pub fn take_back(&mut self, change: &Change)
        requires { WasApplied self.old.content change.now }
        ensures content { self.new.content ≡ taken_back self.old.content change.now }
        ensures room { self.new.room ≡ with_room self.old.room (room_for change.now) }
    {
        match change {
            Change::Nothing => {}
            Change::Turned(turns) => self.turn_back(turns.as_slice()),
            Change::Put(unit, nodes) => self.unput(*unit, nodes.as_slice()),
            Change::Taken(gone) => self.untake(gone.as_slice()),
            Change::Phased(batch, phase, _) => self.set_phase(*batch, *phase),
            Change::Amended(batch, quantity, _) => self.set_quantity(*batch, *quantity),
            Change::Marked(unit, mark, _) => self.set_mark(*unit, *mark),
            Change::Said(_, _, _) => self.unsay(),
            Change::Made(_, _, _) => self.unmake(),
            Change::Ordered(orders) => self.unorder(orders.as_slice()),
            Change::Drawn(batch, gtin, serials) => self.undraw(*batch, gtin, serials.as_slice()),
        }
    }

    /// Turns the rows, one after the other.
    fn turn(&mut self, turns: &[Turn])
        requires may { MayTurn self.old.content.rows turns.now }
        ensures content { self.new.content ≡ record self.old.content { rows = turned self.old.content.rows turns.now } }
        ensures room { self.new.room ≡ self.old.room }
    {
        turn_items(&mut self.items, turns);
    }

    /// Turns the rows back, the last one first.
    fn turn_back(&mut self, turns: &[Turn])
        requires done { WereTurned self.old.content.rows turns.now }
        ensures content { self.new.content ≡ record self.old.content { rows = turned_back self.old.content.rows turns.now } }
        ensures room { self.new.room ≡ self.old.room }
    {
        turn_items_back(&mut self.items, turns);
    }

    /// Puts things into a unit.
    fn put(&mut self, unit: UnitId, nodes: &[Node])
        requires may { MayPut (packed_in self.old.content) unit nodes.now }
        ensures content { self.new.content ≡ with_packed self.old.content (with_all_put (packed_in self.old.content) unit nodes.now) }
        ensures room { self.new.room ≡ self.old.room }
    {
        put_all(&mut self.tree, unit, nodes);
    }

    /// Takes out what was put last.
    fn unput(&mut self, unit: UnitId, nodes: &[Node])
        requires put { WerePut (packed_in self.old.content) unit nodes.now }
        ensures content { self.new.content ≡ with_packed self.old.content (but_all_put (packed_in self.old.content) nodes.now) }
        ensures room { self.new.room ≡ self.old.room }
    {
        unput_all(&mut self.tree, unit, nodes);
    }

    /// Takes things out of their units.
    fn take(&mut self, gone: &[Taken])
        requires may { MayTake (packed_in self.old.content) gone.now }
        ensures content { self.new.content ≡ with_packed self.old.content (without_all (packed_in self.old.content) gone.now) }
        ensures room { self.new.room ≡ self.old.room }
    {
        take_all(&mut self.tree, gone);
    }

    /// Puts back what was taken last.
    fn untake(&mut self, gone: &[Taken])
        requires taken { WereTaken (packed_in self.old.content) gone.now }
        ensures content { self.new.content ≡ with_packed self.old.content (with_all_back (packed_in self.old.content) gone.now) }
        ensures room { self.new.room ≡ self.old.room }
    {
        untake_all(&mut self.tree, gone);
    }

    /// A batch is in another phase from now on.
    fn set_phase(&mut self, batch: BatchId, phase: Phase)
        requires { batch < length self.old.content.batches }
        ensures content { self.new.content ≡ record self.old.content { batches = phased self.old.content.batches batch phase } }
        ensures room { self.new.room ≡ self.old.room }
    {
        self.book.set_phase(batch, phase);
    }

    /// A batch has another quantity from now on.
    fn set_quantity(&mut self, batch: BatchId, quantity: u32)
        requires range { batch < length self.old.content.batches }
        requires open { HoldsAt (λ kept. kept.phase ≡ Closed → ⊥) self.old.content.batches batch }
        ensures content { self.new.content ≡ record self.old.content { batches = amended self.old.content.batches batch quantity } }
        ensures room { self.new.room ≡ self.old.room }
    {
        self.book.amend(batch, quantity);
    }

    /// A unit has another mark from now on.
    fn set_mark(&mut self, unit: UnitId, mark: Mark)
        requires { unit < length self.old.content.units }
        ensures content { self.new.content ≡ record self.old.content { units = marked self.old.content.units unit mark } }
        ensures room { self.new.room ≡ self.old.room }
    {
        self.tree.set_mark(unit, mark);
    }

    /// Keeps what a line declares.
    fn say(&mut self, batch: BatchId, line: StationId, numbers: [u32; 3])
        requires range { batch < length self.old.content.batches }
        requires started { HoldsAt (λ kept. kept.phase ≡ Started) self.old.content.batches batch }
        requires room { 0 < self.old.room.declarations }
        ensures content { self.new.content ≡ record self.old.content { said = self.old.content.said ++ declared batch line numbers ∷ [] } }
        ensures room { self.old.room ≡ with_room self.new.room (record { batches = 0; declarations = 1; rows = 0; units = 0 }) }
    {
        self.book.declare(batch, line, numbers);
    }

    /// Takes the last declaration back.
    fn unsay(&mut self)
        requires { 0 < length self.old.content.said }
        ensures content { self.new.content ≡ record self.old.content { said = take (length self.old.content.said - 1) self.old.content.said } }
        ensures room { self.new.room ≡ with_room self.old.room (record { batches = 0; declarations = 1; rows = 0; units = 0 }) }
    {
        self.book.undeclare();
    }

    /// Makes a unit.
    fn make(&mut self, sscc: Sscc, batch: BatchId, level: Level)
        requires there { batch < length self.old.content.batches }
        requires new { position (is_coded sscc) self.old.content.units ≡ None }
        requires room { 0 < self.old.room.units }
        ensures content { self.new.content ≡ record self.old.content { units = self.old.content.units ++ new_unit sscc batch level ∷ [] } }
        ensures room { self.old.room ≡ with_room self.new.room (record { batches = 0; declarations = 0; rows = 0; units = 1 }) }
    {
        let _unit = self.tree.add_unit(sscc, batch, level);
    }

    /// Takes the last unit back, which is empty and stands in no other.
    fn unmake(&mut self)
        requires there { 0 < length self.old.content.units }
        requires alone { parent_in self.old.content.links (AUnit (length self.old.content.units - 1)) ≡ None }
        requires empty { inside (length self.old.content.units - 1) self.old.content.links ≡ [] }
        ensures content { self.new.content ≡ record self.old.content { units = take (length self.old.content.units - 1) self.old.content.units } }
        ensures room { self.new.room ≡ with_room self.old.room (record { batches = 0; declarations = 0; rows = 0; units = 1 }) }
    {
        self.tree.remove_last_unit();
    }

    /// Adds the batches, one after the other.
    fn order(&mut self, orders: &[OrderRow])
        requires may { MayOrder self.old.content.batches orders.now }
        requires room { length orders.now ≤ self.old.room.batches }
        ensures content { self.new.content ≡ record self.old.content { batches = ordered self.old.content.batches orders.now } }
        ensures room { self.old.room ≡ with_room self.new.room (record { batches = length orders.now; declarations = 0; rows = 0; units = 0 }) }
    {
        order_all(&mut self.book, orders);
    }

    /// Takes the last batches back, which nothing is of.
    fn unorder(&mut self, orders: &[OrderRow])
        requires done { WereOrdered self.old.content.batches orders.now }
        requires unused { AreUnused self.old.content (length orders.now) }
        ensures content { self.new.content ≡ record self.old.content { batches = unordered self.old.content.batches orders.now } }
        ensures room { self.new.room ≡ with_room self.old.room (record { batches = length orders.now; declarations = 0; rows = 0; units = 0 }) }
    {
        unorder_all(&mut self.book, orders);
    }

    /// Adds a row for each serial.
    fn draw(&mut self, batch: BatchId, gtin: &Gtin, serials: &[Text20])
        requires there { batch < length self.old.content.batches }
        requires may { MayDraw batch gtin.now self.old.content.rows serials.now }
        requires room { length serials.now ≤ self.old.room.rows }
        ensures content { self.new.content ≡ record self.old.content { rows = drawn batch gtin.now self.old.content.rows serials.now } }
        ensures room { self.old.room ≡ with_room self.new.room (record { batches = 0; declarations = 0; rows = length serials.now; units = 0 }) }
    {
        draw_all(&mut self.items, &mut self.tree, batch, gtin, serials);
        self.row_room = less_room(self.row_room, serials);
    }

    /// Takes the last rows back, one for each serial. Nothing of them is packed.
    fn undraw(&mut self, batch: BatchId, gtin: &Gtin, serials: &[Text20])
        requires done { WereDrawn batch gtin.now self.old.content.rows serials.now }
        requires unpacked { All (IsThereIn (length self.old.content.rows - length serials.now) (length self.old.content.units)) self.old.content.links }
        ensures content { self.new.content ≡ record self.old.content { rows = undrawn self.old.content.rows serials.now } }
        ensures room { self.new.room ≡ with_room self.old.room (record { batches = 0; declarations = 0; rows = length serials.now; units = 0 }) }
    {
        undraw_all(&mut self.items, &mut self.tree, batch, gtin, serials);
        self.row_room = more_room(self.row_room, serials);
    }
}
