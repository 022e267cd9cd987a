//! The rows.
ghost use Rattle.std.specs.Prelude.{◌≡◌, ◌+◌, ◌-◌, ◌<◌, ◌≤◌, ◌∷◌, ◌++◌, [], false, None, IfOk, length, take, slice_index, All, IfNone, OnOk, Some, slice_get, vec_capacity};
ghost use Rattle.std.specs.List.{HoldsAt, position, list_any};
ghost use Rattle.deed_words.specs.declared.words.State.TheVariants.{Fresh, Lent};
ghost use Rattle.row_chains.specs.Chains.{IsFollowed};
ghost use Rattle.item_store.specs.Rows.{is_named, IsLined, AreApart, fresh_row, changed, restated, count_in as the_count_in, counts_of, fresh_places, batches, is_in, line_counts_of, is_lent_to};

use crate::cursors::{back_to, fresh_from, ready_cursors, settle, start};
use crate::lines::{LINE_CELLS, line_cell, line_counts, was_lent};
use crate::naming::{find_item, hash_of};
use crate::row::{Counts, ItemRow};
use crate::tally::{STATE_CELLS, count_in, lower, raise, ready_cells, state_cell};
use crate::walk::first_in;
use deed_words::{BatchId, Ids, ItemId, State, StationId};
use gs1_keys::{Gtin, Memory, Text20};
use place_table::PlaceTable;
use row_chains::RowChains;
use std::alloc::Global;
use std::marker::Model;

/// The serial rows, in drawn order.
#[derive(Drop)]
pub struct Items {
    rows: Vec<ItemRow>,
    /// The rows by the hashes of their names.
    table: PlaceTable,
    /// The rows of each batch, in their order.
    chains: RowChains,
    /// How many rows each batch has in each state.
    by_state: Vec<u32>,
    /// How many rows each batch and line have, by what they are for the line.
    by_line: Vec<u32>,
    /// The place before which no Fresh row of a batch stands.
    cursors: Vec<u32>,
    /// How many more rows can be added without memory.
    spare: u32,
}

impl Model for Items {
    ghost use Rattle.item_store.specs.Rows.{Store};

    ghost Value = { Store };

    ghost use Rattle.std.specs.Prelude.{vec_capacity};
    ghost use Rattle.item_store.specs.Store.{IsStore};

    ghost view = { λ s. record { rows = s.rows.items; spare = s.spare } };

    ghost invariant = { λ s. IsStore s.rows.items s.table s.chains (vec_capacity s.rows) s.spare s.by_state.items s.by_line.items s.cursors.items };
}

impl Items {
    /// No rows, and no room.
    pub fn new(alloc: Global) -> Items
        ensures rows { result.rows ≡ [] }
        ensures spare { result.spare ≡ 0 }
    {
        Items {
            rows: Vec::new(alloc),
            table: PlaceTable::new(alloc),
            chains: RowChains::new(alloc),
            by_state: Vec::new(alloc),
            by_line: Vec::new(alloc),
            cursors: Vec::new(alloc),
            spare: 0,
        }
    }

    /// How many rows there are.
    pub fn len(&self) -> u32
        ensures { result ≡ length self.now.rows }
    {
        self.rows.len() as u32
    }

    /// Makes room for so many more rows. Beside `first_fresh` no other call takes memory.
    ///
    /// # Errors
    ///
    /// `Memory` where no memory was found. The rows, and the room that there was, stay.
    pub fn ready(&mut self, more: u32) -> Result<(), Memory>
        requires { length self.old.rows + more ≤ 1000000 }
        ensures rows { self.new.rows ≡ self.old.rows }
        ensures ok { OnOk result (more ≤ self.new.spare) }
        ensures spare { self.old.spare ≤ self.new.spare }
    {
        ready_cells(&mut self.by_state, self.rows.as_slice(), STATE_CELLS)?;
        ready_cells(&mut self.by_line, self.rows.as_slice(), LINE_CELLS)?;
        ready_cursors(&mut self.cursors, self.rows.as_slice())?;
        self.table.ready(more as usize)?;
        self.chains.ready(more as usize)?;
        self.rows.reserve(more as usize)?;
        self.spare = self.spare.max(more);
        Ok(())
    }

    /// The row of the name.
    pub fn find(&self, gtin: &Gtin, serial: &Text20) -> Option<ItemId>
        ensures is { result ≡ position (is_named gtin.now serial.now) self.now.rows }
        ensures absent { IfNone result (All (λ row. is_named gtin.now serial.now row ≡ false) self.now.rows) }
        ensures apart { AreApart self.now.rows }
    {
        find_item(&self.table, self.rows.as_slice(), gtin, serial)
    }

    /// Tells that no two rows have one name.
    pub fn tell_apart(&self)
        ensures { AreApart self.now.rows }
    {
        let _count = self.rows.len();
    }

    /// A row.
    pub fn row(&self, item: ItemId) -> ItemRow
        requires { item < length self.now.rows }
        ensures is { slice_get self.now.rows item ≡ Some result }
        ensures at { HoldsAt (λ row. row ≡ result) self.now.rows item }
        ensures lined { IsLined result.line result.state }
    {
        self.rows[item.0 as usize]
    }

    /// Puts a Fresh row last.
    pub fn add(&mut self, gtin: Gtin, serial: Text20, batch: BatchId) -> ItemId
        requires spare { 0 < self.old.spare }
        requires new { All (λ row. is_named gtin serial row ≡ false) self.old.rows }
        ensures item { result ≡ length self.old.rows }
        ensures rows { self.new.rows ≡ self.old.rows ++ fresh_row gtin serial batch ∷ [] }
        ensures spare { self.new.spare + 1 ≡ self.old.spare }
    {
        let item = self.rows.len();
        let row = ItemRow {
            gtin,
            serial,
            batch,
            line: None,
            state: State::Fresh,
        };
        raise(&mut self.by_state, state_cell(&row));
        raise(&mut self.by_line, line_cell(&row));
        back_to(&mut self.cursors, batch, item as u32);
        self.table.insert(hash_of(&gtin, &serial));
        self.chains.push(batch.0);
        self.rows.push_reserved(row);
        self.spare -= 1;
        ItemId(item as u32)
    }

    /// Takes the last row back, and its room is there again.
    pub fn remove_last(&mut self)
        requires { 0 < length self.old.rows }
        ensures rows { self.new.rows ≡ take (length self.old.rows - 1) self.old.rows }
        ensures spare { self.new.spare ≡ self.old.spare + 1 }
    {
        let row = self.rows.take_last();
        lower(&mut self.by_state, state_cell(&row));
        lower(&mut self.by_line, line_cell(&row));
        self.table.remove_last();
        self.chains.remove_last();
        self.spare += 1;
    }

    /// Gives a row another line and state.
    pub fn set_row(&mut self, item: ItemId, line: Option<StationId>, state: State)
        requires range { item < length self.old.rows }
        requires lined { IsLined line state }
        ensures rows { self.new.rows ≡ changed self.old.rows item line state }
        ensures spare { self.new.spare ≡ self.old.spare }
    {
        let at = item.0 as usize;
        let old = self.rows[at];
        let batch = old.batch;
        lower(&mut self.by_state, state_cell(&old));
        lower(&mut self.by_line, line_cell(&old));
        let new = ItemRow { line, state, ..old };
        raise(&mut self.by_state, state_cell(&new));
        raise(&mut self.by_line, line_cell(&new));
        self.rows[at] = new;
        settle(
            &mut self.cursors,
            &self.chains,
            self.rows.as_slice(),
            at,
            batch,
        );
    }

    /// Lends a Fresh row to a line, which it keeps.
    pub fn lend(&mut self, item: ItemId, line: StationId)
        requires range { item < length self.old.rows }
        requires fresh { HoldsAt (λ row. row.state ≡ Fresh) self.old.rows item }
        ensures rows { self.new.rows ≡ changed self.old.rows item (Some line) Lent }
        ensures spare { self.new.spare ≡ self.old.spare }
    {
        self.set_row(item, Some(line), State::Lent);
    }

    /// Moves a row that isn't Fresh to another state.
    pub fn set_state(&mut self, item: ItemId, to: State)
        requires range { item < length self.old.rows }
        requires lent { HoldsAt (λ row. row.state ≡ Fresh → ⊥) self.old.rows item }
        requires to { to ≡ Fresh → ⊥ }
        ensures rows { self.new.rows ≡ restated self.old.rows item to }
        ensures spare { self.new.spare ≡ self.old.spare }
    {
        let row = self.row(item);
        self.set_row(item, row.line, to);
    }

    /// The batch's first Fresh rows, or all where there are fewer.
    ///
    /// # Errors
    ///
    /// `Memory` where no memory was found.
    pub fn first_fresh(&self, alloc: Global, batch: BatchId, count: u32) -> Result<Ids, Memory>
        ensures { IfOk result (λ ids. ids ≡ take count (fresh_places batch self.now.rows)) }
    {
        let rows = self.rows.as_slice();
        let from = start(self.cursors.as_slice(), &self.chains, rows, batch);
        fresh_from(alloc, &self.chains, rows, batch, from, count)
    }

    /// How many rows of a batch are in a state.
    pub fn count(&self, batch: BatchId, state: State) -> u32
        ensures { result ≡ the_count_in batch state self.now.rows }
    {
        count_in(self.by_state.as_slice(), self.rows.as_slice(), batch, state)
    }

    /// How many rows of a batch there are.
    pub fn counts(&self, batch: BatchId) -> Counts
        ensures { result ≡ counts_of batch self.now.rows }
    {
        let cells = self.by_state.as_slice();
        let rows = self.rows.as_slice();
        let fresh = count_in(cells, rows, batch, State::Fresh);
        let lent = count_in(cells, rows, batch, State::Lent);
        let returned = count_in(cells, rows, batch, State::Returned);
        let spoiled = count_in(cells, rows, batch, State::Spoiled);
        let active = count_in(cells, rows, batch, State::Active);
        let sampled = count_in(cells, rows, batch, State::Sampled);
        let rejected = count_in(cells, rows, batch, State::Rejected);
        let gone = count_in(cells, rows, batch, State::Gone);
        Counts {
            drawn: fresh + lent + returned + spoiled + active + sampled + rejected + gone,
            unused: fresh + returned,
            lent,
            commissioned: active,
            sampled,
            rejected: rejected + spoiled,
            destroyed: gone,
        }
    }

    /// How many rows of the batch are good, spoiled and returned for the line.
    pub fn line_counts(&self, batch: BatchId, line: StationId) -> [u32; 3]
        ensures { result ≡ line_counts_of batch line self.now.rows }
    {
        line_counts(self.by_line.as_slice(), self.rows.as_slice(), batch, line)
    }

    /// Whether a row of the batch was lent to the line.
    pub fn was_lent(&self, batch: BatchId, line: StationId) -> bool
        ensures { result ≡ list_any (is_lent_to batch line) self.now.rows }
    {
        was_lent(self.by_line.as_slice(), self.rows.as_slice(), batch, line)
    }

    /// The batch's first row.
    pub fn first_of(&self, batch: BatchId) -> Option<ItemId>
        ensures { IsFollowed (batches self.now.rows) 0 batch result }
    {
        match self.chains.first(batch.0) {
            Some(first) => Some(ItemId(first as u32)),
            None => None,
        }
    }

    /// The next row of the same batch.
    pub fn next_of(&self, item: ItemId) -> Option<ItemId>
        requires { item < length self.now.rows }
        ensures { IsFollowed (batches self.now.rows) (item + 1) (slice_index (batches self.now.rows) item) result }
    {
        match self.chains.next(item.0 as usize) {
            Some(next) => Some(ItemId(next as u32)),
            None => None,
        }
    }

    /// The batch's first row in a state.
    pub fn witness(&self, batch: BatchId, state: State) -> Option<ItemId>
        ensures { result ≡ position (is_in batch state) self.now.rows }
    {
        if count_in(self.by_state.as_slice(), self.rows.as_slice(), batch, state) == 0 {
            return None;
        }
        match first_in(&self.chains, self.rows.as_slice(), batch, state) {
            Some(at) => Some(ItemId(at as u32)),
            None => None,
        }
    }
}
