//! What is done and taken back leaves the store as it was, its room included.
ghost use Rattle.std.specs.Prelude.{◌≡◌, ◌<◌, false, length, All};
ghost use Rattle.item_store.specs.Rows.{is_named, IsLined};

use crate::items::Items;
use deed_words::{BatchId, ItemId, State, StationId};
use gs1_keys::{Gtin, Text20};

/// A row that is added and taken back.
pub fn add_is_taken_back(items: &mut Items, gtin: Gtin, serial: Text20, batch: BatchId)
    requires spare { 0 < items.old.spare }
    requires new { All (λ row. is_named gtin serial row ≡ false) items.old.rows }
    ensures { items.new ≡ items.old }
{
    items.add(gtin, serial, batch);
    items.remove_last();
}

/// A row that is given another line and state, and then its own again: as after a lending, or a move.
pub fn move_is_taken_back(items: &mut Items, item: ItemId, line: Option<StationId>, state: State)
    requires range { item < length items.old.rows }
    requires lined { IsLined line state }
    ensures { items.new ≡ items.old }
{
    let was = items.row(item);
    items.set_row(item, line, state);
    items.set_row(item, was.line, was.state);
}
