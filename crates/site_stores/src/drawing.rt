//! Rows that come last, in the rows and in the tree, and go last.
ghost use Rattle.std.specs.Prelude.{◌≡◌, ◌+◌, ◌-◌, ◌≤◌, length, All};
ghost use Rattle.pack_tree.specs.Packing.{IsThereIn};
ghost use Rattle.site_stores.specs.Changes.{drawn, MayDraw, undrawn, WereDrawn};

use deed_words::BatchId;
use gs1_keys::{Gtin, Text20};
use item_store::Items;
use pack_tree::Tree;

/// The room that is left behind so many serials.
pub(crate) fn less_room(room: u32, serials: &[Text20]) -> u32
    requires { length serials.now ≤ room }
    ensures { result + length serials.now ≡ room }
{
    room - serials.len() as u32
}

/// The room with that of so many serials.
pub(crate) fn more_room(room: u32, serials: &[Text20]) -> u32
    requires { room + length serials.now ≤ 1000000 }
    ensures { result ≡ room + length serials.now }
{
    room + serials.len() as u32
}

/// Adds a row for each serial.
pub(crate) fn draw_all(
    items: &mut Items,
    tree: &mut Tree,
    batch: BatchId,
    gtin: &Gtin,
    serials: &[Text20],
)
    requires may { MayDraw batch gtin.now items.old.rows serials.now }
    requires spare { length serials.now ≤ items.old.spare }
    requires counted { tree.old.items ≡ length items.old.rows }
    requires room { tree.old.items + length serials.now ≤ tree.old.item_room }
    ensures rows { items.new.rows ≡ drawn batch gtin.now items.old.rows serials.now }
    ensures spare { items.new.spare + length serials.now ≡ items.old.spare }
    ensures pairs { tree.new.pairs ≡ tree.old.pairs }
    ensures last { tree.new.last ≡ tree.old.last }
    ensures items { tree.new.items ≡ tree.old.items + length serials.now }
    ensures units { tree.new.units ≡ tree.old.units }
    ensures rooms { (tree.new.item_room ≡ tree.old.item_room) × (tree.new.unit_room ≡ tree.old.unit_room) }
{
    for serial in serials {
        let _item = items.add(*gtin, *serial, batch);
        tree.add_item();
    }
}

/// Takes the last rows back, one for each serial. Nothing of them is packed.
pub(crate) fn undraw_all(
    items: &mut Items,
    tree: &mut Tree,
    batch: BatchId,
    gtin: &Gtin,
    serials: &[Text20],
)
    requires done { WereDrawn batch gtin.now items.old.rows serials.now }
    requires counted { tree.old.items ≡ length items.old.rows }
    requires unpacked { All (IsThereIn (tree.old.items - length serials.now) (length tree.old.units)) tree.old.pairs }
    ensures rows { items.new.rows ≡ undrawn items.old.rows serials.now }
    ensures spare { items.new.spare ≡ items.old.spare + length serials.now }
    ensures pairs { tree.new.pairs ≡ tree.old.pairs }
    ensures last { tree.new.last ≡ tree.old.last }
    ensures items { tree.new.items + length serials.now ≡ tree.old.items }
    ensures units { tree.new.units ≡ tree.old.units }
    ensures rooms { (tree.new.item_room ≡ tree.old.item_room) × (tree.new.unit_room ≡ tree.old.unit_room) }
{
    let _batch = batch;
    let _gtin = gtin;
    let mut left = serials;
    while let Some((_serial, first)) = left.split_last() {
        tree.remove_last_item();
        items.remove_last();
        left = first;
    }
}
