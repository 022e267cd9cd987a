//! Whether a batch is accounted for: each finding against its own word over the world that the stores hold.
ghost use Rattle.std.specs.Prelude.{◌≡◌, ◌<◌, length, nat_lt};
ghost use Rattle.std.specs.Result.{result_err};
ghost use Rattle.deed_words.specs.Setups.{Setup};
ghost use Rattle.deed_words.specs.Accounts.{still_lent, still_rejected, unpacked, unit_open, unit_loose, not_declared, declared_differs, finding};
ghost use Rattle.item_store.specs.Rows.{Store};
ghost use Rattle.pack_tree.specs.Trees.{Forest};
ghost use Rattle.batch_book.specs.Content.{world_of, name_at};

use crate::book::Book;
use crate::lines::{first_differing, first_silent};
use crate::packed::{Fault, first_unit, first_unpacked};
use deed_words::{BatchId, Finding, ItemId, OrderRow, State, UnitId};
use item_store::Items;
use pack_tree::Tree;

/// No serial of the batch is lent.
fn none_lent(book: &Book, items: &Items, batch: BatchId) -> Result<(), Finding>
    requires { batch < length book.now.batches }
    ensures { (tree : Forest) → result_err result ≡ still_lent (world_of book.now items.now tree) (name_at book.now.batches batch) }
{
    book.tell_named();
    match items.witness(batch, State::Lent) {
        Some(item) => Err(Finding::StillLent(items.row(item).serial)),
        None => Ok(()),
    }
}

/// No serial of the batch is rejected.
fn none_rejected(book: &Book, items: &Items, batch: BatchId) -> Result<(), Finding>
    requires { batch < length book.now.batches }
    ensures { (tree : Forest) → result_err result ≡ still_rejected (world_of book.now items.now tree) (name_at book.now.batches batch) }
{
    book.tell_named();
    match items.witness(batch, State::Rejected) {
        Some(item) => Err(Finding::StillRejected(items.row(item).serial)),
        None => Ok(()),
    }
}

/// Each Active serial of the batch stands in a unit.
fn all_packed(book: &Book, items: &Items, tree: &Tree, batch: BatchId) -> Result<(), Finding>
    requires range { batch < length book.now.batches }
    requires items { tree.now.items ≡ length items.now.rows }
    ensures { result_err result ≡ unpacked (world_of book.now items.now tree.now) (name_at book.now.batches batch) }
{
    book.tell_named();
    items.tell_apart();
    tree.tell_apart();
    tree.tell_there();
    match first_unpacked(items, tree, batch) {
        Some(at) => Err(Finding::Unpacked(items.row(ItemId(at)).serial)),
        None => Ok(()),
    }
}

/// No unit of the batch is open.
fn none_open(book: &Book, tree: &Tree, batch: BatchId) -> Result<(), Finding>
    requires { batch < length book.now.batches }
    ensures { (items : Store) → result_err result ≡ unit_open (world_of book.now items tree.now) (name_at book.now.batches batch) }
{
    book.tell_named();
    match first_unit(tree, batch, Fault::Open) {
        Some(at) => Err(Finding::UnitOpen(tree.unit(UnitId(at)).sscc)),
        None => Ok(()),
    }
}

/// Whether the order has pallets.
fn has_pallets(order: &OrderRow) -> bool
    ensures { result ≡ nat_lt 0 order.now.pallet_size }
{
    order.pallet_size > 0
}

/// Each Sealed case of the batch stands on a pallet, where the order has pallets.
fn none_loose(book: &Book, items: &Items, tree: &Tree, batch: BatchId) -> Result<(), Finding>
    requires range { batch < length book.now.batches }
    requires items { tree.now.items ≡ length items.now.rows }
    ensures { result_err result ≡ unit_loose (world_of book.now items.now tree.now) (name_at book.now.batches batch) }
{
    book.tell_named();
    items.tell_apart();
    tree.tell_apart();
    tree.tell_there();
    let kept = book.batch(batch);
    if !has_pallets(&kept.order) {
        return Ok(());
    }
    match first_unit(tree, batch, Fault::Loose) {
        Some(at) => Err(Finding::UnitLoose(tree.unit(UnitId(at)).sscc)),
        None => Ok(()),
    }
}

/// Each line that was lent serials of the batch has declared.
fn all_declared(book: &Book, items: &Items, batch: BatchId, stations: u8) -> Result<(), Finding>
    requires { batch < length book.now.batches }
    ensures { (tree : Forest) (site : Setup) → length site.stations ≡ stations → result_err result ≡ not_declared site (world_of book.now items.now tree) (name_at book.now.batches batch) }
{
    book.tell_named();
    match first_silent(book, items, batch, stations) {
        Some(found) => Err(found),
        None => Ok(()),
    }
}

/// Each line that was lent serials of the batch has declared what is counted.
fn all_as_declared(book: &Book, items: &Items, batch: BatchId, stations: u8) -> Result<(), Finding>
    requires { batch < length book.now.batches }
    ensures { (tree : Forest) (site : Setup) → length site.stations ≡ stations → result_err result ≡ declared_differs site (world_of book.now items.now tree) (name_at book.now.batches batch) }
{
    book.tell_named();
    match first_differing(book, items, batch, stations) {
        Some(found) => Err(found),
        None => Ok(()),
    }
}

/// Whether the batch is accounted for, and else the first finding.
pub(crate) fn accounted(
    book: &Book,
    items: &Items,
    tree: &Tree,
    batch: BatchId,
    stations: u8,
) -> Result<(), Finding>
    requires range { batch < length book.now.batches }
    requires items { tree.now.items ≡ length items.now.rows }
    ensures { (site : Setup) → length site.stations ≡ stations → result_err result ≡ finding site (world_of book.now items.now tree.now) (name_at book.now.batches batch) }
{
    none_lent(book, items, batch)?;
    none_rejected(book, items, batch)?;
    all_packed(book, items, tree, batch)?;
    none_open(book, tree, batch)?;
    none_loose(book, items, tree, batch)?;
    all_declared(book, items, batch, stations)?;
    all_as_declared(book, items, batch, stations)
}
