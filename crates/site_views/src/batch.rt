//! A batch.
ghost use Rattle.std.specs.Prelude.{◌≡◌, ◌<◌, length, IfOk, Some};
ghost use Rattle.std.specs.List.{slice_get};
ghost use Rattle.deed_words.specs.declared.world.Batch.{Batch as TheBatch};
ghost use Rattle.batch_book.specs.Content.{world_of};
ghost use Rattle.batch_report.specs.Views.{view_in};

use crate::lines::lines_of;
use crate::units::used_units;
use batch_book::Book;
use batch_report::BatchView;
use deed_words::{BatchId, Level, Setup};
use gs1_keys::Memory;
use item_store::Items;
use pack_tree::Tree;
use std::alloc::Global;

/// What is seen of a batch, which has so many events. The rows and the tree are of one site with the book.
///
/// # Errors
///
/// `Memory` where no memory was found.
pub fn batch_view(
    alloc: Global,
    setup: &Setup,
    book: &Book,
    items: &Items,
    tree: &Tree,
    batch: BatchId,
    events: u32,
) -> Result<BatchView, Memory>
    requires { batch < length book.now.batches }
    ensures { IfOk result (λ view. (kept : TheBatch) → slice_get book.now.batches batch ≡ Some kept → view ≡ view_in setup.now (world_of book.now items.now tree.now) events kept) }
{
    setup.tell_proper();
    book.tell_named();
    let lines = lines_of(alloc, setup.stations.as_slice(), items, batch)?;
    let kept = book.batch(batch);
    Ok(BatchView {
        row: kept.order,
        quantity: kept.quantity,
        phase: kept.phase,
        counts: items.counts(batch),
        cases: used_units(tree, batch, Level::Case),
        pallets: used_units(tree, batch, Level::Pallet),
        events,
        lines,
    })
}
