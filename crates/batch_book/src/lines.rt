//! What the lines owe of a batch.
ghost use Rattle.std.specs.Prelude.{◌≡◌, ◌&&◌, is_none};
ghost use Rattle.std.specs.List.{list_any};
ghost use Rattle.deed_words.specs.Names.{same};
ghost use Rattle.item_store.specs.Rows.{is_lent_to};
ghost use Rattle.batch_book.specs.Said.{declared_last};
ghost use Rattle.batch_book.specs.Closing.{IsFirstFor, silent as silent_line, differing as differing_line};

use crate::book::Book;
use deed_words::{BatchId, Finding, StationId};
use item_store::Items;

/// Whether the line was lent serials of the batch, and declared nothing.
fn is_silent(book: &Book, items: &Items, batch: BatchId, line: StationId) -> bool
    ensures { result ≡ (list_any (is_lent_to batch line) items.now.rows && is_none (declared_last batch line book.now.declarations)) }
{
    items.was_lent(batch, line) && book.declared(batch, line).is_none()
}

/// The finding on a line that was lent serials of the batch, and declared nothing.
#[tactic(auto, unfolding(deed_words::specs::Chain::when))]
fn silent(book: &Book, items: &Items, batch: BatchId, line: StationId) -> Option<Finding>
    ensures { result ≡ silent_line batch items.now.rows book.now.declarations line }
{
    if is_silent(book, items, batch, line) {
        Some(Finding::NotDeclared(line))
    } else {
        None
    }
}

/// Whether the numbers are the same.
#[tactic(auto, unfolding(deed_words::specs::Names::same))]
fn same_numbers(one: &[u32; 3], other: &[u32; 3]) -> bool
    ensures { result ≡ same one.now other.now }
{
    one == other
}

/// The finding on a line that was lent serials of the batch, and declared other numbers last than are counted.
fn differing(book: &Book, items: &Items, batch: BatchId, line: StationId) -> Option<Finding>
    ensures { result ≡ differing_line batch items.now.rows book.now.declarations line }
{
    if !items.was_lent(batch, line) {
        return None;
    }
    let Some(declared) = book.declared(batch, line) else {
        return None;
    };
    let counted = items.line_counts(batch, line);
    if same_numbers(&declared, &counted) {
        None
    } else {
        Some(Finding::DeclaredDiffers(line, counted, declared))
    }
}

/// The finding on the first line that was lent serials of the batch, and declared nothing.
pub(crate) fn first_silent(
    book: &Book,
    items: &Items,
    batch: BatchId,
    stations: u8,
) -> Option<Finding>
    ensures { IsFirstFor (silent_line batch items.now.rows book.now.declarations) stations result }
{
    for line in 0..stations {
        let found = silent(book, items, batch, StationId(line));
        if found.is_some() {
            return found;
        }
    }
    None
}

/// The finding on the first line that was lent serials of the batch, and declared other numbers last than are counted.
pub(crate) fn first_differing(
    book: &Book,
    items: &Items,
    batch: BatchId,
    stations: u8,
) -> Option<Finding>
    ensures { IsFirstFor (differing_line batch items.now.rows book.now.declarations) stations result }
{
    for line in 0..stations {
        let found = differing(book, items, batch, StationId(line));
        if found.is_some() {
            return found;
        }
    }
    None
}
