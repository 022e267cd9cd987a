//! Rows and units with the names of their batches.
ghost use Rattle.std.specs.Prelude.{◌≡◌, ◌<◌, length, map, slice_index_or, []};
ghost use Rattle.batch_book.specs.Batches.{name_in};
ghost use Rattle.batch_book.specs.Content.{row_in, unit_in};

use batch_book::Book;
use deed_words::{BatchId, Container, Row};
use gs1_keys::Text20;
use item_store::ItemRow;
use pack_tree::UnitRow;

/// The name of a batch.
fn batch_name(book: &Book, batch: BatchId) -> Text20
    requires { batch < length book.now.batches }
    ensures { result ≡ slice_index_or (map name_in book.now.batches) batch [] }
{
    book.batch(batch).order.batch
}

/// A row with its batch's name.
pub(crate) fn told_row(book: &Book, row: &ItemRow) -> Row
    requires { row.now.batch < length book.now.batches }
    ensures { result ≡ row_in (map name_in book.now.batches) row.now }
{
    Row {
        gtin: row.gtin,
        serial: row.serial,
        batch: batch_name(book, row.batch),
        line: row.line,
        state: row.state,
    }
}

/// A unit with its batch's name.
pub(crate) fn told_unit(book: &Book, unit: &UnitRow) -> Container
    requires { unit.now.batch < length book.now.batches }
    ensures { result ≡ unit_in (map name_in book.now.batches) unit.now }
{
    Container {
        sscc: unit.sscc,
        batch: batch_name(book, unit.batch),
        level: unit.level,
        mark: unit.mark,
    }
}
