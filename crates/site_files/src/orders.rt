//! Order files.
ghost use Rattle.std.specs.Prelude.{◌≡◌, ◌≤◌, ◌+◌, ℕ, List, [], IfOk, length, true};
ghost use Rattle.std.specs.List.{list_all};
ghost use Rattle.csv.specs.Records.{fields_of};
ghost use Rattle.deed_words.specs.Proper.{is_order};
ghost use Rattle.site_files.specs.Due.{IsDue, IsExactly};
ghost use Rattle.site_files.specs.Orders.{field, row_of, row_in, rows_after, is_header as header_test, orders_of, csv_of};
ghost use Rattle.site_files.specs.Left.{HasLeft, TakesNext};

use crate::expiry::read_expiry;
use crate::fault::{FileFault, Word};
use crate::number::read_size;
use csv::{ByteRecord, Reader, ReaderBuilder};
use deed_words::{OrderRow, Rows};
use gs1_keys::{Gtin, Memory, Text20};
use std::alloc::Global;

/// The field at a place, empty where there is none.
fn field_at(row: &ByteRecord, place: usize) -> &[u8]
    ensures { result.now ≡ field (fields_of row.now) place }
{
    match row.get(place) {
        Some(field) => field,
        None => &[],
    }
}

/// The row of a record of seven fields.
#[tactic(auto, using(crate::proofs::Proper::text_is_some, crate::proofs::Proper::order_is_proper), unfolding(crate::specs::Orders::row_in))]
fn read_fields(line: u64, row: &ByteRecord) -> Result<OrderRow, FileFault>
    ensures is { IsExactly (λ r. r) result (row_in line (fields_of row.now)) }
    ensures proper { IfOk result (λ order. is_order order ≡ true) }
{
    let Ok(batch) = Text20::read(field_at(row, 0)) else {
        return Err(FileFault::Row(line, 1));
    };
    let Ok(gtin) = Gtin::read(field_at(row, 1)) else {
        return Err(FileFault::Row(line, 2));
    };
    let Ok(lot) = Text20::read(field_at(row, 2)) else {
        return Err(FileFault::Row(line, 3));
    };
    let Some(expiry) = read_expiry(field_at(row, 3)) else {
        return Err(FileFault::Row(line, 4));
    };
    let Some(quantity) = read_size(field_at(row, 4), 1, 1_000_000) else {
        return Err(FileFault::Row(line, 5));
    };
    let Some(case_size) = read_size(field_at(row, 5), 1, 1_000) else {
        return Err(FileFault::Row(line, 6));
    };
    let Some(pallet_size) = read_size(field_at(row, 6), 0, 1_000) else {
        return Err(FileFault::Row(line, 7));
    };
    Ok(OrderRow {
        batch,
        gtin,
        lot,
        expiry,
        quantity,
        case_size: case_size as u16,
        pallet_size: pallet_size as u16,
    })
}

/// The row of a record.
#[tactic(auto, unfolding(crate::specs::Orders::row_of))]
fn read_row(line: u64, row: &ByteRecord) -> Result<OrderRow, FileFault>
    ensures is { IsExactly (λ r. r) result (row_of line (fields_of row.now)) }
    ensures proper { IfOk result (λ order. is_order order ≡ true) }
{
    if row.len() != 7 {
        return Err(FileFault::Row(line, 0));
    }
    read_fields(line, row)
}

/// Whether a record is the header.
fn is_header(row: &ByteRecord) -> bool
    ensures { result ≡ header_test (fields_of row.now) }
{
    row.len() == 7
        && field_at(row, 0) == b"batch".as_slice()
        && field_at(row, 1) == b"gtin".as_slice()
        && field_at(row, 2) == b"lot".as_slice()
        && field_at(row, 3) == b"expiry".as_slice()
        && field_at(row, 4) == b"quantity".as_slice()
        && field_at(row, 5) == b"case".as_slice()
        && field_at(row, 6) == b"pallet".as_slice()
}

/// The next record. A reader over a slice fails for memory alone, or says so where it fails otherwise.
fn read_next(reader: &mut Reader<&[u8]>, row: &mut ByteRecord) -> Result<bool, Memory>
    ensures { IfOk result (λ found. (recs : List (List (List ℕ))) → HasLeft reader.old recs
        → TakesNext found (fields_of row.new) recs (HasLeft reader.new)) }
{
    let Ok(found) = reader.read_byte_record(row) else {
        return Err(Memory);
    };
    Ok(found)
}

/// A reader of the records of some bytes.
fn open(alloc: Global, bytes: &[u8]) -> Reader<&[u8]>
    ensures { HasLeft result (csv_of bytes.now) }
{
    ReaderBuilder::new()
        .has_headers(false)
        .flexible(true)
        .from_reader(alloc, bytes)
}

/// The rows of the records that a reader has left.
fn read_rows(
    alloc: Global,
    mut reader: Reader<&[u8]>,
    mut row: ByteRecord,
) -> Result<Rows, FileFault>
    ensures is { (recs : List (List (List ℕ))) → HasLeft reader.entry recs
        → IsDue (λ rows. rows) FileFault.Memory result (rows_after [] recs) }
    ensures few { IfOk result (λ rows. length rows ≤ 1000) }
    ensures proper { IfOk result (λ rows. list_all is_order rows ≡ true) }
{
    let mut rows = Rows::new(alloc);
    'rows: loop {
        match read_next(&mut reader, &mut row) {
            Ok(true) => {}
            Ok(false) => return Ok(rows),
            Err(Memory) => return Err(FileFault::Memory),
        }
        if rows.len() == 1000 {
            return Err(FileFault::TooMany(Word::Rows));
        }
        let order = match read_row(rows.len() as u64 + 2, &row) {
            Ok(order) => order,
            Err(fault) => return Err(fault),
        };
        if rows.push(order).is_err() {
            return Err(FileFault::Memory);
        }
    }
}

/// The rows of an order file, or its first fault: `Row(1, 0)` where the first record isn't exactly
/// `batch,gtin,lot,expiry,quantity,case,pallet`; then for each later record, a row, `TooMany` at the
/// row 1,001, `Row(line, 0)` where it hasn't seven fields, and `Row(line, column)` for the first wrong one.
/// Records are those that `csv` reads with its default quotes and no trimming (RFC 4180).
pub fn read_orders(alloc: Global, bytes: &[u8]) -> Result<Rows, FileFault>
    ensures is { IsDue (λ rows. rows) FileFault.Memory result (orders_of bytes.now) }
    ensures few { IfOk result (λ rows. length rows ≤ 1000) }
    ensures proper { IfOk result (λ rows. list_all is_order rows ≡ true) }
{
    let mut reader = open(alloc, bytes);
    let mut row = ByteRecord::new(alloc);
    let Ok(found) = read_next(&mut reader, &mut row) else {
        return Err(FileFault::Memory);
    };
    if !found {
        return Err(FileFault::Row(1, 0));
    }
    if !is_header(&row) {
        return Err(FileFault::Row(1, 0));
    }
    read_rows(alloc, reader, row)
}
