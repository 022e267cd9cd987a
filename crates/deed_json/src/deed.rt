//! Deeds.
ghost use Rattle.std.specs.Prelude.{◌≡◌, ◌≤◌, length, IfOk, true};
ghost use Rattle.std.specs.List.{list_all};
ghost use Rattle.serde_json.specs.View.{view};
ghost use Rattle.deed_words.specs.Proper.{is_order, IsProperDeed, IsProperSaid};
ghost use Rattle.site_files.specs.Due.{IsDue, IsExactly};
ghost use Rattle.deed_json.specs.Deeds.{order_at, rows_at, deed_of_batch, deed_of_unit, deed_of_word, said_by_word, said_of};

use crate::deed_fault::{DeedFault, Member};
use crate::deed_word::{BatchWord, DeedWord, UnitWord};
use crate::list::{read_codes, read_epcs, read_serials};
use crate::member::{
    read_date, read_gtin, read_level, read_name, read_number, read_operator, read_text, read_unit,
};
use deed_words::{Deed, OrderRow, Rows, Said};
use gs1_keys::{Sscc, Text20};
use serde_json::Value;
use site_files::{FileFault, read_orders};
use std::alloc::Global;

/// The order of a batch.
#[tactic(auto, using(site_files::proofs::Proper::order_is_proper), unfolding(crate::specs::Deeds::order_at))]
fn read_order(value: &Value) -> Result<OrderRow, DeedFault>
    ensures is { IsExactly (λ x. x) result (order_at (view value.now)) }
    ensures proper { IfOk result (λ row. is_order row ≡ true) }
{
    Ok(OrderRow {
        batch: read_name(value, Member::Batch)?,
        gtin: read_gtin(value)?,
        lot: read_name(value, Member::Lot)?,
        expiry: read_date(value)?,
        quantity: read_number(value, Member::Quantity, 1, 1_000_000)?,
        case_size: read_number(value, Member::Case, 1, 1_000)? as u16,
        pallet_size: read_number(value, Member::Pallet, 0, 1_000)? as u16,
    })
}

/// The rows of an order file that stands in a member.
#[tactic(auto, unfolding(crate::specs::Deeds::rows_at))]
fn read_rows(alloc: Global, value: &Value) -> Result<Rows, DeedFault>
    ensures is { IsDue (λ x. x) DeedFault.Memory result (rows_at (view value.now)) }
    ensures few { IfOk result (λ rows. length rows ≤ 1000) }
    ensures proper { IfOk result (λ rows. list_all is_order rows ≡ true) }
{
    match read_orders(alloc, read_text(value, Member::Csv)?.as_bytes()) {
        Ok(rows) => Ok(rows),
        Err(FileFault::Row(line, column)) => Err(DeedFault::BadRow(line, column)),
        Err(FileFault::TooMany(_)) => Err(DeedFault::TooMany(1_001)),
        Err(_) => Err(DeedFault::Memory),
    }
}

/// The deed of a batch: what it names beside that.
#[tactic(auto, unfolding(crate::specs::Deeds::deed_of_batch))]
fn read_of_batch(
    alloc: Global,
    word: BatchWord,
    batch: Text20,
    value: &Value,
) -> Result<Deed, DeedFault>
    ensures is { IsDue (λ x. x) DeedFault.Memory result (deed_of_batch word batch (view value.now)) }
    ensures proper { IfOk result (λ deed. IsProperDeed deed) }
{
    match word {
        BatchWord::Start => Ok(Deed::Start(batch)),
        BatchWord::Draw => {
            let count = read_number(value, Member::Count, 0, u32::MAX)?;
            Ok(Deed::Draw(batch, count))
        }
        BatchWord::Lend => {
            let count = read_number(value, Member::Count, 0, u32::MAX)?;
            Ok(Deed::Lend(batch, count))
        }
        BatchWord::Commission => Ok(Deed::Commission(batch, read_codes(alloc, value)?)),
        BatchWord::Spoil => Ok(Deed::Spoil(batch, read_serials(alloc, value)?)),
        BatchWord::Giveback => Ok(Deed::Giveback(batch, read_serials(alloc, value)?)),
        BatchWord::Sample => Ok(Deed::Sample(batch, read_epcs(alloc, value, Member::Items)?)),
        BatchWord::Reject => Ok(Deed::Reject(batch, read_epcs(alloc, value, Member::Items)?)),
        BatchWord::Reinstate => Ok(Deed::Reinstate(batch, read_epcs(alloc, value, Member::Items)?)),
        BatchWord::Destroy => Ok(Deed::Destroy(batch, read_epcs(alloc, value, Member::Items)?)),
        BatchWord::Decommission => Ok(Deed::Decommission(
            batch,
            read_epcs(alloc, value, Member::Items)?,
        )),
        BatchWord::Container => Ok(Deed::Container(batch, read_level(value)?)),
        BatchWord::Declare => {
            let good = read_number(value, Member::Good, 0, u32::MAX)?;
            let spoiled = read_number(value, Member::Spoiled, 0, u32::MAX)?;
            let returned = read_number(value, Member::Returned, 0, u32::MAX)?;
            Ok(Deed::Declare(batch, good, spoiled, returned))
        }
        BatchWord::Close => Ok(Deed::Close(batch)),
        BatchWord::Amend => {
            let quantity = read_number(value, Member::Quantity, 1, 1_000_000)?;
            Ok(Deed::Amend(batch, quantity))
        }
    }
}

/// The deed of a unit: what it names beside that.
#[tactic(auto, unfolding(crate::specs::Deeds::deed_of_unit))]
fn read_of_unit(alloc: Global, word: UnitWord, unit: Sscc, value: &Value) -> Result<Deed, DeedFault>
    ensures is { IsDue (λ x. x) DeedFault.Memory result (deed_of_unit word unit (view value.now)) }
    ensures proper { IfOk result (λ deed. IsProperDeed deed) }
{
    match word {
        UnitWord::Pack => Ok(Deed::Pack(unit, read_epcs(alloc, value, Member::Children)?)),
        UnitWord::Unpack => Ok(Deed::Unpack(unit, read_epcs(alloc, value, Member::Children)?)),
        UnitWord::UnpackAll => Ok(Deed::UnpackAll(unit)),
        UnitWord::Seal => Ok(Deed::Seal(unit)),
        UnitWord::Unseal => Ok(Deed::Unseal(unit)),
        UnitWord::Void => Ok(Deed::Void(unit)),
    }
}

/// The deed of a word.
#[tactic(auto, unfolding(crate::specs::Deeds::deed_of_word))]
fn read_word(alloc: Global, word: DeedWord, value: &Value) -> Result<Deed, DeedFault>
    ensures is { IsDue (λ x. x) DeedFault.Memory result (deed_of_word word (view value.now)) }
    ensures proper { IfOk result (λ deed. IsProperDeed deed) }
{
    match word {
        DeedWord::Order => Ok(Deed::Order(read_order(value)?)),
        DeedWord::Orders => Ok(Deed::Orders(read_rows(alloc, value)?)),
        DeedWord::OfBatch(word) => {
            let batch = read_name(value, Member::Batch)?;
            read_of_batch(alloc, word, batch, value)
        }
        DeedWord::OfUnit(word) => {
            let unit = read_unit(value)?;
            read_of_unit(alloc, word, unit, value)
        }
    }
}

/// The deed of a word, and its operator.
#[tactic(auto, unfolding(crate::specs::Deeds::said_by_word))]
fn read_said(alloc: Global, word: DeedWord, value: &Value) -> Result<Said, DeedFault>
    ensures is { IsDue (λ x. x) DeedFault.Memory result (said_by_word word (view value.now)) }
    ensures proper { IfOk result (λ said. IsProperSaid said) }
{
    let deed = read_word(alloc, word, value)?;
    let operator = read_operator(value)?;
    Ok(Said { deed, operator })
}

/// What a JSON value says: a deed, and the operator where it names one. Else its first fault:
/// `NotObject`; then `do` is read, then the deed's own members in their order, and the operator last.
/// `NoMember` tells a missing member and `BadMember` a wrong one; a list that is too long is told
/// before its entries, and then the first bad entry. Members of other names are passed over.
#[tactic(auto, unfolding(crate::specs::Deeds::said_of))]
pub fn read_deed(alloc: Global, value: &Value) -> Result<Said, DeedFault>
    ensures is { IsDue (λ x. x) DeedFault.Memory result (said_of (view value.now)) }
    ensures proper { IfOk result (λ said. IsProperSaid said) }
{
    if !value.is_object() {
        return Err(DeedFault::NotObject);
    }
    let Some(word) = DeedWord::read(read_text(value, Member::Do)?) else {
        return Err(DeedFault::BadMember(Member::Do));
    };
    read_said(alloc, word, value)
}
