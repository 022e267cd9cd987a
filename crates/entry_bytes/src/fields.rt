//! Reading the fields of entries.
ghost use Rattle.std.specs.Prelude.{◌≡◌};
ghost use Rattle.std.specs.Int.{w16};
ghost use Rattle.entry_bytes.specs.Reading.{IsExactly, number_at, ranged};
ghost use Rattle.entry_bytes.specs.Fields.{characters_at, text_at, gtin_at, sscc_at, expiry_at, operator_at, level_at, epc_at, code_at, row_at, quantity_at};

use crate::cursor::Cursor;
use crate::fault::Stop;
use crate::version::Version;
use deed_words::{Level, OrderRow};
use epc_urn::Epc;
use gs1_element::{Code, is_date};
use gs1_keys::{Gtin, Sscc, Text20};

/// So many characters of a text whose field began where `start` bytes were left.
#[tactic(auto, unfolding(crate::specs::Fields::characters_at))]
fn read_characters(bytes: &mut Cursor, start: usize, len: u8) -> Result<Text20, Stop>
    ensures { IsExactly (λ x. (x, bytes.new)) result (characters_at start len bytes.old) }
{
    if bytes.len() < usize::from(len) {
        return Err(Stop::Short(start));
    }
    match Text20::read(bytes.front(usize::from(len))) {
        Ok(text) => Ok(text),
        Err(_) => Err(Stop::BadField(start)),
    }
}

#[tactic(auto, unfolding(crate::specs::Fields::text_at))]
pub(crate) fn read_text(bytes: &mut Cursor) -> Result<Text20, Stop>
    ensures { IsExactly (λ x. (x, bytes.new)) result (text_at bytes.old) }
{
    let start = bytes.len();
    let len = bytes.byte()?;
    if len < 1 || len > 20 {
        return Err(Stop::BadField(start));
    }
    read_characters(bytes, start, len)
}

/// The operator, for which version 1 has no field.
#[tactic(auto, unfolding(crate::specs::Fields::operator_at))]
pub(crate) fn read_operator(version: Version, bytes: &mut Cursor) -> Result<Option<Text20>, Stop>
    ensures { IsExactly (λ x. (x, bytes.new)) result (operator_at version bytes.old) }
{
    match version {
        Version::First => Ok(None),
        Version::Second => {
            let start = bytes.len();
            let len = bytes.byte()?;
            if len > 20 {
                return Err(Stop::BadField(start));
            }
            if len == 0 {
                return Ok(None);
            }
            let name = read_characters(bytes, start, len)?;
            Ok(Some(name))
        }
    }
}

#[tactic(auto, unfolding(crate::specs::Fields::gtin_at))]
pub(crate) fn read_gtin(bytes: &mut Cursor) -> Result<Gtin, Stop>
    ensures { IsExactly (λ x. (x, bytes.new)) result (gtin_at bytes.old) }
{
    let start = bytes.len();
    if start < 14 {
        return Err(Stop::Short(start));
    }
    match Gtin::read(bytes.front(14)) {
        Ok(key) => Ok(key),
        Err(_) => Err(Stop::BadField(start)),
    }
}

#[tactic(auto, unfolding(crate::specs::Fields::sscc_at))]
pub(crate) fn read_sscc(bytes: &mut Cursor) -> Result<Sscc, Stop>
    ensures { IsExactly (λ x. (x, bytes.new)) result (sscc_at bytes.old) }
{
    let start = bytes.len();
    if start < 18 {
        return Err(Stop::Short(start));
    }
    match Sscc::read(bytes.front(18)) {
        Ok(key) => Ok(key),
        Err(_) => Err(Stop::BadField(start)),
    }
}

#[tactic(auto, unfolding(crate::specs::Fields::level_at))]
pub(crate) fn read_level(bytes: &mut Cursor) -> Result<Level, Stop>
    ensures { IsExactly (λ x. (x, bytes.new)) result (level_at bytes.old) }
{
    let start = bytes.len();
    match bytes.byte()? {
        1 => Ok(Level::Case),
        2 => Ok(Level::Pallet),
        _ => Err(Stop::BadField(start)),
    }
}

#[tactic(auto, unfolding(crate::specs::Fields::epc_at))]
pub(crate) fn read_epc(bytes: &mut Cursor) -> Result<Epc, Stop>
    ensures { IsExactly (λ x. (x, bytes.new)) result (epc_at bytes.old) }
{
    let start = bytes.len();
    match bytes.byte()? {
        1 => {
            let gtin = read_gtin(bytes)?;
            let serial = read_text(bytes)?;
            Ok(Epc::Item(gtin, serial))
        }
        2 => {
            let sscc = read_sscc(bytes)?;
            Ok(Epc::Unit(sscc))
        }
        _ => Err(Stop::BadField(start)),
    }
}

#[tactic(auto, unfolding(crate::specs::Fields::quantity_at))]
pub(crate) fn read_quantity(bytes: &mut Cursor) -> Result<u32, Stop>
    ensures { IsExactly (λ x. (x, bytes.new)) result (quantity_at bytes.old) }
{
    let start = bytes.len();
    let quantity = bytes.u32()?;
    if quantity < 1 || quantity > 1_000_000 {
        return Err(Stop::BadField(start));
    }
    Ok(quantity)
}

/// How many fit: from `low` to 1,000.
fn read_size(low: u16, bytes: &mut Cursor) -> Result<u16, Stop>
    ensures { IsExactly (λ x. (x, bytes.new)) result (ranged low 1000 (number_at w16) bytes.old) }
{
    let start = bytes.len();
    let size = bytes.u16()?;
    if size < low || size > 1_000 {
        return Err(Stop::BadField(start));
    }
    Ok(size)
}

#[tactic(auto, unfolding(crate::specs::Fields::expiry_at))]
fn read_expiry(bytes: &mut Cursor) -> Result<[u8; 6], Stop>
    ensures { IsExactly (λ x. (x, bytes.new)) result (expiry_at bytes.old) }
{
    let start = bytes.len();
    if start < 6 {
        return Err(Stop::Short(start));
    }
    let front = bytes.front(6);
    if !is_date(front) {
        return Err(Stop::BadField(start));
    }
    let mut expiry = [0; 6];
    expiry.copy_from_slice(front);
    Ok(expiry)
}

#[tactic(auto, unfolding(crate::specs::Fields::code_at))]
pub(crate) fn read_code(bytes: &mut Cursor) -> Result<Code, Stop>
    ensures { IsExactly (λ x. (x, bytes.new)) result (code_at bytes.old) }
{
    let gtin = read_gtin(bytes)?;
    let serial = read_text(bytes)?;
    let lot = read_text(bytes)?;
    let expiry = read_expiry(bytes)?;
    Ok(Code {
        gtin,
        serial,
        lot,
        expiry,
    })
}

#[tactic(auto, unfolding(crate::specs::Fields::row_at, crate::specs::Fields::case_size_at, crate::specs::Fields::pallet_size_at))]
pub(crate) fn read_row(bytes: &mut Cursor) -> Result<OrderRow, Stop>
    ensures { IsExactly (λ x. (x, bytes.new)) result (row_at bytes.old) }
{
    let batch = read_text(bytes)?;
    let gtin = read_gtin(bytes)?;
    let lot = read_text(bytes)?;
    let expiry = read_expiry(bytes)?;
    let quantity = read_quantity(bytes)?;
    let case_size = read_size(1, bytes)?;
    let pallet_size = read_size(0, bytes)?;
    Ok(OrderRow {
        batch,
        gtin,
        lot,
        expiry,
        quantity,
        case_size,
        pallet_size,
    })
}
