//! Reading lists: so many items, one after the other.
ghost use Rattle.std.specs.Prelude.{◌≡◌};
ghost use Rattle.entry_bytes.specs.Reading.{IsDue, many};
ghost use Rattle.entry_bytes.specs.Fields.{text_at, epc_at, code_at, row_at};
ghost use Rattle.entry_bytes.specs.Deeds.{rows_at, codes_at, serials_at, epcs_at, drawn_at};

use crate::cursor::Cursor;
use crate::fault::Stop;
use crate::fields::{read_code, read_epc, read_row, read_text};
use deed_words::{Codes, Epcs, Rows};
use gs1_keys::Serials;
use std::alloc::Global;

fn many_rows(alloc: Global, count: u16, bytes: &mut Cursor) -> Result<Rows, Stop>
    ensures { IsDue (λ x. (x, bytes.new)) result (many row_at count bytes.old) }
{
    let mut all = Rows::new(alloc);
    for _ in 0..count {
        let item = read_row(bytes)?;
        all.push(item)?;
    }
    Ok(all)
}

fn many_codes(alloc: Global, count: u16, bytes: &mut Cursor) -> Result<Codes, Stop>
    ensures { IsDue (λ x. (x, bytes.new)) result (many code_at count bytes.old) }
{
    let mut all = Codes::new(alloc);
    for _ in 0..count {
        let item = read_code(bytes)?;
        all.push(item)?;
    }
    Ok(all)
}

fn many_epcs(alloc: Global, count: u16, bytes: &mut Cursor) -> Result<Epcs, Stop>
    ensures { IsDue (λ x. (x, bytes.new)) result (many epc_at count bytes.old) }
{
    let mut all = Epcs::new(alloc);
    for _ in 0..count {
        let item = read_epc(bytes)?;
        all.push(item)?;
    }
    Ok(all)
}

fn many_texts(alloc: Global, count: u16, bytes: &mut Cursor) -> Result<Serials, Stop>
    ensures { IsDue (λ x. (x, bytes.new)) result (many text_at count bytes.old) }
{
    let mut all = Serials::new(alloc);
    for _ in 0..count {
        let item = read_text(bytes)?;
        all.push(item)?;
    }
    Ok(all)
}

#[tactic(auto, unfolding(crate::specs::Deeds::rows_at))]
pub(crate) fn read_rows(alloc: Global, bytes: &mut Cursor) -> Result<Rows, Stop>
    ensures { IsDue (λ x. (x, bytes.new)) result (rows_at bytes.old) }
{
    let start = bytes.len();
    let count = bytes.u16()?;
    if count > 1_000 {
        return Err(Stop::BadField(start));
    }
    many_rows(alloc, count, bytes)
}

#[tactic(auto, unfolding(crate::specs::Deeds::codes_at))]
pub(crate) fn read_codes(alloc: Global, bytes: &mut Cursor) -> Result<Codes, Stop>
    ensures { IsDue (λ x. (x, bytes.new)) result (codes_at bytes.old) }
{
    let start = bytes.len();
    let count = bytes.u16()?;
    if count > 1_000 {
        return Err(Stop::BadField(start));
    }
    many_codes(alloc, count, bytes)
}

#[tactic(auto, unfolding(crate::specs::Deeds::epcs_at))]
pub(crate) fn read_epcs(alloc: Global, bytes: &mut Cursor) -> Result<Epcs, Stop>
    ensures { IsDue (λ x. (x, bytes.new)) result (epcs_at bytes.old) }
{
    let start = bytes.len();
    let count = bytes.u16()?;
    if count > 1_000 {
        return Err(Stop::BadField(start));
    }
    many_epcs(alloc, count, bytes)
}

#[tactic(auto, unfolding(crate::specs::Deeds::serials_at))]
pub(crate) fn read_serials(alloc: Global, bytes: &mut Cursor) -> Result<Serials, Stop>
    ensures { IsDue (λ x. (x, bytes.new)) result (serials_at bytes.old) }
{
    let start = bytes.len();
    let count = bytes.u16()?;
    if count > 1_000 {
        return Err(Stop::BadField(start));
    }
    many_texts(alloc, count, bytes)
}

#[tactic(auto, unfolding(crate::specs::Deeds::drawn_at))]
pub(crate) fn read_drawn(alloc: Global, bytes: &mut Cursor) -> Result<Serials, Stop>
    ensures { IsDue (λ x. (x, bytes.new)) result (drawn_at bytes.old) }
{
    let start = bytes.len();
    let count = bytes.u16()?;
    if count > 10_000 {
        return Err(Stop::BadField(start));
    }
    many_texts(alloc, count, bytes)
}
