//! Reading deeds, entries and groups.
ghost use Rattle.std.specs.Prelude.{◌≡◌, List, All, IfOk, Ok};
ghost use Rattle.deed_words.specs.Proper.{IsProperEntry};
ghost use Rattle.deed_words.specs.declared.entry.Entry.{Entry};
ghost use Rattle.entry_bytes.specs.Reading.{IsDue, IsExactly, many};
ghost use Rattle.entry_bytes.specs.Deeds.{placed, fields_at, deed_at, stamp_at, entry_at, group_at, entries_of};
ghost use Rattle.entry_bytes.specs.Groups.{SpellsGroup};
ghost use Rattle.entry_bytes.specs.Answers.{IsRead};

use crate::cursor::Cursor;
use crate::fault::{EntryFault, Stop};
use crate::fields::{read_level, read_operator, read_quantity, read_row, read_sscc, read_text};
use crate::kind::{DeedKind, kind_of_tag};
use crate::lists::{read_codes, read_drawn, read_epcs, read_rows, read_serials};
use crate::version::Version;
use deed_words::{Deed, Entry, StationId};
use std::alloc::Global;

#[tactic(auto, unfolding(crate::specs::Deeds::fields_at))]
fn read_fields(alloc: Global, kind: DeedKind, bytes: &mut Cursor) -> Result<Deed, Stop>
    ensures { IsDue (λ x. (x, bytes.new)) result (fields_at kind bytes.old) }
{
    match kind {
        DeedKind::Order => {
            let row = read_row(bytes)?;
            Ok(Deed::Order(row))
        }
        DeedKind::Orders => {
            let rows = read_rows(alloc, bytes)?;
            Ok(Deed::Orders(rows))
        }
        DeedKind::Start => {
            let batch = read_text(bytes)?;
            Ok(Deed::Start(batch))
        }
        DeedKind::Draw => {
            let batch = read_text(bytes)?;
            let count = bytes.u32()?;
            Ok(Deed::Draw(batch, count))
        }
        DeedKind::Lend => {
            let batch = read_text(bytes)?;
            let count = bytes.u32()?;
            Ok(Deed::Lend(batch, count))
        }
        DeedKind::Commission => {
            let batch = read_text(bytes)?;
            let codes = read_codes(alloc, bytes)?;
            Ok(Deed::Commission(batch, codes))
        }
        DeedKind::Spoil => {
            let batch = read_text(bytes)?;
            let serials = read_serials(alloc, bytes)?;
            Ok(Deed::Spoil(batch, serials))
        }
        DeedKind::Giveback => {
            let batch = read_text(bytes)?;
            let serials = read_serials(alloc, bytes)?;
            Ok(Deed::Giveback(batch, serials))
        }
        DeedKind::Sample => {
            let batch = read_text(bytes)?;
            let items = read_epcs(alloc, bytes)?;
            Ok(Deed::Sample(batch, items))
        }
        DeedKind::Reject => {
            let batch = read_text(bytes)?;
            let items = read_epcs(alloc, bytes)?;
            Ok(Deed::Reject(batch, items))
        }
        DeedKind::Reinstate => {
            let batch = read_text(bytes)?;
            let items = read_epcs(alloc, bytes)?;
            Ok(Deed::Reinstate(batch, items))
        }
        DeedKind::Destroy => {
            let batch = read_text(bytes)?;
            let items = read_epcs(alloc, bytes)?;
            Ok(Deed::Destroy(batch, items))
        }
        DeedKind::Decommission => {
            let batch = read_text(bytes)?;
            let items = read_epcs(alloc, bytes)?;
            Ok(Deed::Decommission(batch, items))
        }
        DeedKind::Container => {
            let batch = read_text(bytes)?;
            let level = read_level(bytes)?;
            Ok(Deed::Container(batch, level))
        }
        DeedKind::Pack => {
            let unit = read_sscc(bytes)?;
            let children = read_epcs(alloc, bytes)?;
            Ok(Deed::Pack(unit, children))
        }
        DeedKind::Unpack => {
            let unit = read_sscc(bytes)?;
            let children = read_epcs(alloc, bytes)?;
            Ok(Deed::Unpack(unit, children))
        }
        DeedKind::UnpackAll => {
            let unit = read_sscc(bytes)?;
            Ok(Deed::UnpackAll(unit))
        }
        DeedKind::Seal => {
            let unit = read_sscc(bytes)?;
            Ok(Deed::Seal(unit))
        }
        DeedKind::Unseal => {
            let unit = read_sscc(bytes)?;
            Ok(Deed::Unseal(unit))
        }
        DeedKind::Void => {
            let unit = read_sscc(bytes)?;
            Ok(Deed::Void(unit))
        }
        DeedKind::Declare => {
            let batch = read_text(bytes)?;
            let good = bytes.u32()?;
            let spoiled = bytes.u32()?;
            let returned = bytes.u32()?;
            Ok(Deed::Declare(batch, good, spoiled, returned))
        }
        DeedKind::Close => {
            let batch = read_text(bytes)?;
            Ok(Deed::Close(batch))
        }
        DeedKind::Amend => {
            let batch = read_text(bytes)?;
            let quantity = read_quantity(bytes)?;
            Ok(Deed::Amend(batch, quantity))
        }
    }
}

#[tactic(auto, unfolding(crate::specs::Deeds::deed_at))]
fn read_deed(alloc: Global, bytes: &mut Cursor) -> Result<Deed, Stop>
    ensures { IsDue (λ x. (x, bytes.new)) result (deed_at bytes.old) }
{
    let start = bytes.len();
    let tag = bytes.byte()?;
    match kind_of_tag(tag) {
        Some(kind) => read_fields(alloc, kind, bytes),
        None => Err(Stop::BadTag(start)),
    }
}

#[tactic(auto, unfolding(crate::specs::Deeds::stamp_at))]
fn read_stamp(bytes: &mut Cursor) -> Result<u64, Stop>
    ensures { IsExactly (λ x. (x, bytes.new)) result (stamp_at bytes.old) }
{
    let start = bytes.len();
    let stamp = bytes.u64()?;
    if stamp > 253_402_300_799_999 {
        return Err(Stop::BadField(start));
    }
    Ok(stamp)
}

#[tactic(auto, unfolding(crate::specs::Deeds::entry_at))]
fn read_entry(alloc: Global, version: Version, bytes: &mut Cursor) -> Result<Entry, Stop>
    ensures { IsDue (λ x. (x, bytes.new)) result (entry_at version bytes.old) }
{
    let station = bytes.byte()?;
    let number = bytes.u64()?;
    let worker = bytes.byte()?;
    let stamp = read_stamp(bytes)?;
    let operator = read_operator(version, bytes)?;
    let deed = read_deed(alloc, bytes)?;
    let drawn = read_drawn(alloc, bytes)?;
    Ok(Entry {
        station: StationId(station),
        number,
        worker,
        stamp,
        operator,
        deed,
        drawn,
    })
}

fn many_entries(
    alloc: Global,
    version: Version,
    count: u8,
    bytes: &mut Cursor,
) -> Result<Vec<Entry>, Stop>
    ensures { IsDue (λ x. (x.items, bytes.new)) result (many (entry_at version) count bytes.old) }
{
    let mut all = Vec::new(alloc);
    for _ in 0..count {
        let item = read_entry(alloc, version, bytes)?;
        all.push(item)?;
    }
    Ok(all)
}

#[tactic(auto, unfolding(crate::specs::Deeds::group_at))]
fn read_group(alloc: Global, bytes: &mut Cursor) -> Result<Vec<Entry>, Stop>
    ensures { IsDue (λ x. (x.items, bytes.new)) result (group_at bytes.old) }
{
    let start = bytes.len();
    let count = bytes.byte()?;
    if 129 <= count && count <= 144 {
        return many_entries(alloc, Version::Second, count - 128, bytes);
    }
    if 1 <= count && count <= 16 {
        return many_entries(alloc, Version::First, count, bytes);
    }
    Err(Stop::BadField(start))
}

/// The fault, with its place from the left.
pub(crate) fn placed_at(total: usize, stop: Stop) -> EntryFault
    ensures { result ≡ placed total stop }
{
    match stop {
        Stop::Short(left) => EntryFault::Short(total.saturating_sub(left) as u64),
        Stop::BadTag(left) => EntryFault::BadTag(total.saturating_sub(left) as u64),
        Stop::BadField(left) => EntryFault::BadField(total.saturating_sub(left) as u64),
        Stop::Memory => EntryFault::Memory,
    }
}

#[tactic(auto, unfolding(crate::specs::Deeds::entries_of))]
fn read_all(alloc: Global, bytes: &[u8]) -> Result<Vec<Entry>, EntryFault>
    ensures { IsRead (λ entries. entries.items) result (entries_of bytes.now) }
{
    let mut cursor = Cursor::new(bytes);
    match read_group(alloc, &mut cursor) {
        Ok(entries) => {
            let left = cursor.len();
            if left > 0 {
                return Err(EntryFault::Extra(bytes.len().saturating_sub(left) as u64));
            }
            Ok(entries)
        }
        Err(stop) => Err(placed_at(bytes.len(), stop)),
    }
}

/// Reads a whole group of either version: 1 to 16 entries, each of them proper. Entries of version 1
/// have no operator.
///
/// Else it answers the first fault from the left. A length or a count that is out of its range is told
/// before the bytes behind it are looked at, and a field other than a list whose bytes then end too
/// early is `Short`, whatever they hold.
pub fn read_entries(alloc: Global, bytes: &[u8]) -> Result<Vec<Entry>, EntryFault>
    // What is read is what the bytes spell.
    ensures found { IfOk result (λ entries. SpellsGroup entries.items bytes.now) }
    // What the bytes spell is read, unless memory is wanting.
    ensures only { (group : List Entry) → SpellsGroup group bytes.now → IsRead (λ entries. entries.items) result (Ok group) }
    // Which fault it is.
    ensures exact { IsRead (λ entries. entries.items) result (entries_of bytes.now) }
    ensures proper { IfOk result (λ entries. All IsProperEntry entries.items) }
{
    read_all(alloc, bytes)
}
