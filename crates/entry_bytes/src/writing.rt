//! Writing deeds, entries and groups.
ghost use Rattle.std.specs.Prelude.{◌≡◌, ◌<◌, ◌≤◌, ◌^◌, ◌++◌, All, length, OnOk, IfOk, if◌then◌else◌, is_ok};
ghost use Rattle.gs1_keys.specs.Keys.{IsText};
ghost use Rattle.deed_words.specs.Proper.{IsProperDeed, IsProperEntry};
ghost use Rattle.entry_bytes.specs.Spelling.{text_bytes, level_bytes, epc_bytes, code_bytes, row_bytes, list_bytes, numbers_bytes, fields_bytes, deed_bytes, operator_in, head_bytes, entry_bytes, group_bytes};
ghost use Rattle.entry_bytes.specs.Kept.{IsKeptEpc, IsKeptCode, IsKeptRow, IsKeptOperator, IsKeptDeed, IsKeptHead, IsKept};
ghost use Rattle.entry_bytes.specs.Groups.{IsGroup, SpellsGroup};
ghost use Rattle.entry_bytes.specs.declared.version.Version.TheVariants.{Second};

use crate::kind::kind_of_deed;
use deed_words::{Deed, Entry, Level, OrderRow};
use epc_urn::Epc;
use gs1_element::Code;
use gs1_keys::{Memory, Text20};
use std::alloc::{AllocError, Global};

/// Puts a length byte and so many bytes.
pub(crate) fn put_bytes(out: &mut Vec<u8>, bytes: &[u8]) -> Result<(), AllocError>
    requires { length bytes.now < 256 }
    ensures { OnOk result (out.new.items ≡ out.old.items ++ text_bytes bytes.now) }
{
    out.push(bytes.len() as u8)?;
    out.extend_from_slice(bytes)?;
    Ok(())
}

fn put_text(out: &mut Vec<u8>, text: &Text20) -> Result<(), AllocError>
    ensures bytes { OnOk result (out.new.items ≡ out.old.items ++ text_bytes text.now) }
    ensures kept { OnOk result (IsText text.now) }
{
    put_bytes(out, text.bytes())
}

fn put_epc(out: &mut Vec<u8>, epc: &Epc) -> Result<(), AllocError>
    ensures bytes { OnOk result (out.new.items ≡ out.old.items ++ epc_bytes epc.now) }
    ensures kept { OnOk result (IsKeptEpc epc.now) }
{
    match epc {
        Epc::Item(gtin, serial) => {
            out.push(1)?;
            out.extend_from_slice(gtin.digits())?;
            put_text(out, serial)?;
        }
        Epc::Unit(sscc) => {
            out.push(2)?;
            out.extend_from_slice(sscc.digits())?;
        }
    }
    Ok(())
}

fn put_code(out: &mut Vec<u8>, code: &Code) -> Result<(), AllocError>
    ensures bytes { OnOk result (out.new.items ≡ out.old.items ++ code_bytes code.now) }
    ensures kept { OnOk result (IsKeptCode code.now) }
{
    out.extend_from_slice(code.gtin.digits())?;
    put_text(out, &code.serial)?;
    put_text(out, &code.lot)?;
    out.extend_from_slice(&code.expiry)?;
    Ok(())
}

fn put_row(out: &mut Vec<u8>, row: &OrderRow) -> Result<(), AllocError>
    ensures bytes { OnOk result (out.new.items ≡ out.old.items ++ row_bytes row.now) }
    ensures kept { OnOk result (IsKeptRow row.now) }
{
    put_text(out, &row.batch)?;
    out.extend_from_slice(row.gtin.digits())?;
    put_text(out, &row.lot)?;
    out.extend_from_slice(&row.expiry)?;
    out.extend_from_slice(&row.quantity.to_be_bytes())?;
    out.extend_from_slice(&row.case_size.to_be_bytes())?;
    out.extend_from_slice(&row.pallet_size.to_be_bytes())?;
    Ok(())
}

fn put_rows(out: &mut Vec<u8>, items: &[OrderRow]) -> Result<(), AllocError>
    requires { length items.now < 2 ^ 16 }
    ensures bytes { OnOk result (out.new.items ≡ out.old.items ++ list_bytes row_bytes items.now) }
    ensures kept { OnOk result (All IsKeptRow items.now) }
{
    out.extend_from_slice(&(items.len() as u16).to_be_bytes())?;
    for item in items {
        put_row(out, item)?;
    }
    Ok(())
}

fn put_codes(out: &mut Vec<u8>, items: &[Code]) -> Result<(), AllocError>
    requires { length items.now < 2 ^ 16 }
    ensures bytes { OnOk result (out.new.items ≡ out.old.items ++ list_bytes code_bytes items.now) }
    ensures kept { OnOk result (All IsKeptCode items.now) }
{
    out.extend_from_slice(&(items.len() as u16).to_be_bytes())?;
    for item in items {
        put_code(out, item)?;
    }
    Ok(())
}

fn put_epcs(out: &mut Vec<u8>, items: &[Epc]) -> Result<(), AllocError>
    requires { length items.now < 2 ^ 16 }
    ensures bytes { OnOk result (out.new.items ≡ out.old.items ++ list_bytes epc_bytes items.now) }
    ensures kept { OnOk result (All IsKeptEpc items.now) }
{
    out.extend_from_slice(&(items.len() as u16).to_be_bytes())?;
    for item in items {
        put_epc(out, item)?;
    }
    Ok(())
}

fn put_texts(out: &mut Vec<u8>, items: &[Text20]) -> Result<(), AllocError>
    requires { length items.now < 2 ^ 16 }
    ensures bytes { OnOk result (out.new.items ≡ out.old.items ++ list_bytes text_bytes items.now) }
    ensures kept { OnOk result (All IsText items.now) }
{
    out.extend_from_slice(&(items.len() as u16).to_be_bytes())?;
    for item in items {
        put_text(out, item)?;
    }
    Ok(())
}

#[tactic(auto, unfolding(crate::specs::Spelling::numbers_bytes))]
fn put_numbers(out: &mut Vec<u8>, good: u32, spoiled: u32, returned: u32) -> Result<(), AllocError>
    ensures { OnOk result (out.new.items ≡ out.old.items ++ numbers_bytes good spoiled returned) }
{
    out.extend_from_slice(&good.to_be_bytes())?;
    out.extend_from_slice(&spoiled.to_be_bytes())?;
    out.extend_from_slice(&returned.to_be_bytes())?;
    Ok(())
}

fn put_fields(out: &mut Vec<u8>, deed: &Deed) -> Result<(), AllocError>
    requires { IsProperDeed deed.now }
    ensures bytes { OnOk result (out.new.items ≡ out.old.items ++ fields_bytes deed.now) }
    ensures kept { OnOk result (IsKeptDeed deed.now) }
{
    match deed {
        Deed::Order(row) => put_row(out, row),
        Deed::Orders(rows) => put_rows(out, rows.as_slice()),
        Deed::Start(batch) | Deed::Close(batch) => put_text(out, batch),
        Deed::Draw(batch, number) | Deed::Lend(batch, number) | Deed::Amend(batch, number) => {
            put_text(out, batch)?;
            out.extend_from_slice(&number.to_be_bytes())
        }
        Deed::Commission(batch, codes) => {
            put_text(out, batch)?;
            put_codes(out, codes.as_slice())
        }
        Deed::Spoil(batch, serials) | Deed::Giveback(batch, serials) => {
            put_text(out, batch)?;
            put_texts(out, serials.as_slice())
        }
        Deed::Sample(batch, items)
        | Deed::Reject(batch, items)
        | Deed::Reinstate(batch, items)
        | Deed::Destroy(batch, items)
        | Deed::Decommission(batch, items) => {
            put_text(out, batch)?;
            put_epcs(out, items.as_slice())
        }
        Deed::Container(batch, level) => {
            put_text(out, batch)?;
            put_level(out, *level)
        }
        Deed::Pack(unit, children) | Deed::Unpack(unit, children) => {
            out.extend_from_slice(unit.digits())?;
            put_epcs(out, children.as_slice())
        }
        Deed::UnpackAll(unit) | Deed::Seal(unit) | Deed::Unseal(unit) | Deed::Void(unit) => {
            out.extend_from_slice(unit.digits())
        }
        Deed::Declare(batch, good, spoiled, returned) => {
            put_text(out, batch)?;
            put_numbers(out, *good, *spoiled, *returned)
        }
    }
}

fn put_level(out: &mut Vec<u8>, level: Level) -> Result<(), AllocError>
    ensures { OnOk result (out.new.items ≡ out.old.items ++ level_bytes level) }
{
    let byte = match level {
        Level::Case => 1,
        Level::Pallet => 2,
    };
    out.push(byte)?;
    Ok(())
}

#[tactic(auto, unfolding(crate::specs::Spelling::deed_bytes))]
fn put_deed(out: &mut Vec<u8>, deed: &Deed) -> Result<(), AllocError>
    requires { IsProperDeed deed.now }
    ensures bytes { OnOk result (out.new.items ≡ out.old.items ++ deed_bytes deed.now) }
    ensures kept { OnOk result (IsKeptDeed deed.now) }
{
    out.push(kind_of_deed(deed).tag())?;
    put_fields(out, deed)?;
    Ok(())
}

fn put_operator(out: &mut Vec<u8>, operator: &Option<Text20>) -> Result<(), AllocError>
    ensures bytes { OnOk result (out.new.items ≡ out.old.items ++ operator_in Second operator.now) }
    ensures kept { OnOk result (IsKeptOperator operator.now) }
{
    match operator {
        Some(name) => put_text(out, name),
        None => {
            out.push(0)?;
            Ok(())
        }
    }
}

/// Puts who asked, the number, who served it and when.
#[tactic(auto, unfolding(crate::specs::Spelling::head_bytes))]
fn put_head(out: &mut Vec<u8>, entry: &Entry) -> Result<(), AllocError>
    ensures bytes { OnOk result (out.new.items ≡ out.old.items ++ head_bytes entry.now) }
    ensures kept { OnOk result (IsKeptHead entry.now) }
{
    out.push(entry.station.0)?;
    out.extend_from_slice(&entry.number.to_be_bytes())?;
    out.push(entry.worker)?;
    out.extend_from_slice(&entry.stamp.to_be_bytes())?;
    Ok(())
}

fn put_entry(out: &mut Vec<u8>, entry: &Entry) -> Result<(), AllocError>
    requires { IsProperEntry entry.now }
    ensures bytes { OnOk result (out.new.items ≡ out.old.items ++ entry_bytes entry.now) }
    ensures kept { OnOk result (IsKept entry.now) }
{
    put_head(out, entry)?;
    put_operator(out, &entry.operator)?;
    put_deed(out, &entry.deed)?;
    put_texts(out, entry.drawn.as_slice())?;
    Ok(())
}

fn group_of(alloc: Global, entries: &[Entry]) -> Result<Vec<u8>, AllocError>
    requires some { 1 ≤ length entries.now }
    requires few { length entries.now ≤ 16 }
    requires proper { All IsProperEntry entries.now }
    ensures bytes { IfOk result (λ v. v.items ≡ group_bytes entries.now) }
    ensures kept { OnOk result (All IsKept entries.now) }
{
    let mut out = Vec::new(alloc);
    out.push(128 + entries.len() as u8)?;
    for entry in entries {
        put_entry(&mut out, entry)?;
    }
    Ok(out)
}

/// The bytes of one entry, as it stands in a group of version 2.
pub fn print_entry(alloc: Global, entry: &Entry) -> Result<Vec<u8>, Memory>
    requires { IsProperEntry entry.now }
    ensures bytes { IfOk result (λ bytes. bytes.items ≡ entry_bytes entry.now) }
    // What the entry's types keep, so that the bytes are those of no other entry.
    ensures kept { OnOk result (IsKept entry.now) }
{
    let mut out = Vec::new(alloc);
    match put_entry(&mut out, entry) {
        Ok(()) => Ok(out),
        Err(_) => Err(Memory),
    }
}

/// Puts the bytes of a group of version 2 last, or changes nothing.
pub fn print_entries(alloc: Global, entries: &[Entry], out: &mut Vec<u8>) -> Result<(), Memory>
    requires some { 1 ≤ length entries.now }
    requires few { length entries.now ≤ 16 }
    requires proper { All IsProperEntry entries.now }
    ensures bytes { out.new.items ≡ (if is_ok result then out.old.items ++ group_bytes entries.now else out.old.items) }
    // The bytes are those of this group and of no other.
    ensures spells { OnOk result (SpellsGroup entries.now (group_bytes entries.now)) }
{
    match group_of(alloc, entries) {
        Ok(group) => match out.extend_from_slice(&group) {
            Ok(()) => Ok(()),
            Err(_) => Err(Memory),
        },
        Err(_) => Err(Memory),
    }
}
