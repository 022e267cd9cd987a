//! The lists of a deed.
ghost use Rattle.std.specs.Prelude.{◌≡◌, ◌≤◌, [], length, IfOk, true};
ghost use Rattle.std.specs.List.{list_all};
ghost use Rattle.serde_json.specs.View.{view, items_view};
ghost use Rattle.deed_words.specs.Proper.{is_dated};
ghost use Rattle.site_files.specs.Due.{IsDue, IsExactly};
ghost use Rattle.deed_json.specs.Deeds.{code_entry, epc_entry, serial_entry, codes_after, epcs_after, serials_after, codes_at, epcs_at, serials_at};

use crate::deed_fault::{DeedFault, Member};
use crate::member::read_entries;
use deed_words::{Codes, Epcs};
use epc_urn::{Epc, read_urn};
use gs1_element::{Code, read_code};
use gs1_keys::{Serials, Text20};
use serde_json::Value;
use std::alloc::Global;

/// The code of the scan at a place of a list.
#[tactic(auto, unfolding(crate::specs::Deeds::code_entry, deed_words::specs::Proper::is_dated))]
fn read_scan(at: u64, entry: &Value) -> Result<Code, DeedFault>
    ensures is { IsExactly (λ x. x) result (code_entry at (view entry.now)) }
    ensures proper { IfOk result (λ code. is_dated code ≡ true) }
{
    let Some(text) = entry.as_str() else {
        return Err(DeedFault::BadMember(Member::Codes));
    };
    match read_code(text.as_bytes()) {
        Ok(code) => Ok(code),
        Err(fault) => Err(DeedFault::BadCode(at, fault)),
    }
}

/// What the URN at a place of a list names.
#[tactic(auto, unfolding(crate::specs::Deeds::epc_entry))]
fn read_epc(member: Member, at: u64, entry: &Value) -> Result<Epc, DeedFault>
    ensures { IsExactly (λ x. x) result (epc_entry member at (view entry.now)) }
{
    let Some(text) = entry.as_str() else {
        return Err(DeedFault::BadMember(member));
    };
    match read_urn(text.as_bytes()) {
        Ok(named) => Ok(named.0),
        Err(fault) => Err(DeedFault::BadUrn(at, fault)),
    }
}

/// The serial of an entry.
#[tactic(auto, unfolding(crate::specs::Deeds::serial_entry))]
fn read_serial(entry: &Value) -> Result<Text20, DeedFault>
    ensures { IsExactly (λ x. x) result (serial_entry (view entry.now)) }
{
    let Some(text) = entry.as_str() else {
        return Err(DeedFault::BadMember(Member::Serials));
    };
    match Text20::read(text.as_bytes()) {
        Ok(serial) => Ok(serial),
        Err(_) => Err(DeedFault::BadMember(Member::Serials)),
    }
}

fn codes_in(alloc: Global, entries: &[Value]) -> Result<Codes, DeedFault>
    ensures is { IsDue (λ x. x) DeedFault.Memory result (codes_after [] (items_view entries.now)) }
    ensures size { IfOk result (λ codes. length codes ≡ length entries.now) }
    ensures proper { IfOk result (λ codes. list_all is_dated codes ≡ true) }
{
    let mut codes = Codes::new(alloc);
    for entry in entries {
        let code = read_scan(codes.len() as u64, entry)?;
        if codes.push(code).is_err() {
            return Err(DeedFault::Memory);
        }
    }
    Ok(codes)
}

fn epcs_in(alloc: Global, member: Member, entries: &[Value]) -> Result<Epcs, DeedFault>
    ensures is { IsDue (λ x. x) DeedFault.Memory result (epcs_after member [] (items_view entries.now)) }
    ensures size { IfOk result (λ epcs. length epcs ≡ length entries.now) }
{
    let mut epcs = Epcs::new(alloc);
    for entry in entries {
        let epc = read_epc(member, epcs.len() as u64, entry)?;
        if epcs.push(epc).is_err() {
            return Err(DeedFault::Memory);
        }
    }
    Ok(epcs)
}

fn serials_in(alloc: Global, entries: &[Value]) -> Result<Serials, DeedFault>
    ensures is { IsDue (λ x. x) DeedFault.Memory result (serials_after [] (items_view entries.now)) }
    ensures size { IfOk result (λ serials. length serials ≡ length entries.now) }
{
    let mut serials = Serials::new(alloc);
    for entry in entries {
        let serial = read_serial(entry)?;
        if serials.push(serial).is_err() {
            return Err(DeedFault::Memory);
        }
    }
    Ok(serials)
}

/// The codes of a deed, each from a scan.
#[tactic(auto, unfolding(crate::specs::Deeds::codes_at))]
pub(crate) fn read_codes(alloc: Global, value: &Value) -> Result<Codes, DeedFault>
    ensures is { IsDue (λ x. x) DeedFault.Memory result (codes_at (view value.now)) }
    ensures few { IfOk result (λ codes. length codes ≤ 1000) }
    ensures proper { IfOk result (λ codes. list_all is_dated codes ≡ true) }
{
    codes_in(alloc, read_entries(value, Member::Codes)?)
}

/// The items or units of a deed, each from a URN.
#[tactic(auto, unfolding(crate::specs::Deeds::epcs_at))]
pub(crate) fn read_epcs(alloc: Global, value: &Value, member: Member) -> Result<Epcs, DeedFault>
    ensures is { IsDue (λ x. x) DeedFault.Memory result (epcs_at member (view value.now)) }
    ensures few { IfOk result (λ epcs. length epcs ≤ 1000) }
{
    epcs_in(alloc, member, read_entries(value, member)?)
}

/// The serials of a deed.
#[tactic(auto, unfolding(crate::specs::Deeds::serials_at))]
pub(crate) fn read_serials(alloc: Global, value: &Value) -> Result<Serials, DeedFault>
    ensures is { IsDue (λ x. x) DeedFault.Memory result (serials_at (view value.now)) }
    ensures few { IfOk result (λ serials. length serials ≤ 1000) }
{
    serials_in(alloc, read_entries(value, Member::Serials)?)
}
