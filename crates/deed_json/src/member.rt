//! The members of a deed.
ghost use Rattle.std.specs.Prelude.{◌≡◌, ◌≤◌, length, IfOk, true};
ghost use Rattle.serde_json.specs.View.{view, items_view};
ghost use Rattle.gs1_element.specs.Dates.{is_expiry};
ghost use Rattle.site_files.specs.Due.{IsExactly};
ghost use Rattle.deed_json.specs.Deeds.{member_of, text_at, name_at, gtin_at, expiry_at, number_at, level_at, sscc_in, unit_at, entries_of, operator_at};

use crate::deed_fault::{DeedFault, Member};
use deed_words::Level;
use epc_urn::{Epc, read_urn};
use gs1_keys::{Gtin, Sscc, Text20};
use serde_json::Value;
use site_files::read_expiry;

#[tactic(auto, unfolding(crate::specs::Deeds::member_of))]
fn read_member(value: &Value, member: Member) -> Result<&Value, DeedFault>
    ensures { IsExactly (λ v. view v.now) result (member_of member (view value.now)) }
{
    match value.get(member.name()) {
        Some(found) => Ok(found),
        None => Err(DeedFault::NoMember(member)),
    }
}

/// The text at a member.
#[tactic(auto, unfolding(crate::specs::Deeds::text_at))]
pub(crate) fn read_text(value: &Value, member: Member) -> Result<&str, DeedFault>
    ensures { IsExactly (λ s. s.now) result (text_at member (view value.now)) }
{
    match read_member(value, member)?.as_str() {
        Some(text) => Ok(text),
        None => Err(DeedFault::BadMember(member)),
    }
}

/// The text of 1 to 20 characters at a member.
#[tactic(auto, using(site_files::proofs::Proper::text_is_some), unfolding(crate::specs::Deeds::name_at))]
pub(crate) fn read_name(value: &Value, member: Member) -> Result<Text20, DeedFault>
    ensures is { IsExactly (λ x. x) result (name_at member (view value.now)) }
    ensures some { IfOk result (λ name. 1 ≤ length name) }
{
    match Text20::read(read_text(value, member)?.as_bytes()) {
        Ok(name) => Ok(name),
        Err(_) => Err(DeedFault::BadMember(member)),
    }
}

/// The GTIN of an order.
#[tactic(auto, unfolding(crate::specs::Deeds::gtin_at))]
pub(crate) fn read_gtin(value: &Value) -> Result<Gtin, DeedFault>
    ensures { IsExactly (λ x. x) result (gtin_at (view value.now)) }
{
    match Gtin::read(read_text(value, Member::Gtin)?.as_bytes()) {
        Ok(gtin) => Ok(gtin),
        Err(_) => Err(DeedFault::BadMember(Member::Gtin)),
    }
}

/// The expiry of an order.
#[tactic(auto, unfolding(crate::specs::Deeds::expiry_at))]
pub(crate) fn read_date(value: &Value) -> Result<[u8; 6], DeedFault>
    ensures is { IsExactly (λ x. x) result (expiry_at (view value.now)) }
    ensures proper { IfOk result (λ expiry. is_expiry expiry ≡ true) }
{
    match read_expiry(read_text(value, Member::Expiry)?.as_bytes()) {
        Some(expiry) => Ok(expiry),
        None => Err(DeedFault::BadMember(Member::Expiry)),
    }
}

/// The whole number at a member, from `low` to `high`.
#[tactic(auto, unfolding(crate::specs::Deeds::number_at))]
pub(crate) fn read_number(
    value: &Value,
    member: Member,
    low: u32,
    high: u32,
) -> Result<u32, DeedFault>
    ensures is { IsExactly (λ n. n) result (number_at member low high (view value.now)) }
    ensures within { IfOk result (λ n. (low ≤ n) × (n ≤ high)) }
{
    let Some(number) = read_member(value, member)?.as_u64() else {
        return Err(DeedFault::BadMember(member));
    };
    if number < u64::from(low) || number > u64::from(high) {
        return Err(DeedFault::BadMember(member));
    }
    Ok(number as u32)
}

/// The level of a new container.
#[tactic(auto, unfolding(crate::specs::Deeds::level_at))]
pub(crate) fn read_level(value: &Value) -> Result<Level, DeedFault>
    ensures { IsExactly (λ x. x) result (level_at (view value.now)) }
{
    match read_text(value, Member::Level)? {
        "case" => Ok(Level::Case),
        "pallet" => Ok(Level::Pallet),
        _ => Err(DeedFault::BadMember(Member::Level)),
    }
}

/// The SSCC of a container, where it is one that is named.
fn sscc_of(epc: Epc) -> Option<Sscc>
    ensures { result ≡ sscc_in epc }
{
    match epc {
        Epc::Unit(sscc) => Some(sscc),
        Epc::Item(_, _) => None,
    }
}

/// The container that a deed names by its URN.
#[tactic(auto, unfolding(crate::specs::Deeds::unit_at))]
pub(crate) fn read_unit(value: &Value) -> Result<Sscc, DeedFault>
    ensures { IsExactly (λ x. x) result (unit_at (view value.now)) }
{
    let Ok(named) = read_urn(read_text(value, Member::Unit)?.as_bytes()) else {
        return Err(DeedFault::BadMember(Member::Unit));
    };
    match sscc_of(named.0) {
        Some(sscc) => Ok(sscc),
        None => Err(DeedFault::BadMember(Member::Unit)),
    }
}

/// The entries of a list, of which there are at most 1,000.
#[tactic(auto, unfolding(crate::specs::Deeds::entries_of))]
pub(crate) fn read_entries(value: &Value, member: Member) -> Result<&[Value], DeedFault>
    ensures is { IsExactly (λ entries. items_view entries.now) result (entries_of member (view value.now)) }
    ensures few { IfOk result (λ entries. length entries.now ≤ 1000) }
{
    let Some(entries) = read_member(value, member)?.as_array() else {
        return Err(DeedFault::BadMember(member));
    };
    if entries.len() > 1_000 {
        return Err(DeedFault::TooMany(entries.len() as u64));
    }
    Ok(entries.as_slice())
}

/// The operator, where the deed names one.
#[tactic(auto, unfolding(crate::specs::Deeds::operator_at))]
pub(crate) fn read_operator(value: &Value) -> Result<Option<Text20>, DeedFault>
    ensures { IsExactly (λ x. x) result (operator_at (view value.now)) }
{
    let Some(found) = value.get("operator") else {
        return Ok(None);
    };
    let Some(text) = found.as_str() else {
        return Err(DeedFault::BadMember(Member::Operator));
    };
    match Text20::read(text.as_bytes()) {
        Ok(name) => Ok(Some(name)),
        Err(_) => Err(DeedFault::BadMember(Member::Operator)),
    }
}
