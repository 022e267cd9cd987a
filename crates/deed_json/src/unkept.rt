//! Answers that aren't kept, as JSON.
ghost use Rattle.std.specs.Prelude.{◌≡◌, [], ◌∷◌, IfOk, codes, string_bytes};
ghost use Rattle.serde_json.specs.Data.{object};
ghost use Rattle.serde_json.specs.View.{view, members_view};
ghost use Rattle.serde_json.specs.Written.{compact_text};
ghost use Rattle.deed_json.specs.Objects.{with_told, whole};
ghost use Rattle.deed_json.specs.Unkept.{number_of_scan, number_of_urn, code_at, inner_at, name_at, told_of, fault, fault_members, unkept_data};

use crate::ask::AskFault;
use crate::deed_fault::{DeedFault, Member};
use epc_urn::UrnFault;
use gs1_element::ElementFault;
use gs1_keys::Memory;
use serde_json::{Map, Value, put};
use std::alloc::{AllocError, Global};

/// What is answered to a request that isn't kept.
#[derive(Clone, Copy, Debug, PartialEq, Eq)]
pub enum Unkept {
    /// The bytes are no request.
    BadLine,
    /// The line has more than 1,048,576 bytes.
    LineTooLong,
    /// No station has the name.
    NoStation,
    /// The deed has this fault.
    BadDeed(DeedFault),
    /// The number is neither the station's next one nor one that was kept; this is its last one, or 0.
    NumberGap(u64),
    /// The number was kept with another deed.
    NumberReused,
    /// The disk failed.
    DiskFault,
    /// The clock failed.
    ClockFault,
    /// The clock told a moment past the year 9999, in milliseconds since 1970.
    ClockRange(u64),
    /// A random word couldn't be had.
    WordsFault,
    /// All the words that a draw may take held only so many new serials.
    WordsSpent(u64),
    /// The journal ends at this place, and has no room for so many bytes.
    JournalFull { end: u64, asked: u64 },
    /// Memory is wanting.
    Memory,
}

impl From<AskFault> for Unkept {
    ghost use Rattle.deed_json.specs.Unkept.{unkept_of};

    ghost from_gives = { λ fault e. e ≡ unkept_of fault };

    fn from(fault: AskFault) -> Unkept {
        match fault {
            AskFault::BadLine => Unkept::BadLine,
            AskFault::NoStation => Unkept::NoStation,
            AskFault::BadDeed(fault) => Unkept::BadDeed(fault),
            AskFault::Memory => Unkept::Memory,
        }
    }
}

/// The number of a fault of a scan.
fn number_of_scan(fault: ElementFault) -> u32
    ensures { result ≡ number_of_scan fault }
{
    match fault {
        ElementFault::Empty => 1,
        ElementFault::ShortElement(_) => 2,
        ElementFault::Missing(_) => 3,
        ElementFault::Twice(_) => 4,
        ElementFault::BadValue(_, _) => 5,
        ElementFault::BadMonthOrDay(_) => 6,
        ElementFault::BadIdentifier(_) => 7,
    }
}

/// The number of a fault of a URN.
fn number_of_urn(fault: UrnFault) -> u32
    ensures { result ≡ number_of_urn fault }
{
    match fault {
        UrnFault::UnknownScheme => 1,
        UrnFault::BadPrefixLength(_) => 2,
        UrnFault::BadField(_) => 3,
        UrnFault::BadEscape(_) => 4,
        UrnFault::EscapeNotNeeded(_) => 5,
        UrnFault::TooLong => 6,
    }
}

/// The members of every answer that isn't kept.
fn failure(alloc: Global, name: &str) -> Result<Map<String, Value>, AllocError>
    ensures { IfOk result (λ m. members_view m.entries ≡ fault_members name.now) }
{
    let mut members = Map::new(alloc);
    let name = Value::try_from_str(alloc, name)?;
    put(&mut members, alloc, "ok", Value::from(false))?;
    put(&mut members, alloc, "fault", name)?;
    Ok(members)
}

/// An answer that tells no more than its name.
fn plain(alloc: Global, name: &str) -> Result<Value, AllocError>
    ensures { IfOk result (λ v. view v ≡ fault name.now []) }
{
    Ok(Value::Object(failure(alloc, name)?))
}

/// An answer that tells one number.
fn one(alloc: Global, name: &str, key: &str, number: u64) -> Result<Value, AllocError>
    ensures { IfOk result (λ v. view v ≡ fault name.now ((key.now, whole number) ∷ [])) }
{
    let mut members = failure(alloc, name)?;
    put(&mut members, alloc, key, Value::from(number))?;
    Ok(Value::Object(members))
}

/// The answer that the journal is full.
#[tactic(auto, unfolding(crate::specs::Unkept::unkept_data))]
fn full(alloc: Global, end: u64, asked: u64) -> Result<Value, AllocError>
    ensures { IfOk result (λ v. view v ≡ unkept_data (Unkept.JournalFull end asked)) }
{
    let mut members = failure(alloc, "JournalFull")?;
    put(&mut members, alloc, "end", Value::from(end))?;
    put(&mut members, alloc, "asked", Value::from(asked))?;
    Ok(Value::Object(members))
}

/// The members of an answer about a deed, with its fault's number.
fn coded(alloc: Global, code: u32) -> Result<Map<String, Value>, AllocError>
    ensures { IfOk result (λ m. members_view m.entries ≡ with_told (fault_members (codes "BadDeed")) (code_at code ∷ [])) }
{
    let mut members = failure(alloc, "BadDeed")?;
    put(&mut members, alloc, "code", Value::from(code))?;
    Ok(members)
}

/// A fault that names a member.
fn named(alloc: Global, code: u32, member: Member) -> Result<Value, AllocError>
    ensures { IfOk result (λ v. view v ≡ fault (codes "BadDeed") (code_at code ∷ name_at member ∷ [])) }
{
    let mut members = coded(alloc, code)?;
    put(
        &mut members,
        alloc,
        "name",
        Value::try_from_str(alloc, member.name())?,
    )?;
    Ok(Value::Object(members))
}

/// A fault that tells one number.
fn counted(alloc: Global, code: u32, key: &str, count: u64) -> Result<Value, AllocError>
    ensures { IfOk result (λ v. view v ≡ fault (codes "BadDeed") (code_at code ∷ (key.now, whole count) ∷ [])) }
{
    let mut members = coded(alloc, code)?;
    put(&mut members, alloc, key, Value::from(count))?;
    Ok(Value::Object(members))
}

/// The fault of an entry at a place, with the number of its own fault.
fn placed(alloc: Global, code: u32, index: u64, inner: u32) -> Result<Value, AllocError>
    ensures { IfOk result (λ v. view v ≡ fault (codes "BadDeed") (code_at code ∷ (codes "index", whole index) ∷ inner_at inner ∷ [])) }
{
    let mut members = coded(alloc, code)?;
    put(&mut members, alloc, "index", Value::from(index))?;
    put(&mut members, alloc, "inner", Value::from(inner))?;
    Ok(Value::Object(members))
}

/// The fault of a row of an order file.
#[tactic(auto, unfolding(crate::specs::Unkept::told_of))]
fn in_row(alloc: Global, line: u64, column: u64) -> Result<Value, AllocError>
    ensures { IfOk result (λ v. view v ≡ fault (codes "BadDeed") (told_of (DeedFault.BadRow line column))) }
{
    let mut members = coded(alloc, 8)?;
    put(&mut members, alloc, "column", Value::from(column))?;
    put(&mut members, alloc, "line", Value::from(line))?;
    Ok(Value::Object(members))
}

/// The answer to a deed with a fault.
#[tactic(auto, unfolding(crate::specs::Unkept::told_of))]
fn bad_deed(alloc: Global, broken: DeedFault) -> Result<Value, AllocError>
    ensures { IfOk result (λ v. view v ≡ fault (codes "BadDeed") (told_of broken)) }
{
    match broken {
        DeedFault::NotObject => Ok(Value::Object(coded(alloc, 1)?)),
        DeedFault::NoMember(member) => named(alloc, 2, member),
        DeedFault::BadMember(member) => named(alloc, 3, member),
        DeedFault::BadCode(index, inner) => placed(alloc, 4, index, number_of_scan(inner)),
        DeedFault::BadUrn(index, inner) => placed(alloc, 5, index, number_of_urn(inner)),
        DeedFault::TooMany(count) => counted(alloc, 6, "count", count),
        DeedFault::Memory => Ok(Value::Object(coded(alloc, 7)?)),
        DeedFault::BadRow(line, column) => in_row(alloc, line, column),
    }
}

/// The JSON of an answer that isn't kept: `ok` false, `fault`, and what else it tells. Of a deed's fault these are its
/// number as `code`, and the `name` of the member, the `index` of the entry with the number of its `inner` fault, the
/// `count` of entries, or the `line` and `column` of a row.
#[tactic(auto, unfolding(crate::specs::Unkept::unkept_data))]
pub fn unkept_value(alloc: Global, unkept: Unkept) -> Result<Value, Memory>
    ensures { IfOk result (λ v. view v ≡ unkept_data unkept) }
{
    let value = match unkept {
        Unkept::BadLine => plain(alloc, "BadLine"),
        Unkept::LineTooLong => plain(alloc, "LineTooLong"),
        Unkept::NoStation => plain(alloc, "NoStation"),
        Unkept::BadDeed(broken) => bad_deed(alloc, broken),
        Unkept::NumberGap(last) => one(alloc, "NumberGap", "last", last),
        Unkept::NumberReused => plain(alloc, "NumberReused"),
        Unkept::DiskFault => plain(alloc, "DiskFault"),
        Unkept::ClockFault => plain(alloc, "ClockFault"),
        Unkept::ClockRange(ms) => one(alloc, "ClockRange", "ms", ms),
        Unkept::WordsFault => plain(alloc, "WordsFault"),
        Unkept::WordsSpent(found) => one(alloc, "WordsSpent", "found", found),
        Unkept::JournalFull { end, asked } => full(alloc, end, asked),
        Unkept::Memory => plain(alloc, "Memory"),
    };
    value.map_err(|_| Memory)
}

/// The text of that JSON, compact: with no space, and the keys in order of their bytes.
pub fn unkept_text(alloc: Global, unkept: Unkept) -> Result<String, Memory>
    ensures { IfOk result (λ s. string_bytes s ≡ compact_text (unkept_data unkept)) }
{
    match unkept_value(alloc, unkept)?.to_string(alloc) {
        Ok(text) => Ok(text),
        Err(_) => Err(Memory),
    }
}
