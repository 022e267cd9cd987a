//! What a line or a body asks.
ghost use Rattle.std.specs.Prelude.{◌≡◌, ◌<◌, length, IfOk};
ghost use Rattle.serde_json.specs.View.{view};
ghost use Rattle.deed_words.specs.Proper.{IsProperAsk, IsProperSaid};
ghost use Rattle.site_files.specs.Due.{IsDue, IsExactly};
ghost use Rattle.deed_json.specs.Deeds.{said_of};
ghost use Rattle.deed_json.specs.Asked.{or_bad_line, or_bad_deed, known_as, json_of, object_of, body_of, station_at, number_at, deed_at, asked_of};

use crate::deed::read_deed;
use crate::deed_fault::DeedFault;
use deed_words::{Ask, Said, Setup, StationId, station_of};
use gs1_keys::Memory;
use serde_json::Value;
use std::alloc::Global;

/// Why bytes ask for nothing.
#[derive(Clone, Copy, Debug, PartialEq, Eq)]
pub enum AskFault {
    /// The bytes are no JSON object, or a line has no text `station`, no whole number `number` below 2^64, or no `deed`.
    BadLine,
    /// No station of the site has the name.
    NoStation,
    /// The deed has this fault, which isn't `DeedFault::Memory`.
    BadDeed(DeedFault),
    /// Memory is wanting.
    Memory,
}

#[tactic(auto, unfolding(crate::specs::Asked::json_of))]
fn read_json(alloc: Global, bytes: &[u8]) -> Result<Value, AskFault>
    ensures { IsDue (λ v. view v) AskFault.Memory result (or_bad_line (json_of bytes.now)) }
{
    match Value::from_slice(alloc, bytes) {
        Ok(value) => Ok(value),
        Err(fault) => if fault.is_memory() {
            Err(AskFault::Memory)
        } else {
            Err(AskFault::BadLine)
        },
    }
}

#[tactic(auto, unfolding(crate::specs::Asked::object_of))]
fn read_object(alloc: Global, bytes: &[u8]) -> Result<Value, AskFault>
    ensures { IsDue (λ v. view v) AskFault.Memory result (object_of bytes.now) }
{
    let value = read_json(alloc, bytes)?;
    if !value.is_object() {
        return Err(AskFault::BadLine);
    }
    Ok(value)
}

fn read_said(alloc: Global, value: &Value) -> Result<Said, AskFault>
    ensures is { IsDue (λ x. x) AskFault.Memory result (or_bad_deed (said_of (view value.now))) }
    ensures proper { IfOk result (λ said. IsProperSaid said) }
{
    match read_deed(alloc, value) {
        Ok(said) => Ok(said),
        Err(DeedFault::Memory) => Err(AskFault::Memory),
        Err(fault) => Err(AskFault::BadDeed(fault)),
    }
}

/// The name of the station of a line.
#[tactic(auto, unfolding(crate::specs::Asked::station_at))]
fn read_station(value: &Value) -> Result<&str, AskFault>
    ensures { IsExactly (λ s. s.now) result (station_at (view value.now)) }
{
    let Some(station) = value.get("station") else {
        return Err(AskFault::BadLine);
    };
    match station.as_str() {
        Some(name) => Ok(name),
        None => Err(AskFault::BadLine),
    }
}

/// The number of a line.
#[tactic(auto, unfolding(crate::specs::Asked::number_at))]
fn read_number(value: &Value) -> Result<u64, AskFault>
    ensures { IsExactly (λ n. n) result (number_at (view value.now)) }
{
    let Some(number) = value.get("number") else {
        return Err(AskFault::BadLine);
    };
    match number.as_u64() {
        Some(number) => Ok(number),
        None => Err(AskFault::BadLine),
    }
}

/// The deed of a line.
#[tactic(auto, unfolding(crate::specs::Asked::deed_at))]
fn read_body_of(value: &Value) -> Result<&Value, AskFault>
    ensures { IsExactly (λ v. view v.now) result (deed_at (view value.now)) }
{
    match value.get("deed") {
        Some(deed) => Ok(deed),
        None => Err(AskFault::BadLine),
    }
}

/// The station of that name.
#[tactic(auto, unfolding(crate::specs::Asked::known_as))]
fn known(setup: &Setup, name: &str) -> Result<StationId, AskFault>
    ensures is { IsExactly (λ s. s) result (known_as setup.now name.now) }
    ensures within { IfOk result (λ station. station < length setup.now.stations) }
{
    match station_of(setup, name.as_bytes()) {
        Some(station) => Ok(station),
        None => Err(AskFault::NoStation),
    }
}

/// What a body asks: the deed that its bytes spell in JSON, with the operator where it names one. Else its first fault:
/// `BadLine` where the bytes are no JSON object, or else `BadDeed`.
#[tactic(auto, unfolding(crate::specs::Asked::body_of))]
pub fn read_body(alloc: Global, bytes: &[u8]) -> Result<Said, AskFault>
    ensures is { IsDue (λ x. x) AskFault.Memory result (body_of bytes.now) }
    ensures proper { IfOk result (λ said. IsProperSaid said) }
{
    let value = read_object(alloc, bytes)?;
    read_said(alloc, &value)
}

/// What a line asks of a site: `{"station":S,"number":N,"deed":{..}}` in JSON, where S is the name of a station and N a
/// whole number below 2^64. Else its first fault: `BadLine`, then `NoStation`, then `BadDeed`. Members of other names are
/// passed over.
#[tactic(auto, unfolding(crate::specs::Asked::asked_of))]
pub fn read_ask(alloc: Global, setup: &Setup, line: &[u8]) -> Result<Ask, AskFault>
    ensures is { IsDue (λ x. x) AskFault.Memory result (asked_of setup.now line.now) }
    ensures station { IfOk result (λ ask. ask.station < length setup.now.stations) }
    ensures proper { IfOk result (λ ask. IsProperAsk ask) }
{
    let value = read_object(alloc, line)?;
    let name = read_station(&value)?;
    let number = read_number(&value)?;
    let body = read_body_of(&value)?;
    let station = known(setup, name)?;
    let Said { deed, operator } = read_said(alloc, body)?;
    Ok(Ask {
        station,
        number,
        operator,
        deed,
    })
}
