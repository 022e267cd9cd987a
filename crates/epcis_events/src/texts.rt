//! Texts of events as JSON values.
ghost use Rattle.std.specs.Prelude.{◌≡◌, IfOk, IsAscii, All, true};
ghost use Rattle.serde_json.specs.Data.{string, array};
ghost use Rattle.serde_json.specs.View.{view};
ghost use Rattle.epc_urn.specs.Urns.{urn_text, sgln_text, IsPrefixLength};
ghost use Rattle.epcis_events.specs.Moment.{moment_text};
ghost use Rattle.epcis_events.specs.Documents.{urns_of, place_data, IsInTime};

use crate::moment::event_time;
use epc_urn::{Epc, UrnText, print_sgln, print_urn};
use gs1_keys::{Gln, Gtin, Sscc, Text20};
use serde_json::{Value, json};
use std::alloc::{AllocError, Global};
use std::str;

/// ASCII characters as a text.
#[tactic(auto, using(crate::proofs::Ascii::ascii_is_utf8))]
fn ascii_str(characters: &[u8]) -> &str
    requires { IsAscii characters.now }
    ensures { result.now ≡ characters.now }
{
    match str::from_utf8(characters) {
        Ok(text) => text,
        Err(_) => unreachable!(),
    }
}

/// ASCII characters as a value.
pub(crate) fn ascii_value(alloc: Global, characters: &[u8]) -> Result<Value, AllocError>
    requires { IsAscii characters.now }
    ensures { IfOk result (λ v. view v ≡ string characters.now) }
{
    Value::try_from_str(alloc, ascii_str(characters))
}

/// A text as a value.
#[tactic(auto, using(crate::proofs::Ascii::text_is_ascii))]
pub(crate) fn text_value(alloc: Global, text: &Text20) -> Result<Value, AllocError>
    ensures { IfOk result (λ v. view v ≡ string text.now) }
{
    ascii_value(alloc, text.bytes())
}

/// The URN of an item.
#[tactic(auto, using(crate::proofs::Ascii::gtin_is_ascii, crate::proofs::Ascii::text_is_ascii, crate::proofs::Ascii::item_urn_is_ascii))]
fn item_urn(gtin: &Gtin, serial: &Text20, prefix_length: u8) -> UrnText
    requires { IsPrefixLength prefix_length }
    ensures is { result ≡ urn_text (Epc.Item gtin.now serial.now) prefix_length }
    ensures ascii { IsAscii result }
{
    prove!(gtin.digits().is_ascii());
    prove!(serial.bytes().is_ascii());
    print_urn(&Epc::Item(*gtin, *serial), prefix_length)
}

/// The URN of a container.
#[tactic(auto, using(crate::proofs::Ascii::sscc_is_ascii, crate::proofs::Ascii::unit_urn_is_ascii))]
fn unit_urn(sscc: &Sscc, prefix_length: u8) -> UrnText
    requires { IsPrefixLength prefix_length }
    ensures is { result ≡ urn_text (Epc.Unit sscc.now) prefix_length }
    ensures ascii { IsAscii result }
{
    prove!(sscc.digits().is_ascii());
    print_urn(&Epc::Unit(*sscc), prefix_length)
}

/// The URN of a location.
#[tactic(auto, using(crate::proofs::Ascii::gln_is_ascii, crate::proofs::Ascii::sgln_is_ascii))]
fn place_urn(gln: &Gln, prefix_length: u8) -> UrnText
    requires { IsPrefixLength prefix_length }
    ensures is { result ≡ sgln_text gln.now prefix_length }
    ensures ascii { IsAscii result }
{
    prove!(gln.digits().is_ascii());
    print_sgln(gln, prefix_length)
}

/// A name as a value.
pub(crate) fn urn_value(alloc: Global, name: &Epc, prefix_length: u8) -> Result<Value, AllocError>
    requires { IsPrefixLength prefix_length }
    ensures { IfOk result (λ v. view v ≡ string (urn_text name.now prefix_length)) }
{
    match name {
        Epc::Item(gtin, serial) => ascii_value(
            alloc,
            item_urn(gtin, serial, prefix_length).bytes(),
        ),
        Epc::Unit(sscc) => ascii_value(alloc, unit_urn(sscc, prefix_length).bytes()),
    }
}

/// Names as an array.
pub(crate) fn urns_value(alloc: Global, named: &[(Epc, u8)]) -> Result<Value, AllocError>
    requires { All (λ one. IsPrefixLength one.1) named.now }
    ensures { IfOk result (λ v. view v ≡ array (urns_of named.now)) }
{
    let mut list = Vec::new(alloc);
    for one in named {
        list.push(urn_value(alloc, &one.0, one.1)?)?;
    }
    Ok(Value::Array(list))
}

/// A place as an object with its id.
pub(crate) fn place_value(alloc: Global, gln: &Gln, prefix_length: u8) -> Result<Value, AllocError>
    requires { IsPrefixLength prefix_length }
    ensures { IfOk result (λ v. view v ≡ place_data (gln.now, prefix_length)) }
{
    let urn = ascii_value(alloc, place_urn(gln, prefix_length).bytes())?;
    json!(in alloc; {"id": urn})
}

/// A moment as a value.
#[tactic(auto, using(crate::proofs::Ascii::moment_is_ascii))]
pub(crate) fn moment_value(alloc: Global, stamp: u64) -> Result<Value, AllocError>
    requires { IsInTime stamp }
    ensures { IfOk result (λ v. view v ≡ string (moment_text stamp)) }
{
    let text = event_time(stamp);
    ascii_value(alloc, &text)
}
