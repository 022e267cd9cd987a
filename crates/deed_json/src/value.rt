//! Texts, keys and numbers as JSON values.
ghost use Rattle.std.specs.Prelude.{◌≡◌, ◌<◌, length, IfOk, IsAscii};
ghost use Rattle.serde_json.specs.Data.{string, array};
ghost use Rattle.serde_json.specs.View.{view};
ghost use Rattle.epc_urn.specs.Urns.{urn_text, IsPrefixLength};
ghost use Rattle.deed_json.specs.Objects.{texts_of, numbers_of};
ghost use Rattle.deed_json.specs.Replies.{station_name, urn_of_unit};

use crate::words::name_of_station;
use deed_words::{Setup, StationId};
use epc_urn::{Epc, UrnText, print_urn};
use gs1_keys::{Sscc, Text20};
use serde_json::Value;
use std::alloc::{AllocError, Global};
use std::str;

/// ASCII characters as a text.
#[tactic(auto, using(crate::proofs::Ascii::ascii_is_utf8))]
pub(crate) fn ascii_str(characters: &[u8]) -> &str
    requires { IsAscii characters.now }
    ensures { result.now ≡ characters.now }
{
    match str::from_utf8(characters) {
        Ok(text) => text,
        Err(_) => unreachable!(),
    }
}

/// A text as JSON. The error is want of memory.
#[tactic(auto, using(crate::proofs::Ascii::text_is_ascii))]
pub fn text_value(alloc: Global, text: &Text20) -> Result<Value, AllocError>
    ensures { IfOk result (λ v. view v ≡ string text.now) }
{
    Value::try_from_str(alloc, ascii_str(text.bytes()))
}

/// The 18 digits of an SSCC as JSON. The error is want of memory.
#[tactic(auto, using(crate::proofs::Ascii::sscc_is_ascii))]
pub fn sscc_value(alloc: Global, sscc: &Sscc) -> Result<Value, AllocError>
    ensures { IfOk result (λ v. view v ≡ string sscc.now) }
{
    Value::try_from_str(alloc, ascii_str(sscc.digits()))
}

/// The URN of a container whose company prefix has this length.
#[tactic(auto, using(crate::proofs::Urns::urn_is_ascii))]
fn container_urn(sscc: &Sscc, prefix_length: u8) -> UrnText
    requires { IsPrefixLength prefix_length }
    ensures is { result ≡ urn_text (Epc.Unit sscc.now) prefix_length }
    ensures ascii { IsAscii result }
{
    prove!(sscc.digits().is_ascii());
    print_urn(&Epc::Unit(*sscc), prefix_length)
}

/// The URN of a container of the site.
#[tactic(auto, unfolding(crate::specs::Replies::urn_of_unit))]
pub(crate) fn urn_value(alloc: Global, sscc: &Sscc, setup: &Setup) -> Result<Value, AllocError>
    ensures { IfOk result (λ v. view v ≡ string (urn_of_unit setup.now sscc.now)) }
{
    let urn = container_urn(sscc, setup.prefix.digits().len() as u8);
    Value::try_from_str(alloc, ascii_str(urn.bytes()))
}

/// The name of a line.
pub(crate) fn line_value(alloc: Global, line: StationId, setup: &Setup) -> Result<Value, AllocError>
    requires { line < length setup.now.stations }
    ensures { IfOk result (λ v. view v ≡ string (station_name setup.now line)) }
{
    text_value(alloc, name_of_station(setup, line))
}

/// An array of texts.
pub(crate) fn texts_value(alloc: Global, texts: &[Text20]) -> Result<Value, AllocError>
    ensures { IfOk result (λ v. view v ≡ array (texts_of texts.now)) }
{
    let mut list = Vec::new(alloc);
    for text in texts {
        list.push(text_value(alloc, text)?)?;
    }
    Ok(Value::Array(list))
}

/// An array of numbers.
pub(crate) fn numbers_value(alloc: Global, numbers: &[u32]) -> Result<Value, AllocError>
    ensures { IfOk result (λ v. view v ≡ array (numbers_of numbers.now)) }
{
    let mut list = Vec::new(alloc);
    for number in numbers {
        list.push(Value::from(*number))?;
    }
    Ok(Value::Array(list))
}
