//! Reading URNs.
ghost use Rattle.std.specs.Prelude.{◌≡◌, ℕ, ◌≤◌, MatchOption, None, Some, Ok, IfOk};
ghost use Rattle.epc_urn.specs.declared.epc.Epc.{Epc};
ghost use Rattle.epc_urn.specs.Reading.{IsExactly};
ghost use Rattle.epc_urn.specs.Urns.{behind, item_at, unit_at, name_at, urn_of, urn_text, IsEpc, IsPrefixLength};

use crate::cursor::Cursor;
use crate::epc::Epc;
use crate::fault::{Stop, UrnFault};
use crate::fields::{read_digits, read_dot, read_end, read_prefix};
use crate::key::{gtin_of_fields, sscc_of_fields};
use crate::serial::read_serial;

/// The text behind a scheme that it begins with.
fn behind_scheme<'a>(scheme: &[u8], text: &'a [u8]) -> Option<&'a [u8]>
    ensures { MatchOption result (behind scheme.now text.now ≡ None) (λ rest. behind scheme.now text.now ≡ Some rest.now) }
{
    text.strip_prefix(scheme)
}

/// Company prefix, indicator and item reference, serial.
#[tactic(auto, unfolding(crate::specs::Urns::item_at))]
fn read_item(text: &[u8]) -> Result<(Epc, u8), Stop>
    ensures { IsExactly (λ named. named) result (item_at text.now) }
{
    let mut left = Cursor::new(text);
    let prefix = read_prefix(&mut left)?;
    let rest = read_digits(&mut left, 13 - prefix.len())?;
    read_dot(&mut left)?;
    let serial = read_serial(&mut left)?;
    Ok((
        Epc::Item(gtin_of_fields(prefix, rest), serial),
        prefix.len() as u8,
    ))
}

/// Company prefix, extension and serial reference.
#[tactic(auto, unfolding(crate::specs::Urns::unit_at))]
fn read_unit(text: &[u8]) -> Result<(Epc, u8), Stop>
    ensures { IsExactly (λ named. named) result (unit_at text.now) }
{
    let mut left = Cursor::new(text);
    let prefix = read_prefix(&mut left)?;
    let rest = read_digits(&mut left, 17 - prefix.len())?;
    read_end(&left)?;
    Ok((Epc::Unit(sscc_of_fields(prefix, rest)), prefix.len() as u8))
}

/// The name that a text spells, or where reading stopped.
#[tactic(auto, unfolding(crate::specs::Urns::name_at, crate::specs::Urns::sgtin_scheme, crate::specs::Urns::sscc_scheme))]
fn read_name(text: &[u8]) -> Result<(Epc, u8), Stop>
    ensures { IsExactly (λ named. named) result (name_at text.now) }
{
    if let Some(rest) = behind_scheme(b"urn:epc:id:sgtin:", text) {
        return read_item(rest);
    }
    if let Some(rest) = behind_scheme(b"urn:epc:id:sscc:", text) {
        return read_unit(rest);
    }
    Err(Stop::UnknownScheme)
}

/// The name that a URN spells, and the length of the company prefix in it.
///
/// Reading goes from left to right, and the first fault answers. Check digits don't stand in a URN: the key that is
/// answered has the digit that its other digits need.
pub fn read_urn(text: &[u8]) -> Result<(Epc, u8), UrnFault>
    ensures found { IfOk result (λ named. IsEpc named.0 × IsPrefixLength named.1 × (text.now ≡ urn_text named.0 named.1)) }
    ensures only { (epc : Epc) (length : ℕ) → IsEpc epc → IsPrefixLength length → text.now ≡ urn_text epc length → result ≡ Ok (epc, length) }
    ensures exact { result ≡ urn_of text.now }
{
    match read_name(text) {
        Ok(named) => Ok(named),
        Err(stop) => Err(stop.placed(text.len())),
    }
}
