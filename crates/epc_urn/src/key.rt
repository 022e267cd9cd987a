//! The digits of a key, made of its fields in a URN.
ghost use Rattle.std.specs.Prelude.{◌≡◌, ◌≤◌, ◌+◌, length};
ghost use Rattle.epc_urn.specs.Urns.{fields_of, key_of};
ghost use Rattle.epc_urn.specs.Reading.{AreDigits};

use gs1_keys::{Gtin, Sscc, check_digit};

/// Writes the first digit of `rest`, the prefix, and the other digits of `rest`.
fn write_fields(out: &mut [u8], prefix: &[u8], rest: &[u8])
    requires size { length prefix.now + length rest.now ≡ length out.old }
    requires some { 1 ≤ length rest.now }
    ensures { out.new ≡ fields_of prefix.now rest.now }
{
    let behind = 1 + prefix.len();
    out[0] = rest[0];
    out[1..behind].copy_from_slice(prefix);
    out[behind..].copy_from_slice(&rest[1..]);
}

/// Writes the digits of a key, the check digit last.
fn write_key(out: &mut [u8], prefix: &[u8], rest: &[u8])
    requires size { length prefix.now + length rest.now + 1 ≡ length out.old }
    requires some { 1 ≤ length rest.now }
    requires few { length out.old ≤ 18 }
    requires prefix { AreDigits prefix.now }
    requires rest { AreDigits rest.now }
    ensures { out.new ≡ key_of prefix.now rest.now }
{
    let last = out.len() - 1;
    write_fields(&mut out[..last], prefix, rest);
    match check_digit(&out[..last]) {
        Ok(digit) => out[last] = b'0' + digit,
        Err(_) => unreachable!(),
    }
}

/// The GTIN of a company prefix and the indicator and item reference behind it.
#[tactic(auto, using(crate::proofs::Keys::gtin_made))]
pub(crate) fn gtin_of_fields(prefix: &[u8], rest: &[u8]) -> Gtin
    requires size { length prefix.now + length rest.now ≡ 13 }
    requires some { 1 ≤ length rest.now }
    requires prefix { AreDigits prefix.now }
    requires rest { AreDigits rest.now }
    ensures { result ≡ key_of prefix.now rest.now }
{
    let mut digits = [0; 14];
    write_key(&mut digits, prefix, rest);
    match Gtin::read(&digits) {
        Ok(gtin) => gtin,
        Err(_) => unreachable!(),
    }
}

/// The SSCC of a company prefix and the extension and serial reference behind it.
#[tactic(auto, using(crate::proofs::Keys::sscc_made))]
pub(crate) fn sscc_of_fields(prefix: &[u8], rest: &[u8]) -> Sscc
    requires size { length prefix.now + length rest.now ≡ 17 }
    requires some { 1 ≤ length rest.now }
    requires prefix { AreDigits prefix.now }
    requires rest { AreDigits rest.now }
    ensures { result ≡ key_of prefix.now rest.now }
{
    let mut digits = [0; 18];
    write_key(&mut digits, prefix, rest);
    match Sscc::read(&digits) {
        Ok(sscc) => sscc,
        Err(_) => unreachable!(),
    }
}
