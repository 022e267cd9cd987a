//! Printing URNs.
ghost use Rattle.std.specs.Prelude.{◌≡◌, ◌≤◌, ◌+◌, ◌*◌, ◌++◌, ◌∷◌, length, take, drop, Ok};
ghost use Rattle.gs1_keys.specs.Keys.{front};
ghost use Rattle.epc_urn.specs.Serial.{written, serial_text};
ghost use Rattle.epc_urn.specs.Urns.{key_text, urn_text, urn_of, sgln_text, IsEpc, IsPrefixLength};

use crate::epc::Epc;
use crate::text::UrnText;
use gs1_keys::{Gln, Gtin, Sscc, Text20};

/// Puts a character of a serial, escaped where it is one of the seven.
fn put_character(text: &mut UrnText, character: u8)
    requires { length text.old + 3 ≤ 92 }
    ensures is { text.new ≡ text.old ++ written character }
    ensures size { length text.new ≤ length text.old + 3 }
{
    match character {
        b'"' => text.put(b"%22"),
        b'%' => text.put(b"%25"),
        b'&' => text.put(b"%26"),
        b'/' => text.put(b"%2F"),
        b'<' => text.put(b"%3C"),
        b'>' => text.put(b"%3E"),
        b'?' => text.put(b"%3F"),
        _ => text.put(&[character]),
    }
}

/// Puts a serial.
fn put_serial(text: &mut UrnText, serial: &[u8])
    requires { length text.old + 3 * length serial.now ≤ 92 }
    ensures { text.new ≡ text.old ++ serial_text serial.now }
{
    for character in serial {
        put_character(text, *character);
    }
}

/// The digits of a key without the check digit.
fn without_check(key: &[u8]) -> &[u8]
    requires { 1 ≤ length key.now }
    ensures is { result.now ≡ front key.now }
    ensures size { length result.now + 1 ≡ length key.now }
{
    &key[..key.len() - 1]
}

/// Puts digits in two fields: the prefix, which begins at the second digit; then the first and those after the prefix.
fn put_key(text: &mut UrnText, digits: &[u8], prefix_length: usize)
    requires size { length text.old + length digits.now + 1 ≤ 92 }
    requires within { 1 + prefix_length ≤ length digits.now }
    ensures is { text.new ≡ text.old ++ key_text prefix_length digits.now }
    ensures size { length text.new ≡ length text.old + length digits.now + 1 }
{
    text.put(&digits[1..1 + prefix_length]);
    text.put(b".");
    text.put(&digits[..1]);
    text.put(&digits[1 + prefix_length..]);
}

/// The URN of an item.
#[tactic(auto, unfolding(crate::specs::Urns::urn_text, crate::specs::Urns::sgtin_scheme), using(crate::proofs::Keys::gtin_size))]
fn print_sgtin(gtin: &Gtin, serial: &Text20, prefix_length: u8) -> UrnText
    requires { IsPrefixLength prefix_length }
    ensures is { result ≡ urn_text (Epc.Item gtin.now serial.now) prefix_length }
    ensures valid { IsEpc (Epc.Item gtin.now serial.now) }
{
    let mut text = UrnText::new();
    text.put(b"urn:epc:id:sgtin:");
    put_key(
        &mut text,
        without_check(gtin.digits()),
        usize::from(prefix_length),
    );
    text.put(b".");
    put_serial(&mut text, serial.bytes());
    text
}

/// The URN of a logistic unit.
#[tactic(auto, unfolding(crate::specs::Urns::urn_text, crate::specs::Urns::sscc_scheme), using(crate::proofs::Keys::sscc_size))]
fn print_sscc(sscc: &Sscc, prefix_length: u8) -> UrnText
    requires { IsPrefixLength prefix_length }
    ensures is { result ≡ urn_text (Epc.Unit sscc.now) prefix_length }
    ensures valid { IsEpc (Epc.Unit sscc.now) }
{
    let mut text = UrnText::new();
    text.put(b"urn:epc:id:sscc:");
    put_key(
        &mut text,
        without_check(sscc.digits()),
        usize::from(prefix_length),
    );
    text
}

/// The URN of an item (SGTIN) or a logistic unit (SSCC) whose company prefix has this length, which is 6 to 12.
///
/// Reading it gives the name and the length back.
#[tactic(auto, using(crate::proofs::Whole::read_back))]
pub fn print_urn(epc: &Epc, prefix_length: u8) -> UrnText
    requires { IsPrefixLength prefix_length }
    ensures is { result ≡ urn_text epc.now prefix_length }
    ensures back { urn_of result ≡ Ok (epc.now, prefix_length) }
{
    match epc {
        Epc::Item(gtin, serial) => print_sgtin(gtin, serial, prefix_length),
        Epc::Unit(sscc) => print_sscc(sscc, prefix_length),
    }
}

/// Puts digits with a dot before the one at a place.
fn put_split(text: &mut UrnText, digits: &[u8], at: usize)
    requires size { length text.old + length digits.now + 1 ≤ 92 }
    requires within { at ≤ length digits.now }
    ensures is { text.new ≡ text.old ++ (take at digits.now ++ 46 ∷ drop at digits.now) }
    ensures size { length text.new ≡ length text.old + length digits.now + 1 }
{
    text.put(&digits[..at]);
    text.put(b".");
    text.put(&digits[at..]);
}

/// The URN of a location (SGLN) whose company prefix has this length, which is 6 to 12, without an extension.
#[tactic(auto, unfolding(crate::specs::Urns::sgln_text, crate::specs::Urns::sgln_scheme), using(crate::proofs::Keys::gln_length))]
pub fn print_sgln(gln: &Gln, prefix_length: u8) -> UrnText
    requires { IsPrefixLength prefix_length }
    ensures { result ≡ sgln_text gln.now prefix_length }
{
    let mut text = UrnText::new();
    text.put(b"urn:epc:id:sgln:");
    put_split(
        &mut text,
        without_check(gln.digits()),
        usize::from(prefix_length),
    );
    text.put(b".0");
    text
}
