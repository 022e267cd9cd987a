//! Codes to scans.
ghost use Rattle.std.specs.Prelude.{◌≡◌, ◌≤◌, ◌+◌, ◌++◌, Ok, [], length, true};
ghost use Rattle.gs1_element.specs.Dates.{is_expiry};
ghost use Rattle.gs1_element.specs.Scans.{IsScan};
ghost use Rattle.gs1_element.specs.Codes.{code_of};
ghost use Rattle.gs1_element.specs.Canonical.{unit, canonical};

use crate::code::Code;
use crate::parts::SEPARATOR;
use std::marker::Model;

/// The most bytes that a canonical scan has.
const ROOM: usize = 69;

/// The canonical scan of a code, in at most 69 bytes.
#[derive(Clone, Copy, Debug, PartialEq, Eq)]
pub struct CodeText {
    bytes: [u8; ROOM],
    len: u8,
}

impl Model for CodeText {
    ghost use Rattle.std.specs.Prelude.{◌-◌, ◌++◌, List, ℕ, length, take, replicate};

    ghost Value = { List ℕ };

    ghost use Rattle.gs1_keys.specs.Inline.{IsInline};

    ghost view = { λ t. take t.len t.bytes };

    ghost invariant = { λ t. IsInline 69 t.bytes t.len };

    ghost inverse = { λ text. record { bytes = text ++ replicate (69 - length text) 0; len = length text } };

    ghost use Rattle.gs1_element.specs.CodeTextBack.{code_text_is_back};

    ghost inverse_ok = { λ t h. code_text_is_back t h };
}

impl CodeText {
    /// The text of no bytes.
    fn nothing() -> Self
        ensures { result ≡ [] }
    {
        CodeText {
            bytes: [0; ROOM],
            len: 0,
        }
    }

    /// Puts bytes last.
    fn put(&mut self, part: &[u8])
        requires { length self.old + length part.now ≤ 69 }
        ensures is { self.new ≡ self.old ++ part.now }
        ensures size { length self.new ≡ length self.old + length part.now }
    {
        let start = usize::from(self.len);
        let end = start + part.len();
        self.bytes[start..end].copy_from_slice(part);
        self.len = end as u8;
    }

    /// Puts a unit last: its identifier, and its value.
    #[tactic(auto, unfolding(crate::specs::Canonical::unit))]
    fn put_unit(&mut self, code: [u8; 2], value: &[u8])
        requires { length self.old + 2 + length value.now ≤ 69 }
        ensures is { self.new ≡ self.old ++ unit code value.now }
        ensures size { length self.new ≡ length self.old + 2 + length value.now }
    {
        self.put(code.as_slice());
        self.put(value);
    }

    /// The bytes of the scan.
    pub fn bytes(&self) -> &[u8]
        ensures size { length self.now ≤ 69 }
        ensures is { result.now ≡ self.now }
    {
        &self.bytes[..usize::from(self.len)]
    }
}

/// Prints the canonical scan of a code: the units 01 (GTIN), 17 (expiry) and 10 (lot), a separator,
/// and 21 (serial), with no scanner prefix (GS1 General Specifications, element strings). `read_code`
/// of it gives the code back.
pub fn print_code(code: &Code) -> CodeText
    requires { is_expiry code.now.expiry ≡ true }
    ensures is { result ≡ canonical code.now }
    ensures scan { IsScan result code.now }
    ensures again { code_of result ≡ Ok code.now }
{
    let mut text = CodeText::nothing();
    text.put_unit(*b"01", code.gtin.digits());
    text.put_unit(*b"17", code.expiry.as_slice());
    text.put_unit(*b"10", code.lot.bytes());
    text.put([SEPARATOR].as_slice());
    text.put_unit(*b"21", code.serial.bytes());
    text
}
