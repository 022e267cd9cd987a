//! The values of needed units.
ghost use Rattle.std.specs.Prelude.{◌≡◌, ◌<◌, ◌≤◌, ◌+◌, ◌^◌, length, slice_index, true, IfSome};
ghost use Rattle.gs1_keys.specs.Keys.{is_digit};
ghost use Rattle.gs1_element.specs.Units.{Piece, piece_of};
ghost use Rattle.gs1_element.specs.Codes.{text_fault, gtin_value, text_value, date_value, put, complete, nothing, from, IsPut};

use crate::code::Code;
use crate::date::fault_of_date;
use crate::fault::ElementFault;
use crate::parts::{Part, identifier_number, length_of_unit, part_at, past_unit};
use gs1_keys::{Gtin, KeyFault, Text20, first_not_digit, first_not_in_set};

/// The unit that has the GTIN.
const GTIN: u8 = 1;

/// The unit that has the batch or lot.
const LOT: u8 = 10;

/// The unit that has the expiry date.
const EXPIRY: u8 = 17;

/// The unit that has the serial number.
const SERIAL: u8 = 21;

/// The values of needed units that were found so far.
#[derive(Clone, Copy, Debug)]
pub(crate) struct Found {
    gtin: Option<Gtin>,
    serial: Option<Text20>,
    lot: Option<Text20>,
    expiry: Option<[u8; 6]>,
}

/// The place of the first byte that keeps a value from being a text.
#[tactic(auto, unfolding(crate::specs::Codes::text_fault), using(crate::proofs::Texts::take_whole))]
fn fault_of_text(value: &[u8]) -> Option<usize>
    ensures is { result ≡ text_fault value.now }
    ensures within { IfSome result (λ k. k ≤ length value.now) }
{
    if value.is_empty() {
        return Some(0);
    }
    if value.len() <= 20 {
        return first_not_in_set(value);
    }
    if let Some(at) = first_not_in_set(&value[..20]) {
        return Some(at);
    }
    Some(20)
}

/// The GTIN of a value that begins at a place.
#[tactic(auto, unfolding(crate::specs::Codes::gtin_value))]
fn read_gtin(at: usize, value: &[u8]) -> Result<Gtin, ElementFault>
    requires { at + length value.now < 2 ^ 63 }
    ensures { result ≡ gtin_value at value.now }
{
    if value.len() != 14 {
        return Err(ElementFault::BadValue(*b"01", at as u64));
    }
    match Gtin::read(value) {
        Ok(gtin) => Ok(gtin),
        Err(KeyFault::BadLength(_)) => Err(ElementFault::BadValue(*b"01", at as u64)),
        Err(KeyFault::NotDigit(k)) => Err(ElementFault::BadValue(*b"01", at as u64 + k)),
        Err(KeyFault::BadCheck(_, _)) => Err(ElementFault::BadValue(*b"01", at as u64 + 13)),
        Err(KeyFault::NotInSet(k)) => Err(ElementFault::BadValue(*b"01", at as u64 + k)),
    }
}

/// The lot or the serial of a value that begins at a place.
#[tactic(auto, unfolding(crate::specs::Codes::text_value), using(crate::proofs::Texts::text_is))]
fn read_text(name: [u8; 2], at: usize, value: &[u8]) -> Result<Text20, ElementFault>
    requires { at + length value.now < 2 ^ 63 }
    ensures { result ≡ text_value name at value.now }
{
    if let Some(k) = fault_of_text(value) {
        return Err(ElementFault::BadValue(name, (at + k) as u64));
    }
    match Text20::read(value) {
        Ok(text) => Ok(text),
        Err(_) => Err(ElementFault::BadValue(name, at as u64)),
    }
}

/// The expiry of a value that begins at a place.
#[tactic(auto, unfolding(crate::specs::Codes::date_value))]
fn read_date(at: usize, value: &[u8]) -> Result<[u8; 6], ElementFault>
    requires { at + length value.now < 2 ^ 63 }
    ensures { result ≡ date_value at value.now }
{
    if value.len() != 6 {
        return Err(ElementFault::BadValue(*b"17", at as u64));
    }
    if let Some(k) = first_not_digit(value) {
        return Err(ElementFault::BadValue(*b"17", at as u64 + k as u64));
    }
    if let Some(k) = fault_of_date(value) {
        return Err(ElementFault::BadMonthOrDay(at as u64 + k as u64));
    }
    let mut expiry = [0; 6];
    expiry.copy_from_slice(value);
    Ok(expiry)
}

impl Found {
    pub(crate) fn nothing() -> Self
        ensures { result ≡ nothing }
    {
        Found {
            gtin: None,
            serial: None,
            lot: None,
            expiry: None,
        }
    }

    /// Takes one unit more, where it is a needed one; after a fault what was found is not told.
    #[tactic(auto, unfolding(crate::specs::Codes::put))]
    pub(crate) fn put(&mut self, part: &Part) -> Result<(), ElementFault>
        requires small { part.now.at + 2 + length part.now.value.now < 2 ^ 63 }
        requires digits { (is_digit (slice_index part.now.code 0) ≡ true) × (is_digit (slice_index part.now.code 1) ≡ true) }
        ensures { IsPut result self.new (put self.old (piece_of part.now)) }
    {
        match identifier_number(part.code) {
            GTIN => {
                if self.gtin.is_some() {
                    return Err(ElementFault::Twice(*b"01"));
                }
                let gtin = read_gtin(part.at + 2, part.value)?;
                self.gtin = Some(gtin);
            }
            LOT => {
                if self.lot.is_some() {
                    return Err(ElementFault::Twice(*b"10"));
                }
                let lot = read_text(*b"10", part.at + 2, part.value)?;
                self.lot = Some(lot);
            }
            EXPIRY => {
                if self.expiry.is_some() {
                    return Err(ElementFault::Twice(*b"17"));
                }
                let expiry = read_date(part.at + 2, part.value)?;
                self.expiry = Some(expiry);
            }
            SERIAL => {
                if self.serial.is_some() {
                    return Err(ElementFault::Twice(*b"21"));
                }
                let serial = read_text(*b"21", part.at + 2, part.value)?;
                self.serial = Some(serial);
            }
            _ => {}
        }
        Ok(())
    }

    /// The code, once all needed units came.
    #[tactic(auto, unfolding(crate::specs::Codes::complete))]
    pub(crate) fn complete(self) -> Result<Code, ElementFault>
        ensures { result ≡ complete self }
    {
        let Some(gtin) = self.gtin else {
            return Err(ElementFault::Missing(*b"01"));
        };
        let Some(lot) = self.lot else {
            return Err(ElementFault::Missing(*b"10"));
        };
        let Some(expiry) = self.expiry else {
            return Err(ElementFault::Missing(*b"17"));
        };
        let Some(serial) = self.serial else {
            return Err(ElementFault::Missing(*b"21"));
        };
        Ok(Code {
            gtin,
            serial,
            lot,
            expiry,
        })
    }
}

/// The code of the units, the first of which begins at `start`.
pub(crate) fn code_from(start: usize, bytes: &[u8]) -> Result<Code, ElementFault>
    requires { start + length bytes.now < 2 ^ 63 }
    ensures { result ≡ from start bytes.now nothing }
{
    let mut found = Found::nothing();
    let mut at = start;
    let mut left = bytes;
    while !left.is_empty() {
        let n = length_of_unit(at, left)?;
        found.put(&part_at(at, n, left))?;
        let rest = past_unit(n, left);
        at += left.len() - rest.len();
        left = rest;
    }
    found.complete()
}
