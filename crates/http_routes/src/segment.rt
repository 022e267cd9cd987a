//! The segments of a path, with their escapes read in place.
ghost use Rattle.std.specs.Prelude.{◌≡◌, ◌<◌, ◌≤◌, length, option_map, slice_get, Some, MatchOption, IfSome};
ghost use Rattle.percent_encoding.specs.Percent.{percent_decode as decoded_text};
ghost use Rattle.http_routes.specs.Paths.{pieces, segment_at};
ghost use Rattle.http_routes.specs.Segments.{name_in, gtin_in, sscc_in, number_at, ranged_at};

use gs1_keys::{Gtin, Sscc, Text20};
use numerals::number;
use percent_encoding::percent_decode;
use std::marker::Model;

/// At most 20 bytes.
#[derive(Drop)]
struct Short {
    bytes: [u8; 20],
    len: usize,
}

impl Model for Short {
    ghost use Rattle.std.specs.Prelude.{List, ℕ, take, ◌≤◌};

    ghost Value = { List ℕ };

    ghost view = { λ s. take s.len s.bytes };

    ghost invariant = { λ s. s.len ≤ 20 };
}

impl Short {
    fn bytes(&self) -> &[u8]
        ensures { result.now ≡ self.now }
    {
        &self.bytes[..self.len]
    }
}

/// The bytes that a segment stands for, if they are at most 20.
fn decoded(segment: &[u8]) -> Option<Short>
    ensures { MatchOption result (20 < length (decoded_text segment.now)) (λ s. s ≡ decoded_text segment.now) }
{
    let mut bytes = [0; 20];
    let mut len = 0;
    for byte in percent_decode(segment) {
        if len == 20 {
            return None;
        }
        bytes[len] = byte;
        len += 1;
    }
    Some(Short { bytes, len })
}

/// A piece of a path between slashes.
fn piece<'a>(path: &'a str, at: usize) -> Option<&'a str>
    ensures { option_map (λ s. s.now) result ≡ slice_get (pieces path.entry.now) at }
{
    path.split('/').nth(at)
}

/// The segment at a place of a path that has it, from 1.
pub fn segment<'a>(path: &'a str, at: usize) -> &'a [u8]
    requires { at < length (pieces path.now) }
    ensures { result.now ≡ segment_at at path.entry.now }
{
    piece(path, at).unwrap().as_bytes()
}

/// The name that a segment stands for.
#[tactic(auto, using(crate::proofs::Longs::long_name))]
pub fn name(segment: &[u8]) -> Option<Text20>
    ensures { result ≡ name_in segment.now }
{
    let Some(short) = decoded(segment) else {
        return None;
    };
    Text20::read(short.bytes()).ok()
}

/// The GTIN that a segment stands for.
#[tactic(auto, using(crate::proofs::Longs::long_gtin))]
pub fn gtin(segment: &[u8]) -> Option<Gtin>
    ensures { result ≡ gtin_in segment.now }
{
    let Some(short) = decoded(segment) else {
        return None;
    };
    Gtin::read(short.bytes()).ok()
}

/// The SSCC that a segment stands for.
#[tactic(auto, using(crate::proofs::Longs::long_sscc))]
pub fn sscc(segment: &[u8]) -> Option<Sscc>
    ensures { result ≡ sscc_in segment.now }
{
    let Some(short) = decoded(segment) else {
        return None;
    };
    Sscc::read(short.bytes()).ok()
}

/// The number of at most so many digits that a segment stands for.
pub fn number_of(segment: &[u8], longest: usize) -> Option<u64>
    requires { longest ≤ 20 }
    ensures { result ≡ number_at longest segment.now }
{
    let Some(short) = decoded(segment) else {
        return None;
    };
    number(short.bytes(), longest)
}

/// A number of 1 to 10 digits, from 1 to `high`.
#[tactic(auto, unfolding(crate::specs::Segments::ranged_at))]
pub fn ranged(segment: &[u8], high: u32) -> Option<u32>
    ensures { result ≡ ranged_at high segment.now }
{
    let number = number_of(segment, 10)?;
    if number < 1 || number > u64::from(high) {
        return None;
    }
    Some(number as u32)
}
