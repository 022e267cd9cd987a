//! Numbers in digits.
ghost use Rattle.std.specs.Prelude.{◌≡◌, ◌<◌, ◌^◌, length, nat_lt, true, Some, None, if◌then◌else◌};
ghost use Rattle.std.specs.Char.{is_ascii_digit};
ghost use Rattle.std.specs.List.{list_all};
ghost use Rattle.std.specs.Str.Parse.{digits_value};
ghost use Rattle.numerals.specs.Numbers.{number_in};

use std::str;

fn all_digits(text: &[u8]) -> bool
    ensures { result ≡ list_all is_ascii_digit text.now }
{
    text.iter().all(|byte| byte.is_ascii_digit())
}

/// The number of 1 to `longest` digits, without a sign, if the text is one and a u64 holds it.
pub fn number(text: &[u8], longest: usize) -> Option<u64>
    ensures { result ≡ number_in longest text.now }
{
    if text.is_empty() {
        return None;
    }
    if text.len() > longest {
        return None;
    }
    if !all_digits(text) {
        return None;
    }
    value(text)
}

/// What the digits write, if it fits.
fn value(text: &[u8]) -> Option<u64>
    requires digits { list_all is_ascii_digit text.now ≡ true }
    requires some { 0 < length text.now }
    ensures { result ≡ (if nat_lt (digits_value 10 text.now) (2 ^ 64) then Some (digits_value 10 text.now) else None) }
{
    let Ok(text) = str::from_utf8(text) else {
        unreachable!()
    };
    match text.parse() {
        Ok(number) => Some(number),
        Err(_) => None,
    }
}
