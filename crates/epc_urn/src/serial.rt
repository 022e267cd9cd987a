//! The characters of a serial.
ghost use Rattle.std.specs.Prelude.{◌≡◌, ◌≤◌, ◌<◌, MatchResult};
ghost use Rattle.epc_urn.specs.Reading.{IsExactly};
ghost use Rattle.epc_urn.specs.Serial.{is_hex, escaped, is_plain, written, char_at, serial_at, serial_text};

use crate::cursor::Cursor;
use crate::fault::Stop;
use gs1_keys::Text20;

/// Whether a byte is an upper-case hexadecimal digit.
fn is_hex_digit(byte: u8) -> bool
    ensures { result ≡ is_hex byte }
{
    matches!(byte, b'0'..=b'9' | b'A'..=b'F')
}

/// The character that two hexadecimal digits stand for, if it is one of the seven that are escaped.
fn unescaped(high: u8, low: u8) -> Option<u8>
    ensures { result ≡ escaped high low }
{
    match (high, low) {
        (b'2', b'2') => Some(b'"'),
        (b'2', b'5') => Some(b'%'),
        (b'2', b'6') => Some(b'&'),
        (b'2', b'F') => Some(b'/'),
        (b'3', b'C') => Some(b'<'),
        (b'3', b'E') => Some(b'>'),
        (b'3', b'F') => Some(b'?'),
        _ => None,
    }
}

/// Whether a byte is one of the 75 characters that stand as they are.
fn is_plain_byte(byte: u8) -> bool
    ensures { result ≡ is_plain byte }
{
    matches!(byte, b'!' | b'\''..=b'.' | b'0'..=b';' | b'=' | b'A'..=b'Z' | b'_' | b'a'..=b'z')
}

/// The next character.
#[tactic(auto, unfolding(crate::specs::Serial::char_at))]
fn read_char(text: &mut Cursor) -> Result<u8, Stop>
    ensures { IsExactly (λ c. (c, text.new)) result (char_at text.old) }
{
    let left = text.bytes();
    let start = left.len();
    match left {
        [] => Err(Stop::BadField(0)),
        [b'%', high, low, ..] => {
            if !is_hex_digit(*high) || !is_hex_digit(*low) {
                return Err(Stop::BadEscape(start));
            }
            match unescaped(*high, *low) {
                Some(character) => {
                    text.front(3);
                    Ok(character)
                }
                None => Err(Stop::EscapeNotNeeded(start)),
            }
        }
        [b'%', ..] => Err(Stop::BadEscape(start)),
        [byte, ..] => {
            if !is_plain_byte(*byte) {
                return Err(Stop::BadField(start));
            }
            text.front(1);
            Ok(*byte)
        }
    }
}

/// Sees that a serial of so many characters may have one more: 20 are the most.
fn see_room(len: usize) -> Result<(), Stop>
    requires { len ≤ 20 }
    ensures { MatchResult result (λ _. len < 20) (λ stop. (len ≡ 20) × (stop ≡ Stop.TooLong)) }
{
    if len == 20 {
        return Err(Stop::TooLong);
    }
    Ok(())
}

/// The serial, which is all that is left.
pub(crate) fn read_serial(text: &mut Cursor) -> Result<Text20, Stop>
    ensures { IsExactly (λ serial. serial) result (serial_at text.old) }
{
    if text.bytes().is_empty() {
        return Err(Stop::BadField(0));
    }
    let mut characters = [0; 20];
    let mut len = 0;
    while !text.bytes().is_empty() {
        see_room(len)?;
        characters[len] = read_char(text)?;
        len += 1;
    }
    match Text20::read(&characters[..len]) {
        Ok(serial) => Ok(serial),
        Err(_) => unreachable!(),
    }
}
