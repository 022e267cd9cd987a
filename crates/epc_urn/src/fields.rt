//! The fields before the serial.
ghost use Rattle.std.specs.Prelude.{◌≡◌, ◌≤◌, length, IfOk};
ghost use Rattle.std.specs.List.{prefix_len};
ghost use Rattle.gs1_keys.specs.Keys.{is_digit};
ghost use Rattle.epc_urn.specs.Reading.{IsExactly, AreDigits, dot_at, end_at, digits_at, prefix_at};

use crate::cursor::Cursor;
use crate::fault::Stop;

/// How many digits a text begins with.
#[tactic(auto, using(crate::proofs::Digits::count_within))]
fn digit_count(text: &[u8]) -> usize
    ensures is { result ≡ prefix_len is_digit text.now }
    ensures within { result ≤ length text.now }
{
    text.iter().take_while(|byte| byte.is_ascii_digit()).count()
}

/// Passes over a dot.
pub(crate) fn read_dot(text: &mut Cursor) -> Result<(), Stop>
    ensures { IsExactly (λ _. text.new) result (dot_at text.old) }
{
    match text.bytes() {
        [b'.', ..] => {
            text.front(1);
            Ok(())
        }
        rest => Err(Stop::BadField(rest.len())),
    }
}

/// Sees that nothing is left.
pub(crate) fn read_end(text: &Cursor) -> Result<(), Stop>
    ensures { IsExactly (λ _. text.now) result (end_at text.now) }
{
    match text.bytes() {
        [] => Ok(()),
        rest => Err(Stop::BadField(rest.len())),
    }
}

/// So many digits.
#[tactic(auto, unfolding(crate::specs::Reading::digits_at), using(crate::proofs::Digits::front_digits))]
pub(crate) fn read_digits<'a>(text: &mut Cursor<'a>, count: usize) -> Result<&'a [u8], Stop>
    ensures is { IsExactly (λ digits. (digits.now, text.new)) result (digits_at count text.old) }
    ensures size { IfOk result (λ digits. length digits.now ≡ count) }
    ensures digits { IfOk result (λ digits. AreDigits digits.now) }
{
    let left = text.bytes();
    let found = digit_count(left);
    if found < count {
        return Err(Stop::BadField(left.len() - found));
    }
    Ok(text.front(count))
}

/// The company prefix, which is all digits up to a dot, and the dot.
#[tactic(auto, unfolding(crate::specs::Reading::prefix_at), using(crate::proofs::Digits::front_digits))]
pub(crate) fn read_prefix<'a>(text: &mut Cursor<'a>) -> Result<&'a [u8], Stop>
    ensures is { IsExactly (λ digits. (digits.now, text.new)) result (prefix_at text.old) }
    ensures size { IfOk result (λ digits. (6 ≤ length digits.now) × (length digits.now ≤ 12)) }
    ensures digits { IfOk result (λ digits. AreDigits digits.now) }
{
    let found = digit_count(text.bytes());
    let digits = text.front(found);
    read_dot(text)?;
    if found < 6 || found > 12 {
        return Err(Stop::BadPrefixLength(found));
    }
    Ok(digits)
}
