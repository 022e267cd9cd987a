//! The serial that a word stands for.
ghost use Rattle.std.specs.Prelude.{◌≡◌, true};
ghost use Rattle.gs1_keys.specs.Forms.{is_form};
ghost use Rattle.serial_pool.specs.Drawing.{candidate};

use gs1_keys::{SerialForm, Text20};

/// How many words there are.
const WORDS: u128 = 1 << 64;

/// The serial of the form that a word stands for. A word past the last whole block of serials stands for none.
pub(crate) fn candidate_of(word: u64, form: &SerialForm) -> Option<Text20>
    requires { is_form form.now ≡ true }
    ensures { result ≡ candidate form.now word }
{
    let count = form.size();
    let end = WORDS / u128::from(count) * u128::from(count);
    if u128::from(word) < end {
        Some(form.text(word % count))
    } else {
        None
    }
}
