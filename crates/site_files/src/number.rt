//! Numbers of an order file.
ghost use Rattle.std.specs.Prelude.{◌≡◌, ◌≤◌, IfSome};
ghost use Rattle.site_files.specs.Numbers.{size_of};

use numerals::number;

/// The number of 1 to 7 digits, where it is from `low` to `high`.
#[tactic(auto, unfolding(crate::specs::Numbers::size_of))]
pub(crate) fn read_size(text: &[u8], low: u32, high: u32) -> Option<u32>
    ensures is { result ≡ size_of low high text.now }
    ensures within { IfSome result (λ n. (low ≤ n) × (n ≤ high)) }
{
    let number = number(text, 7)?;
    if number < u64::from(low) || number > u64::from(high) {
        return None;
    }
    Some(number as u32)
}
