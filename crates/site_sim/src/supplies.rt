//! The clock and the random words of the simulation.
ghost use Rattle.std.specs.Prelude.{◌≡◌, ◌≤◌, IfOk};
ghost use Rattle.site_sim.specs.Supplies.{moments, word_at, words};

use gs1_keys::Memory;
use std::alloc::Global;

/// What a word differs by from the one before it: 2^64 divided by the golden ratio, so that neighbours lie far apart.
const STRIDE: u128 = 11_400_714_819_323_198_485;

/// The first so many moments, in milliseconds since 1970: one a second, from the first second of 2026 on.
pub(crate) fn moments(alloc: Global, count: u64) -> Result<Vec<u64>, Memory>
    requires { count ≤ 1000000 }
    ensures { IfOk result (λ made. made.items ≡ moments count) }
{
    let mut moments = Vec::new(alloc);
    for k in 0..count {
        moments.push(1_767_225_600_000 + 1_000 * (k + 1))?;
    }
    Ok(moments)
}

/// The first so many words of a seed.
pub(crate) fn words(alloc: Global, seed: u32, count: u64) -> Result<Vec<u64>, Memory>
    requires { count ≤ 1000000 }
    ensures { IfOk result (λ made. made.items ≡ words seed count) }
{
    let mut words = Vec::new(alloc);
    for k in 0..count {
        words.push(word_at(seed, k))?;
    }
    Ok(words)
}

/// The word behind so many.
fn word_at(seed: u32, k: u64) -> u64
    requires { k ≤ 1000000 }
    ensures { result ≡ word_at seed k }
{
    ((u128::from(seed) + u128::from(k + 1) * STRIDE) % 18_446_744_073_709_551_616) as u64
}
