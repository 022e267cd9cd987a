//! Hashes of texts: FNV-1a of 64 bits, of which the upper 32 are taken.
ghost use Rattle.std.specs.Prelude.{◌≡◌, ◌<◌, ◌^◌, fold};
ghost use Rattle.place_table.specs.Hash.{mix, text_hash, pair_hash};

/// The hash from which all begin.
const BASIS: u64 = 0xCBF2_9CE4_8422_2325;

/// The hash with a byte more.
fn mixed(hash: u64, byte: u8) -> u64
    ensures { result ≡ mix hash byte }
{
    (hash ^ u64::from(byte)).wrapping_mul(0x0100_0000_01B3)
}

/// The hash with a text more.
fn mixed_in(hash: u64, text: &[u8]) -> u64
    ensures { result ≡ fold mix hash text.now }
{
    let mut hash = hash;
    for byte in text {
        hash = mixed(hash, *byte);
    }
    hash
}

/// The hash of a text.
#[tactic(auto, unfolding(crate::specs::Hash::text_hash))]
pub fn text_hash(text: &[u8]) -> u32
    ensures { result ≡ text_hash text.now }
{
    (mixed_in(BASIS, text) >> 32) as u32
}

/// The hash of two texts that name one thing, as a GTIN and a serial.
#[tactic(auto, unfolding(crate::specs::Hash::pair_hash))]
pub fn pair_hash(first: &[u8], second: &[u8]) -> u32
    ensures { result ≡ pair_hash first.now second.now }
{
    (mixed_in(mixed_in(BASIS, first), second) >> 32) as u32
}
