//! Comparing texts, keys and names.
ghost use Rattle.std.specs.Prelude.{◌≡◌};
ghost use Rattle.deed_words.specs.Names.{same, same_name};

use epc_urn::Epc;
use gs1_keys::{Gtin, Sscc, Text20};

/// Whether two texts are the same.
#[tactic(auto, unfolding(crate::specs::Names::same))]
pub fn same_text(one: &Text20, other: &Text20) -> bool
    ensures { result ≡ same one.now other.now }
{
    one.bytes() == other.bytes()
}

/// Whether two GTINs are the same.
#[tactic(auto, unfolding(crate::specs::Names::same))]
pub fn same_gtin(one: &Gtin, other: &Gtin) -> bool
    ensures { result ≡ same one.now other.now }
{
    one == other
}

/// Whether two SSCCs are the same.
#[tactic(auto, unfolding(crate::specs::Names::same))]
pub fn same_sscc(one: &Sscc, other: &Sscc) -> bool
    ensures { result ≡ same one.now other.now }
{
    one == other
}

/// Whether two names are the same: those of items, or those of containers.
#[tactic(auto, unfolding(crate::specs::Names::same_name))]
pub fn same_epc(one: &Epc, other: &Epc) -> bool
    ensures { result ≡ same_name one.now other.now }
{
    match (one, other) {
        (Epc::Item(gtin, serial), Epc::Item(gtin_too, serial_too)) => {
            same_gtin(gtin, gtin_too) && same_text(serial, serial_too)
        }
        (Epc::Unit(sscc), Epc::Unit(sscc_too)) => same_sscc(sscc, sscc_too),
        _ => false,
    }
}
