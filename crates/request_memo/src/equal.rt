//! Whether two deeds are equal. Nothing is copied, and no memory is taken.
ghost use Rattle.std.specs.Prelude.{◌≡◌, ◌↔◌, IsTrue};

use deed_words::{Codes, Deed, Epcs, Level, OrderRow, same_epc, same_gtin, same_sscc, same_text};
use epc_urn::Epc;
use gs1_element::Code;
use gs1_keys::{Gtin, Serials, Sscc, Text20};

/// Whether two texts are equal.
#[tactic(auto, using(crate::proofs::Same::same_is))]
fn equal_text(one: &Text20, other: &Text20) -> bool
    ensures { IsTrue result ↔ (one.now ≡ other.now) }
{
    same_text(one, other)
}

/// Whether two GTINs are equal.
#[tactic(auto, using(crate::proofs::Same::same_is))]
fn equal_gtin(one: &Gtin, other: &Gtin) -> bool
    ensures { IsTrue result ↔ (one.now ≡ other.now) }
{
    same_gtin(one, other)
}

/// Whether two SSCCs are equal.
#[tactic(auto, using(crate::proofs::Same::same_is))]
fn equal_sscc(one: &Sscc, other: &Sscc) -> bool
    ensures { IsTrue result ↔ (one.now ≡ other.now) }
{
    same_sscc(one, other)
}

/// Whether two names are equal.
#[tactic(auto, using(crate::proofs::Same::same_name_is))]
fn equal_epc(one: &Epc, other: &Epc) -> bool
    ensures { IsTrue result ↔ (one.now ≡ other.now) }
{
    same_epc(one, other)
}

/// Whether two dates of six digits are equal.
fn equal_date(one: &[u8; 6], other: &[u8; 6]) -> bool
    ensures { IsTrue result ↔ (one.now ≡ other.now) }
{
    one == other
}

/// Whether two orders are equal.
fn equal_order(one: &OrderRow, other: &OrderRow) -> bool
    ensures { IsTrue result ↔ (one.now ≡ other.now) }
{
    if !equal_text(&one.batch, &other.batch) {
        return false;
    }
    if !equal_gtin(&one.gtin, &other.gtin) {
        return false;
    }
    if !equal_text(&one.lot, &other.lot) {
        return false;
    }
    if !equal_date(&one.expiry, &other.expiry) {
        return false;
    }
    if one.quantity != other.quantity {
        return false;
    }
    if one.case_size != other.case_size {
        return false;
    }
    one.pallet_size == other.pallet_size
}

/// Whether two codes are equal.
fn equal_code(one: &Code, other: &Code) -> bool
    ensures { IsTrue result ↔ (one.now ≡ other.now) }
{
    if !equal_gtin(&one.gtin, &other.gtin) {
        return false;
    }
    if !equal_text(&one.serial, &other.serial) {
        return false;
    }
    if !equal_text(&one.lot, &other.lot) {
        return false;
    }
    equal_date(&one.expiry, &other.expiry)
}

/// Whether two lists of orders are equal.
fn equal_orders(one: &[OrderRow], other: &[OrderRow]) -> bool
    ensures { IsTrue result ↔ (one.now ≡ other.now) }
{
    one.len() == other.len() && one.iter().zip(other).all(|(a, b)| equal_order(a, b))
}

/// Whether two lists of codes are equal.
fn equal_codes(one: &[Code], other: &[Code]) -> bool
    ensures { IsTrue result ↔ (one.now ≡ other.now) }
{
    one.len() == other.len() && one.iter().zip(other).all(|(a, b)| equal_code(a, b))
}

/// Whether two lists of texts are equal.
fn equal_texts(one: &[Text20], other: &[Text20]) -> bool
    ensures { IsTrue result ↔ (one.now ≡ other.now) }
{
    one.len() == other.len() && one.iter().zip(other).all(|(a, b)| equal_text(a, b))
}

/// Whether two lists of names are equal.
fn equal_epcs(one: &[Epc], other: &[Epc]) -> bool
    ensures { IsTrue result ↔ (one.now ≡ other.now) }
{
    one.len() == other.len() && one.iter().zip(other).all(|(a, b)| equal_epc(a, b))
}

/// Whether two levels are equal.
fn equal_level(one: &Level, other: &Level) -> bool
    ensures { IsTrue result ↔ (one.now ≡ other.now) }
{
    one == other
}

/// Whether two pairs of a batch and a number are equal.
fn equal_counted(one: &Text20, count: u32, other: &Text20, count_too: u32) -> bool
    ensures { IsTrue result ↔ ((one.now ≡ other.now) × (count ≡ count_too)) }
{
    equal_text(one, other) && count == count_too
}

/// Whether two pairs of a batch and codes are equal.
fn equal_printed(one: &Text20, codes: &Codes, other: &Text20, codes_too: &Codes) -> bool
    ensures { IsTrue result ↔ ((one.now ≡ other.now) × (codes.now ≡ codes_too.now)) }
{
    equal_text(one, other) && equal_codes(codes.as_slice(), codes_too.as_slice())
}

/// Whether two pairs of a batch and serials are equal.
fn equal_given(one: &Text20, serials: &Serials, other: &Text20, serials_too: &Serials) -> bool
    ensures { IsTrue result ↔ ((one.now ≡ other.now) × (serials.now ≡ serials_too.now)) }
{
    equal_text(one, other) && equal_texts(serials.as_slice(), serials_too.as_slice())
}

/// Whether two pairs of a batch and items are equal.
fn equal_moved(one: &Text20, items: &Epcs, other: &Text20, items_too: &Epcs) -> bool
    ensures { IsTrue result ↔ ((one.now ≡ other.now) × (items.now ≡ items_too.now)) }
{
    equal_text(one, other) && equal_epcs(items.as_slice(), items_too.as_slice())
}

/// Whether two pairs of a container and children are equal.
fn equal_packed(one: &Sscc, children: &Epcs, other: &Sscc, children_too: &Epcs) -> bool
    ensures { IsTrue result ↔ ((one.now ≡ other.now) × (children.now ≡ children_too.now)) }
{
    equal_sscc(one, other) && equal_epcs(children.as_slice(), children_too.as_slice())
}

/// Whether two pairs of a batch and a level are equal.
fn equal_made(one: &Text20, level: &Level, other: &Text20, level_too: &Level) -> bool
    ensures { IsTrue result ↔ ((one.now ≡ other.now) × (level.now ≡ level_too.now)) }
{
    equal_text(one, other) && equal_level(level, level_too)
}

/// Whether two deeds are equal: of one kind, and alike in each part.
pub fn same_deed(one: &Deed, other: &Deed) -> bool
    ensures { IsTrue result ↔ (one.now ≡ other.now) }
{
    match (one, other) {
        (Deed::Order(a), Deed::Order(b)) => equal_order(a, b),
        (Deed::Orders(a), Deed::Orders(b)) => equal_orders(a.as_slice(), b.as_slice()),
        (Deed::Start(a), Deed::Start(b)) => equal_text(a, b),
        (Deed::Draw(a, n), Deed::Draw(b, m)) => equal_counted(a, *n, b, *m),
        (Deed::Lend(a, n), Deed::Lend(b, m)) => equal_counted(a, *n, b, *m),
        (Deed::Commission(a, s), Deed::Commission(b, t)) => equal_printed(a, s, b, t),
        (Deed::Spoil(a, s), Deed::Spoil(b, t)) => equal_given(a, s, b, t),
        (Deed::Giveback(a, s), Deed::Giveback(b, t)) => equal_given(a, s, b, t),
        (Deed::Sample(a, s), Deed::Sample(b, t)) => equal_moved(a, s, b, t),
        (Deed::Reject(a, s), Deed::Reject(b, t)) => equal_moved(a, s, b, t),
        (Deed::Reinstate(a, s), Deed::Reinstate(b, t)) => equal_moved(a, s, b, t),
        (Deed::Destroy(a, s), Deed::Destroy(b, t)) => equal_moved(a, s, b, t),
        (Deed::Decommission(a, s), Deed::Decommission(b, t)) => equal_moved(a, s, b, t),
        (Deed::Container(a, s), Deed::Container(b, t)) => equal_made(a, s, b, t),
        (Deed::Pack(a, s), Deed::Pack(b, t)) => equal_packed(a, s, b, t),
        (Deed::Unpack(a, s), Deed::Unpack(b, t)) => equal_packed(a, s, b, t),
        (Deed::UnpackAll(a), Deed::UnpackAll(b)) => equal_sscc(a, b),
        (Deed::Seal(a), Deed::Seal(b)) => equal_sscc(a, b),
        (Deed::Unseal(a), Deed::Unseal(b)) => equal_sscc(a, b),
        (Deed::Void(a), Deed::Void(b)) => equal_sscc(a, b),
        (
            Deed::Declare(a, good, spoiled, returned),
            Deed::Declare(b, good_too, spoiled_too, returned_too),
        ) => {
            equal_counted(a, *good, b, *good_too)
                && spoiled == spoiled_too
                && returned == returned_too
        }
        (Deed::Close(a), Deed::Close(b)) => equal_text(a, b),
        (Deed::Amend(a, n), Deed::Amend(b, m)) => equal_counted(a, *n, b, *m),
        _ => false,
    }
}
