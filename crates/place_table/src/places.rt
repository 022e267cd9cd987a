//! The places, as a slice: a row's place is found by walking from where its hash points, until an empty place.
//!
//! The places that a row's walk passes hold rows that came earlier. So the row that came last stands on nobody's way.
ghost use Rattle.std.specs.Prelude.{◌≡◌, ℕ, ◌+◌, ◌-◌, ◌*◌, ◌^◌, ◌<◌, ◌≤◌, ◌∷◌, ◌++◌, [], true, false, length, take, replicate, slice_index, IfSome, IfNone, OnOk};
ghost use Rattle.std.specs.Bool.{OnTrue, OnFalse};
ghost use Rattle.place_table.specs.Places.{Indexes, next_place};

use std::alloc::AllocError;

/// How many places the smallest table has.
const LEAST_PLACES: usize = 16;

/// How many places a table for so many rows has: more than twice as many, and a power of two.
pub(crate) fn places_for(rows: usize) -> usize
    requires { rows < 2 ^ 31 }
    ensures roomy { 2 * rows < result }
    ensures fits { result < 2 ^ 33 }
{
    let mut count = LEAST_PLACES;
    while count <= 2 * rows {
        count *= 2;
    }
    count
}

/// The place after this one, around the end.
#[tactic(auto, unfolding(crate::specs::Places::next_place))]
fn next(at: usize, count: usize) -> usize
    requires { at < count }
    ensures { result ≡ next_place count at }
{
    let after = at + 1;
    if after == count { 0 } else { after }
}

/// Whether the row has the hash, and is the one that is looked for.
fn is_row<F: Fn(usize) -> bool>(hashes: &[u32], row: usize, hash: u32, same: &F) -> bool
    requires range { row < length hashes.now }
    requires callable { F.pre same.now row }
    ensures yes { OnTrue result (F.post same.now row true) }
    ensures no { OnFalse result (slice_index hashes.now row ≡ hash → F.post same.now row false) }
{
    if hashes[row] != hash {
        return false;
    }
    same(row)
}

/// A row with the hash for which `same` answers true.
pub(crate) fn find_row<F: Fn(usize) -> bool>(
    places: &[u32],
    hashes: &[u32],
    hash: u32,
    same: &F,
) -> Option<usize>
    requires indexes { Indexes places.now hashes.now }
    requires callable { (i : ℕ) → i < length hashes.now → F.pre same.now i }
    ensures found { IfSome result (λ i. (i < length hashes.now) × F.post same.now i true) }
    ensures absent { IfNone result ((i : ℕ) → i < length hashes.now → slice_index hashes.now i ≡ hash → F.post same.now i false) }
{
    let count = places.len();
    if count == 0 {
        return None;
    }
    let mut at = hash as usize & (count - 1);
    for step in 0..count {
        let place = places[at] as usize;
        if place == 0 {
            return None;
        }
        if is_row(hashes, place - 1, hash, same) {
            return Some(place - 1);
        }
        at = next(at, count);
    }
    None
}

/// Gives the row that comes after these hashes a place.
pub(crate) fn put_place(places: &mut [u32], hashes: &[u32], hash: u32)
    requires indexes { Indexes places.old hashes.now }
    requires free { length hashes.now < length places.old }
    requires fits { length hashes.now + 1 < 2 ^ 32 }
    ensures indexes { Indexes places.new (hashes.now ++ hash ∷ []) }
{
    let count = places.len();
    let mut at = hash as usize & (count - 1);
    for step in 0..count {
        if places[at] == 0 {
            places[at] = hashes.len() as u32 + 1;
            return;
        }
        at = next(at, count);
    }
    unreachable!()
}

/// Frees the one place of the last row.
pub(crate) fn free_place(places: &mut [u32], hashes: &[u32])
    requires indexes { Indexes places.old hashes.now }
    requires range { 0 < length hashes.now }
    requires fits { length hashes.now < 2 ^ 32 }
    ensures indexes { Indexes places.new (take (length hashes.now - 1) hashes.now) }
{
    let count = places.len();
    let last = hashes.len();
    let hash = hashes[last - 1];
    let mut at = hash as usize & (count - 1);
    for step in 0..count {
        if places[at] as usize == last {
            places[at] = 0;
            return;
        }
        at = next(at, count);
    }
    unreachable!()
}

/// Gives each row a place, in order.
pub(crate) fn put_all(places: &mut [u32], hashes: &[u32])
    requires empty { places.old ≡ replicate (length places.old) 0 }
    requires free { length hashes.now < length places.old }
    requires fits { length hashes.now + 1 < 2 ^ 32 }
    ensures indexes { Indexes places.new hashes.now }
{
    for row in 0..hashes.len() {
        put_place(places, &hashes[..row], hashes[row]);
    }
}

/// Makes at least so many places, and puts the rows anew where there are more than before.
pub(crate) fn grow(places: &mut Vec<u32>, hashes: &[u32], count: usize) -> Result<(), AllocError>
    requires indexes { Indexes places.old.items hashes.now }
    requires free { length hashes.now < count }
    requires fits { length hashes.now + 1 < 2 ^ 32 }
    ensures indexes { Indexes places.new.items hashes.now }
    ensures longer { length places.old.items ≤ length places.new.items }
    ensures ok { OnOk result (count ≤ length places.new.items) }
{
    if count <= places.len() {
        return Ok(());
    }
    places.reserve(count - places.len())?;
    places.clear();
    places.resize(count, 0).unwrap();
    put_all(places.as_mut_slice(), hashes);
    Ok(())
}
