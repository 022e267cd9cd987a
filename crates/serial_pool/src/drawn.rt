//! The serials that were drawn, as a list.
ghost use Rattle.std.specs.Prelude.{◌≡◌, ◌+◌, ◌-◌, ◌<◌, ◌≤◌, ◌++◌, ◌&&◌, true, false, bytes_eq, map, take, length, vec_len, vec_capacity};
ghost use Rattle.std.specs.Bool.{OnTrue, OnFalse};
ghost use Rattle.std.specs.List.{HoldsAt};
ghost use Rattle.gs1_keys.specs.Forms.{is_among};
ghost use Rattle.serial_pool.specs.Held.{had_of, drawn_for};
ghost use Rattle.serial_pool.specs.Index.{hash_in};

use gs1_keys::{Gtin, Serials, Text20};
use place_table::{PlaceTable, pair_hash};

/// A serial that was drawn for a GTIN.
#[derive(Clone, Copy)]
pub struct DrawnSerial {
    pub gtin: Gtin,
    pub serial: Text20,
}

/// Whether two texts are the same.
pub(crate) fn is_same(one: &Text20, other: &Text20) -> bool
    ensures { result ≡ bytes_eq one.now other.now }
{
    one.bytes() == other.bytes()
}

/// Whether the pair is of that GTIN, and has the serial.
fn is_pair(pair: &DrawnSerial, gtin: &Gtin, serial: &Text20) -> bool
    ensures { result ≡ (bytes_eq gtin.now pair.now.gtin && bytes_eq serial.now pair.now.serial) }
{
    *gtin == pair.gtin && is_same(serial, &pair.serial)
}

/// Whether the serial was drawn for the GTIN. The table has the hashes of those that were drawn.
pub(crate) fn was_drawn(
    table: &PlaceTable,
    drawn: &[DrawnSerial],
    gtin: &Gtin,
    serial: &Text20,
) -> bool
    requires hashed { table.now.hashes ≡ map hash_in drawn.now }
    ensures { result ≡ is_among (had_of gtin.now drawn.now) serial.now }
{
    let same = |i: usize| -> bool
        requires { i < length drawn.now }
        ensures yes { OnTrue result (HoldsAt (λ pair. (bytes_eq gtin.entry.now pair.gtin && bytes_eq serial.entry.now pair.serial) ≡ true) drawn.entry.now i) }
        ensures no { OnFalse result (HoldsAt (λ pair. (bytes_eq gtin.entry.now pair.gtin && bytes_eq serial.entry.now pair.serial) ≡ false) drawn.entry.now i) }
    { is_pair(&drawn[i], gtin, serial) };
    match table.find(pair_hash(gtin.digits(), serial.bytes()), &same) {
        Some(_) => true,
        None => false,
    }
}

/// Puts the serials last, each for the GTIN, where there is room for them.
pub(crate) fn append(
    drawn: &mut Vec<DrawnSerial>,
    table: &mut PlaceTable,
    gtin: Gtin,
    serials: &Serials,
)
    requires hashed { table.old.hashes ≡ map hash_in drawn.old.items }
    requires room { length serials.now ≤ table.old.room }
    requires reserved { vec_len drawn.old + length serials.now ≤ vec_capacity drawn.old }
    ensures items { drawn.new.items ≡ drawn.old.items ++ drawn_for gtin serials.now }
    ensures capacity { vec_capacity drawn.new ≡ vec_capacity drawn.old }
    ensures hashed { table.new.hashes ≡ map hash_in drawn.new.items }
    ensures room { table.new.room + length serials.now ≡ table.old.room }
{
    for serial in serials.as_slice() {
        table.insert(pair_hash(gtin.digits(), serial.bytes()));
        drawn.push_reserved(DrawnSerial {
            gtin,
            serial: *serial,
        });
    }
}

/// Takes so many serials back, from the last one on.
pub(crate) fn cut_off(drawn: &mut Vec<DrawnSerial>, table: &mut PlaceTable, count: usize)
    requires hashed { table.old.hashes ≡ map hash_in drawn.old.items }
    requires there { count ≤ vec_len drawn.old }
    ensures items { drawn.new.items ≡ take (vec_len drawn.old - count) drawn.old.items }
    ensures capacity { vec_capacity drawn.new ≡ vec_capacity drawn.old }
    ensures hashed { table.new.hashes ≡ map hash_in drawn.new.items }
    ensures room { table.new.room ≡ table.old.room + count }
{
    for i in 0..count {
        table.remove_last();
        let _serial = drawn.take_last();
    }
}
