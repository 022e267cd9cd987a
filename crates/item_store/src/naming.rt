//! Rows by their names.
ghost use Rattle.std.specs.Prelude.{◌≡◌, ℕ, ◌^◌, ◌<◌, true, false, length, map, IfSome, IfNone, All};
ghost use Rattle.std.specs.Bool.{OnTrue, OnFalse};
ghost use Rattle.std.specs.List.{HoldsAt, position};
ghost use Rattle.place_table.specs.Hash.{pair_hash};
ghost use Rattle.item_store.specs.Rows.{is_named, AreApart};
ghost use Rattle.item_store.specs.Store.{hash_in};

use crate::row::ItemRow;
use deed_words::{ItemId, same_epc};
use epc_urn::Epc;
use gs1_keys::{Gtin, Text20};
use place_table::{PlaceTable, pair_hash};

/// The hash of a name.
pub(crate) fn hash_of(gtin: &Gtin, serial: &Text20) -> u32
    ensures { result ≡ pair_hash gtin.now serial.now }
{
    pair_hash(gtin.digits(), serial.bytes())
}

/// Whether a row has the name.
#[tactic(auto, unfolding(crate::specs::Rows::is_named))]
fn is_named(row: &ItemRow, gtin: &Gtin, serial: &Text20) -> bool
    ensures { result ≡ is_named gtin.now serial.now row.now }
{
    same_epc(&Epc::Item(row.gtin, row.serial), &Epc::Item(*gtin, *serial))
}

/// The row of the name.
pub(crate) fn find_item(
    table: &PlaceTable,
    rows: &[ItemRow],
    gtin: &Gtin,
    serial: &Text20,
) -> Option<ItemId>
    requires hashed { table.now.hashes ≡ map hash_in rows.now }
    requires apart { AreApart rows.now }
    requires few { length rows.now < 2 ^ 32 }
    ensures is { result ≡ position (is_named gtin.now serial.now) rows.now }
    ensures absent { IfNone result (All (λ row. is_named gtin.now serial.now row ≡ false) rows.now) }
{
    let same = |at: usize| -> bool
        requires { at < length rows.now }
        ensures yes { OnTrue result (HoldsAt (λ row. is_named gtin.entry.now serial.entry.now row ≡ true) rows.entry.now at) }
        ensures no { OnFalse result (HoldsAt (λ row. is_named gtin.entry.now serial.entry.now row ≡ false) rows.entry.now at) }
    { is_named(&rows[at], gtin, serial) };
    match table.find(hash_of(gtin, serial), &same) {
        Some(at) => Some(ItemId(at as u32)),
        None => None,
    }
}
