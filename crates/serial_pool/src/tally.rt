//! How many serials were drawn for each GTIN.
ghost use Rattle.std.specs.Prelude.{◌≡◌, ◌+◌, ◌<◌, ◌≤◌, ◌^◌, ◌∷◌, ◌++◌, ℕ, List, [], true, length, map, All, bytes_eq, is_ok, if◌then◌else◌, slice_index_or, IfSome, IfNone, OnOk};
ghost use Rattle.std.specs.List.{HoldsAt};
ghost use Rattle.std.specs.Bool.{OnTrue, OnFalse};
ghost use Rattle.gs1_keys.specs.Forms.{is_among};
ghost use Rattle.place_table.specs.Hash.{text_hash};
ghost use Rattle.serial_pool.specs.Index.{count_of, gtins_of};

use gs1_keys::{Gtin, Memory};
use place_table::{PlaceTable, text_hash};
use std::alloc::Global;
use std::marker::Model;

/// How many serials were drawn for a GTIN.
#[derive(Clone, Copy)]
pub struct GtinCount {
    pub gtin: Gtin,
    pub drawn: u32,
}

/// The numbers of serials that were drawn, a row a GTIN.
#[derive(Drop)]
pub(crate) struct Tally {
    rows: Vec<GtinCount>,
    table: PlaceTable,
}

impl Model for Tally {
    ghost use Rattle.std.specs.Prelude.{List};
    ghost use Rattle.serial_pool.specs.declared.tally.GtinCount.{GtinCount};
    ghost use Rattle.serial_pool.specs.Index.{IsTally};

    ghost Value = { List GtinCount };

    ghost view = { λ t. t.rows.items };

    ghost invariant = { λ t. IsTally t.rows.items t.table };
}

/// Whether the row is of that GTIN.
fn is_row_of(row: &GtinCount, gtin: &Gtin) -> bool
    ensures yes { OnTrue result (row.now.gtin ≡ gtin.now) }
    ensures no { OnFalse result (row.now.gtin ≡ gtin.now → ⊥) }
{
    row.gtin == *gtin
}

/// The place of the GTIN's row.
fn place_of(table: &PlaceTable, rows: &[GtinCount], gtin: &Gtin) -> Option<usize>
    requires hashed { table.now.hashes ≡ map (λ row. text_hash row.gtin) rows.now }
    ensures found { IfSome result (λ at. (at < length rows.now) × HoldsAt (λ row. row.gtin ≡ gtin.now) rows.now at) }
    ensures absent { IfNone result (All (λ row. row.gtin ≡ gtin.now → ⊥) rows.now) }
{
    let same = |i: usize| -> bool
        requires { i < length rows.now }
        ensures yes { OnTrue result (HoldsAt (λ row. row.gtin ≡ gtin.entry.now) rows.entry.now i) }
        ensures no { OnFalse result (HoldsAt (λ row. row.gtin ≡ gtin.entry.now → ⊥) rows.entry.now i) }
    { is_row_of(&rows[i], gtin) };
    match table.find(text_hash(gtin.digits()), &same) {
        Some(at) => Some(at),
        None => None,
    }
}

/// How many rows there are at most.
const MOST_ROWS: usize = 1 << 30;

/// Puts a row last, without serials, or changes nothing.
fn put_row(rows: &mut Vec<GtinCount>, table: &mut PlaceTable, gtin: Gtin) -> Result<(), Memory>
    requires hashed { table.old.hashes ≡ map (λ row. text_hash row.gtin) rows.old.items }
    ensures rows { rows.new.items ≡ (if is_ok result then rows.old.items ++ record { gtin = gtin; drawn = 0 } ∷ [] else rows.old.items) }
    ensures hashed { table.new.hashes ≡ map (λ row. text_hash row.gtin) rows.new.items }
{
    if rows.len() >= MOST_ROWS {
        return Err(Memory);
    }
    table.ready(1)?;
    rows.reserve(1)?;
    table.insert(text_hash(gtin.digits()));
    rows.push_reserved(GtinCount { gtin, drawn: 0 });
    Ok(())
}

impl Tally {
    /// No rows. It takes no memory.
    pub(crate) fn new(alloc: Global) -> Self
        ensures { result ≡ [] }
    {
        Tally {
            rows: Vec::new(alloc),
            table: PlaceTable::new(alloc),
        }
    }

    /// How many serials the GTIN has.
    pub(crate) fn count(&self, gtin: &Gtin) -> u32
        ensures { result ≡ count_of gtin.now self.now }
    {
        match place_of(&self.table, &self.rows, gtin) {
            Some(at) => self.rows[at].drawn,
            None => 0,
        }
    }

    /// Makes a row for the GTIN, where it has none. All numbers stay.
    pub(crate) fn know(&mut self, gtin: &Gtin) -> Result<(), Memory>
        ensures known { OnOk result (is_among (gtins_of self.new) gtin.now ≡ true) }
        ensures still { (other : List ℕ) → is_among (gtins_of self.old) other ≡ true → is_among (gtins_of self.new) other ≡ true }
        ensures counts { (other : List ℕ) → count_of other self.new ≡ count_of other self.old }
    {
        match place_of(&self.table, &self.rows, gtin) {
            Some(_) => Ok(()),
            None => put_row(&mut self.rows, &mut self.table, *gtin),
        }
    }

    /// So many more serials of a GTIN that has a row.
    pub(crate) fn raise(&mut self, gtin: &Gtin, more: u32)
        requires known { is_among (gtins_of self.old) gtin.now ≡ true }
        requires few { count_of gtin.now self.old + more < 2 ^ 32 }
        ensures gtins { gtins_of self.new ≡ gtins_of self.old }
        ensures counts { (other : List ℕ) → count_of other self.new ≡ count_of other self.old + (if bytes_eq other gtin.now then more else 0) }
    {
        match place_of(&self.table, &self.rows, gtin) {
            Some(at) => self.rows[at].drawn += more,
            None => unreachable!(),
        }
    }

    /// So many serials of the GTIN less.
    pub(crate) fn lower(&mut self, gtin: &Gtin, fewer: u32)
        requires known { is_among (gtins_of self.old) gtin.now ≡ true }
        requires least { fewer ≤ count_of gtin.now self.old }
        ensures gtins { gtins_of self.new ≡ gtins_of self.old }
        ensures counts { (other : List ℕ) → count_of other self.new + (if bytes_eq other gtin.now then fewer else 0) ≡ count_of other self.old }
    {
        match place_of(&self.table, &self.rows, gtin) {
            Some(at) => self.rows[at].drawn -= fewer,
            None => unreachable!(),
        }
    }
}
