//! The units by their SSCCs, and each batch's own.
ghost use Rattle.std.specs.Prelude.{◌≡◌, ℕ, ◌+◌, ◌-◌, ◌<◌, ◌≤◌, ◌^◌, ◌∷◌, ◌++◌, [], None, Some, length, map, max, take, set, slice_index, slice_index_or, vec_capacity, OnOk};
ghost use Rattle.std.specs.List.{position, slice_get};
ghost use Rattle.pack_tree.specs.declared.node.UnitRow.{UnitRow as TheUnit};
ghost use Rattle.pack_tree.specs.Units.{is_coded, AreApart, hash_in, marked, batch_in};
ghost use Rattle.place_table.specs.Hash.{text_hash as the_text_hash};
ghost use Rattle.pack_tree.specs.Chains.{latest_below, newest_below};
ghost use Rattle.std.specs.Iterator.{YieldsFirst, item_count};

use crate::chain::{BATCHES, grow_chain, link_at, set_link_at};
use crate::node::UnitRow;
use deed_words::{BatchId, Mark, UnitId, same_sscc};
use gs1_keys::{Memory, Sscc};
use place_table::{PlaceTable, text_hash};
use std::alloc::Global;
use std::marker::Model;

/// The units, in the order in which they were made.
#[derive(Drop)]
pub(crate) struct Units {
    rows: Vec<UnitRow>,
    table: PlaceTable,
    /// The newest unit of each batch.
    latest: Vec<Option<u32>>,
    /// The unit that its batch had made before a unit.
    earlier: Vec<Option<u32>>,
    /// How many units have room in all.
    room: usize,
}

impl Model for Units {
    ghost use Rattle.pack_tree.specs.Units.{Shelf};

    ghost Value = { Shelf };

    ghost use Rattle.std.specs.Prelude.{vec_capacity};
    ghost use Rattle.pack_tree.specs.Units.{IsShelf};

    ghost view = { λ s. record { rows = s.rows.items; room = s.room } };

    ghost invariant = { λ s. IsShelf s.rows.items s.table (vec_capacity s.rows) s.latest.items s.earlier.items s.room };
}

/// Whether the unit at a place has the SSCC.
#[tactic(auto, unfolding(crate::specs::Units::is_coded))]
fn is_coded(unit: &UnitRow, sscc: &Sscc) -> bool
    ensures { result ≡ is_coded sscc.now unit.now }
{
    same_sscc(&unit.sscc, sscc)
}

/// The batch of a unit, as a place among the batches.
fn batch_of(unit: &UnitRow) -> usize
    ensures is { result ≡ batch_in unit.now }
    ensures few { result < 2 ^ 16 }
{
    unit.batch.0 as usize
}

/// The hash under which a unit is found.
fn hash_of(sscc: &Sscc) -> u32
    ensures { result ≡ the_text_hash sscc.now }
{
    text_hash(sscc.digits())
}

/// The place of the unit of the SSCC.
fn find_unit(table: &PlaceTable, rows: &[UnitRow], sscc: &Sscc) -> Option<u32>
    requires hashed { table.now.hashes ≡ map hash_in rows.now }
    requires apart { AreApart rows.now }
    requires few { length rows.now < 2 ^ 31 }
    ensures { result ≡ position (is_coded sscc.now) rows.now }
{
    let same = |i: usize| -> bool
        requires { i < length rows.now }
        ensures { (d : TheUnit) → result ≡ is_coded sscc.entry.now (slice_index_or rows.entry.now i d) }
    { is_coded(&rows[i], sscc) };
    match table.find(hash_of(sscc), &same) {
        Some(i) => Some(i as u32),
        None => None,
    }
}

/// A unit has the mark from now on.
fn set_mark_at(rows: &mut Vec<UnitRow>, at: usize, mark: Mark)
    requires { at < length rows.old.items }
    ensures rows { rows.new.items ≡ marked rows.old.items at mark }
    ensures capacity { vec_capacity rows.new ≡ vec_capacity rows.old }
{
    let old = rows[at];
    rows[at] = UnitRow { mark, ..old };
}

impl Units {
    /// No units, and no memory.
    pub(crate) fn new(alloc: Global) -> Units
        ensures rows { result.rows ≡ [] }
        ensures room { result.room ≡ 0 }
    {
        Units {
            rows: Vec::new(alloc),
            table: PlaceTable::new(alloc),
            latest: Vec::new(alloc),
            earlier: Vec::new(alloc),
            room: 0,
        }
    }

    /// How many there are.
    pub(crate) fn len(&self) -> usize
        ensures is { result ≡ length self.now.rows }
        ensures room { length self.now.rows ≤ self.now.room }
        ensures few { self.now.room < 2 ^ 31 }
    {
        self.rows.len()
    }

    /// Makes room for so many units in all.
    pub(crate) fn ready(&mut self, count: usize) -> Result<(), Memory>
        requires { count < 2 ^ 31 }
        ensures rows { self.new.rows ≡ self.old.rows }
        ensures ok { OnOk result (count ≤ self.new.room) }
        ensures room { self.old.room ≤ self.new.room }
        ensures most { self.new.room ≤ max self.old.room count }
    {
        if count <= self.room {
            return Ok(());
        }
        let more = count - self.rows.len();
        self.table.ready(more)?;
        self.rows.reserve(more)?;
        grow_chain(&mut self.latest, BATCHES)?;
        grow_chain(&mut self.earlier, count)?;
        self.room = count;
        Ok(())
    }

    /// Puts a unit last.
    pub(crate) fn add(&mut self, unit: UnitRow)
        requires room { length self.old.rows < self.old.room }
        requires new { position (is_coded unit.sscc) self.old.rows ≡ None }
        ensures rows { self.new.rows ≡ self.old.rows ++ unit ∷ [] }
        ensures room { self.new.room ≡ self.old.room }
    {
        let at = self.rows.len();
        let batch = batch_of(&unit);
        let before = link_at(&self.latest, batch);
        set_link_at(&mut self.earlier, at, before);
        set_link_at(&mut self.latest, batch, Some(at as u32));
        self.table.insert(hash_of(&unit.sscc));
        self.rows.push_reserved(unit);
    }

    /// Takes the last unit back.
    pub(crate) fn remove_last(&mut self)
        requires { 0 < length self.old.rows }
        ensures rows { self.new.rows ≡ take (length self.old.rows - 1) self.old.rows }
        ensures room { self.new.room ≡ self.old.room }
    {
        let unit = self.rows.take_last();
        let before = link_at(&self.earlier, self.rows.len());
        set_link_at(&mut self.latest, batch_of(&unit), before);
        self.table.remove_last();
    }

    /// The place of the unit of the SSCC.
    pub(crate) fn find(&self, sscc: &Sscc) -> Option<u32>
        ensures { result ≡ position (is_coded sscc.now) self.now.rows }
    {
        find_unit(&self.table, self.rows.as_slice(), sscc)
    }

    /// The unit at a place.
    pub(crate) fn row(&self, at: u32) -> UnitRow
        requires { at < length self.now.rows }
        ensures { slice_get self.now.rows at ≡ Some result }
    {
        self.rows[at as usize]
    }

    /// A unit has the mark from now on.
    pub(crate) fn set_mark(&mut self, at: u32, mark: Mark)
        requires { at < length self.old.rows }
        ensures rows { self.new.rows ≡ marked self.old.rows at mark }
        ensures room { self.new.room ≡ self.old.room }
    {
        set_mark_at(&mut self.rows, at as usize, mark);
    }

    /// The newest unit of a batch.
    pub(crate) fn latest(&self, batch: BatchId) -> Option<u32>
        ensures { result ≡ latest_below batch (map batch_in self.now.rows) (length self.now.rows) }
    {
        link_at(&self.latest, batch.0 as usize)
    }

    /// The units of a batch, the newest first.
    pub(crate) fn of_batch(&self, batch: BatchId) -> OwnUnits<'_>
        ensures { result ≡ newest_below batch (map batch_in self.now.rows) (length self.now.rows) }
    {
        OwnUnits {
            units: self,
            batch: batch.0,
            at: self.latest(batch),
        }
    }

    /// Tells that no two units have one SSCC.
    pub(crate) fn tell_apart(&self)
        ensures { AreApart self.now.rows }
    {
        let _room = self.room;
    }

    /// The newest unit of its batch among those made before the unit.
    pub(crate) fn earlier(&self, at: u32) -> Option<u32>
        requires { at < length self.now.rows }
        ensures { result ≡ latest_below (slice_index (map batch_in self.now.rows) at) (map batch_in self.now.rows) at }
    {
        link_at(&self.earlier, at as usize)
    }
}

/// What is left of a batch's units, from the newest to the first that was made.
#[derive(Drop)]
pub struct OwnUnits<'a> {
    units: &'a Units,
    batch: u16,
    at: Option<u32>,
}

impl<'a> Model for OwnUnits<'a> {
    ghost use Rattle.std.specs.Prelude.{List, ℕ, map};
    ghost use Rattle.pack_tree.specs.Chains.{newest_from, IsOwn};
    ghost use Rattle.pack_tree.specs.Units.{batch_in};

    ghost Value = { List ℕ };

    ghost view = { λ s. newest_from s.at s.batch (map batch_in s.units.now.rows) };

    ghost invariant = { λ s. IsOwn s.at s.batch (map batch_in s.units.now.rows) };
}

impl<'a> Iterator for OwnUnits<'a> {
    type Item = UnitId;

    ghost next_gives = { YieldsFirst (λ s. s) };

    ghost remaining = { item_count (λ s. s) };

    fn next(&mut self) -> Option<UnitId> {
        let at = self.at?;
        self.at = self.units.earlier(at);
        Some(UnitId(at))
    }
}
