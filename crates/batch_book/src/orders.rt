//! The batches, in the order in which they were accepted, and by their names.
ghost use Rattle.std.specs.Prelude.{◌≡◌, ℕ, ◌+◌, ◌-◌, ◌^◌, ◌<◌, ◌≤◌, ◌∷◌, ◌++◌, [], true, false, length, map, take, IfNone, OnOk, Some, All, vec_capacity};
ghost use Rattle.std.specs.Bool.{OnTrue, OnFalse};
ghost use Rattle.std.specs.List.{HoldsAt, position, slice_get};
ghost use Rattle.place_table.specs.Hash.{text_hash as the_text_hash};
ghost use Rattle.batch_book.specs.Batches.{is_called, AreApart, IsNamed, phased, amended};
ghost use Rattle.batch_book.specs.Ledgers.{hash_in};

use deed_words::{Batch, BatchId, Phase, same_text};
use gs1_keys::{Memory, Text20};
use place_table::{PlaceTable, text_hash};
use std::alloc::Global;
use std::marker::Model;

/// The batches.
#[derive(Drop)]
pub(crate) struct Orders {
    batches: Vec<Batch>,
    /// The batches by the hashes of their names.
    table: PlaceTable,
    /// How many more batches can be added without memory.
    spare: u16,
}

impl Model for Orders {
    ghost use Rattle.batch_book.specs.Ledgers.{Ordered};

    ghost Value = { Ordered };

    ghost use Rattle.std.specs.Prelude.{vec_capacity};
    ghost use Rattle.batch_book.specs.Ledgers.{AreOrdered};

    ghost view = { λ s. record { batches = s.batches.items; spare = s.spare } };

    ghost invariant = { λ s. AreOrdered s.batches.items s.table (vec_capacity s.batches) s.spare };
}

/// The hash under which a batch is found.
fn hash_of(name: &Text20) -> u32
    ensures is { result ≡ the_text_hash name.now }
    ensures named { 0 < length name.now }
{
    text_hash(name.bytes())
}

/// Whether a batch has the name.
#[tactic(auto, unfolding(crate::specs::Batches::is_called))]
fn is_called(batch: &Batch, name: &Text20) -> bool
    ensures { result ≡ is_called name.now batch.now }
{
    same_text(&batch.order.batch, name)
}

/// The batch of the name.
fn find_batch(table: &PlaceTable, batches: &[Batch], name: &Text20) -> Option<BatchId>
    requires hashed { table.now.hashes ≡ map hash_in batches.now }
    requires apart { AreApart batches.now }
    requires few { length batches.now ≤ 4096 }
    ensures is { result ≡ position (is_called name.now) batches.now }
    ensures absent { IfNone result (All (λ batch. is_called name.now batch ≡ false) batches.now) }
{
    let same = |at: usize| -> bool
        requires { at < length batches.now }
        ensures yes { OnTrue result (HoldsAt (λ batch. is_called name.entry.now batch ≡ true) batches.entry.now at) }
        ensures no { OnFalse result (HoldsAt (λ batch. is_called name.entry.now batch ≡ false) batches.entry.now at) }
    { is_called(&batches[at], name) };
    match table.find(hash_of(name), &same) {
        Some(at) => Some(BatchId(at as u16)),
        None => None,
    }
}

/// A batch is in another phase from now on.
fn set_phase_at(batches: &mut Vec<Batch>, at: usize, phase: Phase)
    requires { at < length batches.old.items }
    ensures batches { batches.new.items ≡ phased batches.old.items at phase }
    ensures capacity { vec_capacity batches.new ≡ vec_capacity batches.old }
{
    let old = batches[at];
    batches[at] = Batch { phase, ..old };
}

/// A batch has another quantity from now on.
fn set_quantity_at(batches: &mut Vec<Batch>, at: usize, quantity: u32)
    requires { at < length batches.old.items }
    ensures batches { batches.new.items ≡ amended batches.old.items at quantity }
    ensures capacity { vec_capacity batches.new ≡ vec_capacity batches.old }
{
    let old = batches[at];
    batches[at] = Batch { quantity, ..old };
}

impl Orders {
    /// No batches, and no room.
    pub(crate) fn new(alloc: Global) -> Orders
        ensures batches { result.batches ≡ [] }
        ensures spare { result.spare ≡ 0 }
    {
        Orders {
            batches: Vec::new(alloc),
            table: PlaceTable::new(alloc),
            spare: 0,
        }
    }

    /// How many there are.
    pub(crate) fn len(&self) -> usize
        ensures is { result ≡ length self.now.batches }
        ensures few { length self.now.batches + self.now.spare ≤ 4096 }
    {
        self.batches.len()
    }

    /// Makes room for so many more.
    pub(crate) fn ready(&mut self, more: u16) -> Result<(), Memory>
        requires { length self.old.batches + more ≤ 4096 }
        ensures batches { self.new.batches ≡ self.old.batches }
        ensures ok { OnOk result (more ≤ self.new.spare) }
        ensures spare { self.old.spare ≤ self.new.spare }
    {
        self.table.ready(more as usize)?;
        self.batches.reserve(more as usize)?;
        self.spare = self.spare.max(more);
        Ok(())
    }

    /// The batch of the name.
    pub(crate) fn find(&self, name: &Text20) -> Option<BatchId>
        ensures is { result ≡ position (is_called name.now) self.now.batches }
        ensures absent { IfNone result (All (λ batch. is_called name.now batch ≡ false) self.now.batches) }
    {
        find_batch(&self.table, self.batches.as_slice(), name)
    }

    /// Tells that no two batches have one name, and that each has one.
    pub(crate) fn tell_named(&self)
        ensures apart { AreApart self.now.batches }
        ensures named { All IsNamed self.now.batches }
    {
        let _count = self.batches.len();
    }

    /// The batch at a place.
    pub(crate) fn batch(&self, at: u16) -> Batch
        requires { at < length self.now.batches }
        ensures { slice_get self.now.batches at ≡ Some result }
    {
        self.batches[at as usize]
    }

    /// Puts a batch last.
    pub(crate) fn add(&mut self, batch: Batch)
        requires spare { 0 < self.old.spare }
        requires new { All (λ other. is_called batch.order.batch other ≡ false) self.old.batches }
        ensures batches { self.new.batches ≡ self.old.batches ++ batch ∷ [] }
        ensures spare { self.new.spare + 1 ≡ self.old.spare }
    {
        self.table.insert(hash_of(&batch.order.batch));
        self.batches.push_reserved(batch);
        self.spare -= 1;
    }

    /// Takes the last batch back, and its room is there again.
    pub(crate) fn remove_last(&mut self)
        requires { 0 < length self.old.batches }
        ensures batches { self.new.batches ≡ take (length self.old.batches - 1) self.old.batches }
        ensures spare { self.new.spare ≡ self.old.spare + 1 }
    {
        let _batch = self.batches.take_last();
        self.table.remove_last();
        self.spare += 1;
    }

    /// A batch is in another phase from now on.
    pub(crate) fn set_phase(&mut self, at: u16, phase: Phase)
        requires { at < length self.old.batches }
        ensures batches { self.new.batches ≡ phased self.old.batches at phase }
        ensures spare { self.new.spare ≡ self.old.spare }
    {
        set_phase_at(&mut self.batches, at as usize, phase);
    }

    /// A batch has another quantity from now on.
    pub(crate) fn amend(&mut self, at: u16, quantity: u32)
        requires { at < length self.old.batches }
        ensures batches { self.new.batches ≡ amended self.old.batches at quantity }
        ensures spare { self.new.spare ≡ self.old.spare }
    {
        set_quantity_at(&mut self.batches, at as usize, quantity);
    }
}
