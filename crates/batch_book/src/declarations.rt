//! The declarations, in the order in which they came, and linked for each batch.
ghost use Rattle.std.specs.Prelude.{◌≡◌, ◌+◌, ◌-◌, ◌^◌, ◌<◌, ◌≤◌, ◌∷◌, ◌++◌, [], length, take, OnOk, slice_index};
ghost use Rattle.batch_book.specs.Said.{batch_in, batches, is_by as is_said_by, last_by as the_last_by, declared_last, IsReached};

use crate::row::DeclarationRow;
use deed_words::{BatchId, StationId};
use gs1_keys::Memory;
use row_chains::RowChains;
use std::alloc::Global;
use std::marker::Model;

/// From how many declarations on no room is made.
const MOST: usize = 1 << 31;

/// The declarations.
#[derive(Drop)]
pub(crate) struct Declarations {
    rows: Vec<DeclarationRow>,
    /// The declarations of each batch, in their order.
    chains: RowChains,
    /// How many more declarations can be added without memory.
    spare: u32,
}

impl Model for Declarations {
    ghost use Rattle.batch_book.specs.Ledgers.{Heard};

    ghost Value = { Heard };

    ghost use Rattle.std.specs.Prelude.{vec_capacity};
    ghost use Rattle.batch_book.specs.Ledgers.{AreHeard};

    ghost view = { λ s. record { declarations = s.rows.items; spare = s.spare } };

    ghost invariant = { λ s. AreHeard s.rows.items s.chains (vec_capacity s.rows) s.spare };
}

/// The batch of a declaration.
fn batch_of(said: &DeclarationRow) -> u16
    ensures { result ≡ batch_in said.now }
{
    said.batch.0
}

/// Whether the line declared this of the batch.
fn is_by(said: &DeclarationRow, batch: BatchId, line: StationId) -> bool
    ensures { result ≡ is_said_by batch line said.now }
{
    said.batch.0 == batch.0 && said.line.0 == line.0
}

/// The place of the batch's first declaration, or the end.
fn begin(chains: &RowChains, rows: &[DeclarationRow], batch: BatchId) -> usize
    requires { chains.now.groups ≡ batches rows.now }
    ensures { IsReached (batches rows.now) 0 batch result }
{
    match chains.first(batch.0) {
        Some(first) => first,
        None => rows.len(),
    }
}

/// The place of the next declaration of the same batch, or the end.
fn step(chains: &RowChains, rows: &[DeclarationRow], at: usize) -> usize
    requires grouped { chains.now.groups ≡ batches rows.now }
    requires range { at < length rows.now }
    ensures { IsReached (batches rows.now) (at + 1) (slice_index (batches rows.now) at) result }
{
    match chains.next(at) {
        Some(next) => next,
        None => rows.len(),
    }
}

/// What the line declared last of the batch: a look at each declaration of the batch.
fn last_by(
    chains: &RowChains,
    rows: &[DeclarationRow],
    batch: BatchId,
    line: StationId,
) -> Option<DeclarationRow>
    requires { chains.now.groups ≡ batches rows.now }
    ensures { result ≡ the_last_by batch line rows.now }
{
    let mut last = None;
    let mut at = begin(chains, rows, batch);
    while at < rows.len() {
        let said = rows[at];
        if is_by(&said, batch, line) {
            last = Some(said);
        }
        at = step(chains, rows, at);
    }
    last
}

impl Declarations {
    /// No declarations, and no room.
    pub(crate) fn new(alloc: Global) -> Declarations
        ensures declarations { result.declarations ≡ [] }
        ensures spare { result.spare ≡ 0 }
    {
        Declarations {
            rows: Vec::new(alloc),
            chains: RowChains::new(alloc),
            spare: 0,
        }
    }

    /// Makes room for so many more: none from 2^31 declarations on.
    pub(crate) fn ready(&mut self, more: u16) -> Result<(), Memory>
        ensures declarations { self.new.declarations ≡ self.old.declarations }
        ensures ok { OnOk result (more ≤ self.new.spare) }
        ensures spare { self.old.spare ≤ self.new.spare }
    {
        let count = more as usize;
        if self.rows.len() >= MOST - count {
            return Err(Memory);
        }
        self.chains.ready(count)?;
        self.rows.reserve(count)?;
        self.spare = self.spare.max(more as u32);
        Ok(())
    }

    /// Puts a declaration last.
    pub(crate) fn add(&mut self, said: DeclarationRow)
        requires { 0 < self.old.spare }
        ensures declarations { self.new.declarations ≡ self.old.declarations ++ said ∷ [] }
        ensures spare { self.new.spare + 1 ≡ self.old.spare }
    {
        self.chains.push(batch_of(&said));
        self.rows.push_reserved(said);
        self.spare -= 1;
    }

    /// Takes the last declaration back, and its room is there again.
    pub(crate) fn remove_last(&mut self)
        requires { 0 < length self.old.declarations }
        ensures declarations { self.new.declarations ≡ take (length self.old.declarations - 1) self.old.declarations }
        ensures spare { self.new.spare ≡ self.old.spare + 1 }
    {
        let _said = self.rows.take_last();
        self.chains.remove_last();
        self.spare += 1;
    }

    /// Good, spoiled and returned serials of the batch, as the line declared them last.
    pub(crate) fn last(&self, batch: BatchId, line: StationId) -> Option<[u32; 3]>
        ensures { result ≡ declared_last batch line self.now.declarations }
    {
        match last_by(&self.chains, self.rows.as_slice(), batch, line) {
            Some(said) => Some([said.good, said.spoiled, said.returned]),
            None => None,
        }
    }
}
