//! The serials of a draw that isn't done.
ghost use Rattle.std.specs.Prelude.{◌≡◌, ◌<◌, ◌∷◌, ◌++◌, [], true, false, length, map, is_ok, if◌then◌else◌, bytes_eq};
ghost use Rattle.std.specs.Bool.{OnTrue, OnFalse};
ghost use Rattle.std.specs.List.{HoldsAt};
ghost use Rattle.gs1_keys.specs.Forms.{is_among};
ghost use Rattle.place_table.specs.Hash.{text_hash};

use crate::drawn::is_same;
use gs1_keys::{Memory, Serials, Text20};
use place_table::{PlaceTable, text_hash};
use std::alloc::Global;
use std::marker::Model;

/// How many serials there are at most.
const MOST_SERIALS: usize = 1 << 30;

/// Serials in their order, found by their hashes.
#[derive(Drop)]
pub(crate) struct NewSerials {
    serials: Serials,
    table: PlaceTable,
}

impl Model for NewSerials {
    ghost use Rattle.std.specs.Prelude.{◌≡◌, List, ℕ, map};
    ghost use Rattle.place_table.specs.Hash.{text_hash};

    ghost Value = { List (List ℕ) };

    ghost view = { λ f. f.serials };

    ghost invariant = { λ f. f.table.hashes ≡ map text_hash f.serials };
}

/// Whether the serial is one of those that the table indexes.
fn is_found(table: &PlaceTable, serials: &[Text20], serial: &Text20) -> bool
    requires hashed { table.now.hashes ≡ map text_hash serials.now }
    ensures { result ≡ is_among serials.now serial.now }
{
    let same = |i: usize| -> bool
        requires { i < length serials.now }
        ensures yes { OnTrue result (HoldsAt (λ other. bytes_eq serial.entry.now other ≡ true) serials.entry.now i) }
        ensures no { OnFalse result (HoldsAt (λ other. bytes_eq serial.entry.now other ≡ false) serials.entry.now i) }
    { is_same(serial, &serials[i]) };
    match table.find(text_hash(serial.bytes()), &same) {
        Some(_) => true,
        None => false,
    }
}

/// Puts a serial last, or changes nothing.
fn put(serials: &mut Serials, table: &mut PlaceTable, serial: Text20) -> Result<(), Memory>
    requires hashed { table.old.hashes ≡ map text_hash serials.old }
    ensures serials { serials.new ≡ (if is_ok result then serials.old ++ serial ∷ [] else serials.old) }
    ensures hashed { table.new.hashes ≡ map text_hash serials.new }
{
    if serials.len() >= MOST_SERIALS {
        return Err(Memory);
    }
    table.ready(1)?;
    serials.push(serial)?;
    table.insert(text_hash(serial.bytes()));
    Ok(())
}

impl NewSerials {
    /// No serials. It takes no memory.
    pub(crate) fn new(alloc: Global) -> Self
        ensures { result ≡ [] }
    {
        NewSerials {
            serials: Serials::new(alloc),
            table: PlaceTable::new(alloc),
        }
    }

    /// Whether the serial is one of them.
    pub(crate) fn has(&self, serial: &Text20) -> bool
        ensures { result ≡ is_among self.now serial.now }
    {
        is_found(&self.table, self.serials.as_slice(), serial)
    }

    /// Puts a serial last, or changes nothing.
    pub(crate) fn push(&mut self, serial: Text20) -> Result<(), Memory>
        ensures { self.new ≡ (if is_ok result then self.old ++ serial ∷ [] else self.old) }
    {
        put(&mut self.serials, &mut self.table, serial)
    }

    /// The serials alone.
    pub(crate) fn into_serials(self) -> Serials
        ensures { result ≡ self }
    {
        self.serials
    }
}
