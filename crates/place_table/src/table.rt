//! The table.
ghost use Rattle.std.specs.Prelude.{◌≡◌, ℕ, ◌+◌, ◌-◌, ◌*◌, ◌^◌, ◌<◌, ◌≤◌, ◌∷◌, ◌++◌, [], true, false, length, take, slice_index, IfSome, IfNone, OnOk};

use crate::places::{find_row, free_place, grow, places_for, put_place};
use std::alloc::{AllocError, Global};
use std::marker::Model;

/// Rows by their hashes: fewer than 2^31. The i-th hash is that of the i-th row; the caller keeps the rows, and tells
/// those of one hash apart.
#[derive(Drop)]
pub struct PlaceTable {
    /// 0, or one more than the row that has the place.
    places: Vec<u32>,
    /// The rows' hashes, in the order in which the rows came.
    hashes: Vec<u32>,
    /// How many more rows can come without memory.
    room: usize,
}

impl Model for PlaceTable {
    ghost use Rattle.place_table.specs.View.{Indexed};

    ghost Value = { Indexed };

    ghost use Rattle.std.specs.Prelude.{vec_capacity};
    ghost use Rattle.place_table.specs.Places.{IsTable};

    ghost view = { λ t. record { hashes = t.hashes.items; room = t.room } };

    ghost invariant = { λ t. IsTable t.places.items t.hashes.items (vec_capacity t.hashes) t.room };
}

impl PlaceTable {
    /// The empty table, which has no memory.
    pub fn new(alloc: Global) -> PlaceTable
        ensures hashes { result.hashes ≡ [] }
        ensures room { result.room ≡ 0 }
    {
        PlaceTable {
            places: Vec::new(alloc),
            hashes: Vec::new(alloc),
            room: 0,
        }
    }

    /// How many rows there are.
    pub fn len(&self) -> usize
        ensures { result ≡ length self.now.hashes }
    {
        self.hashes.len()
    }

    /// How many rows can be inserted without memory.
    pub fn room(&self) -> usize
        ensures { result ≡ self.now.room }
    {
        self.room
    }

    /// A row with the hash for which `same` answers true.
    pub fn find<F: Fn(usize) -> bool>(&self, hash: u32, same: &F) -> Option<usize>
        requires { (i : ℕ) → i < length self.now.hashes → F.pre same.now i }
        ensures found { IfSome result (λ i. (i < length self.now.hashes) × F.post same.now i true) }
        ensures absent { IfNone result ((i : ℕ) → i < length self.now.hashes → slice_index self.now.hashes i ≡ hash → F.post same.now i false) }
    {
        find_row(self.places.as_slice(), self.hashes.as_slice(), hash, same)
    }

    /// Makes room for so many more rows. No other call takes memory.
    ///
    /// # Errors
    ///
    /// `AllocError` where no memory was found. The rows, and the room that there was, stay.
    pub fn ready(&mut self, more: usize) -> Result<(), AllocError>
        requires { length self.old.hashes + more < 2 ^ 31 }
        ensures hashes { self.new.hashes ≡ self.old.hashes }
        ensures ok { OnOk result (more ≤ self.new.room) }
        ensures room { self.old.room ≤ self.new.room }
    {
        if more <= self.room {
            return Ok(());
        }
        self.hashes.reserve(more)?;
        let count = places_for(self.hashes.len() + more);
        grow(&mut self.places, self.hashes.as_slice(), count)?;
        self.room = more;
        Ok(())
    }

    /// Puts a row last.
    pub fn insert(&mut self, hash: u32)
        requires { 0 < self.old.room }
        ensures hashes { self.new.hashes ≡ self.old.hashes ++ hash ∷ [] }
        ensures room { self.new.room + 1 ≡ self.old.room }
    {
        put_place(self.places.as_mut_slice(), self.hashes.as_slice(), hash);
        self.hashes.push_reserved(hash);
        self.room -= 1;
    }

    /// Takes the last row back, and with it its one place.
    pub fn remove_last(&mut self)
        requires { 0 < length self.old.hashes }
        ensures hashes { self.new.hashes ≡ take (length self.old.hashes - 1) self.old.hashes }
        ensures room { self.new.room ≡ self.old.room + 1 }
    {
        free_place(self.places.as_mut_slice(), self.hashes.as_slice());
        let _hash = self.hashes.take_last();
        self.room += 1;
    }
}
