//! The list of moves.
ghost use Rattle.std.specs.Prelude.{◌≡◌, ◌+◌, ◌<◌, ◌≤◌, ◌^◌, ◌∷◌, ◌++◌, [], ℕ, true, Some, OnOk, IfSome, is_some, length, slice_index, slice_index_or};
ghost use Rattle.deed_words.specs.Happenings.{listed};
ghost use Rattle.move_list.specs.Held.{HasRoom, room_after, room_before, places_of};

use crate::moved::{Moved, batch_of};
use deed_words::BatchId;
use gs1_keys::Memory;
use row_lists::RowLists;
use std::alloc::Global;
use std::marker::Model;

/// What is kept of the moves, in their order.
#[derive(Drop)]
pub struct MoveList {
    moved: Vec<Moved>,
    /// The moves of each batch, by their places in the list.
    by_batch: RowLists,
    /// How many more moves can come without memory, where their batches have room.
    room: usize,
}

impl Model for MoveList {
    ghost use Rattle.std.specs.Prelude.{vec_capacity};
    ghost use Rattle.move_list.specs.Held.{Held, IsHeld};

    ghost Value = { Held };

    ghost view = { λ s. record { moves = s.moved.items; room = record { any = s.room; own = s.by_batch.rooms } } };

    ghost invariant = { λ s. IsHeld s.moved.items s.by_batch s.room (vec_capacity s.moved) };
}

impl MoveList {
    /// No moves, and no room.
    pub fn new(alloc: Global) -> MoveList
        ensures { result.moves ≡ [] }
    {
        MoveList {
            moved: Vec::new(alloc),
            by_batch: RowLists::new(alloc),
            room: 0,
        }
    }

    /// How many there are.
    pub fn len(&self) -> u32
        ensures { result ≡ length self.now.moves }
    {
        self.by_batch.len()
    }

    /// What is kept of the move at a place, from 0.
    pub fn get(&self, at: u32) -> &Moved
        requires { at < length self.now.moves }
        ensures { result.now ≡ slice_index_or self.now.moves at result.now }
    {
        &self.moved[at as usize]
    }

    /// How many moves the batch has.
    pub fn count(&self, batch: BatchId) -> u32
        ensures { result ≡ length (places_of self.now.moves batch) }
    {
        self.by_batch.count(batch.0)
    }

    /// The place of a move of the batch, which is the one with that number among those of the batch, from 0.
    pub fn place(&self, batch: BatchId, at: u32) -> u32
        requires { at < length (places_of self.now.moves batch) }
        ensures is { result ≡ slice_index (places_of self.now.moves batch) at }
        ensures within { result < length self.now.moves }
    {
        self.by_batch.row(batch.0, at)
    }

    /// Makes room for one more move of the batch. No other call takes memory.
    ///
    /// # Errors
    ///
    /// `Memory` where no memory was found. The moves, and the room that there was, stay.
    pub fn ready(&mut self, batch: BatchId) -> Result<(), Memory>
        ensures moves { self.new.moves ≡ self.old.moves }
        ensures ok { OnOk result ((0 < self.new.room.any) × (0 < slice_index self.new.room.own batch)) }
        ensures any { self.old.room.any ≤ self.new.room.any }
        ensures own { (other : ℕ) → slice_index self.old.room.own other ≤ slice_index self.new.room.own other }
    {
        self.moved.reserve(1)?;
        self.by_batch.ready(batch.0)?;
        self.room = self.room.max(1);
        Ok(())
    }

    /// Puts a move last, if there is one, and tells whether there was one. It takes no memory.
    #[tactic(auto, unfolding(deed_words::specs::Happenings::listed))]
    pub fn push(&mut self, moved: Option<Moved>) -> bool
        requires few { length self.old.moves + 1 < 2 ^ 32 }
        requires room { HasRoom self.old.room moved }
        ensures some { result ≡ is_some moved }
        ensures moves { self.new.moves ≡ self.old.moves ++ listed moved }
        ensures room { self.new.room ≡ room_after self.old.room moved }
    {
        match moved {
            Some(moved) => {
                self.put(moved);
                true
            }
            None => false,
        }
    }

    /// Puts a move last.
    fn put(&mut self, moved: Moved)
        requires few { length self.old.moves + 1 < 2 ^ 32 }
        requires room { HasRoom self.old.room (Some moved) }
        ensures moves { self.new.moves ≡ self.old.moves ++ moved ∷ [] }
        ensures room { self.new.room ≡ room_after self.old.room (Some moved) }
    {
        self.by_batch.push(batch_of(&moved));
        self.moved.push_reserved(moved);
        self.room -= 1;
    }

    /// Takes the last move back, if that is asked for. It takes no memory.
    #[tactic(auto, unfolding(deed_words::specs::Happenings::listed))]
    pub fn take_back(&mut self, some: bool) -> Option<Moved>
        requires { some ≡ true → 0 < length self.old.moves }
        ensures some { is_some result ≡ some }
        ensures moves { self.old.moves ≡ self.new.moves ++ listed result }
        ensures room { self.new.room ≡ room_before self.old.room result }
        ensures within { IfSome result (λ moved. moved.batch < length self.old.room.own) }
    {
        if some { Some(self.take_last()) } else { None }
    }

    /// Takes the last move back.
    fn take_last(&mut self) -> Moved
        requires { 0 < length self.old.moves }
        ensures moves { self.old.moves ≡ self.new.moves ++ result ∷ [] }
        ensures room { self.new.room ≡ room_before self.old.room (Some result) }
        ensures within { result.batch < length self.old.room.own }
    {
        let _batch = self.by_batch.remove_last();
        self.room += 1;
        self.moved.take_last()
    }
}
