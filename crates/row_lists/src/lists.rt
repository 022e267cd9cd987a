//! The rows of all groups.
ghost use Rattle.std.specs.Prelude.{◌≡◌, ◌≢◌, ◌+◌, ◌-◌, ◌<◌, ◌≤◌, ◌^◌, ◌∷◌, ◌++◌, [], ℕ, OnOk, length, slice_index, slice_set};
ghost use Rattle.row_lists.specs.Lists.{rows_of};

use crate::changing::{open, put, ready, unput};
use crate::list::RowList;
use std::alloc::{AllocError, Global};
use std::marker::Model;

/// The rows of each group, in their order.
#[derive(Drop)]
pub struct RowLists {
    alloc: Global,
    /// The rows' groups.
    groups: Vec<u16>,
    /// The rows of each group.
    lists: Vec<RowList>,
}

impl Model for RowLists {
    ghost use Rattle.std.specs.Prelude.{◌-◌, vec_capacity, vec_len};
    ghost use Rattle.row_lists.specs.Lists.{AreLists, Listed, rows_in, rooms_in};

    ghost Value = { Listed };

    ghost view = { λ c. record { groups = c.groups.items; room = vec_capacity c.groups - vec_len c.groups; rooms = rooms_in c.lists.items } };

    ghost invariant = { λ c. AreLists c.groups.items (rows_in c.lists.items) };
}

impl RowLists {
    /// No rows, and no room.
    pub fn new(alloc: Global) -> RowLists
        ensures groups { result.groups ≡ [] }
    {
        RowLists {
            alloc,
            groups: Vec::new(alloc),
            lists: Vec::new(alloc),
        }
    }

    /// How many rows there are.
    pub fn len(&self) -> u32
        ensures { result ≡ length self.now.groups }
    {
        self.groups.len() as u32
    }

    /// How many rows the group has.
    pub fn count(&self, group: u16) -> u32
        ensures { result ≡ length (rows_of self.now.groups group) }
    {
        let at = group as usize;
        if at < self.lists.len() {
            self.lists[at].len() as u32
        } else {
            0
        }
    }

    /// The row of the group at a place, from 0.
    pub fn row(&self, group: u16, place: u32) -> u32
        requires { place < length (rows_of self.now.groups group) }
        ensures is { result ≡ slice_index (rows_of self.now.groups group) place }
        ensures within { result < length self.now.groups }
    {
        self.lists[group as usize].at(place as usize)
    }

    /// Makes room for one more row of the group. No other call takes memory.
    ///
    /// # Errors
    ///
    /// `AllocError` where no memory was found. The rows, and the room that there was, stay.
    pub fn ready(&mut self, group: u16) -> Result<(), AllocError>
        ensures groups { self.new.groups ≡ self.old.groups }
        ensures ok { OnOk result ((0 < self.new.room) × (0 < slice_index self.new.rooms group)) }
        ensures room { self.old.room ≤ self.new.room }
        ensures rooms { (other : ℕ) → slice_index self.old.rooms other ≤ slice_index self.new.rooms other }
    {
        self.groups.reserve(1)?;
        open(self.alloc, &mut self.lists, group as usize)?;
        ready(&mut self.lists, group as usize)
    }

    /// Puts a row of the group last.
    pub fn push(&mut self, group: u16)
        requires few { length self.old.groups + 1 < 2 ^ 32 }
        requires room { 0 < self.old.room }
        requires rooms { 0 < slice_index self.old.rooms group }
        ensures groups { self.new.groups ≡ self.old.groups ++ group ∷ [] }
        ensures room { self.new.room + 1 ≡ self.old.room }
        ensures rooms { self.new.rooms ≡ slice_set self.old.rooms group (slice_index self.old.rooms group - 1) }
    {
        let row = self.groups.len() as u32;
        put(&mut self.lists, group as usize, row);
        self.groups.push_reserved(group);
    }

    /// Takes the last row back, and tells its group.
    pub fn remove_last(&mut self) -> u16
        requires { 0 < length self.old.groups }
        ensures groups { self.old.groups ≡ self.new.groups ++ result ∷ [] }
        ensures room { self.new.room ≡ self.old.room + 1 }
        ensures rooms { self.new.rooms ≡ slice_set self.old.rooms result (slice_index self.old.rooms result + 1) }
        ensures within { result < length self.old.rooms }
    {
        let group = self.groups.take_last();
        let _row = unput(&mut self.lists, group as usize);
        group
    }
}
