//! The list of one group.
ghost use Rattle.std.specs.Prelude.{◌≡◌, ◌+◌, ◌-◌, ◌<◌, ◌≤◌, ◌∷◌, ◌++◌, [], OnOk, length, slice_index, vec_capacity};

use std::alloc::{AllocError, Global};

/// The rows of a group, in their order.
#[derive(Debug, Drop)]
pub(crate) struct RowList {
    rows: Vec<u32>,
    /// For how many more there is room.
    room: usize,
    ghost reserved: { length rows.items + room ≤ vec_capacity rows },
}

impl RowList {
    /// No rows, and no room.
    pub(crate) fn new(alloc: Global) -> RowList
        ensures rows { result.rows.items ≡ [] }
        ensures room { result.room ≡ 0 }
    {
        RowList {
            rows: Vec::new(alloc),
            room: 0,
        }
    }

    /// How many there are.
    pub(crate) fn len(&self) -> usize
        ensures { result ≡ length self.now.rows.items }
    {
        self.rows.len()
    }

    /// The row at a place.
    pub(crate) fn at(&self, place: usize) -> u32
        requires { place < length self.now.rows.items }
        ensures { result ≡ slice_index self.now.rows.items place }
    {
        self.rows[place]
    }

    /// Makes room for one more.
    pub(crate) fn ready(&mut self) -> Result<(), AllocError>
        ensures rows { self.new.rows.items ≡ self.old.rows.items }
        ensures ok { OnOk result (0 < self.new.room) }
        ensures room { self.old.room ≤ self.new.room }
    {
        self.rows.reserve(1)?;
        self.room = self.room.max(1);
        Ok(())
    }

    /// Puts a row last.
    pub(crate) fn push(&mut self, row: u32)
        requires { 0 < self.old.room }
        ensures rows { self.new.rows.items ≡ self.old.rows.items ++ row ∷ [] }
        ensures room { self.new.room ≡ self.old.room - 1 }
    {
        self.rows.push_reserved(row);
        self.room -= 1;
    }

    /// Takes the last row back.
    pub(crate) fn unpush(&mut self) -> u32
        requires { 0 < length self.old.rows.items }
        ensures rows { self.old.rows.items ≡ self.new.rows.items ++ result ∷ [] }
        ensures room { self.new.room ≡ self.old.room + 1 }
    {
        self.room += 1;
        self.rows.take_last()
    }
}
