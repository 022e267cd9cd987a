//! The lists of all groups: what becomes of them where one changes.
ghost use Rattle.std.specs.Prelude.{◌≡◌, ◌+◌, ◌-◌, ◌<◌, ◌≤◌, ◌^◌, ◌∷◌, ◌++◌, [], ℕ, OnOk, length, slice_index, slice_index_or, slice_set};
ghost use Rattle.row_lists.specs.Lists.{rows_in, rooms_in};

use crate::list::RowList;
use std::alloc::{AllocError, Global};

/// Makes empty lists, up to that of the group.
pub(crate) fn open(alloc: Global, lists: &mut Vec<RowList>, group: usize) -> Result<(), AllocError>
    requires { group < 2 ^ 16 }
    ensures rows { (other : ℕ) → slice_index_or (rows_in lists.new.items) other [] ≡ slice_index_or (rows_in lists.old.items) other [] }
    ensures rooms { (other : ℕ) → slice_index (rooms_in lists.new.items) other ≡ slice_index (rooms_in lists.old.items) other }
    ensures ok { OnOk result (group < length lists.new.items) }
{
    for _ in lists.len()..group + 1 {
        lists.push(RowList::new(alloc))?;
    }
    Ok(())
}

/// Makes room for one more row of the group.
pub(crate) fn ready(lists: &mut Vec<RowList>, group: usize) -> Result<(), AllocError>
    requires { group < length lists.old.items }
    ensures rows { rows_in lists.new.items ≡ rows_in lists.old.items }
    ensures ok { OnOk result (0 < slice_index (rooms_in lists.new.items) group) }
    ensures rooms { (other : ℕ) → slice_index (rooms_in lists.old.items) other ≤ slice_index (rooms_in lists.new.items) other }
{
    let list = &mut lists[group];
    list.ready()
}

/// Puts a row at the end of the group's list.
pub(crate) fn put(lists: &mut Vec<RowList>, group: usize, row: u32)
    requires { 0 < slice_index (rooms_in lists.old.items) group }
    ensures rows { rows_in lists.new.items ≡ slice_set (rows_in lists.old.items) group (slice_index_or (rows_in lists.old.items) group [] ++ row ∷ []) }
    ensures rooms { rooms_in lists.new.items ≡ slice_set (rooms_in lists.old.items) group (slice_index (rooms_in lists.old.items) group - 1) }
{
    let list = &mut lists[group];
    list.push(row);
}

/// Takes the last row of the group back.
pub(crate) fn unput(lists: &mut Vec<RowList>, group: usize) -> u32
    requires { 0 < length (slice_index_or (rows_in lists.old.items) group []) }
    ensures rows { rows_in lists.old.items ≡ slice_set (rows_in lists.new.items) group (slice_index_or (rows_in lists.new.items) group [] ++ result ∷ []) }
    ensures rooms { rooms_in lists.new.items ≡ slice_set (rooms_in lists.old.items) group (slice_index (rooms_in lists.old.items) group + 1) }
{
    let list = &mut lists[group];
    list.unpush()
}
