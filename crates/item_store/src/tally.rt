//! Running counts: each cell counts the rows that are of it.
ghost use Rattle.std.specs.Prelude.{◌≡◌, ℕ, ◌+◌, ◌-◌, ◌*◌, ◌^◌, ◌<◌, ◌≤◌, length, slice_index, slice_set, ◌&&◌};
ghost use Rattle.item_store.specs.Rows.{state_code, count_in as the_count_in, is_in as is_in_row};
ghost use Rattle.item_store.specs.Cells.{IsTally, raised, lowered, state_cell as the_state_cell};

use crate::row::ItemRow;
use deed_words::{BatchId, State};
use gs1_keys::Memory;

/// Eight for each of the 4,096 batches that a site may have. The rows of another batch are scanned.
pub(crate) const STATE_CELLS: usize = 32768;

/// The number of a state.
pub(crate) fn code_of(state: State) -> usize
    ensures value { result ≡ state_code state }
    ensures small { result < 8 }
{
    match state {
        State::Fresh => 0,
        State::Lent => 1,
        State::Returned => 2,
        State::Spoiled => 3,
        State::Active => 4,
        State::Sampled => 5,
        State::Rejected => 6,
        State::Gone => 7,
    }
}

/// The cell of a row's batch and state.
pub(crate) fn state_cell(row: &ItemRow) -> usize
    ensures { result ≡ the_state_cell row.now }
{
    row.batch.0 as usize * 8 + code_of(row.state)
}

/// One row more at a cell, if it is kept.
pub(crate) fn raise(cells: &mut Vec<u32>, at: usize)
    requires { at < length cells.old.items → slice_index cells.old.items at + 1 < 2 ^ 32 }
    ensures { cells.new.items ≡ raised cells.old.items at }
{
    if at < cells.len() {
        cells[at] += 1;
    }
}

/// One row fewer at a cell, if it is kept.
pub(crate) fn lower(cells: &mut Vec<u32>, at: usize)
    requires { at < length cells.old.items → 0 < slice_index cells.old.items at }
    ensures { cells.new.items ≡ lowered cells.old.items at }
{
    if at < cells.len() {
        cells[at] -= 1;
    }
}

/// Makes so many cells, each 0, where there are no rows and no cells yet.
pub(crate) fn ready_cells(
    cells: &mut Vec<u32>,
    rows: &[ItemRow],
    count: usize,
) -> Result<(), Memory>
    ensures { (cell : _) → IsTally cell rows.now cells.old.items → IsTally cell rows.now cells.new.items }
{
    if rows.is_empty() && cells.is_empty() {
        cells.resize(count, 0)?;
    }
    Ok(())
}

/// Whether a row is of the batch and in the state.
pub(crate) fn is_in(row: &ItemRow, batch: BatchId, state: State) -> bool
    ensures { result ≡ is_in_row batch state row.now }
{
    row.batch.0 == batch.0 && code_of(row.state) == code_of(state)
}

/// The count, by a look at each row.
fn scanned(rows: &[ItemRow], batch: BatchId, state: State) -> u32
    requires { length rows.now < 2 ^ 31 }
    ensures { result ≡ the_count_in batch state rows.now }
{
    rows.iter().filter(|row| is_in(row, batch, state)).count() as u32
}

/// How many rows of the batch have the state.
pub(crate) fn count_in(cells: &[u32], rows: &[ItemRow], batch: BatchId, state: State) -> u32
    requires tally { IsTally the_state_cell rows.now cells.now }
    requires few { length rows.now ≤ 1000000 }
    ensures value { result ≡ the_count_in batch state rows.now }
    ensures bound { result ≤ 1000000 }
{
    let cell = batch.0 as usize * 8 + code_of(state);
    if cell < cells.len() {
        cells[cell]
    } else {
        scanned(rows, batch, state)
    }
}
