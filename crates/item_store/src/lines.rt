//! What a line got of a batch's rows.
ghost use Rattle.std.specs.Prelude.{◌≡◌, ◌+◌, ◌*◌, ◌^◌, ◌<◌, ◌≤◌, ◌&&◌, eqb, length};
ghost use Rattle.std.specs.List.{list_any};
ghost use Rattle.item_store.specs.Rows.{is_lent_to, line_class, count_to as the_count_to, line_counts_of};
ghost use Rattle.item_store.specs.Cells.{IsTally, line_cell as the_line_cell, pair_cell as the_pair_cell};

use crate::row::ItemRow;
use deed_words::{BatchId, State, StationId};

/// Four for each of the 4,096 batches and 64 lines. The rows of others are scanned.
pub(crate) const LINE_CELLS: usize = 1_048_576;

/// Past the cells of all numbers.
const NO_CELL: usize = 16_777_216;

/// What a row is for its line: 0 printed by none yet, 1 good, 2 spoiled, 3 returned.
fn class_of(state: State) -> usize
    ensures value { result ≡ line_class state }
    ensures small { result < 4 }
{
    match state {
        State::Fresh | State::Lent => 0,
        State::Active | State::Sampled | State::Rejected | State::Gone => 1,
        State::Spoiled => 2,
        State::Returned => 3,
    }
}

/// The cell of a batch, a line and what its rows are for it.
fn pair_cell(batch: BatchId, line: StationId, class: usize) -> usize
    requires { class < 4 }
    ensures is { result ≡ the_pair_cell batch line class }
    ensures known { batch < 2 ^ 16 }
{
    if line.0 < 64 {
        (batch.0 as usize * 64 + line.0 as usize) * 4 + class
    } else {
        NO_CELL
    }
}

/// The cell of a row's batch and line and what it is for the line.
pub(crate) fn line_cell(row: &ItemRow) -> usize
    ensures { result ≡ the_line_cell row.now }
{
    match row.line {
        Some(line) => pair_cell(row.batch, line, class_of(row.state)),
        None => NO_CELL,
    }
}

/// Whether a row is of the batch and was lent to the line.
fn is_to(row: &ItemRow, batch: BatchId, line: StationId) -> bool
    ensures { result ≡ is_lent_to batch line row.now }
{
    match row.line {
        Some(own) => row.batch.0 == batch.0 && own.0 == line.0,
        None => false,
    }
}

/// Whether a row is that for the line.
fn is_to_as(row: &ItemRow, batch: BatchId, line: StationId, class: usize) -> bool
    ensures { result ≡ (is_lent_to batch line row.now && eqb (line_class row.now.state) class) }
{
    let lent = is_to(row, batch, line);
    lent && class_of(row.state) == class
}

/// The count, by a look at each row.
fn scanned(rows: &[ItemRow], batch: BatchId, line: StationId, class: usize) -> u32
    requires { length rows.now < 2 ^ 31 }
    ensures { result ≡ the_count_to batch line class rows.now }
{
    rows.iter()
        .filter(|row| is_to_as(row, batch, line, class))
        .count() as u32
}

/// How many rows of the batch are that for the line.
fn count_to(cells: &[u32], rows: &[ItemRow], batch: BatchId, line: StationId, class: usize) -> u32
    requires tally { IsTally the_line_cell rows.now cells.now }
    requires few { length rows.now ≤ 1000000 }
    requires class { class < 4 }
    ensures value { result ≡ the_count_to batch line class rows.now }
    ensures bound { result ≤ 1000000 }
{
    let cell = pair_cell(batch, line, class);
    if line.0 < 64 && cell < cells.len() {
        cells[cell]
    } else {
        scanned(rows, batch, line, class)
    }
}

/// How many rows of the batch are good, spoiled and returned for the line.
pub(crate) fn line_counts(
    cells: &[u32],
    rows: &[ItemRow],
    batch: BatchId,
    line: StationId,
) -> [u32; 3]
    requires tally { IsTally the_line_cell rows.now cells.now }
    requires few { length rows.now ≤ 1000000 }
    ensures { result ≡ line_counts_of batch line rows.now }
{
    let good = count_to(cells, rows, batch, line, 1);
    let spoiled = count_to(cells, rows, batch, line, 2);
    let returned = count_to(cells, rows, batch, line, 3);
    [good, spoiled, returned]
}

/// Whether a row of the batch was lent to the line.
pub(crate) fn was_lent(cells: &[u32], rows: &[ItemRow], batch: BatchId, line: StationId) -> bool
    requires tally { IsTally the_line_cell rows.now cells.now }
    requires few { length rows.now ≤ 1000000 }
    ensures { result ≡ list_any (is_lent_to batch line) rows.now }
{
    let lent = count_to(cells, rows, batch, line, 0);
    let good = count_to(cells, rows, batch, line, 1);
    let spoiled = count_to(cells, rows, batch, line, 2);
    let returned = count_to(cells, rows, batch, line, 3);
    lent + good + spoiled + returned != 0
}
