//! The rows of a batch, in their order.
ghost use Rattle.std.specs.Prelude.{◌≡◌, ℕ, ◌+◌, ◌<◌, ◌≤◌, true, false, length, slice_index, slice_index_or};
ghost use Rattle.std.specs.List.{position, HoldsAt};
ghost use Rattle.item_store.specs.Rows.{batches, is_in as is_in_row, is_of as is_of_row};
ghost use Rattle.item_store.specs.Store.{IsReached};

use crate::row::ItemRow;
use crate::tally::is_in;
use deed_words::{BatchId, State};
use row_chains::RowChains;

/// Whether a row is of the batch.
pub(crate) fn is_of(row: &ItemRow, batch: BatchId) -> bool
    ensures { result ≡ is_of_row batch row.now }
{
    row.batch.0 == batch.0
}

/// The place of the batch's first row, or the end.
pub(crate) fn begin(chains: &RowChains, rows: &[ItemRow], batch: BatchId) -> usize
    requires { chains.now.groups ≡ batches rows.now }
    ensures { IsReached rows.now 0 batch result }
{
    match chains.first(batch.0) {
        Some(first) => first,
        None => rows.len(),
    }
}

/// The place of the next row of the same batch, or the end.
pub(crate) fn step(chains: &RowChains, rows: &[ItemRow], at: usize) -> usize
    requires grouped { chains.now.groups ≡ batches rows.now }
    requires range { at < length rows.now }
    ensures { IsReached rows.now (at + 1) (slice_index (batches rows.now) at) result }
{
    match chains.next(at) {
        Some(next) => next,
        None => rows.len(),
    }
}

/// From a row of the batch on, the place of the first one in the state, or the end.
pub(crate) fn first_from(
    chains: &RowChains,
    rows: &[ItemRow],
    batch: BatchId,
    state: State,
    from: usize,
) -> usize
    requires grouped { chains.now.groups ≡ batches rows.now }
    requires own { from < length rows.now → slice_index (batches rows.now) from ≡ batch }
    ensures others { (i : ℕ) (d : _) → from ≤ i → i < result → i < length rows.now → is_in_row batch state (slice_index_or rows.now i d) ≡ false }
    ensures found { result < length rows.now → HoldsAt (λ row. is_in_row batch state row ≡ true) rows.now result }
{
    let mut at = from;
    while at < rows.len() && !is_in(&rows[at], batch, state) {
        at = step(chains, rows, at);
    }
    at
}

/// The place of the first row of the batch in the state.
pub(crate) fn first_in(
    chains: &RowChains,
    rows: &[ItemRow],
    batch: BatchId,
    state: State,
) -> Option<usize>
    requires { chains.now.groups ≡ batches rows.now }
    ensures { result ≡ position (is_in_row batch state) rows.now }
{
    let first = begin(chains, rows, batch);
    let at = first_from(chains, rows, batch, state, first);
    if at < rows.len() { Some(at) } else { None }
}
