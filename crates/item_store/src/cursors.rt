//! Where the Fresh rows of a batch begin.
ghost use Rattle.std.specs.Prelude.{◌≡◌, ◌^◌, ◌<◌, length, take, drop, IfOk, slice_index};
ghost use Rattle.std.specs.List.{HoldsAt};
ghost use Rattle.deed_words.specs.declared.words.State.TheVariants.{Fresh};
ghost use Rattle.item_store.specs.Rows.{batches, is_in as is_in_row, places_of, fresh_places};
ghost use Rattle.item_store.specs.Store.{AreBehind, back_to as the_back_to};

use crate::row::ItemRow;
use crate::tally::is_in;
use crate::walk::{begin, first_from, is_of, step};
use deed_words::{BatchId, Ids, ItemId, State};
use gs1_keys::Memory;
use row_chains::RowChains;
use std::alloc::Global;

/// How many batches have a cursor.
const BATCHES: usize = 4096;

/// Makes the cursors, each past all rows, where there are no rows and no cursors yet.
pub(crate) fn ready_cursors(cursors: &mut Vec<u32>, rows: &[ItemRow]) -> Result<(), Memory>
    requires { AreBehind rows.now cursors.old.items }
    ensures { AreBehind rows.now cursors.new.items }
{
    if rows.is_empty() && cursors.is_empty() {
        cursors.resize(BATCHES, u32::MAX)?;
    }
    Ok(())
}

/// The batch's cursor is no later than a place.
pub(crate) fn back_to(cursors: &mut Vec<u32>, batch: BatchId, at: u32)
    ensures { cursors.new.items ≡ the_back_to cursors.old.items batch at }
{
    let cell = batch.0 as usize;
    if cell < cursors.len() {
        cursors[cell] = cursors[cell].min(at);
    }
}

/// Where the batch's cursor stands at a row of it, lets it pass on to the next Fresh one, or past all.
fn pass_over(
    cursors: &mut Vec<u32>,
    chains: &RowChains,
    rows: &[ItemRow],
    at: usize,
    batch: BatchId,
)
    requires few { length rows.now < 2 ^ 32 }
    requires grouped { chains.now.groups ≡ batches rows.now }
    requires own { at < length rows.now → slice_index (batches rows.now) at ≡ batch }
    requires behind { AreBehind rows.now cursors.old.items }
    ensures { AreBehind rows.now cursors.new.items }
{
    let cell = batch.0 as usize;
    if cell < cursors.len() && cursors[cell] as usize == at {
        let next = first_from(chains, rows, batch, State::Fresh, at);
        cursors[cell] = if next < rows.len() {
            next as u32
        } else {
            u32::MAX
        };
    }
}

/// The batch's cursor, or 0 where none is kept.
pub(crate) fn cursor_of(cursors: &[u32], batch: BatchId) -> usize
    ensures { result ≡ slice_index cursors.now batch }
{
    let cell = batch.0 as usize;
    if cell < cursors.len() {
        cursors[cell] as usize
    } else {
        0
    }
}

/// A place before which no Fresh row of the batch stands: that of a row of the batch, or past all rows.
pub(crate) fn start(cursors: &[u32], chains: &RowChains, rows: &[ItemRow], batch: BatchId) -> usize
    requires grouped { chains.now.groups ≡ batches rows.now }
    requires behind { AreBehind rows.now cursors.now }
    ensures own { result < length rows.now → slice_index (batches rows.now) result ≡ batch }
    ensures fresh { places_of (is_in_row batch Fresh) result (drop result rows.now) ≡ fresh_places batch rows.now }
{
    let at = cursor_of(cursors, batch);
    if at < rows.len() && !is_of(&rows[at], batch) {
        begin(chains, rows, batch)
    } else {
        at
    }
}

/// The first Fresh rows of the batch from a row of it on.
pub(crate) fn fresh_from(
    alloc: Global,
    chains: &RowChains,
    rows: &[ItemRow],
    batch: BatchId,
    from: usize,
    count: u32,
) -> Result<Ids, Memory>
    requires few { length rows.now < 2 ^ 32 }
    requires grouped { chains.now.groups ≡ batches rows.now }
    requires own { from < length rows.now → slice_index (batches rows.now) from ≡ batch }
    ensures { IfOk result (λ ids. ids ≡ take count (places_of (is_in_row batch Fresh) from (drop from rows.now))) }
{
    let mut ids = Ids::new(alloc);
    let mut at = from;
    while at < rows.len() && ids.len() < count as usize {
        if is_in(&rows[at], batch, State::Fresh) {
            ids.push(ItemId(at as u32))?;
        }
        at = step(chains, rows, at);
    }
    Ok(ids)
}

/// After the row at a place was changed: a Fresh row's cursor goes back to it, another may be passed over.
pub(crate) fn settle(
    cursors: &mut Vec<u32>,
    chains: &RowChains,
    rows: &[ItemRow],
    at: usize,
    batch: BatchId,
)
    requires few { length rows.now < 2 ^ 32 }
    requires range { at < length rows.now }
    requires grouped { chains.now.groups ≡ batches rows.now }
    requires own { at < length rows.now → slice_index (batches rows.now) at ≡ batch }
    requires others { AreBehind rows.now (the_back_to cursors.old.items batch at) }
    requires moved { HoldsAt (λ row. row.state ≡ Fresh → ⊥) rows.now at → AreBehind rows.now cursors.old.items }
    ensures { AreBehind rows.now cursors.new.items }
{
    if rows[at].state == State::Fresh {
        back_to(cursors, batch, at as u32);
    } else {
        pass_over(cursors, chains, rows, at, batch);
    }
}
