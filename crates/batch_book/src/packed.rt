//! What of a batch isn't packed: a look at each of its own rows, or units.
ghost use Rattle.std.specs.Prelude.{◌≡◌, ◌+◌, ◌<◌, length, slice_index};
ghost use Rattle.deed_words.specs.Moves.{is_active as is_active_state, is_filling as is_filling_mark, is_sealed as is_sealed_mark};
ghost use Rattle.deed_words.specs.Accounts.{is_case as is_case_level};
ghost use Rattle.item_store.specs.Rows.{batches};
ghost use Rattle.batch_book.specs.Said.{IsReached};
ghost use Rattle.batch_book.specs.Closing.{IsFirstIn, is_free as is_free_row, is_unpacked, shows as is_shown_by, is_shown};

use deed_words::{BatchId, ItemId, Level, Mark, State};
use item_store::{ItemRow, Items};
use pack_tree::{Node, Tree, UnitRow};

/// What a unit may show.
#[derive(Clone, Copy)]
pub(crate) enum Fault {
    /// It is Filling.
    Open,
    /// It is a Sealed case that stands on no pallet.
    Loose,
}

#[tactic(auto, unfolding(deed_words::specs::Moves::is_active))]
fn is_active(state: State) -> bool
    ensures { result ≡ is_active_state state }
{
    matches!(state, State::Active)
}

#[tactic(auto, unfolding(deed_words::specs::Moves::is_filling))]
fn is_filling(mark: Mark) -> bool
    ensures { result ≡ is_filling_mark mark }
{
    matches!(mark, Mark::Filling)
}

#[tactic(auto, unfolding(deed_words::specs::Moves::is_sealed))]
fn is_sealed(mark: Mark) -> bool
    ensures { result ≡ is_sealed_mark mark }
{
    matches!(mark, Mark::Sealed)
}

#[tactic(auto, unfolding(deed_words::specs::Accounts::is_case))]
fn is_case(level: Level) -> bool
    ensures { result ≡ is_case_level level }
{
    matches!(level, Level::Case)
}

/// The place of the batch's first row, or the end.
fn begin(items: &Items, batch: BatchId) -> u32
    ensures { IsReached (batches items.now.rows) 0 batch result }
{
    match items.first_of(batch) {
        Some(first) => first.0,
        None => items.len(),
    }
}

/// The place of the next row of the same batch, or the end.
fn step(items: &Items, at: u32) -> u32
    requires { at < length items.now.rows }
    ensures { IsReached (batches items.now.rows) (at + 1) (slice_index (batches items.now.rows) at) result }
{
    match items.next_of(ItemId(at)) {
        Some(next) => next.0,
        None => items.len(),
    }
}

/// Whether the row at a place is Active and stands in no unit.
fn is_free(row: &ItemRow, at: u32, tree: &Tree) -> bool
    ensures { result ≡ is_free_row tree.now.pairs at row.now }
{
    is_active(row.state) && tree.parent_of(Node::Item(at)).is_none()
}

/// The place of the batch's first Active row that stands in no unit.
pub(crate) fn first_unpacked(items: &Items, tree: &Tree, batch: BatchId) -> Option<u32>
    ensures { IsFirstIn (is_unpacked batch tree.now.pairs) items.now.rows result }
{
    let mut at = begin(items, batch);
    while at < items.len() {
        let row = items.row(ItemId(at));
        if is_free(&row, at, tree) {
            return Some(at);
        }
        at = step(items, at);
    }
    None
}

/// Whether the unit at a place shows the fault.
fn shows(unit: &UnitRow, at: u32, tree: &Tree, fault: Fault) -> bool
    ensures { result ≡ is_shown_by fault tree.now.pairs at unit.now }
{
    match fault {
        Fault::Open => is_filling(unit.mark),
        Fault::Loose => {
            is_case(unit.level) && is_sealed(unit.mark) && tree.parent_of(Node::Unit(at)).is_none()
        }
    }
}

/// The place of the batch's first unit that shows the fault.
pub(crate) fn first_unit(tree: &Tree, batch: BatchId, fault: Fault) -> Option<u32>
    ensures { IsFirstIn (is_shown batch fault tree.now.pairs) tree.now.units result }
{
    let mut first = None;
    for unit in tree.units_of(batch) {
        let at = unit.0;
        let row = tree.unit(unit);
        if shows(&row, at, tree, fault) {
            first = Some(at);
        }
    }
    first
}
