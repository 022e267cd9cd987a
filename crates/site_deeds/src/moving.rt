//! Deeds that move named rows to another state: commission, spoil, giveback, sample, reject, reinstate, destroy and
//! decommission.
ghost use Rattle.std.specs.Prelude.{◌≡◌, map, true, is_some, IfOk, Some};
ghost use Rattle.std.specs.List.{AllByRecursion as Every, IsDistinct};
ghost use Rattle.deed_words.specs.Deeds.{named};
ghost use Rattle.deed_words.specs.Effects.{with_rows, moved_row};
ghost use Rattle.deed_words.specs.Moves.{moved};
ghost use Rattle.deed_words.specs.Names.{same_name};
ghost use Rattle.deed_words.specs.declared.reply.Answer.TheVariants.{Plain};
ghost use Rattle.batch_book.specs.Content.{world_in};
ghost use Rattle.site_stores.specs.Places.{place_of};
ghost use Rattle.site_deeds.specs.Does.{Does};
ghost use Rattle.site_deeds.specs.Placed.{CanMove, IsTurnOf, AreTurnsOf};

use crate::done::{Done, plain};
use deed_words::{Deed, ItemId, StationId};
use gs1_keys::Memory;
use item_store::ItemRow;
use pack_tree::Node;
use site_rules::moved;
use site_stores::{Change, Stores, Turn, Turns};
use std::alloc::Global;

/// The turn that moves this row.
fn turn_of(deed: &Deed, item: u32, row: &ItemRow) -> Turn
    requires moves { is_some (moved deed.now row.now.state) ≡ true }
    ensures item { result.item ≡ item }
    ensures line { result.old_line ≡ row.now.line }
    ensures state { result.old_state ≡ row.now.state }
    ensures kept { result.new_line ≡ row.now.line }
    ensures moves { moved deed.now row.now.state ≡ Some result.new_state }
{
    let old_line: Option<StationId> = row.line;
    let new_line: Option<StationId> = row.line;
    let old_state = row.state;
    let Some(new_state) = moved(deed, old_state) else {
        unreachable!()
    };
    Turn {
        item,
        old_line,
        old_state,
        new_line,
        new_state,
    }
}

/// The turn that moves the row at the place.
fn turn_at(stores: &Stores, deed: &Deed, place: Option<Node>) -> Turn
    requires can { CanMove deed.now stores.now.content.rows place }
    ensures { IsTurnOf deed.now stores.now.content.rows place result }
{
    let Some(node) = place else { unreachable!() };
    let Node::Item(item) = node else {
        unreachable!()
    };
    let row = stores.item_at(ItemId(item));
    turn_of(deed, item, &row)
}

/// The turns that move the rows at these places.
fn turns_at(
    alloc: Global,
    stores: &Stores,
    deed: &Deed,
    places: &[Option<Node>],
) -> Result<Turns, Memory>
    requires can { Every (CanMove deed.now stores.now.content.rows) places.now }
    ensures { IfOk result (λ turns. AreTurnsOf deed.now stores.now.content.rows places.now turns) }
{
    let mut turns = Turns::new(alloc);
    for place in places {
        turns.push(turn_at(stores, deed, *place))?;
    }
    Ok(turns)
}

/// The rows that the deed names are moved. Where each of them is, is known.
pub(crate) fn move_rows(
    alloc: Global,
    stores: &Stores,
    deed: &Deed,
    places: &[Option<Node>],
) -> Result<Done, Memory>
    requires places { places.now ≡ map (place_of stores.now.content.rows stores.now.content.units) (named (world_in stores.now.content) deed.now) }
    requires once { IsDistinct same_name (named (world_in stores.now.content) deed.now) }
    requires can { Every (CanMove deed.now stores.now.content.rows) places.now }
    ensures { IfOk result (λ done. Does stores.now done Plain (with_rows (world_in stores.now.content) (moved_row deed.now) (named (world_in stores.now.content) deed.now))) }
{
    stores.tell_whole();
    let turns = turns_at(alloc, stores, deed, places)?;
    Ok(plain(Change::Turned(turns)))
}
