//! Serials that are lent to a line.
ghost use Rattle.std.specs.Prelude.{◌≡◌, ◌<◌, Some, map, length, IfOk};
ghost use Rattle.std.specs.List.{AllByRecursion as Every, position};
ghost use Rattle.deed_words.specs.Effects.{with_rows, lent_rows, lent_to};
ghost use Rattle.deed_words.specs.Names.{Text};
ghost use Rattle.deed_words.specs.World.{name_of};
ghost use Rattle.deed_words.specs.declared.reply.Answer.TheVariants.{Listed};
ghost use Rattle.deed_words.specs.declared.words.State.TheVariants.{Lent};
ghost use Rattle.batch_book.specs.Batches.{is_called};
ghost use Rattle.batch_book.specs.Content.{world_in};
ghost use Rattle.site_deeds.specs.Does.{Does};
ghost use Rattle.site_deeds.specs.Placed.{IsLent, AreLent};

use crate::done::Done;
use deed_words::{Answer, BatchId, ItemId, State, StationId};
use gs1_keys::{Memory, Serials};
use item_store::ItemRow;
use site_stores::{Change, Stores, Turn, Turns};
use std::alloc::Global;

/// Serials that are lent, and the turns of their rows.
#[derive(Drop)]
struct Loan {
    serials: Serials,
    turns: Turns,
}

/// The turn that lends this row.
fn turn_to(line: StationId, item: ItemId, row: &ItemRow) -> Turn
    ensures item { result.item ≡ item }
    ensures old_line { result.old_line ≡ row.now.line }
    ensures old_state { result.old_state ≡ row.now.state }
    ensures new_line { result.new_line ≡ Some line }
    ensures new_state { result.new_state ≡ Lent }
{
    let old_line: Option<StationId> = row.line;
    let old_state = row.state;
    Turn {
        item: item.0,
        old_line,
        old_state,
        new_line: Some(line),
        new_state: State::Lent,
    }
}

/// The rows at these places are lent to the line.
fn lend_each(
    alloc: Global,
    stores: &Stores,
    line: StationId,
    items: &[ItemId],
) -> Result<Loan, Memory>
    requires there { Every (λ item. item < length stores.now.content.rows) items.now }
    ensures { IfOk result (λ loan. AreLent line stores.now.content.rows items.now loan.turns loan.serials) }
{
    let mut serials = Serials::new(alloc);
    let mut turns = Turns::new(alloc);
    for item in items {
        let row = stores.item_at(*item);
        serials.push(row.serial)?;
        turns.push(turn_to(line, *item, &row))?;
    }
    Ok(Loan { serials, turns })
}

/// The first Fresh serials of the batch at the place are lent to the line, so many or all where there are fewer.
pub(crate) fn lend(
    alloc: Global,
    stores: &Stores,
    line: StationId,
    batch: BatchId,
    count: u32,
) -> Result<Done, Memory>
    requires there { batch < length stores.now.content.batches }
    ensures { IfOk result (λ done. (name : Text) → position (is_called name) stores.now.content.batches ≡ Some batch → Does stores.now done (Listed (map (λ row. row.serial) (lent_rows (world_in stores.now.content) name count))) (with_rows (world_in stores.now.content) (lent_to line) (map name_of (lent_rows (world_in stores.now.content) name count)))) }
{
    stores.tell_whole();
    let items = stores.first_fresh(alloc, batch, count)?;
    let loan = lend_each(alloc, stores, line, items.as_slice())?;
    Ok(Done {
        answer: Answer::Listed(loan.serials),
        change: Change::Turned(loan.turns),
    })
}
