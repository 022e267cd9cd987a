//! Orders.
ghost use Rattle.std.specs.Prelude.{◌≡◌, ◌≤◌, ◌+◌, ◌-◌, ◌++◌, IfOk, length};
ghost use Rattle.deed_words.specs.Effects.{with_orders};
ghost use Rattle.deed_words.specs.Orders.{new_orders, orders_in};
ghost use Rattle.deed_words.specs.declared.reply.Answer.TheVariants.{Orders};
ghost use Rattle.batch_book.specs.Content.{world_in};
ghost use Rattle.site_rules.specs.Origins.{AreOrigins};
ghost use Rattle.site_rules.specs.Rows.{kept};
ghost use Rattle.site_stores.specs.Holding.{IsWithin};
ghost use Rattle.site_deeds.specs.Does.{Does};

use crate::done::Done;
use deed_words::{Answer, OrderRow, Rows};
use gs1_keys::Memory;
use site_rules::Origin;
use site_stores::{Change, Stores};
use std::alloc::Global;

/// Keeps the row where it is new.
#[tactic(auto, using(crate::proofs::OfOrders::kept_new, crate::proofs::OfOrders::kept_old))]
fn keep_new(new: &mut Rows, row: &OrderRow, is_new: bool) -> Result<(), Memory>
    ensures { IfOk result (λ _. new.new ≡ new.old ++ kept is_new row.now) }
{
    if !is_new {
        return Ok(());
    }
    new.push(*row)
}

/// The rows whose batch is neither there nor in an earlier row. The origins of the rows are known.
fn new_rows(
    alloc: Global,
    stores: &Stores,
    rows: &[OrderRow],
    origins: &[Origin],
) -> Result<Rows, Memory>
    requires origins { AreOrigins stores.now.content rows.now origins.now }
    ensures { IfOk result (λ new. new ≡ new_orders (orders_in (world_in stores.now.content)) rows.now) }
{
    let _stores = stores;
    let mut new = Rows::new(alloc);
    for (index, row) in rows.iter().enumerate() {
        keep_new(&mut new, row, origins[index].is_row(index))?;
    }
    Ok(new)
}

/// The batches of these rows are ordered that aren't there yet. The origins of the rows are known.
pub(crate) fn order(
    alloc: Global,
    stores: &mut Stores,
    rows: &[OrderRow],
    origins: &[Origin],
) -> Result<Done, Memory>
    requires origins { AreOrigins stores.old.content rows.now origins.now }
    requires short { length rows.now ≤ 1000 }
    requires batches { length stores.old.content.batches + length (new_orders (orders_in (world_in stores.old.content)) rows.now) ≤ 4096 }
    requires rows { length stores.old.content.rows ≤ 1000000 }
    requires units { length stores.old.content.units ≤ 65536 }
    ensures done { IfOk result (λ done. Does stores.new done (Orders (length (new_orders (orders_in (world_in stores.new.content)) rows.now)) (length rows.now - length (new_orders (orders_in (world_in stores.new.content)) rows.now))) (with_orders (world_in stores.new.content) rows.now)) }
    ensures content { stores.new.content ≡ stores.old.content }
    ensures kept { IsWithin stores.old.room stores.new.room }
{
    let new = new_rows(alloc, stores, rows, origins)?;
    let added = new.len() as u16;
    stores.ready(added, 0, 0, 0)?;
    stores.tell_whole();
    Ok(Done {
        answer: Answer::Orders {
            added,
            already: rows.len() as u16 - added,
        },
        change: Change::Ordered(new),
    })
}
