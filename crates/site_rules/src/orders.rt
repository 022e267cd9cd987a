//! The rules on order rows.
ghost use Rattle.std.specs.Prelude.{◌≡◌, ◌≤◌, ◌++◌, ◌<◌, ◌^◌, length, get_or, Some};
ghost use Rattle.deed_words.specs.Names.{same, same_order};
ghost use Rattle.deed_words.specs.Chain.{each};
ghost use Rattle.deed_words.specs.Deeds.{order_rows};
ghost use Rattle.deed_words.specs.Orders.{orders_in, conflicts, new_orders};
ghost use Rattle.deed_words.specs.Tests.{unknown_product, order_conflict};
ghost use Rattle.batch_book.specs.Content.{world_in};
ghost use Rattle.site_rules.specs.Asked.{IsAsked};
ghost use Rattle.site_rules.specs.Origins.{origin_of, AreOrigins, is_row};
ghost use Rattle.site_rules.specs.Rows.{unmade, conflicting, adds};

use crate::asked::Asked;
use crate::origins::Origin;
use deed_words::{BatchId, Deed, OrderRow, Rule, Setup, same_gtin, same_text};
use site_stores::Stores;
use std::slice::from_ref;

/// The order rows of the deed.
#[tactic(auto, unfolding(deed_words::specs::Deeds::order_rows))]
pub(crate) fn order_rows(deed: &Deed) -> &[OrderRow]
    ensures { result.now ≡ order_rows deed.now }
{
    match deed {
        Deed::Order(row) => from_ref(row),
        Deed::Orders(rows) => rows.as_slice(),
        _ => &[],
    }
}

/// The site doesn't make the row's GTIN.
#[tactic(auto, unfolding(deed_words::specs::Chain::when))]
fn unmade(setup: &Setup, index: usize, row: &OrderRow) -> Option<Rule>
    requires { index < 2 ^ 63 }
    ensures { result ≡ unmade setup.now index row.now }
{
    match setup.product(&row.gtin) {
        Some(_) => None,
        None => Some(Rule::UnknownProduct(index as u64 + 1)),
    }
}

/// The first row of whose GTIN the site makes nothing.
fn first_unmade(setup: &Setup, rows: &[OrderRow]) -> Option<Rule>
    ensures { result ≡ each rows.now (unmade setup.now) }
{
    for (index, row) in rows.iter().enumerate() {
        if let Some(rule) = unmade(setup, index, row) {
            return Some(rule);
        }
    }
    None
}

/// The site doesn't make the GTIN of a row.
#[tactic(auto, unfolding(deed_words::specs::Tests::unknown_product))]
pub(crate) fn unknown_product(asked: &Asked) -> Option<Rule>
    ensures { result ≡ unknown_product asked.now.setup.now (world_in asked.now.stores.now.content) asked.now.station asked.now.deed.now }
{
    first_unmade(asked.setup, order_rows(asked.deed))
}

/// Whether two expiries are the same.
#[tactic(auto, unfolding(deed_words::specs::Names::same))]
pub(crate) fn same_expiry(one: &[u8; 6], other: &[u8; 6]) -> bool
    ensures { result ≡ same one.now other.now }
{
    one.as_slice() == other.as_slice()
}

/// Whether two order rows say the same.
#[tactic(auto, unfolding(deed_words::specs::Names::same_order))]
fn same_order(one: &OrderRow, other: &OrderRow) -> bool
    ensures { result ≡ same_order one.now other.now }
{
    if !same_text(&one.batch, &other.batch) {
        return false;
    }
    if !same_gtin(&one.gtin, &other.gtin) {
        return false;
    }
    if !same_text(&one.lot, &other.lot) {
        return false;
    }
    if !same_expiry(&one.expiry, &other.expiry) {
        return false;
    }
    if one.quantity != other.quantity {
        return false;
    }
    if one.case_size != other.case_size {
        return false;
    }
    one.pallet_size == other.pallet_size
}

/// The row at a place.
fn order_at(rows: &[OrderRow], place: usize) -> &OrderRow
    requires { place < length rows.now }
    ensures { result.now ≡ get_or rows.now place result.now }
{
    &rows[place]
}

/// Whether the row, whose origin is known, differs from the first of its batch.
fn conflicts(stores: &Stores, rows: &[OrderRow], row: &OrderRow, origin: Origin) -> bool
    requires origin { Some origin ≡ origin_of stores.now.content rows.now row.now.batch }
    ensures { result ≡ conflicts (orders_in (world_in stores.now.content) ++ rows.now) row.now }
{
    match origin {
        Origin::There(at) => {
            let batch = stores.batch_at(BatchId(at));
            !same_order(&batch.order, row)
        }
        Origin::Row(first) => !same_order(order_at(rows, first), row),
    }
}

/// The row at the index differs from the first of its batch.
#[tactic(auto, unfolding(deed_words::specs::Chain::when))]
fn conflicting(
    stores: &Stores,
    rows: &[OrderRow],
    index: usize,
    row: &OrderRow,
    origin: Origin,
) -> Option<Rule>
    requires index { index < 2 ^ 63 }
    requires origin { Some origin ≡ origin_of stores.now.content rows.now row.now.batch }
    ensures { result ≡ conflicting (world_in stores.now.content) rows.now index row.now }
{
    if conflicts(stores, rows, row, origin) {
        return Some(Rule::OrderConflict(index as u64 + 1));
    }
    None
}

/// The first row that differs from the first of its batch.
fn first_conflict(stores: &Stores, rows: &[OrderRow], origins: &[Origin]) -> Option<Rule>
    requires origins { AreOrigins stores.now.content rows.now origins.now }
    ensures { result ≡ each rows.now (conflicting (world_in stores.now.content) rows.now) }
{
    for (index, row) in rows.iter().enumerate() {
        if let Some(rule) = conflicting(stores, rows, index, row, origins[index]) {
            return Some(rule);
        }
    }
    None
}

/// The batch of a row was first ordered otherwise.
#[tactic(auto, unfolding(deed_words::specs::Tests::order_conflict))]
pub(crate) fn order_conflict(asked: &Asked) -> Option<Rule>
    requires asked { IsAsked asked.now.stores.now.content asked.now.deed.now asked.now.names.now asked.now.found asked.now.repeat }
    ensures { result ≡ order_conflict asked.now.setup.now (world_in asked.now.stores.now.content) asked.now.station asked.now.deed.now }
{
    first_conflict(
        asked.stores,
        order_rows(asked.deed),
        asked.found.origins.as_slice(),
    )
}

/// How many batches the row at the index adds: one where it is the first of its batch, and else none.
fn added(origin: Origin, index: usize) -> u64
    ensures is { result ≡ adds (is_row index origin) }
    ensures few { result ≤ 1 }
{
    if origin.is_row(index) { 1 } else { 0 }
}

/// How many of the deed's rows order a batch that is neither there nor in an earlier row.
pub(crate) fn count_new(asked: &Asked) -> u64
    requires asked { IsAsked asked.now.stores.now.content asked.now.deed.now asked.now.names.now asked.now.found asked.now.repeat }
    ensures is { result ≡ length (new_orders (orders_in (world_in asked.now.stores.now.content)) (order_rows asked.now.deed.now)) }
    ensures few { result < 2 ^ 63 }
{
    let mut count = 0;
    for (index, origin) in asked.found.origins.iter().enumerate() {
        count += added(*origin, index);
    }
    count
}
