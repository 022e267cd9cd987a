//! What stands at the place of a thing.
ghost use Rattle.std.specs.Prelude.{◌≡◌, ◌<◌, length};
ghost use Rattle.epc_urn.specs.declared.epc.Epc.TheVariants.{Item, Unit as Box};
ghost use Rattle.deed_words.specs.World.{row_of, unit_of, home};
ghost use Rattle.deed_words.specs.Tests.{is_of};
ghost use Rattle.batch_book.specs.Content.{world_in, batch_names, row_in, unit_in};
ghost use Rattle.site_stores.specs.Places.{place_of};

use deed_words::{Container, ItemId, Row, UnitId, same_text};
use epc_urn::Epc;
use gs1_keys::{Gtin, Sscc, Text20};
use item_store::ItemRow;
use pack_tree::{Node, UnitRow};
use site_stores::Stores;

/// A row with its batch's name.
fn told_row(stores: &Stores, row: &ItemRow) -> Row
    requires { row.now.batch < length stores.now.content.batches }
    ensures { result ≡ row_in (batch_names stores.now.content) row.now }
{
    Row {
        gtin: row.gtin,
        serial: row.serial,
        batch: stores.batch_at(row.batch).order.batch,
        line: row.line,
        state: row.state,
    }
}

/// A unit with its batch's name.
pub(crate) fn told_unit(stores: &Stores, unit: &UnitRow) -> Container
    requires { unit.now.batch < length stores.now.content.batches }
    ensures { result ≡ unit_in (batch_names stores.now.content) unit.now }
{
    Container {
        sscc: unit.sscc,
        batch: stores.batch_at(unit.batch).order.batch,
        level: unit.level,
        mark: unit.mark,
    }
}

/// The row of the item, whose place is known.
pub(crate) fn row_at(
    stores: &Stores,
    gtin: &Gtin,
    serial: &Text20,
    place: Option<Node>,
) -> Option<Row>
    requires place { place ≡ place_of stores.now.content.rows stores.now.content.units (Item gtin.now serial.now) }
    ensures { result ≡ row_of (world_in stores.now.content) gtin.now serial.now }
{
    let (_gtin, _serial) = (gtin, serial);
    stores.tell_whole();
    let Some(node) = place else {
        return None;
    };
    match node {
        Node::Item(at) => {
            let row = stores.item_at(ItemId(at));
            Some(told_row(stores, &row))
        }
        Node::Unit(_) => None,
    }
}

/// The unit of the code, whose place is known.
pub(crate) fn unit_at(stores: &Stores, sscc: &Sscc, place: Option<Node>) -> Option<Container>
    requires place { place ≡ place_of stores.now.content.rows stores.now.content.units (Box sscc.now) }
    ensures { result ≡ unit_of (world_in stores.now.content) sscc.now }
{
    let _sscc = sscc;
    stores.tell_whole();
    let Some(node) = place else {
        return None;
    };
    match node {
        Node::Item(_) => None,
        Node::Unit(at) => {
            let unit = stores.unit_at(UnitId(at));
            Some(told_unit(stores, &unit))
        }
    }
}

/// Whether the thing is of the batch.
#[tactic(auto, unfolding(deed_words::specs::Tests::is_of, deed_words::specs::World::home, deed_words::specs::Chain::holds_of))]
pub(crate) fn is_of(stores: &Stores, batch: &Text20, name: &Epc, place: Option<Node>) -> bool
    requires place { place ≡ place_of stores.now.content.rows stores.now.content.units name.now }
    ensures { result ≡ is_of (world_in stores.now.content) batch.now name.now }
{
    match name {
        Epc::Item(gtin, serial) => match row_at(stores, gtin, serial, place) {
            Some(row) => same_text(batch, &row.batch),
            None => false,
        },
        Epc::Unit(sscc) => match unit_at(stores, sscc, place) {
            Some(unit) => same_text(batch, &unit.batch),
            None => false,
        },
    }
}
