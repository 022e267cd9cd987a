//! The rules on the things that a deed names.
ghost use Rattle.std.specs.Prelude.{◌≡◌, true, map, nat_eq};
ghost use Rattle.epc_urn.specs.declared.epc.Epc.TheVariants.{Unit as Box};
ghost use Rattle.deed_words.specs.Chain.{each, when, holds_of};
ghost use Rattle.deed_words.specs.World.{batch_of};
ghost use Rattle.deed_words.specs.Deeds.{batch_named, batch_for, unit_named, item_of};
ghost use Rattle.deed_words.specs.Tests.{strays, repeated, unknown_serial, other_batch, fits_order, misfits, wrong_level, wrong_state, lent_to_other, has_parent, not_child};
ghost use Rattle.deed_words.specs.declared.rule.Rule.TheVariants.{WrongLevel};
ghost use Rattle.batch_book.specs.Content.{world_in};
ghost use Rattle.site_stores.specs.Places.{place_of};
ghost use Rattle.site_rules.specs.Asked.{IsAsked};
ghost use Rattle.site_rules.specs.Rows.{stray};
ghost use Rattle.site_rules.specs.Suits.{is_about_batch, is_about_unit, names_unit};

use crate::asked::Asked;
use crate::batches::{batch_for, batch_name, unit_for, unit_named};
use crate::checks::{AtHome, Fitting, Inside, Known, Lent, Loose, Standing, first_of};
use crate::orders::same_expiry;
use crate::places::is_of;
use deed_words::{Batch, Deed, Level, Rule, same_text};
use epc_urn::Epc;
use gs1_element::Code;
use gs1_keys::Text20;
use pack_tree::Node;
use site_stores::Stores;

/// A thing is named twice.
#[tactic(auto, unfolding(deed_words::specs::Tests::repeated))]
pub(crate) fn repeated(asked: &Asked) -> Option<Rule>
    requires asked { IsAsked asked.now.stores.now.content asked.now.deed.now asked.now.names.now asked.now.found asked.now.repeat }
    ensures { result ≡ repeated asked.now.setup.now (world_in asked.now.stores.now.content) asked.now.station asked.now.deed.now }
{
    match asked.repeat {
        Some(at) => Some(Rule::RepeatedInRequest(at as u64)),
        None => None,
    }
}

/// A thing isn't known.
#[tactic(auto, unfolding(deed_words::specs::Tests::unknown_serial))]
pub(crate) fn unknown_serial(asked: &Asked) -> Option<Rule>
    requires asked { IsAsked asked.now.stores.now.content asked.now.deed.now asked.now.names.now asked.now.found asked.now.repeat }
    ensures { result ≡ unknown_serial asked.now.setup.now (world_in asked.now.stores.now.content) asked.now.station asked.now.deed.now }
{
    let check = Known {
        stores: asked.stores,
        deed: asked.deed,
    };
    first_of(&check, asked.names, asked.found.places.as_slice())
}

/// A thing is in a state that doesn't allow the deed.
#[tactic(auto, unfolding(deed_words::specs::Tests::wrong_state))]
pub(crate) fn wrong_state(asked: &Asked) -> Option<Rule>
    requires asked { IsAsked asked.now.stores.now.content asked.now.deed.now asked.now.names.now asked.now.found asked.now.repeat }
    ensures { result ≡ wrong_state asked.now.setup.now (world_in asked.now.stores.now.content) asked.now.station asked.now.deed.now }
{
    let check = Standing {
        stores: asked.stores,
        deed: asked.deed,
    };
    first_of(&check, asked.names, asked.found.places.as_slice())
}

/// An item was lent to another line.
#[tactic(auto, unfolding(deed_words::specs::Tests::lent_to_other))]
pub(crate) fn lent_to_other(asked: &Asked) -> Option<Rule>
    requires asked { IsAsked asked.now.stores.now.content asked.now.deed.now asked.now.names.now asked.now.found asked.now.repeat }
    ensures { result ≡ lent_to_other asked.now.setup.now (world_in asked.now.stores.now.content) asked.now.station asked.now.deed.now }
{
    let check = Lent {
        stores: asked.stores,
        station: asked.station,
    };
    first_of(&check, asked.names, asked.found.places.as_slice())
}

/// The unit that the deed names, as a thing that stands in another one.
#[tactic(auto, unfolding(site_stores::specs::Places::place_of))]
fn unit_node(asked: &Asked) -> Option<Node>
    requires unit { names_unit asked.now.deed.now ≡ true }
    requires asked { IsAsked asked.now.stores.now.content asked.now.deed.now asked.now.names.now asked.now.found asked.now.repeat }
    ensures { result ≡ place_of asked.now.stores.now.content.rows asked.now.stores.now.content.units (Box (unit_named asked.now.deed.now)) }
{
    match asked.found.unit {
        Some(unit) => Some(Node::Unit(unit.0)),
        None => None,
    }
}

/// A thing stands in a unit.
#[tactic(auto, unfolding(deed_words::specs::Tests::has_parent))]
pub(crate) fn has_parent(asked: &Asked) -> Option<Rule>
    requires asked { IsAsked asked.now.stores.now.content asked.now.deed.now asked.now.names.now asked.now.found asked.now.repeat }
    ensures { result ≡ has_parent asked.now.setup.now (world_in asked.now.stores.now.content) asked.now.station asked.now.deed.now }
{
    match asked.deed {
        Deed::Unseal(unit) => match asked.stores.parent_at(&Epc::Unit(*unit), unit_node(asked)) {
            Some(sscc) => Some(Rule::HasParent(0, sscc)),
            None => None,
        },
        _ => {
            let check = Loose {
                stores: asked.stores,
            };
            first_of(&check, asked.names, asked.found.places.as_slice())
        }
    }
}

/// A thing doesn't stand in the unit.
#[tactic(auto, unfolding(deed_words::specs::Tests::not_child))]
pub(crate) fn not_child(asked: &Asked) -> Option<Rule>
    requires unit { names_unit asked.now.deed.now ≡ true }
    requires asked { IsAsked asked.now.stores.now.content asked.now.deed.now asked.now.names.now asked.now.found asked.now.repeat }
    ensures { result ≡ not_child asked.now.setup.now (world_in asked.now.stores.now.content) asked.now.station asked.now.deed.now }
{
    let Some(unit) = unit_named(asked.deed) else {
        return None;
    };
    let check = Inside {
        stores: asked.stores,
        unit,
    };
    first_of(&check, asked.names, asked.found.places.as_slice())
}

/// The batch has no pallets.
#[tactic(auto, unfolding(deed_words::specs::Chain::holds_of, deed_words::specs::Chain::when))]
fn no_pallets(asked: &Asked) -> Option<Rule>
    requires about { is_about_batch asked.now.deed.now ≡ true }
    requires asked { IsAsked asked.now.stores.now.content asked.now.deed.now asked.now.names.now asked.now.found asked.now.repeat }
    ensures { result ≡ when (holds_of (λ batch. nat_eq batch.order.pallet_size 0) (batch_for (world_in asked.now.stores.now.content) asked.now.deed.now)) (WrongLevel 0) }
{
    let Some(batch) = batch_for(asked) else {
        return None;
    };
    if batch.order.pallet_size == 0 {
        return Some(Rule::WrongLevel(0));
    }
    None
}

/// A thing doesn't go into a unit of the level.
#[tactic(auto, unfolding(deed_words::specs::Tests::misfits))]
fn misfits(asked: &Asked, level: Level) -> Option<Rule>
    requires asked { IsAsked asked.now.stores.now.content asked.now.deed.now asked.now.names.now asked.now.found asked.now.repeat }
    ensures { result ≡ misfits (world_in asked.now.stores.now.content) level asked.now.names.now }
{
    let check = Fitting {
        stores: asked.stores,
        level,
    };
    first_of(&check, asked.names, asked.found.places.as_slice())
}

/// A thing doesn't go into the unit, or the batch has no such units.
#[tactic(auto, unfolding(deed_words::specs::Tests::wrong_level))]
pub(crate) fn wrong_level(asked: &Asked) -> Option<Rule>
    requires about { is_about_unit asked.now.deed.now ≡ true }
    requires asked { IsAsked asked.now.stores.now.content asked.now.deed.now asked.now.names.now asked.now.found asked.now.repeat }
    ensures { result ≡ wrong_level asked.now.setup.now (world_in asked.now.stores.now.content) asked.now.station asked.now.deed.now }
{
    match asked.deed {
        Deed::Container(_, level) => match level {
            Level::Case => None,
            Level::Pallet => no_pallets(asked),
        },
        _ => {
            let Some(unit) = unit_for(asked) else {
                return None;
            };
            misfits(asked, unit.level)
        }
    }
}

/// Whether the code has the lot and the expiry of the order.
#[tactic(auto, unfolding(deed_words::specs::Tests::fits_order, deed_words::specs::Chain::holds_of))]
fn fits_order(batch: &Option<Batch>, code: &Code) -> bool
    ensures { result ≡ fits_order batch.now code.now }
{
    match batch {
        Some(batch) => {
            same_text(&batch.order.lot, &code.lot) && same_expiry(&batch.order.expiry, &code.expiry)
        }
        None => false,
    }
}

/// The code at the index isn't of the batch, or not of its order.
#[tactic(auto, unfolding(deed_words::specs::Chain::when))]
fn stray(
    stores: &Stores,
    name: &Text20,
    batch: &Option<Batch>,
    index: u64,
    code: &Code,
    place: Option<Node>,
) -> Option<Rule>
    requires batch { batch.now ≡ batch_of (world_in stores.now.content) name.now }
    requires place { place ≡ place_of stores.now.content.rows stores.now.content.units (item_of code.now) }
    ensures { result ≡ stray (world_in stores.now.content) name.now index code.now }
{
    if is_of(stores, name, &Epc::Item(code.gtin, code.serial), place) && fits_order(batch, code) {
        return None;
    }
    Some(Rule::OtherBatch(index))
}

/// The first code that isn't of the batch, or not of its order.
fn first_stray(
    stores: &Stores,
    name: &Text20,
    batch: &Option<Batch>,
    codes: &[Code],
    places: &[Option<Node>],
) -> Option<Rule>
    requires batch { batch.now ≡ batch_of (world_in stores.now.content) name.now }
    requires places { places.now ≡ map (place_of stores.now.content.rows stores.now.content.units) (map item_of codes.now) }
    ensures { result ≡ each codes.now (stray (world_in stores.now.content) name.now) }
{
    for (index, code) in codes.iter().enumerate() {
        if let Some(rule) = stray(stores, name, batch, index as u64, code, places[index]) {
            return Some(rule);
        }
    }
    None
}

/// The first thing that isn't of the batch. None is of a batch with no name.
#[tactic(auto, unfolding(deed_words::specs::Tests::strays))]
fn first_foreign(asked: &Asked) -> Option<Rule>
    requires about { is_about_batch asked.now.deed.now ≡ true }
    requires asked { IsAsked asked.now.stores.now.content asked.now.deed.now asked.now.names.now asked.now.found asked.now.repeat }
    ensures { result ≡ strays (world_in asked.now.stores.now.content) (batch_named (world_in asked.now.stores.now.content) asked.now.deed.now) asked.now.names.now }
{
    asked.stores.tell_whole();
    let Some(batch) = batch_name(asked) else {
        if asked.names.is_empty() {
            return None;
        }
        return Some(Rule::OtherBatch(0));
    };
    let check = AtHome {
        stores: asked.stores,
        batch,
    };
    first_of(&check, asked.names, asked.found.places.as_slice())
}

/// A thing is of another batch.
#[tactic(auto, unfolding(deed_words::specs::Tests::other_batch, deed_words::specs::Tests::strays))]
pub(crate) fn other_batch(asked: &Asked) -> Option<Rule>
    requires about { is_about_batch asked.now.deed.now ≡ true }
    requires asked { IsAsked asked.now.stores.now.content asked.now.deed.now asked.now.names.now asked.now.found asked.now.repeat }
    ensures { result ≡ other_batch asked.now.setup.now (world_in asked.now.stores.now.content) asked.now.station asked.now.deed.now }
{
    match asked.deed {
        Deed::Commission(name, codes) => {
            let batch = batch_for(asked);
            first_stray(
                asked.stores,
                name,
                &batch,
                codes.as_slice(),
                asked.found.places.as_slice(),
            )
        }
        _ => first_foreign(asked),
    }
}
