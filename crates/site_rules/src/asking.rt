//! What is worked out of a deed before its rules are tried.
ghost use Rattle.std.specs.Prelude.{◌≡◌, map, IfOk};
ghost use Rattle.std.specs.List.{position};
ghost use Rattle.epc_urn.specs.declared.epc.Epc.TheVariants.{Item};
ghost use Rattle.deed_words.specs.Deeds.{named, items_of, item_of};
ghost use Rattle.batch_book.specs.Batches.{is_called};
ghost use Rattle.batch_book.specs.Content.{world_in};
ghost use Rattle.site_stores.specs.Places.{place_of};
ghost use Rattle.site_rules.specs.Asked.{IsAsked, IsSubject, listed};

use crate::asked::Asked;
use crate::found::Found;
use crate::orders::order_rows;
use crate::origins::origins_of;
use crate::subject::Subject;
use deed_words::{BatchId, Deed, Epcs, Setup, StationId};
use epc_urn::Epc;
use gs1_element::Code;
use gs1_keys::{Gtin, Memory, Text20};
use name_marks::first_repeat;
use pack_tree::Node;
use site_stores::Stores;
use std::alloc::Global;

/// The items of the codes.
fn of_codes(alloc: Global, codes: &[Code]) -> Result<Epcs, Memory>
    ensures { IfOk result (λ names. names ≡ map item_of codes.now) }
{
    let mut names = Epcs::new(alloc);
    for code in codes {
        names.push(Epc::Item(code.gtin, code.serial))?;
    }
    Ok(names)
}

/// The items of these serials.
fn of_serials(alloc: Global, gtin: Gtin, serials: &[Text20]) -> Result<Epcs, Memory>
    ensures { IfOk result (λ names. names ≡ map (Item gtin) serials.now) }
{
    let mut names = Epcs::new(alloc);
    for serial in serials {
        names.push(Epc::Item(gtin, *serial))?;
    }
    Ok(names)
}

/// The items of the batch with these serials, where the place of the batch is known.
#[tactic(auto, unfolding(deed_words::specs::Deeds::items_of))]
fn of_batch(
    alloc: Global,
    stores: &Stores,
    name: &Text20,
    batch: Option<BatchId>,
    serials: &[Text20],
) -> Result<Epcs, Memory>
    requires place { batch ≡ position (is_called name.now) stores.now.content.batches }
    ensures { IfOk result (λ names. names ≡ items_of (world_in stores.now.content) name.now serials.now) }
{
    match batch {
        Some(batch) => of_serials(alloc, stores.batch_at(batch).order.gtin, serials),
        None => Ok(Epcs::new(alloc)),
    }
}

/// The names of the things that a deed names by codes or by serials; none where it lists its names itself.
///
/// # Errors
///
/// `Memory` where no memory was found.
#[tactic(auto, unfolding(deed_words::specs::Deeds::named, crate::specs::Asked::listed))]
pub fn make_names(
    alloc: Global,
    stores: &Stores,
    deed: &Deed,
    subject: &Subject,
) -> Result<Epcs, Memory>
    requires subject { IsSubject stores.now.content deed.now subject.now }
    ensures { IfOk result (λ made. listed deed.now made ≡ named (world_in stores.now.content) deed.now) }
{
    match deed {
        Deed::Commission(_, codes) => of_codes(alloc, codes.as_slice()),
        Deed::Spoil(name, serials) => of_batch(
            alloc,
            stores,
            name,
            subject.batch,
            serials.as_slice(),
        ),
        Deed::Giveback(name, serials) => of_batch(
            alloc,
            stores,
            name,
            subject.batch,
            serials.as_slice(),
        ),
        _ => Ok(Epcs::new(alloc)),
    }
}

/// The names that the deed lists, or else those that were made of it.
#[tactic(auto, unfolding(crate::specs::Asked::listed))]
fn listed<'a>(deed: &'a Deed, made: &'a Epcs) -> &'a [Epc]
    ensures { result.now ≡ listed deed.now made.now }
{
    match deed {
        Deed::Sample(_, items)
        | Deed::Reject(_, items)
        | Deed::Reinstate(_, items)
        | Deed::Destroy(_, items)
        | Deed::Decommission(_, items)
        | Deed::Pack(_, items)
        | Deed::Unpack(_, items) => items.as_slice(),
        _ => made.as_slice(),
    }
}

/// The places of the things, each looked up once.
fn places_of(alloc: Global, stores: &Stores, names: &[Epc]) -> Result<Vec<Option<Node>>, Memory>
    ensures { IfOk result (λ places. places.items ≡ map (place_of stores.now.content.rows stores.now.content.units) names.now) }
{
    let mut places = Vec::new(alloc);
    let Ok(()) = places.reserve(names.len()) else {
        return Err(Memory);
    };
    for name in names {
        let place: Option<Node> = stores.place(name);
        let Ok(()) = places.push(place) else {
            return Err(Memory);
        };
    }
    Ok(places)
}

/// A station's deed, with what its rules ask for. `subject` is what was found of what it is about, `made` are the names
/// made of it, and `drawn` is for a draw how many serials are drawn of the batch's GTIN: the pool tells it.
///
/// # Errors
///
/// `Memory` where no memory was found, or the deed names 2^31 things or batches or more.
pub fn ask<'a>(
    alloc: Global,
    setup: &'a Setup,
    stores: &'a Stores,
    station: StationId,
    deed: &'a Deed,
    subject: &Subject,
    made: &'a Epcs,
    drawn: u32,
) -> Result<Asked<'a>, Memory>
    requires subject { IsSubject stores.now.content deed.now subject.now }
    requires made { listed deed.now made.now ≡ named (world_in stores.now.content) deed.now }
    ensures setup { IfOk result (λ asked. asked.setup.now ≡ setup.now) }
    ensures stores { IfOk result (λ asked. asked.stores.now ≡ stores.now) }
    ensures station { IfOk result (λ asked. asked.station ≡ station) }
    ensures deed { IfOk result (λ asked. asked.deed.now ≡ deed.now) }
    ensures drawn { IfOk result (λ asked. asked.drawn ≡ drawn) }
    ensures asked { IfOk result (λ asked. IsAsked stores.now.content deed.now asked.names.now asked.found asked.repeat) }
{
    let names = listed(deed, made);
    let places = places_of(alloc, stores, names)?;
    let origins = origins_of(alloc, stores, order_rows(deed))?;
    let repeat = first_repeat(alloc, names)?;
    Ok(Asked {
        setup,
        stores,
        station,
        deed,
        names,
        found: Found {
            unit: subject.unit,
            batch: subject.batch,
            places,
            origins,
        },
        repeat,
        drawn,
    })
}
