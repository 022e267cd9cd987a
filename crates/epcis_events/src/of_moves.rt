//! The events of moves.
ghost use Rattle.std.specs.Prelude.{◌≡◌, true, map, IfOk, Some};
ghost use Rattle.deed_words.specs.Setups.{product_of};
ghost use Rattle.deed_words.specs.Happenings.{has_event};
ghost use Rattle.epcis_events.specs.Events.{kind_of, length_of, written_in, told_of, event_of};

use crate::{Action, Disposition, Event, Kind, Named, Step};
use deed_words::{Deed, Move, OrderRow, Product, Setup, same_gtin};
use epc_urn::Epc;
use gs1_keys::{Gtin, Memory, Text20};
use std::alloc::{AllocError, Global};

/// The kind of event of a deed that has one.
#[tactic(auto, unfolding(crate::specs::Events::kind_of, deed_words::specs::Happenings::has_event))]
fn kind_of(deed: &Deed) -> Kind
    requires { has_event deed.now ≡ true }
    ensures { kind_of deed.now ≡ Some result }
{
    match deed {
        Deed::Commission(..) | Deed::Container(..) => Kind {
            aggregation: false,
            action: Action::Add,
            step: Step::Commissioning,
            disposition: Disposition::Active,
        },
        Deed::Pack(..) => Kind {
            aggregation: true,
            action: Action::Add,
            step: Step::Packing,
            disposition: Disposition::InProgress,
        },
        Deed::Unpack(..) | Deed::UnpackAll(..) => Kind {
            aggregation: true,
            action: Action::Delete,
            step: Step::Unpacking,
            disposition: Disposition::InProgress,
        },
        Deed::Sample(..) | Deed::Reject(..) => Kind {
            aggregation: false,
            action: Action::Observe,
            step: Step::Inspecting,
            disposition: Disposition::NonSellableOther,
        },
        Deed::Reinstate(..) => Kind {
            aggregation: false,
            action: Action::Observe,
            step: Step::Inspecting,
            disposition: Disposition::InProgress,
        },
        Deed::Destroy(..) => Kind {
            aggregation: false,
            action: Action::Delete,
            step: Step::Destroying,
            disposition: Disposition::Destroyed,
        },
        Deed::Decommission(..) | Deed::Void(..) => Kind {
            aggregation: false,
            action: Action::Delete,
            step: Step::Decommissioning,
            disposition: Disposition::Inactive,
        },
        _ => unreachable!(),
    }
}

/// The product of that GTIN.
#[tactic(auto, unfolding(deed_words::specs::Setups::product_of))]
fn product_of(setup: &Setup, gtin: &Gtin) -> Option<Product>
    ensures { result ≡ product_of setup.now gtin.now }
{
    setup
        .products
        .as_slice()
        .iter()
        .copied()
        .find(|product| same_gtin(&product.gtin, gtin))
}

/// The prefix length with which a name is written: its product's, or the site's.
#[tactic(auto, unfolding(crate::specs::Events::length_of))]
fn length_of(name: &Epc, setup: &Setup) -> u8
    ensures { result ≡ length_of setup.now name.now }
{
    match name {
        Epc::Item(gtin, _) => match product_of(setup, gtin) {
            Some(product) => product.prefix_length,
            None => 0,
        },
        Epc::Unit(_) => setup.prefix.digits().len() as u8,
    }
}

/// A name with the prefix length with which it is written.
#[tactic(auto, unfolding(crate::specs::Events::written_in))]
fn written_name(name: &Epc, setup: &Setup) -> (Epc, u8)
    ensures { result ≡ written_in setup.now name.now }
{
    (*name, length_of(name, setup))
}

/// Names, each with the prefix length with which it is written.
fn written(alloc: Global, names: &[Epc], setup: &Setup) -> Result<Vec<(Epc, u8)>, AllocError>
    ensures { IfOk result (λ named. named.items ≡ map (written_in setup.now) names.now) }
{
    names
        .iter()
        .map(|name| written_name(name, setup))
        .collect(alloc)
}

/// Lot and expiry, which a commission tells.
#[tactic(auto, unfolding(crate::specs::Events::told_of))]
fn told_of(deed: &Deed, row: &OrderRow) -> Option<(Text20, [u8; 6])>
    ensures { result ≡ told_of deed.now row.now }
{
    match deed {
        Deed::Commission(..) => Some((row.lot, row.expiry)),
        _ => None,
    }
}

/// The event of a move whose deed has one.
#[tactic(auto, unfolding(crate::specs::Events::event_of, crate::specs::Events::event_in))]
pub fn event_of(alloc: Global, moved: &Move, setup: &Setup) -> Result<Event, Memory>
    requires { has_event moved.now.kept.deed ≡ true }
    ensures { IfOk result (λ event. event_of setup.now moved.now ≡ Some event) }
{
    let kind = kind_of(&moved.kept.deed);
    let site_length = setup.prefix.digits().len() as u8;
    let Ok(epcs) = written(alloc, moved.epcs.as_slice(), setup) else {
        return Err(Memory);
    };
    Ok(Event {
        aggregation: kind.aggregation,
        action: kind.action,
        step: kind.step,
        disposition: kind.disposition,
        epcs: Named::from_vec(epcs),
        parent: moved.parent.map(|sscc| (sscc, site_length)),
        time: moved.kept.stamp,
        place: (setup.gln, site_length),
        offset: setup.offset,
        ilmd: told_of(&moved.kept.deed, &moved.row),
    })
}
