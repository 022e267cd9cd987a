//! Documents of events with their whole texts.
ghost use Rattle.std.specs.Prelude.{◌≡◌, true};
ghost use Rattle.deed_words.specs.Happenings.{has_event};

use crate::example::{case, example_site, gtin, item, text};
use deed_words::{BatchId, Codes, Deed, Entry, Epcs, Level, Move, OrderRow, StationId};
use epc_urn::Epc;
use epcis_events::{document, event_of};
use gs1_keys::{Serials, Sscc};
use std::alloc::Global;
use std::process::Abort;

/// The order of a batch that expires at the end of February 2027.
fn order(rt: &impl Abort) -> OrderRow {
    OrderRow {
        batch: text(rt, b"B6"),
        gtin: gtin(rt),
        lot: text(rt, b"LOT6"),
        expiry: *b"270200",
        quantity: 2,
        case_size: 2,
        pallet_size: 0,
    }
}

/// The line's deed at the first moment of 2026.
fn entry(alloc: Global, deed: Deed) -> Entry
    ensures { result.deed ≡ deed }
{
    Entry {
        station: StationId(1),
        number: 1,
        worker: 0,
        stamp: 1_767_225_600_000,
        operator: None,
        deed,
        drawn: Serials::new(alloc),
    }
}

fn copied(rt: &impl Abort, alloc: Global, names: &[Epc]) -> Epcs {
    let mut epcs = Epcs::new(alloc);
    epcs.extend(names).expect(rt, "memory is ample");
    epcs
}

/// Compares the text of the document of one move.
fn expect_text(rt: &impl Abort, alloc: Global, moved: &Move, text: &str)
    requires { has_event moved.now.kept.deed ≡ true }
{
    let site = example_site(rt, alloc);
    let event = event_of(alloc, moved, &site).expect(rt, "memory is ample");
    assert!(rt; event.is_proper());
    let found = document(alloc, &[event], 1_767_225_600_000).expect(rt, "memory is ample");
    assert!(rt; found.as_slice() == text.as_bytes());
}

/// Compares the text of the event of a deed that changed these.
fn expect_event(
    rt: &impl Abort,
    alloc: Global,
    deed: Deed,
    names: &[Epc],
    parent: Option<Sscc>,
    text: &str,
)
    requires { has_event deed ≡ true }
{
    let moved = Move {
        place: 2,
        kept: entry(alloc, deed),
        batch: BatchId(0),
        row: order(rt),
        epcs: copied(rt, alloc, names),
        parent,
    };
    expect_text(rt, alloc, &moved, text);
}

#[test]
#[tactic(auto, unfolding(deed_words::specs::Happenings::has_event))]
fn a_case_is_made(rt: HostRuntime) {
    let made = Deed::Container(text(&rt, b"B6"), Level::Case);
    let names = [Epc::Unit(case(&rt))];
    let text =
        "{\"@context\":[\"https://ref.gs1.org/standards/epcis/2.0.0/epcis-context.jsonld\"],\"creationDate\":\"2026-01-01T00:00:00.000Z\",\"epcisBody\":{\"eventList\":[{\"action\":\"ADD\",\"bizLocation\":{\"id\":\"urn:epc:id:sgln:0614141.00001.0\"},\"bizStep\":\"commissioning\",\"disposition\":\"active\",\"epcList\":[\"urn:epc:id:sscc:0614141.1000000001\"],\"eventTime\":\"2026-01-01T00:00:00.000Z\",\"eventTimeZoneOffset\":\"+00:00\",\"readPoint\":{\"id\":\"urn:epc:id:sgln:0614141.00001.0\"},\"type\":\"ObjectEvent\"}]},\"schemaVersion\":\"2.0\",\"type\":\"EPCISDocument\"}";
    expect_event(&rt, rt.alloc(), made, &names, None, text);
}

#[test]
#[tactic(auto, unfolding(deed_words::specs::Happenings::has_event))]
fn an_item_is_commissioned(rt: HostRuntime) {
    let alloc = rt.alloc();
    let commissioned = Deed::Commission(text(&rt, b"B6"), Codes::new(alloc));
    let names = [item(&rt, b"6789")];
    let text =
        "{\"@context\":[\"https://ref.gs1.org/standards/epcis/2.0.0/epcis-context.jsonld\"],\"creationDate\":\"2026-01-01T00:00:00.000Z\",\"epcisBody\":{\"eventList\":[{\"action\":\"ADD\",\"bizLocation\":{\"id\":\"urn:epc:id:sgln:0614141.00001.0\"},\"bizStep\":\"commissioning\",\"disposition\":\"active\",\"epcList\":[\"urn:epc:id:sgtin:0614141.812345.6789\"],\"eventTime\":\"2026-01-01T00:00:00.000Z\",\"eventTimeZoneOffset\":\"+00:00\",\"ilmd\":{\"cbvmda:itemExpirationDate\":\"2027-02-28\",\"cbvmda:lotNumber\":\"LOT6\"},\"readPoint\":{\"id\":\"urn:epc:id:sgln:0614141.00001.0\"},\"type\":\"ObjectEvent\"}]},\"schemaVersion\":\"2.0\",\"type\":\"EPCISDocument\"}";
    expect_event(&rt, alloc, commissioned, &names, None, text);
}

#[test]
#[tactic(auto, unfolding(deed_words::specs::Happenings::has_event))]
fn all_is_unpacked(rt: HostRuntime) {
    let unpacked = Deed::UnpackAll(case(&rt));
    let names = [item(&rt, b"6789"), item(&rt, b"A/B%1")];
    let text =
        "{\"@context\":[\"https://ref.gs1.org/standards/epcis/2.0.0/epcis-context.jsonld\"],\"creationDate\":\"2026-01-01T00:00:00.000Z\",\"epcisBody\":{\"eventList\":[{\"action\":\"DELETE\",\"bizLocation\":{\"id\":\"urn:epc:id:sgln:0614141.00001.0\"},\"bizStep\":\"unpacking\",\"childEPCs\":[\"urn:epc:id:sgtin:0614141.812345.6789\",\"urn:epc:id:sgtin:0614141.812345.A%2FB%251\"],\"disposition\":\"in_progress\",\"eventTime\":\"2026-01-01T00:00:00.000Z\",\"eventTimeZoneOffset\":\"+00:00\",\"parentID\":\"urn:epc:id:sscc:0614141.1000000001\",\"readPoint\":{\"id\":\"urn:epc:id:sgln:0614141.00001.0\"},\"type\":\"AggregationEvent\"}]},\"schemaVersion\":\"2.0\",\"type\":\"EPCISDocument\"}";
    expect_event(&rt, rt.alloc(), unpacked, &names, Some(case(&rt)), text);
}

#[test]
fn no_events(rt: HostRuntime) {
    let found = document(rt.alloc(), &[], 1_767_225_600_000).expect(&rt, "memory is ample");
    let text =
        "{\"@context\":[\"https://ref.gs1.org/standards/epcis/2.0.0/epcis-context.jsonld\"],\"creationDate\":\"2026-01-01T00:00:00.000Z\",\"epcisBody\":{\"eventList\":[]},\"schemaVersion\":\"2.0\",\"type\":\"EPCISDocument\"}";
    assert!(rt; found.as_slice() == text.as_bytes());
    let found = document(rt.alloc(), &[], 253_402_300_799_999).expect(&rt, "memory is ample");
    let text =
        "{\"@context\":[\"https://ref.gs1.org/standards/epcis/2.0.0/epcis-context.jsonld\"],\"creationDate\":\"9999-12-31T23:59:59.999Z\",\"epcisBody\":{\"eventList\":[]},\"schemaVersion\":\"2.0\",\"type\":\"EPCISDocument\"}";
    assert!(rt; found.as_slice() == text.as_bytes());
}
