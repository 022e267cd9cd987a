//! The setup of a site, the ranges of deeds and entries, and lists.
use deed_words::{
    BatchId, Codes, Deed, Entry, Epcs, FaultKind, Ids, ItemId, Move, Moves, Note, Notes, OrderRow,
    Product, Products, Role, Rows, Setup, Station, StationId, Stations, same_epc,
};
use epc_urn::Epc;
use gs1_element::Code;
use gs1_keys::{Alphabet, Gln, Gtin, Prefix, SerialForm, Serials, Sscc, Text20};
use std::alloc::Global;
use std::process::Abort;

fn text(rt: &impl Abort, characters: &[u8]) -> Text20 {
    Text20::read(characters).expect(rt, "a text")
}

fn gtin(rt: &impl Abort) -> Gtin {
    Gtin::read(b"80614141123458").expect(rt, "a GTIN")
}

fn item(rt: &impl Abort) -> Epc {
    Epc::Item(gtin(rt), text(rt, b"6789"))
}

fn unit(rt: &impl Abort) -> Epc {
    Epc::Unit(Sscc::read(b"106141410000000019").expect(rt, "an SSCC"))
}

fn order(rt: &impl Abort, expiry: [u8; 6]) -> OrderRow {
    OrderRow {
        batch: text(rt, b"B6"),
        gtin: gtin(rt),
        lot: text(rt, b"LOT6"),
        expiry,
        quantity: 2,
        case_size: 2,
        pallet_size: 0,
    }
}

/// A product with serials of so many digits.
fn product(rt: &impl Abort, gtin: &[u8], length: u8) -> Product {
    Product {
        gtin: Gtin::read(gtin).expect(rt, "a GTIN"),
        prefix_length: 7,
        form: SerialForm {
            alphabet: Alphabet::Digits,
            length,
        },
    }
}

fn products(rt: &impl Abort, alloc: Global) -> Products {
    let mut products = Products::new(alloc);
    for (gtin, length) in [(b"00614141123452", 10), (b"80614141123458", 6)] {
        let product = product(rt, gtin, length);
        products.push(product).expect(rt, "memory is ample");
    }
    products
}

fn stations(rt: &impl Abort, alloc: Global) -> Stations {
    let mut stations = Stations::new(alloc);
    for (name, role) in [
        (b"P1", Role::Planner),
        (b"L1", Role::Line),
        (b"L2", Role::Line),
        (b"Q1", Role::Quality),
    ] {
        let name = text(rt, name);
        stations
            .push(Station { name, role })
            .expect(rt, "memory is ample");
    }
    stations
}

/// The setup of a site, where its parts are proper.
fn setup(
    rt: &impl Abort,
    extension: u8,
    offset: [u8; 6],
    products: Products,
    stations: Stations,
) -> Option<Setup> {
    let gln = Gln::read(b"0614141000012").expect(rt, "a GLN");
    let prefix = Prefix::read(b"0614141").expect(rt, "a prefix");
    Setup::new(gln, prefix, extension, 1, offset, products, stations)
}

#[test]
fn a_setup_is_made_of_proper_parts(rt: HostRuntime) {
    let products = products(&rt, rt.alloc());
    let stations = stations(&rt, rt.alloc());
    let site = setup(&rt, 1, *b"+00:00", products, stations).expect(&rt, "its parts are proper");
    assert!(rt; site.role(StationId(3)) == Some(Role::Quality));
    let made = site.product(&gtin(&rt)).expect(&rt, "it is made here");
    assert_eq!(rt; made.form.length, 6);
}

/// Parts that make no setup: of them one alone is wrong.
fn expect_no_setup(rt: &impl Abort, alloc: Global, extension: u8, offset: [u8; 6]) {
    let stations = stations(rt, alloc);
    assert!(rt; setup(rt, extension, offset, products(rt, alloc), stations).is_none());
}

#[test]
fn wrong_parts_make_no_setup(rt: HostRuntime) {
    expect_no_setup(&rt, rt.alloc(), 10, *b"+00:00");
    expect_no_setup(&rt, rt.alloc(), 1, *b"-14:30");
    let nothing_made = Products::new(rt.alloc());
    let stations = stations(&rt, rt.alloc());
    assert!(rt; setup(&rt, 1, *b"+00:00", nothing_made, stations).is_none());
}

#[test]
fn orders_expire_on_a_day(rt: HostRuntime) {
    assert!(rt; order(&rt, *b"271231").is_proper());
    assert!(rt; !order(&rt, *b"271301").is_proper());
}

#[test]
fn quantities_end_with_a_million(rt: HostRuntime) {
    let batch = text(&rt, b"B6");
    assert!(rt; Deed::Amend(batch, 1_000_000).is_proper());
    assert!(rt; !Deed::Amend(batch, 1_000_001).is_proper());
}

fn entry(rt: &impl Abort, alloc: Global, stamp: u64) -> Entry {
    Entry {
        station: StationId(0),
        number: 1,
        worker: 0,
        stamp,
        operator: Some(text(rt, b"ann")),
        deed: Deed::Start(text(rt, b"B6")),
        drawn: Serials::new(alloc),
    }
}

#[test]
fn an_entry_ends_with_the_year_9999(rt: HostRuntime) {
    assert!(rt; entry(&rt, rt.alloc(), 253_402_300_799_999).is_proper());
    assert!(rt; !entry(&rt, rt.alloc(), 253_402_300_800_000).is_proper());
}

#[test]
fn an_entry_is_copied(rt: HostRuntime) {
    let kept = entry(&rt, rt.alloc(), 7);
    let copy = kept.copy().expect(&rt, "memory is ample");
    assert_eq!(rt; copy.stamp, 7);
    assert!(rt; matches!(&copy.deed, Deed::Start(_)));
}

#[test]
fn names_are_compared(rt: HostRuntime) {
    assert!(rt; same_epc(&item(&rt), &item(&rt)));
    assert!(rt; !same_epc(&item(&rt), &unit(&rt)));
}

#[test]
fn names_are_listed(rt: HostRuntime) {
    let mut epcs = Epcs::new(rt.alloc());
    epcs.push(unit(&rt)).expect(&rt, "memory is ample");
    epcs.extend(&[item(&rt)]).expect(&rt, "memory is ample");
    let names = Epcs::from_vec(epcs.into_vec());
    assert_eq!(rt; names.len(), 2);
    assert!(rt; matches!(names.get(1), Epc::Item(_, _)));
}

#[test]
fn orders_are_listed(rt: HostRuntime) {
    let mut rows = Rows::new(rt.alloc());
    rows.push(order(&rt, *b"271231"))
        .expect(&rt, "memory is ample");
    assert_eq!(rt; rows.get(0).quantity, 2);
}

#[test]
fn codes_are_listed(rt: HostRuntime) {
    let code = Code {
        gtin: gtin(&rt),
        serial: text(&rt, b"6789"),
        lot: text(&rt, b"LOT6"),
        expiry: *b"271231",
    };
    let mut codes = Codes::new(rt.alloc());
    codes.push(code).expect(&rt, "memory is ample");
    assert!(rt; codes.get(0).expiry == *b"271231");
}

#[test]
fn numbers_are_listed(rt: HostRuntime) {
    let mut ids = Ids::new(rt.alloc());
    ids.push(ItemId(7)).expect(&rt, "memory is ample");
    assert!(rt; ids.as_slice() == [ItemId(7)].as_slice());
}

#[test]
fn notes_are_listed(rt: HostRuntime) {
    let mut notes = Notes::new(rt.alloc());
    notes
        .push(Note::Fault(FaultKind::Clock, 2))
        .expect(&rt, "memory is ample");
    assert!(rt; *notes.get(0) == Note::Fault(FaultKind::Clock, 2));
}

#[test]
fn moves_are_listed(rt: HostRuntime) {
    let moved = Move {
        place: 5,
        kept: entry(&rt, rt.alloc(), 0),
        batch: BatchId(0),
        row: order(&rt, *b"271231"),
        epcs: Epcs::new(rt.alloc()),
        parent: None,
    };
    let mut moves = Moves::new(rt.alloc());
    moves.push(moved).expect(&rt, "memory is ample");
    assert_eq!(rt; moves.get(0).place, 5);
}
