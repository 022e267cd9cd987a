//! What is seen of a site.
use deed_words::{
    Codes, Deed, Entry, Epcs, Level, Mark, OrderRow, Product, Products, Role, Setup, State,
    Station, StationId, Stations,
};
use epc_urn::Epc;
use gs1_element::Code;
use gs1_keys::{Alphabet, Gln, Gtin, Prefix, SerialForm, Serials, Sscc, Text20};
use site_core::{ItemView, Site, UnitView};
use std::alloc::Global;
use std::process::Abort;

fn text(rt: &impl Abort, characters: &[u8]) -> Text20 {
    Text20::read(characters).expect(rt, "a text")
}

fn gtin(rt: &impl Abort) -> Gtin {
    Gtin::read(b"80614141123458").expect(rt, "a GTIN")
}

fn case(rt: &impl Abort) -> Sscc {
    Sscc::read(b"106141410000000019").expect(rt, "an SSCC")
}

fn products(rt: &impl Abort, alloc: Global) -> Products {
    let mut products = Products::new(alloc);
    let form = SerialForm {
        alphabet: Alphabet::Digits,
        length: 6,
    };
    let gtin = gtin(rt);
    products
        .push(Product {
            gtin,
            prefix_length: 7,
            form,
        })
        .expect(rt, "memory is ample");
    products
}

fn stations(rt: &impl Abort, alloc: Global) -> Stations {
    let mut stations = Stations::new(alloc);
    for (name, role) in [(b"P1", Role::Planner), (b"L1", Role::Line)] {
        let name = text(rt, name);
        stations
            .push(Station { name, role })
            .expect(rt, "memory is ample");
    }
    stations
}

fn site(rt: &impl Abort, alloc: Global) -> Site {
    let gln = Gln::read(b"0614141000012").expect(rt, "a GLN");
    let prefix = Prefix::read(b"0614141").expect(rt, "a prefix");
    let products = products(rt, alloc);
    let stations = stations(rt, alloc);
    let setup = Setup::new(gln, prefix, 1, 1, *b"+00:00", products, stations);
    Site::new(alloc, setup.expect(rt, "its parts are proper")).expect(rt, "memory is ample")
}

/// The site takes the entry of the station in.
fn enter(
    rt: &impl Abort,
    site: &mut Site,
    who: (u8, u64),
    operator: Option<Text20>,
    deed: Deed,
    drawn: Serials,
) {
    let entry = Entry {
        station: StationId(who.0),
        number: who.1,
        worker: 0,
        stamp: 0,
        operator,
        deed,
        drawn,
    };
    let proper = entry.is_proper();
    assert!(rt; proper);
    if !proper {
        return;
    }
    let planned = site.adopt(entry).expect(rt, "it may come next");
    let _committed = site.commit(planned);
}

fn order(rt: &impl Abort) -> Deed {
    Deed::Order(OrderRow {
        batch: text(rt, b"B6"),
        gtin: gtin(rt),
        lot: text(rt, b"LOT6"),
        expiry: *b"271231",
        quantity: 2,
        case_size: 2,
        pallet_size: 0,
    })
}

fn two_serials(rt: &impl Abort, alloc: Global) -> Serials {
    let mut serials = Serials::new(alloc);
    for serial in [b"000005", b"000007"] {
        let serial = text(rt, serial);
        serials.push(serial).expect(rt, "memory is ample");
    }
    serials
}

fn two_codes(rt: &impl Abort, alloc: Global) -> Codes {
    let mut codes = Codes::new(alloc);
    for serial in [b"000005", b"000007"] {
        let code = Code {
            gtin: gtin(rt),
            serial: text(rt, serial),
            lot: text(rt, b"LOT6"),
            expiry: *b"271231",
        };
        codes.push(code).expect(rt, "memory is ample");
    }
    codes
}

fn first_item(rt: &impl Abort, alloc: Global) -> Epcs {
    let mut items = Epcs::new(alloc);
    let item = Epc::Item(gtin(rt), text(rt, b"000005"));
    items.push(item).expect(rt, "memory is ample");
    items
}

/// A batch that was ordered, drawn for and started.
fn started(rt: &impl Abort, alloc: Global) -> Site {
    let mut site = site(rt, alloc);
    let none = Serials::new(alloc);
    enter(rt, &mut site, (0, 1), None, order(rt), none);
    let draw = Deed::Draw(text(rt, b"B6"), 2);
    let drawn = two_serials(rt, alloc);
    enter(rt, &mut site, (0, 2), None, draw, drawn);
    let ann = Some(text(rt, b"ann"));
    let start = Deed::Start(text(rt, b"B6"));
    let none = Serials::new(alloc);
    enter(rt, &mut site, (0, 3), ann, start, none);
    site
}

/// Both serials are printed, and one of them is packed.
fn pack_one(rt: &impl Abort, alloc: Global, site: &mut Site) {
    let lend = Deed::Lend(text(rt, b"B6"), 2);
    enter(rt, site, (1, 1), None, lend, Serials::new(alloc));
    let commission = Deed::Commission(text(rt, b"B6"), two_codes(rt, alloc));
    enter(rt, site, (1, 2), None, commission, Serials::new(alloc));
    let container = Deed::Container(text(rt, b"B6"), Level::Case);
    enter(rt, site, (1, 3), None, container, Serials::new(alloc));
    let pack = Deed::Pack(case(rt), first_item(rt, alloc));
    enter(rt, site, (1, 4), None, pack, Serials::new(alloc));
}

fn expect_item(rt: &impl Abort, site: &Site, serial: &[u8], parent: Option<Sscc>) {
    let seen = site.item_view(&gtin(rt), &text(rt, serial));
    let view = ItemView {
        batch: text(rt, b"B6"),
        line: Some(text(rt, b"L1")),
        state: State::Active,
        parent,
    };
    assert!(rt; seen == Some(view));
}

fn expect_unit(rt: &impl Abort, site: &Site, children: u64) {
    let seen = site.unit_view(&case(rt));
    let view = UnitView {
        batch: text(rt, b"B6"),
        level: Level::Case,
        mark: Mark::Filling,
        parent: None,
        children,
    };
    assert!(rt; seen == Some(view));
}

/// Whether the log tells of the entry at a place that this station asked under this number, with an operator or none,
/// and that it was accepted.
fn is_logged(site: &Site, place: u32, who: (u8, u64), operated: bool) -> bool {
    if place as usize >= site.entries() {
        return false;
    }
    let logged = site.logged(place);
    logged.station.0 == who.0
        && logged.number == who.1
        && logged.operator.is_some() == operated
        && logged.rule.is_none()
}

#[test]
fn items_and_units_are_seen(rt: HostRuntime) {
    let mut site = started(&rt, rt.alloc());
    pack_one(&rt, rt.alloc(), &mut site);
    expect_item(&rt, &site, b"000005", Some(case(&rt)));
    expect_item(&rt, &site, b"000007", None);
    expect_unit(&rt, &site, 1);
    assert!(rt; site.item_view(&gtin(&rt), &text(&rt, b"000009")).is_none());
}

#[test]
fn entries_are_logged(rt: HostRuntime) {
    let site = started(&rt, rt.alloc());
    assert!(rt; is_logged(&site, 0, (0, 1), false));
    assert!(rt; is_logged(&site, 1, (0, 2), false));
    assert!(rt; is_logged(&site, 2, (0, 3), true));
}
