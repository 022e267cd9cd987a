//! An example site, and names.
use deed_words::{Product, Products, Role, Setup, Station, Stations};
use epc_urn::Epc;
use gs1_keys::{Alphabet, Gln, Gtin, Prefix, SerialForm, Sscc, Text20};
use std::alloc::Global;
use std::process::Abort;

pub(crate) fn text(rt: &impl Abort, characters: &[u8]) -> Text20 {
    Text20::read(characters).expect(rt, "a text")
}

pub(crate) fn gtin(rt: &impl Abort) -> Gtin {
    Gtin::read(b"80614141123458").expect(rt, "a GTIN")
}

pub(crate) fn item(rt: &impl Abort, serial: &[u8]) -> Epc {
    Epc::Item(gtin(rt), text(rt, serial))
}

pub(crate) fn case(rt: &impl Abort) -> Sscc {
    Sscc::read(b"106141410000000019").expect(rt, "an SSCC")
}

pub(crate) fn pallet(rt: &impl Abort) -> Sscc {
    Sscc::read(b"106141410000000026").expect(rt, "an SSCC")
}

pub(crate) fn gln(rt: &impl Abort) -> Gln {
    Gln::read(b"0614141000012").expect(rt, "a GLN")
}

fn products(rt: &impl Abort, alloc: Global) -> Products {
    let form = SerialForm {
        alphabet: Alphabet::Digits,
        length: 6,
    };
    let mut products = Products::new(alloc);
    products
        .push(Product {
            gtin: gtin(rt),
            prefix_length: 7,
            form,
        })
        .expect(rt, "memory is ample");
    products
}

fn stations(rt: &impl Abort, alloc: Global) -> Stations {
    let mut stations = Stations::new(alloc);
    for (name, role) in [(b"P1", Role::Planner), (b"L1", Role::Line)] {
        let name = text(rt, name);
        stations
            .push(Station { name, role })
            .expect(rt, "memory is ample");
    }
    stations
}

/// A site with a planner and a line, whose company prefix has 7 digits.
pub(crate) fn example_site(rt: &impl Abort, alloc: Global) -> Setup {
    let prefix = Prefix::read(b"0614141").expect(rt, "a prefix");
    let products = products(rt, alloc);
    let stations = stations(rt, alloc);
    Setup::new(gln(rt), prefix, 1, 1, *b"+00:00", products, stations).expect(
        rt,
        "the site is proper",
    )
}
