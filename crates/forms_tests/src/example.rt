//! An example site, and names.
use deed_words::{Product, Products, Role, Setup, Station, Stations};
use gs1_keys::{Alphabet, Gln, Gtin, Prefix, SerialForm, Sscc, Text20};
use std::alloc::Global;
use std::process::Abort;

pub(crate) fn text(rt: &impl Abort, characters: &[u8]) -> Text20 {
    Text20::read(characters).expect(rt, "a text")
}

pub(crate) fn sscc(rt: &impl Abort) -> Sscc {
    Sscc::read(b"106141410000000019").expect(rt, "an SSCC")
}

/// A product whose serials have this form.
fn product(rt: &impl Abort, gtin: &[u8], form: SerialForm) -> Product {
    Product {
        gtin: Gtin::read(gtin).expect(rt, "a GTIN"),
        prefix_length: 7,
        form,
    }
}

/// The site's products, of which the second has serials of this form.
fn products(rt: &impl Abort, alloc: Global, form: SerialForm) -> Products {
    let ten_digits = SerialForm {
        alphabet: Alphabet::Digits,
        length: 10,
    };
    let mut products = Products::new(alloc);
    for (gtin, form) in [(b"00614141123452", ten_digits), (b"80614141123458", form)] {
        let product = product(rt, gtin, form);
        products.push(product).expect(rt, "memory is ample");
    }
    products
}

/// A planner, two lines and quality assurance.
fn stations(rt: &impl Abort, alloc: Global) -> Stations {
    let mut stations = Stations::new(alloc);
    for (name, role) in [
        (b"P1", Role::Planner),
        (b"L1", Role::Line),
        (b"L2", Role::Line),
        (b"Q1", Role::Quality),
    ] {
        let name = text(rt, name);
        stations
            .push(Station { name, role })
            .expect(rt, "memory is ample");
    }
    stations
}

/// The site: its second product has serials of this form.
pub(crate) fn site(rt: &impl Abort, alloc: Global, form: SerialForm) -> Setup {
    let gln = Gln::read(b"0614141000012").expect(rt, "a GLN");
    let prefix = Prefix::read(b"0614141").expect(rt, "a prefix");
    let products = products(rt, alloc, form);
    let stations = stations(rt, alloc);
    Setup::new(gln, prefix, 1, 1, *b"+00:00", products, stations).expect(rt, "the site is proper")
}

/// The site whose second product has serials of six digits.
pub(crate) fn example_site(rt: &impl Abort, alloc: Global) -> Setup {
    let six_digits = SerialForm {
        alphabet: Alphabet::Digits,
        length: 6,
    };
    site(rt, alloc, six_digits)
}
