//! A site file, and the faults of its fields.
use deed_words::{Role, StationId};
use gs1_keys::{Alphabet, Gtin};
use site_files::{FileFault, Word, read_site};
use std::alloc::Global;
use std::process::Abort;

/// The example site.
const SITE: &str =
    "[site]\ngln = \"0614141000012\"\nprefix = \"0614141\"\nextension = 1\nreference = 1\noffset = \"+00:00\"\n\n[[product]]\ngtin = \"00614141123452\"\nprefix_length = 7\nserial_length = 10\n\n[[product]]\ngtin = \"80614141123458\"\nprefix_length = 7\nserial_length = 6\n\n[[station]]\nname = \"P1\"\nrole = \"planner\"\n\n[[station]]\nname = \"L1\"\nrole = \"line\"\n\n[[station]]\nname = \"L2\"\nrole = \"line\"\n\n[[station]]\nname = \"Q1\"\nrole = \"quality\"\n";

/// Compares the fault of the example site where one text in it is another.
fn expect_fault(rt: &impl Abort, alloc: Global, old: &str, new: &str, fault: FileFault) {
    let (before, after) = SITE.split_once(old).expect(rt, "it stands there");
    let mut text = String::from_str(alloc, before).expect(rt, "memory is ample");
    text.push_str(new).expect(rt, "memory is ample");
    text.push_str(after).expect(rt, "memory is ample");
    assert!(rt; read_site(alloc, text.as_bytes()).err() == Some(fault));
}

#[test]
fn example_site(rt: HostRuntime) {
    let alloc = rt.alloc();
    let site = read_site(alloc, SITE.as_bytes()).expect(&rt, "it is a site file");
    assert!(rt; site.gln.digits() == b"0614141000012".as_slice());
    assert_eq!(rt; site.reference, 1);
    assert_eq!(rt; site.products.len(), 2);
    assert_eq!(rt; site.stations.len(), 4);
    assert!(rt; site.role(StationId(3)) == Some(Role::Quality));
    let gtin = Gtin::read(b"80614141123458").expect(&rt, "it is a GTIN");
    let form = site.product(&gtin).expect(&rt, "it is made here").form;
    assert!(rt; form.alphabet == Alphabet::Digits);
    assert_eq!(rt; form.length, 6);
}

/// Texts of the example site, what stands in their place, and the fault.
const FAULTS: [(&str, &str, FileFault); 17] = [
    ("[site]", "[site", FileFault::Unreadable),
    ("[site]", "[other]", FileFault::NoField(Word::Site)),
    ("gln = \"0614141000012\"", "", FileFault::NoField(Word::Gln)),
    (
        "0614141000012",
        "0614141000013",
        FileFault::BadField(Word::Gln),
    ),
    ("prefix = \"0614141\"", "", FileFault::NoField(Word::Prefix)),
    (
        "prefix = \"0614141\"",
        "prefix = 614141",
        FileFault::BadField(Word::Prefix),
    ),
    (
        "prefix = \"0614141\"",
        "prefix = \"0614142\"",
        FileFault::BadField(Word::Gln),
    ),
    (
        "extension = 1",
        "extension = 10",
        FileFault::BadField(Word::Extension),
    ),
    (
        "reference = 1",
        "reference = 1000000000",
        FileFault::BadField(Word::Reference),
    ),
    ("+00:00", "+14:01", FileFault::BadField(Word::Offset)),
    (
        "00614141123452",
        "00614141123453",
        FileFault::BadField(Word::Gtin),
    ),
    (
        "prefix_length = 7",
        "prefix_length = 13",
        FileFault::BadField(Word::PrefixLength),
    ),
    (
        "serial_length = 10",
        "serial_length = 5",
        FileFault::BadField(Word::SerialLength),
    ),
    (
        "serial_length = 10",
        "serial_length = 13\nserial_alphabet = \"base32\"",
        FileFault::BadField(Word::SerialAlphabet),
    ),
    (
        "80614141123458",
        "614141123452",
        FileFault::Twice(Word::Gtin),
    ),
    ("\"L1\"", "\"P1\"", FileFault::Twice(Word::Name)),
    ("\"quality\"", "\"cook\"", FileFault::BadField(Word::Role)),
];

#[test]
fn faults(rt: HostRuntime) {
    for (old, new, fault) in FAULTS {
        expect_fault(&rt, rt.alloc(), old, new, fault);
    }
}
