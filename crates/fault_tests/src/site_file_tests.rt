//! Site files: each part and field missing, wrong and of another type, and the order in which faults are told.
use site_files::{FileFault, Word, read_site};
use std::alloc::Global;
use std::process::Abort;

/// The example site.
const SITE: &str =
    "[site]\ngln = \"0614141000012\"\nprefix = \"0614141\"\nextension = 1\nreference = 1\noffset = \"+00:00\"\n\n[[product]]\ngtin = \"00614141123452\"\nprefix_length = 7\nserial_length = 10\n\n[[product]]\ngtin = \"80614141123458\"\nprefix_length = 7\nserial_length = 6\n\n[[station]]\nname = \"P1\"\nrole = \"planner\"\n\n[[station]]\nname = \"L1\"\nrole = \"line\"\n\n[[station]]\nname = \"L2\"\nrole = \"line\"\n\n[[station]]\nname = \"Q1\"\nrole = \"quality\"\n";

/// Compares the fault of the example site where one text in it is another.
fn expect_fault(rt: &impl Abort, alloc: Global, old: &str, new: &str, fault: FileFault) {
    let (before, after) = SITE.split_once(old).expect(rt, "it stands there");
    let mut text = String::from_str(alloc, before).expect(rt, "memory is ample");
    text.push_str(new).expect(rt, "memory is ample");
    text.push_str(after).expect(rt, "memory is ample");
    assert!(rt; read_site(alloc, text.as_bytes()).err() == Some(fault));
}

/// Texts of the example site's own fields, what stands in their place, and the fault.
const SITE_FIELDS: [(&str, &str, FileFault); 32] = [
    ("[site]", "\u{0}", FileFault::Unreadable),
    (
        "[site]",
        "[site]\ngln = \"0614141000012\"",
        FileFault::Unreadable,
    ),
    (
        "gln = \"0614141000012\"",
        "gln = 614141000012",
        FileFault::BadField(Word::Gln),
    ),
    (
        "0614141000012",
        "061414100001",
        FileFault::BadField(Word::Gln),
    ),
    (
        "0614141000012",
        "06141410000x2",
        FileFault::BadField(Word::Gln),
    ),
    // the GLN's own digits are told before a prefix that is missing, and the prefix before the GLN that lacks it
    (
        "gln = \"0614141000012\"\nprefix = \"0614141\"",
        "gln = \"0614141000013\"",
        FileFault::BadField(Word::Gln),
    ),
    (
        "gln = \"0614141000012\"\nprefix = \"0614141\"",
        "gln = \"4012345000016\"\nprefix = \"06141\"",
        FileFault::BadField(Word::Prefix),
    ),
    (
        "0614141\"\nextension",
        "0614141000001\"\nextension",
        FileFault::BadField(Word::Prefix),
    ),
    (
        "0614141\"\nextension",
        "061414x\"\nextension",
        FileFault::BadField(Word::Prefix),
    ),
    ("extension = 1\n", "", FileFault::NoField(Word::Extension)),
    (
        "extension = 1",
        "extension = \"1\"",
        FileFault::BadField(Word::Extension),
    ),
    (
        "extension = 1",
        "extension = -1",
        FileFault::BadField(Word::Extension),
    ),
    (
        "extension = 1",
        "extension = 1.0",
        FileFault::BadField(Word::Extension),
    ),
    ("reference = 1\n", "", FileFault::NoField(Word::Reference)),
    (
        "reference = 1",
        "reference = \"1\"",
        FileFault::BadField(Word::Reference),
    ),
    (
        "reference = 1",
        "reference = -1",
        FileFault::BadField(Word::Reference),
    ),
    (
        "offset = \"+00:00\"\n",
        "",
        FileFault::NoField(Word::Offset),
    ),
    (
        "offset = \"+00:00\"",
        "offset = 0",
        FileFault::BadField(Word::Offset),
    ),
    ("+00:00", "00:00", FileFault::BadField(Word::Offset)),
    ("+00:00", "+01:60", FileFault::BadField(Word::Offset)),
    ("+00:00", "-14:01", FileFault::BadField(Word::Offset)),
    ("+00:00", "+1:000", FileFault::BadField(Word::Offset)),
    ("+00:00", "*00:00", FileFault::BadField(Word::Offset)),
    (
        "[site]",
        "site = 1\n[other]",
        FileFault::BadField(Word::Site),
    ),
    ("[site]", "[[site]]", FileFault::BadField(Word::Site)),
    // the site's own fields come before the lists, and the products before the stations
    (
        "\"\n\n[[product]]\ngtin = \"00614141123452\"",
        "x\"\n\n[[product]]\ngtin = \"1\"",
        FileFault::BadField(Word::Offset),
    ),
    (
        "serial_length = 6\n\n[[station]]\nname = \"P1\"",
        "serial_length = 5\n\n[[station]]\nname = \"\"",
        FileFault::BadField(Word::SerialLength),
    ),
    // of one entry, the first field in the order of the page
    (
        "gtin = \"00614141123452\"\nprefix_length = 7\nserial_length = 10",
        "serial_length = 1\nprefix_length = 1",
        FileFault::NoField(Word::Gtin),
    ),
    (
        "prefix_length = 7\nserial_length = 10",
        "serial_length = 1\nprefix_length = 1",
        FileFault::BadField(Word::PrefixLength),
    ),
    (
        "name = \"P1\"\nrole = \"planner\"",
        "role = 1",
        FileFault::NoField(Word::Name),
    ),
    // an entry's fields are told before its name is found twice
    (
        "name = \"L1\"\nrole = \"line\"",
        "name = \"P1\"\nrole = \"cook\"",
        FileFault::BadField(Word::Role),
    ),
    (
        "80614141123458\"\nprefix_length = 7",
        "614141123452\"\nprefix_length = 5",
        FileFault::BadField(Word::PrefixLength),
    ),
];

/// Texts of the example site's lists, what stands in their place, and the fault.
const ENTRY_FIELDS: [(&str, &str, FileFault); 16] = [
    (
        "gtin = \"00614141123452\"\n",
        "",
        FileFault::NoField(Word::Gtin),
    ),
    (
        "gtin = \"00614141123452\"",
        "gtin = 614141123452",
        FileFault::BadField(Word::Gtin),
    ),
    (
        "00614141123452",
        "0614141123452x",
        FileFault::BadField(Word::Gtin),
    ),
    (
        "prefix_length = 7\nserial_length = 10",
        "serial_length = 10",
        FileFault::NoField(Word::PrefixLength),
    ),
    (
        "prefix_length = 7\nserial_length = 10",
        "prefix_length = 5",
        FileFault::BadField(Word::PrefixLength),
    ),
    (
        "prefix_length = 7\nserial_length = 10",
        "prefix_length = \"7\"",
        FileFault::BadField(Word::PrefixLength),
    ),
    (
        "serial_length = 10\n",
        "",
        FileFault::NoField(Word::SerialLength),
    ),
    (
        "serial_length = 10",
        "serial_length = 19",
        FileFault::BadField(Word::SerialLength),
    ),
    (
        "serial_length = 10",
        "serial_length = \"10\"",
        FileFault::BadField(Word::SerialLength),
    ),
    (
        "serial_length = 10",
        "serial_length = 10\nserial_alphabet = \"hex\"",
        FileFault::BadField(Word::SerialAlphabet),
    ),
    ("name = \"P1\"\n", "", FileFault::NoField(Word::Name)),
    ("name = \"P1\"", "name = 1", FileFault::BadField(Word::Name)),
    ("\"P1\"", "\"\"", FileFault::BadField(Word::Name)),
    (
        "\"P1\"",
        "\"P23456789012345678901\"",
        FileFault::BadField(Word::Name),
    ),
    ("role = \"planner\"\n", "", FileFault::NoField(Word::Role)),
    (
        "role = \"planner\"",
        "role = true",
        FileFault::BadField(Word::Role),
    ),
];

#[test]
fn each_field_of_a_site(rt: HostRuntime) {
    for (old, new, fault) in SITE_FIELDS {
        expect_fault(&rt, rt.alloc(), old, new, fault);
    }
}

#[test]
fn each_field_of_an_entry(rt: HostRuntime) {
    for (old, new, fault) in ENTRY_FIELDS {
        expect_fault(&rt, rt.alloc(), old, new, fault);
    }
}

/// The site's own fields, before its lists.
const HEAD: &str =
    "[site]\ngln = \"0614141000012\"\nprefix = \"0614141\"\nextension = 1\nreference = 1\noffset = \"+00:00\"\n";

/// The fault of the texts, one after the other.
fn fault_of(rt: &impl Abort, alloc: Global, texts: &[&str]) -> Option<FileFault> {
    let mut file = String::new(alloc);
    for text in texts {
        file.push_str(text).expect(rt, "memory is ample");
    }
    read_site(alloc, file.as_bytes()).err()
}

const PRODUCT: &str =
    "[[product]]\ngtin = \"00614141123452\"\nprefix_length = 7\nserial_length = 10\n";

const STATION: &str = "[[station]]\nname = \"P1\"\nrole = \"planner\"\n";

#[test]
fn lists_of_a_site(rt: HostRuntime) {
    let no = FileFault::NoField;
    let bad = FileFault::BadField;
    for (first, products, stations, fault) in [
        ("", PRODUCT, STATION, None),
        ("", "", STATION, Some(no(Word::Product))),
        ("", PRODUCT, "", Some(no(Word::Station))),
        ("", "", "", Some(no(Word::Product))),
        ("product = []\n", "", STATION, Some(no(Word::Product))),
        ("station = []\n", PRODUCT, "", Some(no(Word::Station))),
        ("product = 1\n", "", STATION, Some(bad(Word::Product))),
        ("product = [1]\n", "", STATION, Some(bad(Word::Product))),
        ("station = \"P1\"\n", PRODUCT, "", Some(bad(Word::Station))),
        (
            "station = [\"P1\"]\n",
            PRODUCT,
            "",
            Some(bad(Word::Station)),
        ),
        (
            "",
            "[product]\nprefix_length = 7\n",
            STATION,
            Some(bad(Word::Product)),
        ),
        (
            "",
            PRODUCT,
            "[station]\nname = \"P1\"\n",
            Some(bad(Word::Station)),
        ),
    ] {
        let found = fault_of(&rt, rt.alloc(), &[first, HEAD, products, stations]);
        assert!(rt; found == fault);
    }
}

/// So many entries, of which none has a field, behind the other list.
fn expect_many(
    rt: &impl Abort,
    alloc: Global,
    before: &str,
    entry: &str,
    count: usize,
    fault: FileFault,
) {
    let entries = entry.repeat(alloc, count).expect(rt, "memory is ample");
    assert!(rt; fault_of(rt, alloc, &[HEAD, before, entries.as_str()]) == Some(fault));
}

#[test]
fn the_longest_lists_of_a_site(rt: HostRuntime) {
    let no = FileFault::NoField;
    let many = FileFault::TooMany;
    for (before, entry, count, fault) in [
        ("", "[[product]]\n", 256, no(Word::Gtin)),
        ("", "[[product]]\n", 257, many(Word::Product)),
        (PRODUCT, "[[station]]\n", 64, no(Word::Name)),
        (PRODUCT, "[[station]]\n", 65, many(Word::Station)),
    ] {
        expect_many(&rt, rt.alloc(), before, entry, count, fault);
    }
}

#[test]
fn what_toml_passes_over(rt: HostRuntime) {
    let alloc = rt.alloc();
    for texts in [
        [HEAD, "# a note\n", PRODUCT, STATION],
        [HEAD, "country = \"de\"\n", PRODUCT, STATION],
        [STATION, HEAD, "\r\n", PRODUCT],
    ] {
        assert!(rt; fault_of(&rt, alloc, &texts).is_none());
    }
}
