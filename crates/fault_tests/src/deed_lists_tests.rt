//! Lists of deeds in JSON: the first bad entry with its place and inner fault, lists that are too long, and how JSON's
//! texts are read.
use deed_json::{AskFault, DeedFault, Member, read_body};
use deed_words::Deed;
use epc_urn::{Epc, UrnFault};
use gs1_element::ElementFault;
use std::alloc::Global;
use std::process::Abort;

/// A scan that reads as a code, as it stands in JSON.
const SCAN: &str = r#"01006141411234521727123110LOT7A\u001d211234567890"#;

/// The first fault of a scan that stands behind two good ones.
const SCANS: [(&str, ElementFault); 19] = [
    ("", ElementFault::Empty),
    ("]d2", ElementFault::Empty),
    ("0", ElementFault::ShortElement(0)),
    ("]C1010061414112345", ElementFault::ShortElement(3)),
    (r#"99\u001d"#, ElementFault::Missing(*b"01")),
    (r#"99\u001d\u001d"#, ElementFault::ShortElement(3)),
    ("0100614141123452", ElementFault::Missing(*b"10")),
    ("10LOT7A", ElementFault::Missing(*b"01")),
    (
        r#"010061414112345210LOT7A\u001d211234567890"#,
        ElementFault::Missing(*b"17"),
    ),
    (
        "01006141411234521727123110LOT7A",
        ElementFault::Missing(*b"21"),
    ),
    (r#"10A\u001d10A"#, ElementFault::Twice(*b"10")),
    (
        "01006141411234520100614141123453",
        ElementFault::Twice(*b"01"),
    ),
    ("0100614141123453", ElementFault::BadValue(*b"01", 15)),
    ("10LOT#", ElementFault::BadValue(*b"10", 5)),
    (r#"10\u001d"#, ElementFault::BadValue(*b"10", 2)),
    (
        "0100614141123452211234567890123456789017271231",
        ElementFault::BadValue(*b"21", 38),
    ),
    ("17271331", ElementFault::BadMonthOrDay(4)),
    ("17270229", ElementFault::BadMonthOrDay(6)),
    ("0A", ElementFault::BadIdentifier(0)),
];

/// The first fault of a URN that stands behind a good one.
const URNS: [(&str, UrnFault); 14] = [
    ("", UrnFault::UnknownScheme),
    ("urn:epc:id:sgln:0614141.00001.0", UrnFault::UnknownScheme),
    (
        "urn:epc:id:sgtin:06141.0012345.1",
        UrnFault::BadPrefixLength(5),
    ),
    (
        "urn:epc:id:sscc:0614141000000.0001",
        UrnFault::BadPrefixLength(13),
    ),
    ("urn:epc:id:sgtin:0614141", UrnFault::BadField(24)),
    ("urn:epc:id:sgtin:0614141.81234.1", UrnFault::BadField(30)),
    ("urn:epc:id:sgtin:0614141.812345.", UrnFault::BadField(32)),
    ("urn:epc:id:sscc:0614141.100000001", UrnFault::BadField(33)),
    (
        "urn:epc:id:sscc:0614141.10000000011",
        UrnFault::BadField(34),
    ),
    (
        "urn:epc:id:sgtin:0614141.812345.A%2fB",
        UrnFault::BadEscape(33),
    ),
    (
        "urn:epc:id:sgtin:0614141.812345.A%2",
        UrnFault::BadEscape(33),
    ),
    (
        "urn:epc:id:sgtin:0614141.812345.A%41B",
        UrnFault::EscapeNotNeeded(33),
    ),
    (
        "urn:epc:id:sgtin:0614141.812345.A/B",
        UrnFault::BadField(33),
    ),
    (
        "urn:epc:id:sgtin:0614141.812345.123456789012345678901",
        UrnFault::TooLong,
    ),
];

/// The pieces, one after the other.
fn joined(rt: &impl Abort, alloc: Global, pieces: &[&str]) -> String {
    let mut text = String::new(alloc);
    for piece in pieces {
        text.push_str(piece).expect(rt, "memory is ample");
    }
    text
}

/// The text has this fault.
fn expect_fault(rt: &impl Abort, alloc: Global, text: &str, fault: DeedFault) {
    let found = read_body(alloc, text.as_bytes()).err();
    assert!(rt; found == Some(AskFault::BadDeed(fault)), "{text}");
}

/// The scan stands third in a list, and a bad one behind it.
fn expect_bad_scan(rt: &impl Abort, alloc: Global, scan: &str, fault: ElementFault) {
    let head = "{\"do\":\"commission\",\"batch\":\"B6\",\"codes\":[\"";
    let pieces = [head, SCAN, "\",\"", SCAN, "\",\"", scan, "\",\"0A\"]}"];
    let text = joined(rt, alloc, &pieces);
    expect_fault(rt, alloc, text.as_str(), DeedFault::BadCode(2, fault));
}

#[test]
fn faults_of_scans(rt: HostRuntime) {
    for (scan, fault) in SCANS {
        expect_bad_scan(&rt, rt.alloc(), scan, fault);
    }
}

/// The URN stands second in the list of a deed, and a bad one behind it.
fn expect_bad_urn(rt: &impl Abort, alloc: Global, head: &str, urn: &str, fault: UrnFault) {
    let good = "[\"urn:epc:id:sgtin:0614141.812345.A%2FB%251\",\"";
    let text = joined(rt, alloc, &[head, good, urn, "\",\"urn\"]}"]);
    expect_fault(rt, alloc, text.as_str(), DeedFault::BadUrn(1, fault));
}

#[test]
fn faults_of_urns(rt: HostRuntime) {
    for (urn, fault) in URNS {
        for head in [
            "{\"do\":\"sample\",\"batch\":\"B6\",\"items\":",
            "{\"do\":\"pack\",\"unit\":\"urn:epc:id:sscc:0614141.1000000001\",\"children\":",
        ] {
            expect_bad_urn(&rt, rt.alloc(), head, urn, fault);
        }
    }
}

/// The head, so many times this entry, and the end of the list.
fn many(rt: &impl Abort, alloc: Global, head: &str, entry: &str, count: usize) -> String {
    let mut text = joined(rt, alloc, &[head, "[", entry]);
    for _ in 1..count {
        text.push(',').expect(rt, "memory is ample");
        text.push_str(entry).expect(rt, "memory is ample");
    }
    text.push_str("]}").expect(rt, "memory is ample");
    text
}

/// A list of 1,000 entries is read, and one of 1,001 isn't, be its entries good or bad.
fn expect_most(rt: &impl Abort, alloc: Global, head: &str, entry: &str) {
    let text = many(rt, alloc, head, entry, 1_000);
    assert!(rt; read_body(alloc, text.as_bytes()).is_ok());
    let text = many(rt, alloc, head, entry, 1_001);
    expect_fault(rt, alloc, text.as_str(), DeedFault::TooMany(1_001));
    let text = many(rt, alloc, head, "0", 1_002);
    expect_fault(rt, alloc, text.as_str(), DeedFault::TooMany(1_002));
}

#[test]
fn the_longest_lists(rt: HostRuntime) {
    for (head, entry) in [
        (
            "{\"do\":\"commission\",\"batch\":\"B6\",\"codes\":",
            r#""01006141411234521727123110LOT7A\u001d211234567890""#,
        ),
        (
            "{\"do\":\"spoil\",\"batch\":\"B6\",\"serials\":",
            r#""000005""#,
        ),
        (
            "{\"do\":\"destroy\",\"batch\":\"B6\",\"items\":",
            r#""urn:epc:id:sgtin:0614141.812345.000005""#,
        ),
        (
            "{\"do\":\"unpack\",\"unit\":\"urn:epc:id:sscc:0614141.1000000001\",\"children\":",
            r#""urn:epc:id:sscc:0614141.1000000002""#,
        ),
    ] {
        expect_most(&rt, rt.alloc(), head, entry);
    }
}

/// A deed with an order file of so many equal rows.
fn order_file(rt: &impl Abort, alloc: Global, count: usize) -> String {
    let mut text = joined(
        rt,
        alloc,
        &[r#"{"do":"orders","csv":"batch,gtin,lot,expiry,quantity,case,pallet\n"#],
    );
    for _ in 0..count {
        text.push_str(r#"B6,614141123452,L6,2027-12,2,2,0\n"#)
            .expect(rt, "memory is ample");
    }
    text.push_str("\"}").expect(rt, "memory is ample");
    text
}

fn read_order_files(rt: &impl Abort, alloc: Global) {
    let most = order_file(rt, alloc, 1_000);
    assert!(rt; read_body(alloc, most.as_bytes()).is_ok());
    let more = order_file(rt, alloc, 1_001);
    expect_fault(rt, alloc, more.as_str(), DeedFault::TooMany(1_001));
    let none = order_file(rt, alloc, 0);
    assert!(rt; read_body(alloc, none.as_bytes()).is_ok());
}

#[test]
fn order_files_in_deeds(rt: HostRuntime) {
    read_order_files(&rt, rt.alloc());
    for (csv, line, column) in [
        ("", 1, 0),
        (r#"batch,gtin,lot,expiry,quantity,case\n"#, 1, 0),
        (
            r#"batch,gtin,lot,expiry,quantity,case,pallet\nB6,614141123452,L6,2027-12,2,2\n"#,
            2,
            0,
        ),
        (
            r#"batch,gtin,lot,expiry,quantity,case,pallet\nB6,614141123452,L6,2027-12,2,2,0\nB7,614141123452,L6,2027-13,2,2,0"#,
            3,
            4,
        ),
    ] {
        let text = joined(
            &rt,
            rt.alloc(),
            &["{\"do\":\"orders\",\"csv\":\"", csv, "\"}"],
        );
        expect_fault(
            &rt,
            rt.alloc(),
            text.as_str(),
            DeedFault::BadRow(line, column),
        );
    }
}

/// The scan of the one code of the text.
fn scanned(rt: &impl Abort, alloc: Global, text: &str) -> Deed {
    read_body(alloc, text.as_bytes())
        .expect(rt, "it is a deed")
        .deed
}

/// Whether the deed is the commission of a code with this serial.
fn commissions(deed: &Deed, serial: &[u8]) -> bool {
    match deed {
        Deed::Commission(_, codes) => codes
            .as_slice()
            .iter()
            .any(|code| code.serial.bytes() == serial),
        _ => false,
    }
}

/// Whether the deed is the sampling of an item with this serial.
fn samples(deed: &Deed, serial: &[u8]) -> bool {
    match deed {
        Deed::Sample(_, items) => items.as_slice().iter().any(|item| has_serial(item, serial)),
        _ => false,
    }
}

fn has_serial(item: &Epc, serial: &[u8]) -> bool {
    match item {
        Epc::Item(_, text) => text.bytes() == serial,
        Epc::Unit(_) => false,
    }
}

#[test]
fn texts_are_read(rt: HostRuntime) {
    let alloc = rt.alloc();
    // the last of two members of one name counts
    let twice =
        r#"{"codes":[1],"batch":"","do":"close","do":"commission","batch":"B6","codes":["]d201006141411234521727123110L6\u001d7101234567\u001D21A\"1"]}"#;
    assert!(rt; commissions(&scanned(&rt, alloc, twice), b"A\"1"));
    let escaped =
        r#"{"do":"sample","batch":"\u0042\u0036","items":["urn:epc:id:sgtin:0614141.812345.A%2FB%251"]}"#;
    assert!(rt; samples(&scanned(&rt, alloc, escaped), b"A/B%1"));
    let pair = r#"{"do":"close","batch":"B6","operator":"\ud83d\ude00"}"#;
    expect_fault(&rt, alloc, pair, DeedFault::BadMember(Member::Operator));
}

/// The text is no JSON object.
fn expect_bad_line(rt: &impl Abort, alloc: Global, text: &str) {
    let found = read_body(alloc, text.as_bytes()).err();
    assert!(rt; found == Some(AskFault::BadLine), "{text}");
}

/// A deed with a member of so many lists, one in the other.
fn nested(rt: &impl Abort, alloc: Global, depth: usize) -> String {
    let open = "[".repeat(alloc, depth).expect(rt, "memory is ample");
    let close = "]".repeat(alloc, depth).expect(rt, "memory is ample");
    let pieces = [
        "{\"do\":\"close\",\"batch\":\"B6\",\"note\":",
        open.as_str(),
        close.as_str(),
        "}",
    ];
    joined(rt, alloc, &pieces)
}

#[test]
fn what_is_no_object(rt: HostRuntime) {
    let alloc = rt.alloc();
    for text in [
        "",
        " ",
        "{",
        "null",
        "[]",
        "\"do\"",
        "{\"do\":\"close\",\"batch\":\"B6\"",
        "{\"do\":\"close\",\"batch\":\"B6\"}}",
        "{\"do\":\"close\",\"batch\":\"B6\",}",
        r#"{"do":"close","batch":"B6","operator":"\ud83d"}"#,
        r#"{"do":"close","batch":"B6","operator":"\x41"}"#,
        "{\"do\":\"close\",\"batch\":\"B6\",\"operator\":\"\u{1d}\"}",
    ] {
        expect_bad_line(&rt, alloc, text);
    }
    let deepest = nested(&rt, alloc, 126);
    assert!(rt; read_body(alloc, deepest.as_bytes()).is_ok());
    expect_bad_line(&rt, alloc, nested(&rt, alloc, 127).as_str());
}
