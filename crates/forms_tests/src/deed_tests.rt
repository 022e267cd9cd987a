//! Deeds in JSON and in bytes, both by one row a deed, and the faults of their members.
use crate::entry_bytes_tests::{HEAD, entry_with, expect_again, expect_printed, joined};
use deed_json::{DeedFault, Member, read_deed};
use deed_words::Said;
use epc_urn::UrnFault;
use gs1_element::ElementFault;
use serde_json::Value;
use std::alloc::Global;
use std::process::Abort;

/// What a text says.
fn said(rt: &impl Abort, alloc: Global, text: &str) -> Result<Said, DeedFault> {
    let value = Value::from_str(alloc, text).expect(rt, "it is JSON");
    read_deed(alloc, &value)
}

/// Reads a deed in JSON, prints its entry, and reads and prints that again: its bytes from the operator on are these.
fn expect_deed(rt: &impl Abort, alloc: Global, text: &str, bytes: &str) {
    let Said { deed, operator } = said(rt, alloc, text).expect(rt, "it is a deed");
    let entry = entry_with(alloc, 1, operator, deed);
    let group = joined(rt, alloc, HEAD, bytes.as_bytes());
    expect_printed(rt, alloc, &entry, group.get(1..).unwrap_or(&[]));
    expect_again(rt, alloc, group.as_slice(), group.as_slice());
}

/// Orders, in JSON and in bytes.
const ORDERS: [(&str, &str); 4] = [
    (
        r#"{"do":"order","batch":"B6","gtin":"80614141123458","lot":"LOT6","expiry":"2027-12-31","quantity":2,"case":2,"pallet":0}"#,
        "\0\x01\x02B680614141123458\x04LOT6271231\0\0\0\x02\0\x02\0\0\0\0",
    ),
    // a GTIN of 12 digits, and an expiry with no day
    (
        r#"{"do":"order","batch":"B6","gtin":"614141123452","lot":"L6","expiry":"2027-12","quantity":40,"case":10,"pallet":0}"#,
        "\0\x01\x02B600614141123452\x02L6271200\0\0\0\x28\0\x0a\0\0\0\0",
    ),
    (
        r#"{"do":"orders","csv":"batch,gtin,lot,expiry,quantity,case,pallet\nB6,80614141123458,LOT6,2027-12-31,2,2,0\n"}"#,
        "\0\x02\0\x01\x02B680614141123458\x04LOT6271231\0\0\0\x02\0\x02\0\0\0\0",
    ),
    (
        r#"{"do":"orders","csv":"batch,gtin,lot,expiry,quantity,case,pallet\nB6,00614141123452,L6,2027-12-31,40,10,4\n"}"#,
        "\0\x02\0\x01\x02B600614141123452\x02L6271231\0\0\0\x28\0\x0a\0\x04\0\0",
    ),
];

/// Deeds with numbers. The last one of two members with one name counts.
const NUMBERS: [(&str, &str); 8] = [
    (r#"{"do":"start","batch":"B6"}"#, "\0\x03\x02B6\0\0"),
    (
        r#"{"do":"draw","batch":"B6","count":4294967295,"count":2}"#,
        "\0\x04\x02B6\0\0\0\x02\0\0",
    ),
    (
        r#"{"do":"lend","batch":"B6","count":258}"#,
        "\0\x05\x02B6\0\0\x01\x02\0\0",
    ),
    (
        r#"{"do":"declare","batch":"B6","good":1,"spoiled":2,"returned":3}"#,
        "\0\x15\x02B6\0\0\0\x01\0\0\0\x02\0\0\0\x03\0\0",
    ),
    (
        r#"{"do":"declare","batch":"B6","good":21,"spoiled":1,"returned":0}"#,
        "\0\x15\x02B6\0\0\0\x15\0\0\0\x01\0\0\0\0\0\0",
    ),
    (r#"{"do":"close","batch":"B6"}"#, "\0\x16\x02B6\0\0"),
    (
        r#"{"do":"amend","batch":"B6","quantity":3}"#,
        "\0\x17\x02B6\0\0\0\x03\0\0",
    ),
    // an operator
    (
        r#"{"do":"close","batch":"B6","operator":"ann"}"#,
        "\x03ann\x16\x02B6\0\0",
    ),
];

/// Deeds with scans, serials, items and children.
const LISTS: [(&str, &str); 13] = [
    (
        r#"{"do":"commission","batch":"B6","codes":["]d201806141411234581727120010LOT6\u001d21000005"]}"#,
        "\0\x06\x02B6\0\x0180614141123458\x06000005\x04LOT6271200\0\0",
    ),
    (
        r#"{"do":"commission","batch":"B6","codes":["]d201006141411234521727123110L6\u001d21000005"]}"#,
        "\0\x06\x02B6\0\x0100614141123452\x06000005\x02L6271231\0\0",
    ),
    (
        r#"{"do":"spoil","batch":"B6","serials":["7"]}"#,
        "\0\x07\x02B6\0\x01\x017\0\0",
    ),
    (
        r#"{"do":"spoil","batch":"B6","serials":["000005","A\"1"]}"#,
        "\0\x07\x02B6\0\x02\x06000005\x03A\"1\0\0",
    ),
    (
        r#"{"do":"giveback","batch":"B6","serials":["7"]}"#,
        "\0\x08\x02B6\0\x01\x017\0\0",
    ),
    (
        r#"{"do":"sample","batch":"B6","items":["urn:epc:id:sgtin:0614141.812345.7"]}"#,
        "\0\x09\x02B6\0\x01\x0180614141123458\x017\0\0",
    ),
    (
        r#"{"do":"reject","batch":"B6","items":["urn:epc:id:sscc:0614141.1000000001"]}"#,
        "\0\x0a\x02B6\0\x01\x02106141410000000019\0\0",
    ),
    (
        r#"{"do":"reinstate","batch":"B6","items":[]}"#,
        "\0\x0b\x02B6\0\0\0\0",
    ),
    (
        r#"{"do":"destroy","batch":"B6","items":[]}"#,
        "\0\x0c\x02B6\0\0\0\0",
    ),
    (
        r#"{"do":"decommission","batch":"B6","items":[]}"#,
        "\0\x0d\x02B6\0\0\0\0",
    ),
    (
        r#"{"do":"pack","unit":"urn:epc:id:sscc:0614141.1000000001","children":["urn:epc:id:sgtin:0614141.812345.7"]}"#,
        "\0\x0f106141410000000019\0\x01\x0180614141123458\x017\0\0",
    ),
    (
        r#"{"do":"pack","unit":"urn:epc:id:sscc:0614141.1000000001","children":["urn:epc:id:sgtin:0614141.012345.000005"]}"#,
        "\0\x0f106141410000000019\0\x01\x0100614141123452\x06000005\0\0",
    ),
    (
        r#"{"do":"unpack","unit":"urn:epc:id:sscc:0614141.1000000001","children":["urn:epc:id:sscc:0614141.1000000001"]}"#,
        "\0\x10106141410000000019\0\x01\x02106141410000000019\0\0",
    ),
];

/// New containers, and deeds of a container alone.
const CONTAINERS: [(&str, &str); 6] = [
    (
        r#"{"do":"container","batch":"B6","level":"case"}"#,
        "\0\x0e\x02B6\x01\0\0",
    ),
    (
        r#"{"do":"container","batch":"B6","level":"pallet"}"#,
        "\0\x0e\x02B6\x02\0\0",
    ),
    (
        r#"{"do":"unpack_all","unit":"urn:epc:id:sscc:0614141.1000000001"}"#,
        "\0\x11106141410000000019\0\0",
    ),
    (
        r#"{"do":"seal","unit":"urn:epc:id:sscc:0614141.1000000001"}"#,
        "\0\x12106141410000000019\0\0",
    ),
    (
        r#"{"do":"unseal","unit":"urn:epc:id:sscc:0614141.1000000001"}"#,
        "\0\x13106141410000000019\0\0",
    ),
    (
        r#"{"do":"void","unit":"urn:epc:id:sscc:0614141.1000000001"}"#,
        "\0\x14106141410000000019\0\0",
    ),
];

#[test]
fn orders(rt: HostRuntime) {
    for (text, bytes) in ORDERS {
        expect_deed(&rt, rt.alloc(), text, bytes);
    }
}

#[test]
fn numbers(rt: HostRuntime) {
    for (text, bytes) in NUMBERS {
        expect_deed(&rt, rt.alloc(), text, bytes);
    }
}

#[test]
fn lists(rt: HostRuntime) {
    for (text, bytes) in LISTS {
        expect_deed(&rt, rt.alloc(), text, bytes);
    }
}

#[test]
fn containers(rt: HostRuntime) {
    for (text, bytes) in CONTAINERS {
        expect_deed(&rt, rt.alloc(), text, bytes);
    }
}

/// Compares the first fault of a text.
fn expect_fault(rt: &impl Abort, alloc: Global, text: &str, fault: DeedFault) {
    assert!(rt; said(rt, alloc, text).err() == Some(fault));
}

#[test]
fn faults(rt: HostRuntime) {
    let rows = [
        ("[]", DeedFault::NotObject),
        ("{}", DeedFault::NoMember(Member::Do)),
        ("{\"do\":\"dance\"}", DeedFault::BadMember(Member::Do)),
        (
            "{\"do\":\"start\",\"operator\":1}",
            DeedFault::NoMember(Member::Batch),
        ),
        (
            "{\"do\":\"start\",\"batch\":\"B6\",\"operator\":\"\"}",
            DeedFault::BadMember(Member::Operator),
        ),
        (
            "{\"do\":\"lend\",\"batch\":\"B6\",\"count\":4294967296}",
            DeedFault::BadMember(Member::Count),
        ),
        (
            "{\"do\":\"lend\",\"batch\":\"B6\",\"count\":1.0}",
            DeedFault::BadMember(Member::Count),
        ),
        (
            "{\"do\":\"container\",\"batch\":\"B6\",\"level\":\"box\"}",
            DeedFault::BadMember(Member::Level),
        ),
        (
            "{\"do\":\"seal\",\"unit\":\"urn:epc:id:sgtin:0614141.012345.000005\"}",
            DeedFault::BadMember(Member::Unit),
        ),
        (
            "{\"do\":\"amend\",\"batch\":\"B6\",\"quantity\":0}",
            DeedFault::BadMember(Member::Quantity),
        ),
        (
            "{\"do\":\"commission\",\"batch\":\"B6\",\"codes\":[\"]d2\"]}",
            DeedFault::BadCode(0, ElementFault::Empty),
        ),
        (
            "{\"do\":\"commission\",\"batch\":\"B6\",\"codes\":[1]}",
            DeedFault::BadMember(Member::Codes),
        ),
        (
            "{\"do\":\"sample\",\"batch\":\"B6\",\"items\":[\"urn:epc:id:sgtin:0614141.012345.000005\",\"urn\"]}",
            DeedFault::BadUrn(1, UrnFault::UnknownScheme),
        ),
        (
            "{\"do\":\"giveback\",\"batch\":\"B6\",\"serials\":[\"\"]}",
            DeedFault::BadMember(Member::Serials),
        ),
        (
            "{\"do\":\"orders\",\"csv\":\"batch,gtin,lot,expiry,quantity,case,pallet\\nB6,1\"}",
            DeedFault::BadRow(2, 0),
        ),
    ];
    for (text, fault) in rows {
        expect_fault(&rt, rt.alloc(), text, fault);
    }
}

/// A deed with so many texts that are no serials.
fn many(rt: &impl Abort, alloc: Global, count: usize) -> String {
    let mut text = String::from_str(
        alloc,
        "{\"do\":\"spoil\",\"batch\":\"B6\",\"serials\":[0",
    ).expect(rt, "memory is ample");
    for _ in 1..count {
        text.push_str(",0").expect(rt, "memory is ample");
    }
    text.push_str("]}").expect(rt, "memory is ample");
    text
}

#[test]
fn long_lists(rt: HostRuntime) {
    let alloc = rt.alloc();
    expect_fault(
        &rt,
        alloc,
        many(&rt, alloc, 1_000).as_str(),
        DeedFault::BadMember(Member::Serials),
    );
    expect_fault(
        &rt,
        alloc,
        many(&rt, alloc, 1_001).as_str(),
        DeedFault::TooMany(1_001),
    );
}
