//! Declarations and closes: each finding in its order, and that nothing is done to a closed batch.
use crate::program::E1;
use crate::talk::{CLOSED, NOT_STARTED, OK, ROLE, Row, UNKNOWN_BATCH, expect_talk};

/// A batch of one serial, which is lent, given back and declared wrongly before it is closed; then nothing is done to it.
const CLOSING: [Row; 29] = [
    (
        "P1",
        r#"{"do":"order","batch":"B3","gtin":"00614141123452","lot":"LA","expiry":"2027-12-31","quantity":1,"case":1,"pallet":0}"#,
        r#"{"already":0,"new":1,"ok":true}"#,
    ),
    (
        "L1",
        r#"{"do":"declare","batch":"B3","good":0,"spoiled":0,"returned":0}"#,
        NOT_STARTED,
    ),
    ("P1", r#"{"do":"close","batch":"B3"}"#, NOT_STARTED),
    ("P1", r#"{"do":"start","batch":"B3"}"#, OK),
    (
        "P1",
        r#"{"do":"draw","batch":"B3","count":1}"#,
        r#"{"ok":true,"serials":["0000000001"]}"#,
    ),
    (
        "L1",
        r#"{"do":"lend","batch":"B3","count":1}"#,
        r#"{"ok":true,"serials":["0000000001"]}"#,
    ),
    ("L1", r#"{"do":"close","batch":"B3"}"#, ROLE),
    (
        "P1",
        r#"{"do":"declare","batch":"B3","good":0,"spoiled":0,"returned":1}"#,
        ROLE,
    ),
    (
        "P1",
        r#"{"do":"close","batch":"B3"}"#,
        r#"{"finding":"StillLent","ok":false,"rule":"NotAccounted","serial":"0000000001"}"#,
    ),
    (
        "L1",
        r#"{"do":"giveback","batch":"B3","serials":["0000000001"]}"#,
        OK,
    ),
    (
        "P1",
        r#"{"do":"close","batch":"B3"}"#,
        r#"{"finding":"NotDeclared","line":"L1","ok":false,"rule":"NotAccounted"}"#,
    ),
    (
        "L1",
        r#"{"do":"declare","batch":"B3","good":0,"spoiled":0,"returned":0}"#,
        OK,
    ),
    (
        "P1",
        r#"{"do":"close","batch":"B3"}"#,
        r#"{"counted":[0,0,1],"declared":[0,0,0],"finding":"DeclaredDiffers","line":"L1","ok":false,"rule":"NotAccounted"}"#,
    ),
    (
        "L1",
        r#"{"do":"declare","batch":"B3","good":0,"spoiled":0,"returned":1}"#,
        OK,
    ),
    (
        "L1",
        r#"{"do":"container","batch":"B3","level":"case"}"#,
        r#"{"ok":true,"unit":"urn:epc:id:sscc:0614141.1000000001"}"#,
    ),
    (
        "L1",
        r#"{"do":"void","unit":"urn:epc:id:sscc:0614141.1000000001"}"#,
        OK,
    ),
    ("P1", r#"{"do":"close","batch":"B3"}"#, OK),
    ("P1", r#"{"do":"close","batch":"B3"}"#, CLOSED),
    ("P1", r#"{"do":"start","batch":"B3"}"#, CLOSED),
    ("P1", r#"{"do":"draw","batch":"B3","count":1}"#, CLOSED),
    ("P1", r#"{"do":"amend","batch":"B3","quantity":2}"#, CLOSED),
    ("L1", r#"{"do":"lend","batch":"B3","count":1}"#, CLOSED),
    (
        "L1",
        r#"{"do":"spoil","batch":"B3","serials":["0000000001"]}"#,
        CLOSED,
    ),
    (
        "Q1",
        r#"{"do":"destroy","batch":"B3","items":["urn:epc:id:sgtin:0614141.012345.0000000001"]}"#,
        CLOSED,
    ),
    (
        "L1",
        r#"{"do":"declare","batch":"B3","good":0,"spoiled":0,"returned":1}"#,
        CLOSED,
    ),
    (
        "L1",
        r#"{"do":"container","batch":"B3","level":"case"}"#,
        CLOSED,
    ),
    (
        "L1",
        r#"{"do":"seal","unit":"urn:epc:id:sscc:0614141.1000000001"}"#,
        CLOSED,
    ),
    (
        "P1",
        r#"{"do":"order","batch":"B3","gtin":"00614141123452","lot":"LA","expiry":"2027-12-31","quantity":1,"case":1,"pallet":0}"#,
        r#"{"already":1,"new":0,"ok":true}"#,
    ),
    ("P1", r#"{"do":"close","batch":"B9"}"#, UNKNOWN_BATCH),
];

/// A batch of two items, one of which is destroyed: each finding of a close, in their order.
const FINDINGS: [Row; 26] = [
    (
        "P1",
        r#"{"do":"order","batch":"B4","gtin":"00614141123452","lot":"LA","expiry":"2027-12-31","quantity":2,"case":2,"pallet":2}"#,
        r#"{"already":0,"new":1,"ok":true}"#,
    ),
    ("P1", r#"{"do":"start","batch":"B4"}"#, OK),
    (
        "P1",
        r#"{"do":"draw","batch":"B4","count":2}"#,
        r#"{"ok":true,"serials":["<1-2>"]}"#,
    ),
    (
        "L1",
        r#"{"do":"lend","batch":"B4","count":2}"#,
        r#"{"ok":true,"serials":["<1-2>"]}"#,
    ),
    (
        "L1",
        r#"{"do":"commission","batch":"B4","codes":["01006141411234521727123110LA\u001d210000000001"]}"#,
        OK,
    ),
    (
        "P1",
        r#"{"do":"close","batch":"B4"}"#,
        r#"{"finding":"StillLent","ok":false,"rule":"NotAccounted","serial":"0000000002"}"#,
    ),
    (
        "L1",
        r#"{"do":"commission","batch":"B4","codes":["01006141411234521727123110LA\u001d210000000002"]}"#,
        OK,
    ),
    (
        "L1",
        r#"{"do":"reject","batch":"B4","items":["urn:epc:id:sgtin:0614141.012345.0000000001"]}"#,
        OK,
    ),
    (
        "P1",
        r#"{"do":"close","batch":"B4"}"#,
        r#"{"finding":"StillRejected","ok":false,"rule":"NotAccounted","serial":"0000000001"}"#,
    ),
    (
        "Q1",
        r#"{"do":"destroy","batch":"B4","items":["urn:epc:id:sgtin:0614141.012345.0000000001"]}"#,
        OK,
    ),
    (
        "L1",
        r#"{"do":"container","batch":"B4","level":"case"}"#,
        r#"{"ok":true,"unit":"urn:epc:id:sscc:0614141.1000000001"}"#,
    ),
    (
        "P1",
        r#"{"do":"close","batch":"B4"}"#,
        r#"{"finding":"Unpacked","ok":false,"rule":"NotAccounted","serial":"0000000002"}"#,
    ),
    (
        "L1",
        r#"{"do":"pack","unit":"urn:epc:id:sscc:0614141.1000000001","children":["urn:epc:id:sgtin:0614141.012345.0000000002"]}"#,
        OK,
    ),
    (
        "P1",
        r#"{"do":"close","batch":"B4"}"#,
        r#"{"finding":"UnitOpen","ok":false,"rule":"NotAccounted","sscc":"106141410000000019"}"#,
    ),
    (
        "L1",
        r#"{"do":"seal","unit":"urn:epc:id:sscc:0614141.1000000001"}"#,
        OK,
    ),
    (
        "P1",
        r#"{"do":"close","batch":"B4"}"#,
        r#"{"finding":"UnitLoose","ok":false,"rule":"NotAccounted","sscc":"106141410000000019"}"#,
    ),
    (
        "L1",
        r#"{"do":"container","batch":"B4","level":"pallet"}"#,
        r#"{"ok":true,"unit":"urn:epc:id:sscc:0614141.1000000002"}"#,
    ),
    (
        "P1",
        r#"{"do":"close","batch":"B4"}"#,
        r#"{"finding":"UnitOpen","ok":false,"rule":"NotAccounted","sscc":"106141410000000026"}"#,
    ),
    (
        "L1",
        r#"{"do":"pack","unit":"urn:epc:id:sscc:0614141.1000000002","children":["urn:epc:id:sscc:0614141.1000000001"]}"#,
        OK,
    ),
    (
        "L1",
        r#"{"do":"seal","unit":"urn:epc:id:sscc:0614141.1000000002"}"#,
        OK,
    ),
    (
        "P1",
        r#"{"do":"close","batch":"B4"}"#,
        r#"{"finding":"NotDeclared","line":"L1","ok":false,"rule":"NotAccounted"}"#,
    ),
    (
        "L1",
        r#"{"do":"declare","batch":"B4","good":1,"spoiled":0,"returned":0}"#,
        OK,
    ),
    (
        "P1",
        r#"{"do":"close","batch":"B4"}"#,
        r#"{"counted":[2,0,0],"declared":[1,0,0],"finding":"DeclaredDiffers","line":"L1","ok":false,"rule":"NotAccounted"}"#,
    ),
    (
        "L1",
        r#"{"do":"declare","batch":"B4","good":2,"spoiled":0,"returned":0}"#,
        OK,
    ),
    ("P1", r#"{"do":"close","batch":"B4"}"#, OK),
    (
        "L1",
        r#"{"do":"unpack_all","unit":"urn:epc:id:sscc:0614141.1000000002"}"#,
        CLOSED,
    ),
];

#[test]
fn declarations_and_closes(rt: HostRuntime) {
    expect_talk(&rt, rt.alloc(), E1, &[1, 2], &[&CLOSING]);
    expect_talk(&rt, rt.alloc(), E1, &[1, 2], &[&FINDINGS]);
}
