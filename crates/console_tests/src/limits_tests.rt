//! The limits of a site: the last code of a container, and 4,096 batches; and serials of letters and digits.
use crate::program::{E1, expect_left, made, run};
use crate::talk::{OK, Row, Talk, expect_talk};
use std::alloc::Global;
use std::process::Abort;

/// A started batch of the second product, whose serials have six places.
const SECOND_PRODUCT: [Row; 2] = [
    (
        "P1",
        r#"{"do":"order","batch":"B6","gtin":"80614141123458","lot":"LOT6","expiry":"2027-12-31","quantity":2,"case":2,"pallet":0}"#,
        r#"{"already":0,"new":1,"ok":true}"#,
    ),
    ("P1", r#"{"do":"start","batch":"B6"}"#, OK),
];

/// The last code of a container, and none after it.
const LAST_CODE: [Row; 2] = [
    (
        "L1",
        r#"{"do":"container","batch":"B6","level":"case"}"#,
        r#"{"ok":true,"unit":"urn:epc:id:sscc:0614141.1999999999"}"#,
    ),
    (
        "L1",
        r#"{"do":"container","batch":"B6","level":"case"}"#,
        r#"{"ok":false,"rule":"SsccSpent"}"#,
    ),
];

/// Serials of letters and digits, by the last word and one that stands for 33.
const LETTERS: [Row; 1] = [(
    "P1",
    r#"{"do":"draw","batch":"B6","count":2}"#,
    r#"{"ok":true,"serials":["ZZZZZZ","000011"]}"#,
)];

/// The example site with another text in its file in place of this one.
fn changed_site(rt: &impl Abort, alloc: Global, old: &str, new: &str) -> String {
    E1.replace(alloc, old, new).expect(rt, "memory is ample")
}

#[test]
fn codes_are_spent_and_serials_have_letters(rt: HostRuntime) {
    let alloc = rt.alloc();
    let last = changed_site(&rt, alloc, "reference = 1", "reference = 999999999");
    expect_talk(
        &rt,
        alloc,
        last.as_str(),
        &[],
        &[&SECOND_PRODUCT, &LAST_CODE],
    );
    let letters = changed_site(
        &rt,
        alloc,
        "serial_length = 6",
        "serial_length = 6\nserial_alphabet = \"base32\"",
    );
    let words = [18_446_744_073_709_551_615, 1_073_741_857];
    expect_talk(
        &rt,
        alloc,
        letters.as_str(),
        &words,
        &[&SECOND_PRODUCT, &LETTERS],
    );
}

/// Orders the batches of these numbers, which are new.
fn order_many(rt: &impl Abort, alloc: Global, talk: &mut Talk, first: u32, last: u32) {
    let mut deed = String::from_str(
        alloc,
        r#"{"do":"orders","csv":"batch,gtin,lot,expiry,quantity,case,pallet\n"#,
    )
    .expect(rt, "memory is ample");
    for number in first..=last {
        let row = format!(in alloc; "B{number},00614141123452,LA,2027-12-31,1,1,0\\n").expect(
            rt,
            "memory is ample",
        );
        deed.push_str(row.as_str()).expect(rt, "memory is ample");
    }
    deed.push_str("\"}").expect(rt, "memory is ample");
    let count = last.saturating_sub(first).saturating_add(1);
    let new = format!(in alloc; "{{\"already\":0,\"new\":{count},\"ok\":true}}").expect(
        rt,
        "memory is ample",
    );
    talk.go_on(rt, alloc, &[("P1", deed.as_str(), new.as_str())]);
}

/// Where as many batches stand as a site may have, none is added, and one that is there is found.
const ONE_BATCH_MORE: [Row; 2] = [
    (
        "P1",
        r#"{"do":"order","batch":"B9999","gtin":"00614141123452","lot":"LA","expiry":"2027-12-31","quantity":1,"case":1,"pallet":0}"#,
        r#"{"have":4096,"ok":false,"rule":"SiteFull","what":"batches"}"#,
    ),
    (
        "P1",
        r#"{"do":"order","batch":"B4096","gtin":"00614141123452","lot":"LA","expiry":"2027-12-31","quantity":1,"case":1,"pallet":0}"#,
        r#"{"already":1,"new":0,"ok":true}"#,
    ),
];

#[test]
fn a_site_is_full(rt: HostRuntime) {
    let alloc = rt.alloc();
    let mut talk = Talk::new(alloc);
    for (first, last) in [
        (1, 1_000),
        (1_001, 2_000),
        (2_001, 3_000),
        (3_001, 4_000),
        (4_001, 4_096),
    ] {
        order_many(&rt, alloc, &mut talk, first, last);
    }
    talk.go_on(&rt, alloc, &ONE_BATCH_MORE);
    let left = run(&rt, alloc, &made(&rt, alloc), talk.lines.as_bytes(), &[]);
    expect_left(&rt, &left, 0, talk.answers.as_bytes());
}
