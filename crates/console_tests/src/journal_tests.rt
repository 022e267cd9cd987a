//! Journals as bytes: what is written, what is loaded of them whole, cut, damaged and from before, and what a stop leaves.
use crate::program::{
    Failing, NOTHING, WORDS, calls_of_a_load, expect_left, joined, made, run, run_failing,
};
use crate::talk::{OK, Row, Talk};
use std::alloc::Global;
use std::process::Abort;

/// The journal of the example site in version 1, of an order and of a draw of two serials: 212 bytes. The gates stand at
/// 0, 100, 163 and 211.
const OLD_SITE: &[u8] =
    b"\x01PACKSITE\0\0\0\x570614141000012\x070614141\x01\0\0\0\0\0\0\0\x01+00:00\0\x0200614141123452\x07\x0a80614141123458\x07\x06\x04\x02P1\x01\x02L1\x02\x02L2\x02\x02Q1\x03";

const OLD_ORDER: &[u8] =
    b"\x01\0\0\0\x3a\x01\0\0\0\0\0\0\0\0\x01\0\0\0\x01\x9b\x76\xda\xa8\0\x01\x02B680614141123458\x04LOT6271231\0\0\0\x02\0\x02\0\0\0\0";

const OLD_DRAW: &[u8] =
    b"\x01\0\0\0\x2b\x01\0\0\0\0\0\0\0\0\x02\0\0\0\x01\x9b\x76\xda\xa8\0\x04\x02B6\0\0\0\x02\0\x02\x06000005\x06000007";

/// The same in version 2: 217 bytes, with the gates at 0, 103, 167 and 216.
pub(crate) const SITE: &[u8] =
    b"\x01PACKSITE\0\0\0\x5a\x020614141000012\x070614141\x01\0\0\0\0\0\0\0\x01+00:00\0\x0200614141123452\x07\x0a\x0180614141123458\x07\x06\x01\x04\x02P1\x01\x02L1\x02\x02L2\x02\x02Q1\x03";

pub(crate) const ORDER: &[u8] =
    b"\x01\0\0\0\x3b\x81\0\0\0\0\0\0\0\0\x01\0\0\0\x01\x9b\x76\xda\xa8\0\0\x01\x02B680614141123458\x04LOT6271231\0\0\0\x02\0\x02\0\0\0\0";

pub(crate) const DRAW: &[u8] =
    b"\x01\0\0\0\x2c\x81\0\0\0\0\0\0\0\0\x02\0\0\0\x01\x9b\x76\xda\xa8\0\0\x04\x02B6\0\0\0\x02\0\x02\x06000005\x06000007";

/// A gate that is closed.
pub(crate) const END: &[u8] = b"\0";

/// The journal of version 1.
fn old_journal(rt: &impl Abort, alloc: Global) -> Vec<u8> {
    joined(rt, alloc, &[OLD_SITE, OLD_ORDER, OLD_DRAW, END])
}

/// A batch of two items from its order to its close: the first line lends both serials, commissions, packs and seals.
const BATCH: [Row; 10] = [
    (
        "P1",
        r#"{"do":"order","batch":"B6","gtin":"80614141123458","lot":"LOT6","expiry":"2027-12-31","quantity":2,"case":2,"pallet":0}"#,
        r#"{"already":0,"new":1,"ok":true}"#,
    ),
    (
        "P1",
        r#"{"do":"draw","batch":"B6","count":2}"#,
        r#"{"ok":true,"serials":["000005","000007"]}"#,
    ),
    ("P1", r#"{"do":"start","batch":"B6"}"#, OK),
    (
        "L1",
        r#"{"do":"lend","batch":"B6","count":2}"#,
        r#"{"ok":true,"serials":["000005","000007"]}"#,
    ),
    (
        "L1",
        r#"{"do":"commission","batch":"B6","codes":["01806141411234581727123110LOT6\u001d21000005","01806141411234581727123110LOT6\u001d21000007"]}"#,
        OK,
    ),
    (
        "L1",
        r#"{"do":"container","batch":"B6","level":"case"}"#,
        r#"{"ok":true,"unit":"urn:epc:id:sscc:0614141.1000000001"}"#,
    ),
    (
        "L1",
        r#"{"do":"pack","unit":"urn:epc:id:sscc:0614141.1000000001","children":["urn:epc:id:sgtin:0614141.812345.000005","urn:epc:id:sgtin:0614141.812345.000007"]}"#,
        OK,
    ),
    (
        "L1",
        r#"{"do":"seal","unit":"urn:epc:id:sscc:0614141.1000000001"}"#,
        OK,
    ),
    (
        "L1",
        r#"{"do":"declare","batch":"B6","good":2,"spoiled":0,"returned":0}"#,
        OK,
    ),
    ("P1", r#"{"do":"close","batch":"B6"}"#, OK),
];

/// What an entry that couldn't be put into the journal is told.
const DISK_FAULT: &str = r#"{"fault":"DiskFault","ok":false}"#;

/// The first so many requests of the batch.
fn first(rt: &impl Abort, alloc: Global, count: usize) -> Talk {
    let mut talk = Talk::new(alloc);
    for row in BATCH.iter().take(count) {
        talk.go_on(rt, alloc, &[*row]);
    }
    talk
}

#[test]
fn a_journal_is_written(rt: HostRuntime) {
    let alloc = rt.alloc();
    let talk = first(&rt, alloc, 2);
    let left = run(&rt, alloc, &made(&rt, alloc), talk.lines.as_bytes(), &WORDS);
    expect_left(&rt, &left, 0, talk.answers.as_bytes());
    assert!(rt; left.disk == joined(&rt, alloc, &[SITE, ORDER, DRAW, END]));
}

/// What was written by version 1 is told again, and behind it stands a record of version 2.
#[test]
fn an_old_journal_goes_on(rt: HostRuntime) {
    let alloc = rt.alloc();
    let old = old_journal(&rt, alloc);
    let talk = first(&rt, alloc, 2);
    let start: &[u8] =
        b"{\"station\":\"P1\",\"number\":3,\"deed\":{\"do\":\"start\",\"batch\":\"B6\",\"operator\":\"ann\"}}\n";
    let lines = joined(&rt, alloc, &[talk.lines.as_bytes(), start]);
    let answers = joined(&rt, alloc, &[talk.answers.as_bytes(), b"{\"ok\":true}\n"]);
    let left = run(&rt, alloc, &old, &lines, &[]);
    expect_left(&rt, &left, 0, &answers);
    let started: &[u8] =
        b"\x01\0\0\0\x1d\x81\0\0\0\0\0\0\0\0\x03\0\0\0\x01\x9b\x76\xda\xa8\0\x03ann\x03\x02B6\0\0\0";
    assert!(rt; left.disk == joined(&rt, alloc, &[OLD_SITE, OLD_ORDER, OLD_DRAW, started]));
}

/// A request that is told the last number of the planner.
const FAR: &[u8] =
    b"{\"station\":\"P1\",\"number\":9,\"deed\":{\"do\":\"start\",\"batch\":\"B6\"}}\n";

/// A run over this journal ends so, and puts this.
fn expect_found(rt: &impl Abort, alloc: Global, journal: &[u8], status: u8, put: &str) {
    let left = run(rt, alloc, journal, FAR, &[]);
    expect_left(rt, &left, status, put.as_bytes());
}

const BOTH: &str = "{\"fault\":\"NumberGap\",\"last\":2,\"ok\":false}\n";

const ONE: &str = "{\"fault\":\"NumberGap\",\"last\":1,\"ok\":false}\n";

#[test]
fn a_journal_is_damaged(rt: HostRuntime) {
    let alloc = rt.alloc();
    for (place, byte, status, put) in [
        (211, 0, 0, BOTH),
        (211, 7, 0, BOTH),
        (0, 0, 5, "no journal\n"),
        (1, 0, 6, "journal bad at 0\n"),
        (163, 0, 0, ONE),
        // a group without entries, an unknown station, a number that isn't next, and a stamp that fell
        (168, 0, 6, "journal bad at 163\n"),
        (169, 4, 6, "journal bad at 163\n"),
        (177, 3, 6, "journal bad at 163\n"),
        (185, 0xa7, 6, "journal bad at 163\n"),
        // a later stamp, and a serial that stands there twice
        (186, 1, 0, BOTH),
        (210, b'5', 6, "journal bad at 163\n"),
        (211, 1, 6, "journal bad at 211\n"),
        // a length past the end
        (164, 255, 6, "journal bad at 163\n"),
    ] {
        let mut bytes = old_journal(&rt, alloc);
        if place < bytes.len() {
            bytes[place] = byte;
        }
        expect_found(&rt, alloc, &bytes, status, put);
    }
}

#[test]
fn a_journal_is_cut(rt: HostRuntime) {
    let alloc = rt.alloc();
    let bytes = old_journal(&rt, alloc);
    assert!(rt; bytes.len() == 212);
    for count in 0..213 {
        let (status, put) = match count {
            0..2 => (5, "no journal\n"),
            2..100 => (6, "journal bad at 0\n"),
            100..163 => (6, "journal bad at 100\n"),
            163..211 => (6, "journal bad at 163\n"),
            211 => (6, "journal bad at 211\n"),
            _ => (0, BOTH),
        };
        expect_found(&rt, alloc, bytes.get(..count).unwrap_or(&[]), status, put);
    }
}

/// Each of the four calls of each request's append fails in turn. A stop behind it leaves the journal with or without
/// what the disk didn't sync: over both the whole batch is told again, and goes on. So it does without a stop.
#[test]
fn a_batch_is_stopped_at_each_call(rt: HostRuntime) {
    let alloc = rt.alloc();
    let journal = made(&rt, alloc);
    let calls = calls_of_a_load(&rt, alloc, &journal);
    for request in 0..10 {
        for call in 1..5 {
            let failing = calls.saturating_add(4 * request + call);
            expect_stopped(&rt, alloc, &journal, request as usize, failing);
        }
    }
}

/// Words for two draws of the same serials.
const TWICE: [u64; 4] = [5, 7, 5, 7];

/// The call of the disk with this number fails while the request at this place is put.
fn expect_stopped(rt: &impl Abort, alloc: Global, journal: &[u8], request: usize, failing: u64) {
    let all = first(rt, alloc, 10);
    let mut talk = first(rt, alloc, request);
    let (station, deed, _) = *BATCH.get(request).expect(rt, "there are ten requests");
    talk.ask(rt, alloc, station, deed);
    talk.tell(rt, alloc, DISK_FAULT);
    for loses in [true, false] {
        let failing = Failing {
            disk: &[failing],
            loses,
            ..NOTHING
        };
        let left = run_failing(rt, alloc, journal, talk.lines.as_bytes(), &TWICE, failing);
        expect_left(rt, &left, 0, talk.answers.as_bytes());
        let again = run(rt, alloc, &left.disk, all.lines.as_bytes(), &TWICE);
        expect_left(rt, &again, 0, all.answers.as_bytes());
    }
}

/// An order and a draw of one serial, each asked twice.
const TWICE_EACH: &[u8] =
    b"{\"station\":\"P1\",\"number\":1,\"deed\":{\"do\":\"order\",\"batch\":\"B6\",\"gtin\":\"80614141123458\",\"lot\":\"LOT6\",\"expiry\":\"2027-12-31\",\"quantity\":2,\"case\":2,\"pallet\":0}}\n{\"station\":\"P1\",\"number\":1,\"deed\":{\"do\":\"order\",\"batch\":\"B6\",\"gtin\":\"80614141123458\",\"lot\":\"LOT6\",\"expiry\":\"2027-12-31\",\"quantity\":2,\"case\":2,\"pallet\":0}}\n{\"station\":\"P1\",\"number\":2,\"deed\":{\"do\":\"draw\",\"batch\":\"B6\",\"count\":1}}\n{\"station\":\"P1\",\"number\":2,\"deed\":{\"do\":\"draw\",\"batch\":\"B6\",\"count\":1}}\n";

const ORDERED: &str = r#"{"already":0,"new":1,"ok":true}"#;

const FIVE: &str = r#"{"ok":true,"serials":["000005"]}"#;

const SEVEN: &str = r#"{"ok":true,"serials":["000007"]}"#;

/// The disk's calls of these numbers fail, from the first append on: each append and each mend makes four. What isn't
/// put is forgotten where its bytes can't stand, and else told when it is asked again. In the end there are two entries.
#[test]
fn a_run_goes_on_after_each_failing_call(rt: HostRuntime) {
    let alloc = rt.alloc();
    let calls = calls_of_a_load(&rt, alloc, &made(&rt, alloc));
    for (one, other, first, second, third, last) in [
        (1, 1, DISK_FAULT, ORDERED, FIVE, FIVE),
        (2, 2, DISK_FAULT, ORDERED, FIVE, FIVE),
        (3, 3, DISK_FAULT, ORDERED, FIVE, FIVE),
        (4, 4, DISK_FAULT, ORDERED, FIVE, FIVE),
        (5, 5, ORDERED, ORDERED, DISK_FAULT, SEVEN),
        (6, 6, ORDERED, ORDERED, DISK_FAULT, SEVEN),
        (7, 7, ORDERED, ORDERED, DISK_FAULT, FIVE),
        (8, 8, ORDERED, ORDERED, DISK_FAULT, FIVE),
        // the order's gate isn't written, nor is it by the mend at once
        (3, 4, DISK_FAULT, DISK_FAULT, FIVE, FIVE),
    ] {
        let failing = [calls.saturating_add(one), calls.saturating_add(other)];
        expect_goes_on(&rt, alloc, &failing, &[first, second, third, last]);
    }
}

/// Where these calls of the disk fail, each line is told this.
fn expect_goes_on(rt: &impl Abort, alloc: Global, failing: &[u64], told: &[&str]) {
    let failing = Failing {
        disk: failing,
        ..NOTHING
    };
    let mut talk = Talk::new(alloc);
    for answer in told {
        talk.tell(rt, alloc, answer);
    }
    let left = run_failing(rt, alloc, &made(rt, alloc), TWICE_EACH, &[5, 7], failing);
    expect_left(rt, &left, 0, talk.answers.as_bytes());
    expect_found(rt, alloc, &left.disk, 0, BOTH);
}
