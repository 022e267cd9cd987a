//! The commands that read a journal, over devices in memory: the whole text that each puts, and each of its statuses.

use crate::batch_tests::WHOLE_BATCH;
use crate::console_tests::{DRAW, ORDER};
use crate::program::{
    Failing, Left, MOMENT, NOTHING, WORDS, devices, expect_left, joined, list, made, program, run,
};
use crate::talk::{OK, Row, Talk, numbered};
use std::alloc::Global;
use std::process::Abort;

/// The report of the whole batch.
const REPORT: &str = r#"batch         B7
product       00614141123452
lot           LOT7A
expiry        2027-12-31
state         closed
planned              40
drawn                50
unused                7
lent                  0
commissioned         40
sampled               1
rejected              1
destroyed             1
cases                 4
pallets               1
events               19
line          L1                         21        1        0
line          L2                         21        0        1
"#;

/// An item is taken as a sample, and then a case is made.
const THIRD_AND_FOURTH: &str =
    r#"{"@context":["https://ref.gs1.org/standards/epcis/2.0.0/epcis-context.jsonld"],"creationDate":"2026-01-01T00:00:00.000Z","epcisBody":{"eventList":[{"action":"OBSERVE","bizLocation":{"id":"urn:epc:id:sgln:0614141.00001.0"},"bizStep":"inspecting","disposition":"non_sellable_other","epcList":["urn:epc:id:sgtin:0614141.012345.0000000021"],"eventTime":"2026-01-01T00:00:00.000Z","eventTimeZoneOffset":"+00:00","readPoint":{"id":"urn:epc:id:sgln:0614141.00001.0"},"type":"ObjectEvent"},{"action":"ADD","bizLocation":{"id":"urn:epc:id:sgln:0614141.00001.0"},"bizStep":"commissioning","disposition":"active","epcList":["urn:epc:id:sscc:0614141.1000000001"],"eventTime":"2026-01-01T00:00:00.000Z","eventTimeZoneOffset":"+00:00","readPoint":{"id":"urn:epc:id:sgln:0614141.00001.0"},"type":"ObjectEvent"}]},"schemaVersion":"2.0","type":"EPCISDocument"}
"#;

/// An item is taken out of its case.
const TWELFTH: &str =
    r#"{"@context":["https://ref.gs1.org/standards/epcis/2.0.0/epcis-context.jsonld"],"creationDate":"2026-01-01T00:00:00.000Z","epcisBody":{"eventList":[{"action":"DELETE","bizLocation":{"id":"urn:epc:id:sgln:0614141.00001.0"},"bizStep":"unpacking","childEPCs":["urn:epc:id:sgtin:0614141.012345.0000000042"],"disposition":"in_progress","eventTime":"2026-01-01T00:00:00.000Z","eventTimeZoneOffset":"+00:00","parentID":"urn:epc:id:sscc:0614141.1000000004","readPoint":{"id":"urn:epc:id:sgln:0614141.00001.0"},"type":"AggregationEvent"}]},"schemaVersion":"2.0","type":"EPCISDocument"}
"#;

/// Four cases are put on a pallet: the nineteenth event, and the last.
const LAST: &str =
    r#"{"@context":["https://ref.gs1.org/standards/epcis/2.0.0/epcis-context.jsonld"],"creationDate":"2026-01-01T00:00:00.000Z","epcisBody":{"eventList":[{"action":"ADD","bizLocation":{"id":"urn:epc:id:sgln:0614141.00001.0"},"bizStep":"packing","childEPCs":["urn:epc:id:sscc:0614141.1000000001","urn:epc:id:sscc:0614141.1000000002","urn:epc:id:sscc:0614141.1000000003","urn:epc:id:sscc:0614141.1000000004"],"disposition":"in_progress","eventTime":"2026-01-01T00:00:00.000Z","eventTimeZoneOffset":"+00:00","parentID":"urn:epc:id:sscc:0614141.1000000005","readPoint":{"id":"urn:epc:id:sgln:0614141.00001.0"},"type":"AggregationEvent"}]},"schemaVersion":"2.0","type":"EPCISDocument"}
"#;

/// No event at all.
const NONE: &str =
    r#"{"@context":["https://ref.gs1.org/standards/epcis/2.0.0/epcis-context.jsonld"],"creationDate":"2026-01-01T00:00:00.000Z","epcisBody":{"eventList":[]},"schemaVersion":"2.0","type":"EPCISDocument"}
"#;

/// Two items are taken out of their case, the one longest inside first.
const FIFTH: &str =
    r#"{"@context":["https://ref.gs1.org/standards/epcis/2.0.0/epcis-context.jsonld"],"creationDate":"2026-01-01T00:00:00.000Z","epcisBody":{"eventList":[{"action":"DELETE","bizLocation":{"id":"urn:epc:id:sgln:0614141.00001.0"},"bizStep":"unpacking","childEPCs":["urn:epc:id:sgtin:0614141.012345.0000000002","urn:epc:id:sgtin:0614141.012345.0000000001"],"disposition":"in_progress","eventTime":"2026-01-01T00:00:00.000Z","eventTimeZoneOffset":"+00:00","parentID":"urn:epc:id:sscc:0614141.1000000001","readPoint":{"id":"urn:epc:id:sgln:0614141.00001.0"},"type":"AggregationEvent"}]},"schemaVersion":"2.0","type":"EPCISDocument"}
"#;

/// Two items, of which the second is packed first; then both are taken out.
const UNPACKED: [Row; 9] = [
    (
        "P1",
        r#"{"do":"order","batch":"B7","gtin":"00614141123452","lot":"LOT7A","expiry":"2027-12-31","quantity":2,"case":2,"pallet":0}"#,
        r#"{"already":0,"new":1,"ok":true}"#,
    ),
    ("P1", r#"{"do":"start","batch":"B7"}"#, OK),
    (
        "P1",
        r#"{"do":"draw","batch":"B7","count":2}"#,
        r#"{"ok":true,"serials":["<1-2>"]}"#,
    ),
    (
        "L1",
        r#"{"do":"lend","batch":"B7","count":2}"#,
        r#"{"ok":true,"serials":["<1-2>"]}"#,
    ),
    (
        "L1",
        r#"{"do":"commission","batch":"B7","codes":["01006141411234521727123110LOT7A\u001d21<1-2>"]}"#,
        OK,
    ),
    (
        "L1",
        r#"{"do":"container","batch":"B7","level":"case"}"#,
        r#"{"ok":true,"unit":"urn:epc:id:sscc:0614141.1000000001"}"#,
    ),
    (
        "L1",
        r#"{"do":"pack","unit":"urn:epc:id:sscc:0614141.1000000001","children":["urn:epc:id:sgtin:0614141.012345.0000000002"]}"#,
        OK,
    ),
    (
        "L1",
        r#"{"do":"pack","unit":"urn:epc:id:sscc:0614141.1000000001","children":["urn:epc:id:sgtin:0614141.012345.0000000001"]}"#,
        OK,
    ),
    (
        "L1",
        r#"{"do":"unpack_all","unit":"urn:epc:id:sscc:0614141.1000000001"}"#,
        r#"{"ok":true,"taken":2}"#,
    ),
];

const START_BY_ANN: &[u8] =
    b"{\"station\":\"P1\",\"number\":3,\"deed\":{\"do\":\"start\",\"batch\":\"B6\",\"operator\":\"ann\"}}\n";

const DRAW_BY_LINE: &[u8] =
    b"{\"station\":\"L1\",\"number\":1,\"deed\":{\"do\":\"draw\",\"batch\":\"B6\",\"count\":2}}\n";

/// The command with these words over this journal.
fn look(rt: &impl Abort, alloc: Global, words: &[&str], disk: &[u8], failing: Failing) -> Left {
    let devices = devices(rt, alloc, disk, MOMENT, &[], failing);
    program(rt, alloc, words, ORDER, devices, failing)
}

/// The command ends so over this journal, puts this, and leaves the journal as it is.
fn expect_look(
    rt: &impl Abort,
    alloc: Global,
    words: &[&str],
    disk: &[u8],
    status: u8,
    put: &[u8],
) {
    let left = look(rt, alloc, words, disk, NOTHING);
    expect_left(rt, &left, status, put);
    assert!(rt; left.disk.as_slice() == disk);
}

/// The command ends well over this journal, puts this, and leaves the journal as it is.
fn expect_text(rt: &impl Abort, alloc: Global, words: &[&str], disk: &[u8], put: &str) {
    expect_look(rt, alloc, words, disk, 0, put.as_bytes());
}

/// The journal after these requests.
fn after(rt: &impl Abort, alloc: Global, rows: &[Row]) -> Vec<u8> {
    let mut talk = Talk::new(alloc);
    talk.go_on(rt, alloc, rows);
    let words = numbered(rt, alloc, 1, 50);
    run(rt, alloc, &made(rt, alloc), talk.lines.as_bytes(), &words).disk
}

#[test]
fn a_whole_batch_is_reported_exported_and_checked(rt: HostRuntime) {
    let alloc = rt.alloc();
    let disk = after(&rt, alloc, &WHOLE_BATCH);
    expect_text(&rt, alloc, &["report", "B7"], &disk, REPORT);
    expect_text(
        &rt,
        alloc,
        &["export", "B7", "3", "2"],
        &disk,
        THIRD_AND_FOURTH,
    );
    expect_text(&rt, alloc, &["export", "B7", "12", "1"], &disk, TWELFTH);
    expect_text(&rt, alloc, &["export", "B7", "19", "1000"], &disk, LAST);
    expect_text(&rt, alloc, &["export", "B7", "20", "10000"], &disk, NONE);
    expect_text(
        &rt,
        alloc,
        &["export", "B7", "4294967295", "10000"],
        &disk,
        NONE,
    );
    expect_text(
        &rt,
        alloc,
        &["check"],
        &disk,
        "check: entries 34, events 19, live 46, pairs 44\n",
    );
}

#[test]
fn what_was_taken_out_is_told(rt: HostRuntime) {
    let alloc = rt.alloc();
    let disk = after(&rt, alloc, &UNPACKED);
    expect_text(&rt, alloc, &["export", "B7", "5", "1"], &disk, FIFTH);
}

#[test]
fn a_log_has_a_line_for_each_entry(rt: HostRuntime) {
    let alloc = rt.alloc();
    let lines = joined(&rt, alloc, &[ORDER, DRAW, START_BY_ANN, DRAW_BY_LINE]);
    let disk = run(&rt, alloc, &made(&rt, alloc), &lines, &WORDS).disk;
    expect_text(
        &rt,
        alloc,
        &["log", "1", "3"],
        &disk,
        "1 P1 1 order - ok\n2 P1 2 draw - ok\n3 P1 3 start ann ok\n",
    );
    expect_text(
        &rt,
        alloc,
        &["log", "3", "9"],
        &disk,
        "3 P1 3 start ann ok\n4 L1 1 draw - RoleForbids\n",
    );
    expect_text(&rt, alloc, &["log", "5", "10000"], &disk, "");
    expect_text(&rt, alloc, &["log", "4294967295", "1"], &disk, "");
}

#[test]
fn a_look_at_what_is_not_there_is_told(rt: HostRuntime) {
    let alloc = rt.alloc();
    let disk = run(&rt, alloc, &made(&rt, alloc), ORDER, &[]).disk;
    expect_look(&rt, alloc, &["report", "B9"], &disk, 10, b"unknown batch\n");
    expect_look(
        &rt,
        alloc,
        &["export", "B9", "1", "1"],
        &disk,
        10,
        b"unknown batch\n",
    );
    expect_look(&rt, alloc, &["check"], b"", 5, b"no journal\n");
    let mut short = list(&rt, alloc, &disk);
    short.truncate(103);
    expect_look(
        &rt,
        alloc,
        &["log", "1", "1"],
        &short,
        6,
        b"journal bad at 103\n",
    );
}

#[test]
fn a_look_whose_devices_fail_is_told(rt: HostRuntime) {
    let alloc = rt.alloc();
    let disk = run(&rt, alloc, &made(&rt, alloc), ORDER, &[]).disk;
    let failing = Failing {
        puts: &[1],
        ..NOTHING
    };
    expect_left(
        &rt,
        &look(&rt, alloc, &["report", "B6"], &disk, failing),
        8,
        b"",
    );
    // the second part of a document can't be put, and what was put before stays
    let failing = Failing {
        puts: &[2],
        ..NOTHING
    };
    let left = look(&rt, alloc, &["export", "B6", "1", "1"], &disk, failing);
    assert!(rt; left.status == 8);
    assert!(rt; NONE.as_bytes().starts_with(left.put.as_slice()));
    let failing = Failing {
        disk: &[1],
        ..NOTHING
    };
    expect_left(
        &rt,
        &look(&rt, alloc, &["check"], &disk, failing),
        9,
        b"disk fault\n",
    );
}
