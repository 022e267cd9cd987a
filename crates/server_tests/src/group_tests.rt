//! Requests that come in one piece: each group of them is one record.

use crate::session_tests::DRAWN_REPORT;
use crate::sessions::{DRAW, END, ORDER, SITE, calls_of_a_load, devices, expect_served, joined};
use crate::talk::{CONFLICT, DISK_FAULT, DONE, OK, Row, Talk, UNAVAILABLE, ask, talk_of, tell};
use deed_words::{FaultKind, Note};
use std::alloc::Global;
use std::process::Abort;

const START: &str = r#"{"do":"start","batch":"B6"}"#;

const AMEND: &str = r#"{"do":"amend","batch":"B6","quantity":3}"#;

/// Batch B6 is started, and its quantity becomes 3.
const TWO: [Row; 2] = [
    ("/stations/P1/requests/3", START, OK, DONE),
    ("/stations/P1/requests/4", AMEND, OK, DONE),
];

/// The record of both.
const GROUP: &[u8] =
    b"\x01\0\0\0\x37\x82\0\0\0\0\0\0\0\0\x03\0\0\0\x01\x9b\x76\xda\xa8\0\0\x03\x02B6\0\0\0\0\0\0\0\0\0\0\x04\0\0\0\x01\x9b\x76\xda\xa8\0\0\x17\x02B6\0\0\0\x03\0\0";

#[test]
fn two_requests_are_one_record(rt: HostRuntime) {
    let alloc = rt.alloc();
    let drawn = joined(&rt, alloc, &[SITE, ORDER, DRAW, END]);
    let talk = talk_of(&rt, alloc, &TWO, false);
    let sessions = [talk.session(0, false)];
    let devices = devices(&rt, alloc, &drawn, &[], &[]);
    let notes = [Note::Done(2, 0), Note::Done(3, 0)];
    let disk = expect_served(&rt, alloc, devices, &sessions, &notes);
    assert!(rt; disk.image(true) == joined(&rt, alloc, &[SITE, ORDER, DRAW, GROUP, END]));
}

/// The two can't be put into the journal. What is shown lacks both. They come again, and each gets its reply.
const AGAIN: [Row; 5] = [
    ("/stations/P1/requests/3", START, UNAVAILABLE, DISK_FAULT),
    ("/stations/P1/requests/4", AMEND, UNAVAILABLE, DISK_FAULT),
    ("/batches/B6", "", OK, DRAWN_REPORT),
    ("/stations/P1/requests/3", START, OK, DONE),
    ("/stations/P1/requests/4", AMEND, OK, DONE),
];

/// Each call of the group's append fails in turn. In the end both stand in the journal once.
#[test]
fn a_group_that_is_not_put_comes_again(rt: HostRuntime) {
    let alloc = rt.alloc();
    let drawn = joined(&rt, alloc, &[SITE, ORDER, DRAW, END]);
    let calls = calls_of_a_load(&rt, alloc, &drawn);
    let talk = talk_of(&rt, alloc, &AGAIN, false);
    let sessions = [talk.session(0, false)];
    let notes = [
        Note::Fault(FaultKind::Disk, 0),
        Note::Done(2, 0),
        Note::Done(3, 0),
    ];
    for call in 1..5 {
        let failing = [calls.saturating_add(call)];
        let devices = devices(&rt, alloc, &drawn, &failing, &[]);
        let disk = expect_served(&rt, alloc, devices, &sessions, &notes);
        assert!(rt; disk.image(true) == joined(&rt, alloc, &[SITE, ORDER, DRAW, GROUP, END]));
    }
}

/// Nothing comes behind the two.
const LOST: [Row; 2] = [
    ("/stations/P1/requests/3", START, UNAVAILABLE, DISK_FAULT),
    ("/stations/P1/requests/4", AMEND, UNAVAILABLE, DISK_FAULT),
];

/// The planner's last number is that of the draw.
const LAST_IS_2: [Row; 1] = [(
    "/stations/P1/requests/9",
    START,
    CONFLICT,
    r#"{"fault":"NumberGap","last":2,"ok":false}"#,
)];

/// The second call of a group's append fails, and a stop comes behind it: with or without what wasn't synced, the history
/// ends as it did before.
#[test]
fn a_stop_leaves_nothing_of_a_group(rt: HostRuntime) {
    let alloc = rt.alloc();
    let drawn = joined(&rt, alloc, &[SITE, ORDER, DRAW, END]);
    let failing = [calls_of_a_load(&rt, alloc, &drawn).saturating_add(2)];
    let lost = talk_of(&rt, alloc, &LOST, false);
    let sessions = [lost.session(0, false)];
    let notes = [Note::Fault(FaultKind::Disk, 0)];
    let last = talk_of(&rt, alloc, &LAST_IS_2, false);
    for loses in [false, true] {
        let failing = devices(&rt, alloc, &drawn, &failing, &[]);
        let disk = expect_served(&rt, alloc, failing, &sessions, &notes).image(loses);
        let after = devices(&rt, alloc, &disk, &[], &[]);
        let _disk = expect_served(&rt, alloc, after, &[last.session(0, false)], &[]);
    }
}

/// Sixteen changes of the batch's quantity.
fn changes(rt: &impl Abort, alloc: Global) -> Talk {
    let mut talk = talk_of(rt, alloc, &[], false);
    for number in 3..19 {
        let path = format!(in alloc; "/stations/P1/requests/{number}").expect(
            rt,
            "memory is ample",
        );
        let deed = format!(in alloc; r#"{{"do":"amend","batch":"B6","quantity":{number}}}"#).expect(
            rt,
            "memory is ample",
        );
        ask(
            rt,
            alloc,
            &mut talk.requests,
            path.as_str(),
            deed.as_str(),
            false,
        );
        tell(rt, alloc, &mut talk.answers, OK, DONE, false);
    }
    talk
}

/// The fifth call of the disk behind a load would be the first of a second append: it fails, and all sixteen are put.
#[test]
fn sixteen_requests_are_one_group(rt: HostRuntime) {
    let alloc = rt.alloc();
    let drawn = joined(&rt, alloc, &[SITE, ORDER, DRAW, END]);
    let failing = [calls_of_a_load(&rt, alloc, &drawn).saturating_add(5)];
    let talk = changes(&rt, alloc);
    assert!(rt; talk.requests.len() < 4096);
    let sessions = [talk.session(0, false)];
    let mut notes = Vec::new(alloc);
    for place in 2..18 {
        notes
            .push(Note::Done(place, 0))
            .expect(&rt, "memory is ample");
    }
    let devices = devices(&rt, alloc, &drawn, &failing, &[]);
    let _disk = expect_served(&rt, alloc, devices, &sessions, &notes);
}
