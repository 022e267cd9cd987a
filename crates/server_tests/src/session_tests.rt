//! Sessions of one worker: what is asked, all that is told, and what the journal holds then.

use crate::sessions::{
    DRAW, END, ORDER, SITE, Session, calls_of_a_load, devices, expect_served, joined,
};
use crate::talk::{
    BAD_REQUEST, CONFLICT, DISK_FAULT, DONE, DRAW_B6, DRAWN, NOT_FOUND, OK, ORDER_B6, ORDERED, Row,
    UNAVAILABLE, UNKNOWN_BATCH, talk_of,
};
use deed_words::{FaultKind, Note};
use site_server::SessionEnd;

/// The report of B6 before it is started, with nothing drawn.
pub(crate) const ORDERED_REPORT: &str =
    "batch         B6\nproduct       80614141123458\nlot           LOT6\nexpiry        2027-12-31\nstate         planned\nplanned               2\ndrawn                 0\nunused                0\nlent                  0\ncommissioned          0\nsampled               0\nrejected              0\ndestroyed             0\ncases                 0\npallets               0\nevents                0\n";

/// The same with two serials drawn.
pub(crate) const DRAWN_REPORT: &str =
    "batch         B6\nproduct       80614141123458\nlot           LOT6\nexpiry        2027-12-31\nstate         planned\nplanned               2\ndrawn                 2\nunused                2\nlent                  0\ncommissioned          0\nsampled               0\nrejected              0\ndestroyed             0\ncases                 0\npallets               0\nevents                0\n";

/// An order, the same again, an unknown station, a body that is no JSON, a deed that isn't one, a number too high, a rule
/// that is broken, an item and a batch that aren't there, a document without events, and a report.
const WALK: [Row; 11] = [
    ("/stations/P1/requests/1", ORDER_B6, OK, ORDERED),
    ("/stations/P1/requests/1", ORDER_B6, OK, ORDERED),
    (
        "/stations/P9/requests/2",
        ORDER_B6,
        NOT_FOUND,
        r#"{"fault":"NoStation","ok":false}"#,
    ),
    (
        "/stations/P1/requests/2",
        "zz",
        BAD_REQUEST,
        r#"{"fault":"BadLine","ok":false}"#,
    ),
    (
        "/stations/P1/requests/2",
        r#"{"do":"fly"}"#,
        BAD_REQUEST,
        r#"{"code":3,"fault":"BadDeed","name":"do","ok":false}"#,
    ),
    (
        "/stations/P1/requests/3",
        r#"{"do":"start","batch":"B6"}"#,
        CONFLICT,
        r#"{"fault":"NumberGap","last":1,"ok":false}"#,
    ),
    (
        "/stations/P1/requests/2",
        r#"{"do":"start","batch":"B7"}"#,
        CONFLICT,
        r#"{"ok":false,"rule":"UnknownBatch"}"#,
    ),
    (
        "/items/80614141123458/000001",
        "",
        NOT_FOUND,
        r#"{"fault":"UnknownItem","ok":false}"#,
    ),
    ("/batches/B9", "", NOT_FOUND, UNKNOWN_BATCH),
    (
        "/batches/B6/events/1/10",
        "",
        OK,
        r#"{"@context":["https://ref.gs1.org/standards/epcis/2.0.0/epcis-context.jsonld"],"creationDate":"2026-01-01T00:00:00.000Z","epcisBody":{"eventList":[]},"schemaVersion":"2.0","type":"EPCISDocument"}"#,
    ),
    ("/batches/B6", "", OK, ORDERED_REPORT),
];

#[test]
fn a_session_answers_its_requests(rt: HostRuntime) {
    let alloc = rt.alloc();
    let site = joined(&rt, alloc, &[SITE, END]);
    let talk = talk_of(&rt, alloc, &WALK, true);
    let sessions = [talk.session(0, false)];
    let notes = [Note::Done(0, 0), Note::Done(1, 0)];
    let devices = devices(&rt, alloc, &site, &[], &[]);
    let _disk = expect_served(&rt, alloc, devices, &sessions, &notes);
}

const START_B9: &[u8] =
    b"POST /stations/P1/requests/1 HTTP/1.1\r\nhost: localhost\r\ncontent-length: 27\r\n\r\n{\"do\":\"start\",\"batch\":\"B9\"}";

const NO_B9: &[u8] =
    b"HTTP/1.1 409 Conflict\r\ncontent-length: 34\r\ncontent-type: application/json\r\n\r\n{\"ok\":false,\"rule\":\"UnknownBatch\"}";

#[test]
fn a_request_may_come_in_any_pieces(rt: HostRuntime) {
    let alloc = rt.alloc();
    let site = joined(&rt, alloc, &[SITE, END]);
    for drops in [false, true] {
        let session = Session {
            worker: 0,
            drops,
            requests: START_B9,
            end: SessionEnd::Ended,
            answers: NO_B9,
        };
        let devices = devices(&rt, alloc, &site, &[], &[]);
        let _disk = expect_served(&rt, alloc, devices, &[session], &[Note::Done(0, 0)]);
    }
}

/// An order and a draw.
const TWO: [Row; 2] = [
    ("/stations/P1/requests/1", ORDER_B6, OK, ORDERED),
    ("/stations/P1/requests/2", DRAW_B6, OK, DRAWN),
];

/// Both are in one record where they come in one piece, and each in its own where they come byte by byte.
#[test]
fn two_requests_are_answered_in_their_order(rt: HostRuntime) {
    let alloc = rt.alloc();
    let site = joined(&rt, alloc, &[SITE, END]);
    let talk = talk_of(&rt, alloc, &TWO, false);
    let notes = [Note::Done(0, 0), Note::Done(1, 0)];
    for (drops, order, draw) in [(false, BOTH, b"".as_slice()), (true, ORDER, DRAW)] {
        let devices = devices(&rt, alloc, &site, &[], &[5, 7]);
        let sessions = [talk.session(0, drops)];
        let disk = expect_served(&rt, alloc, devices, &sessions, &notes);
        assert!(rt; disk.image(true) == joined(&rt, alloc, &[SITE, order, draw, END]));
    }
}

/// The record of both: 58 bytes of the order and 43 of the draw, behind the count.
const BOTH: &[u8] =
    b"\x01\0\0\0\x66\x82\0\0\0\0\0\0\0\0\x01\0\0\0\x01\x9b\x76\xda\xa8\0\0\x01\x02B680614141123458\x04LOT6271231\0\0\0\x02\0\x02\0\0\0\0\0\0\0\0\0\0\0\0\x02\0\0\0\x01\x9b\x76\xda\xa8\0\0\x04\x02B6\0\0\0\x02\0\x02\x06000005\x06000007";

/// Four serials are drawn, and L1 commissions the first of three, spoils the second and gives back the third. Then the
/// first is looked at.
const LENDING: [Row; 10] = [
    (
        "/stations/P1/requests/1",
        r#"{"do":"order","batch":"B5","gtin":"00614141123452","lot":"L5","expiry":"2027-12-31","quantity":4,"case":2,"pallet":0}"#,
        OK,
        ORDERED,
    ),
    (
        "/stations/P1/requests/2",
        r#"{"do":"start","batch":"B5"}"#,
        OK,
        DONE,
    ),
    (
        "/stations/P1/requests/3",
        r#"{"do":"draw","batch":"B5","count":4}"#,
        OK,
        r#"{"ok":true,"serials":["0000000001","0000000002","0000000003","0000000004"]}"#,
    ),
    (
        "/stations/L1/requests/1",
        r#"{"do":"lend","batch":"B5","count":3}"#,
        OK,
        r#"{"ok":true,"serials":["0000000001","0000000002","0000000003"]}"#,
    ),
    (
        "/stations/L1/requests/2",
        r#"{"do":"commission","batch":"B5","codes":["01006141411234521727123110L5\u001d210000000001"]}"#,
        OK,
        DONE,
    ),
    (
        "/stations/L1/requests/3",
        r#"{"do":"spoil","batch":"B5","serials":["0000000002"]}"#,
        OK,
        DONE,
    ),
    (
        "/stations/L1/requests/4",
        r#"{"do":"giveback","batch":"B5","serials":["0000000003"]}"#,
        OK,
        DONE,
    ),
    (
        "/stations/L1/requests/5",
        r#"{"do":"lend","batch":"B5","count":1}"#,
        OK,
        r#"{"ok":true,"serials":["0000000004"]}"#,
    ),
    (
        "/stations/L1/requests/6",
        r#"{"do":"lend","batch":"B5","count":1}"#,
        CONFLICT,
        r#"{"have":0,"ok":false,"rule":"FewFresh"}"#,
    ),
    (
        "/items/00614141123452/0000000001",
        "",
        OK,
        r#"{"batch":"B5","line":"L1","ok":true,"parent":null,"state":"active"}"#,
    ),
];

#[test]
fn an_item_is_shown(rt: HostRuntime) {
    let alloc = rt.alloc();
    let site = joined(&rt, alloc, &[SITE, END]);
    let talk = talk_of(&rt, alloc, &LENDING, false);
    let sessions = [talk.session(0, false)];
    let mut notes = Vec::new(alloc);
    for place in 0..9 {
        notes
            .push(Note::Done(place, 0))
            .expect(&rt, "memory is ample");
    }
    let devices = devices(&rt, alloc, &site, &[], &[1, 2, 3, 4]);
    let _disk = expect_served(&rt, alloc, devices, &sessions, &notes);
}

/// The order couldn't be put into the journal. What is shown lacks it, the next deed settles it and gets its own reply, and
/// the order again gets its reply.
const SETTLED: [Row; 5] = [
    ("/stations/P1/requests/1", ORDER_B6, UNAVAILABLE, DISK_FAULT),
    ("/batches/B6", "", NOT_FOUND, UNKNOWN_BATCH),
    ("/stations/P1/requests/2", DRAW_B6, OK, DRAWN),
    ("/batches/B6", "", OK, DRAWN_REPORT),
    ("/stations/P1/requests/1", ORDER_B6, OK, ORDERED),
];

/// The third or the fourth call of an append fails: the gate, or the sync behind it.
#[test]
fn what_is_pending_is_settled_by_the_next_deed(rt: HostRuntime) {
    let alloc = rt.alloc();
    let site = joined(&rt, alloc, &[SITE, END]);
    let calls = calls_of_a_load(&rt, alloc, &site);
    let talk = talk_of(&rt, alloc, &SETTLED, false);
    let sessions = [talk.session(0, false)];
    let notes = [
        Note::Fault(FaultKind::Disk, 0),
        Note::Done(0, 0),
        Note::Done(1, 0),
    ];
    for call in [3, 4] {
        let failing = [calls.saturating_add(call)];
        let devices = devices(&rt, alloc, &site, &failing, &[5, 7]);
        let disk = expect_served(&rt, alloc, devices, &sessions, &notes);
        assert!(rt; disk.image(true) == joined(&rt, alloc, &[SITE, ORDER, DRAW, END]));
    }
}

/// What comes, how the session ends, and what is put.
type Ending<'a> = (&'a [u8], SessionEnd, &'a [u8]);

/// Sessions without a deed, and what they end by.
const ENDINGS: [Ending; 7] = [
    (b"\r\n", SessionEnd::Ended, b""),
    (b"GET /batches/B9 HT", SessionEnd::Cut, b""),
    (
        b"GET /batches/B9 HTTP/1.0\r\n\r\nGET",
        SessionEnd::Ended,
        b"HTTP/1.1 404 Not Found\r\ncontent-length: 35\r\ncontent-type: application/json\r\nconnection: close\r\n\r\n{\"fault\":\"UnknownBatch\",\"ok\":false}",
    ),
    (
        b"GET /batch/B9 HTTP/1.1\r\n\r\n",
        SessionEnd::Refused(404),
        b"HTTP/1.1 404 Not Found\r\ncontent-length: 30\r\ncontent-type: application/json\r\nconnection: close\r\n\r\n{\"fault\":\"NoRoute\",\"ok\":false}",
    ),
    (
        b"DELETE /batches/B9 HTTP/1.1\r\n\r\n",
        SessionEnd::Refused(405),
        b"HTTP/1.1 405 Method Not Allowed\r\ncontent-length: 32\r\ncontent-type: application/json\r\nconnection: close\r\n\r\n{\"fault\":\"BadMethod\",\"ok\":false}",
    ),
    (
        b"POST /stations/P1/requests/1 HTTP/1.1\r\n\r\n",
        SessionEnd::Refused(411),
        b"HTTP/1.1 411 Length Required\r\ncontent-length: 31\r\ncontent-type: application/json\r\nconnection: close\r\n\r\n{\"fault\":\"NoLength\",\"ok\":false}",
    ),
    (
        b"POST /stations/P1/requests/1 HTTP/1.1\r\ntransfer-encoding: chunked\r\n\r\n",
        SessionEnd::Refused(501),
        b"HTTP/1.1 501 Not Implemented\r\ncontent-length: 34\r\ncontent-type: application/json\r\nconnection: close\r\n\r\n{\"fault\":\"ChunkedBody\",\"ok\":false}",
    ),
];

/// All of them come to one site, one after the other.
#[test]
fn each_end_of_a_session(rt: HostRuntime) {
    let alloc = rt.alloc();
    let site = joined(&rt, alloc, &[SITE, END]);
    let sessions = ENDINGS.map(|(requests, end, answers)| Session {
        worker: 0,
        drops: true,
        requests,
        end,
        answers,
    });
    let devices = devices(&rt, alloc, &site, &[], &[]);
    let disk = expect_served(&rt, alloc, devices, &sessions, &[]);
    assert!(rt; disk.image(true) == site);
}
