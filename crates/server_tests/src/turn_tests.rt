//! Sessions of two workers at one desk.

use crate::session_tests::ORDERED_REPORT;
use crate::sessions::{END, SITE, devices, expect_served, joined};
use crate::talk::{CONFLICT, DRAW_B6, DRAWN, OK, ORDER_B6, ORDERED, Row, talk_of};
use deed_words::Note;

const ORDER: [Row; 1] = [("/stations/P1/requests/1", ORDER_B6, OK, ORDERED)];

const DRAW: [Row; 1] = [("/stations/P1/requests/2", DRAW_B6, OK, DRAWN)];

/// The draw as what comes first: number 2 isn't the next one.
const DRAW_FIRST: [Row; 1] = [(
    "/stations/P1/requests/2",
    DRAW_B6,
    CONFLICT,
    r#"{"fault":"NumberGap","last":0,"ok":false}"#,
)];

/// The batch is shown.
const LOOK: [Row; 1] = [("/batches/B6", "", OK, ORDERED_REPORT)];

/// Each note names its worker, and in the order that was had the answers are those of one worker alone.
#[test]
fn workers_have_turns_in_either_order(rt: HostRuntime) {
    let alloc = rt.alloc();
    let site = joined(&rt, alloc, &[SITE, END]);
    let order = talk_of(&rt, alloc, &ORDER, false);
    let draw = talk_of(&rt, alloc, &DRAW, false);
    for (first, other) in [(0, 1), (1, 0)] {
        let devices = devices(&rt, alloc, &site, &[], &[5, 7]);
        let sessions = [order.session(first, false), draw.session(other, false)];
        let notes = [Note::Done(0, first as u8), Note::Done(1, other as u8)];
        let _disk = expect_served(&rt, alloc, devices, &sessions, &notes);
    }
    let early = talk_of(&rt, alloc, &DRAW_FIRST, false);
    let devices = devices(&rt, alloc, &site, &[], &[5, 7]);
    let sessions = [early.session(1, false), order.session(0, false)];
    let _disk = expect_served(&rt, alloc, devices, &sessions, &[Note::Done(0, 0)]);
}

#[test]
fn a_worker_shows_what_another_one_did(rt: HostRuntime) {
    let alloc = rt.alloc();
    let site = joined(&rt, alloc, &[SITE, END]);
    let order = talk_of(&rt, alloc, &ORDER, false);
    let look = talk_of(&rt, alloc, &LOOK, false);
    let devices = devices(&rt, alloc, &site, &[], &[]);
    let sessions = [order.session(0, false), look.session(1, false)];
    let _disk = expect_served(&rt, alloc, devices, &sessions, &[Note::Done(0, 0)]);
}
