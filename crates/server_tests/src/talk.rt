//! Requests and their answers as bytes.

use crate::sessions::Session;
use site_server::SessionEnd;
use std::alloc::Global;
use std::process::Abort;

/// What is asked and told: a path; the deed of a POST, or nothing for a GET; the status with its phrase, and the body of the
/// answer.
pub(crate) type Row<'a> = (&'a str, &'a str, &'a str, &'a str);

pub(crate) const OK: &str = "200 OK";

pub(crate) const CONFLICT: &str = "409 Conflict";

pub(crate) const NOT_FOUND: &str = "404 Not Found";

pub(crate) const BAD_REQUEST: &str = "400 Bad Request";

pub(crate) const UNAVAILABLE: &str = "503 Service Unavailable";

/// What most deeds are told.
pub(crate) const DONE: &str = r#"{"ok":true}"#;

/// No batch has the name.
pub(crate) const UNKNOWN_BATCH: &str = r#"{"fault":"UnknownBatch","ok":false}"#;

/// An entry couldn't be put into the journal.
pub(crate) const DISK_FAULT: &str = r#"{"fault":"DiskFault","ok":false}"#;

/// The order of batch B6.
pub(crate) const ORDER_B6: &str =
    r#"{"do":"order","batch":"B6","gtin":"80614141123458","lot":"LOT6","expiry":"2027-12-31","quantity":2,"case":2,"pallet":0}"#;

/// An order of one new batch was accepted.
pub(crate) const ORDERED: &str = r#"{"already":0,"new":1,"ok":true}"#;

/// The draw of two serials of B6, and what it is told where the words are 5 and 7.
pub(crate) const DRAW_B6: &str = r#"{"do":"draw","batch":"B6","count":2}"#;

pub(crate) const DRAWN: &str = r#"{"ok":true,"serials":["000005","000007"]}"#;

/// Requests, and the answers to them.
#[derive(Drop)]
pub(crate) struct Talk {
    pub(crate) requests: String,
    pub(crate) answers: String,
}

impl Talk {
    /// A session of the worker, whose link moves one byte a call where `drops`. It ends between two requests, or behind the
    /// last one.
    pub(crate) fn session(&self, worker: usize, drops: bool) -> Session<'_> {
        Session {
            worker,
            drops,
            requests: self.requests.as_bytes(),
            end: SessionEnd::Ended,
            answers: self.answers.as_bytes(),
        }
    }
}

fn push(rt: &impl Abort, text: &mut String, more: &str) {
    text.push_str(more).expect(rt, "memory is ample");
}

/// The fields that a last request and its answer have more.
fn close_field(closes: bool) -> &'static str {
    if closes { "connection: close\r\n" } else { "" }
}

/// Puts a request, with a body where it is a POST.
pub(crate) fn ask(
    rt: &impl Abort,
    alloc: Global,
    requests: &mut String,
    path: &str,
    deed: &str,
    closes: bool,
) {
    let close = close_field(closes);
    let length = deed.len();
    let text = if deed.is_empty() {
        format!(in alloc; "GET {path} HTTP/1.1\r\nhost: localhost\r\n{close}\r\n")
    } else {
        format!(in alloc;
            "POST {path} HTTP/1.1\r\nhost: localhost\r\ncontent-length: {length}\r\n{close}\r\n{deed}"
        )
    };
    push(rt, requests, text.expect(rt, "memory is ample").as_str());
}

/// Puts an answer: JSON, or the text of a report.
pub(crate) fn tell(
    rt: &impl Abort,
    alloc: Global,
    answers: &mut String,
    status: &str,
    body: &str,
    closes: bool,
) {
    let close = close_field(closes);
    let length = body.len();
    let kind = if body.starts_with("{") {
        "application/json"
    } else {
        "text/plain"
    };
    let text = format!(in alloc;
        "HTTP/1.1 {status}\r\ncontent-length: {length}\r\ncontent-type: {kind}\r\n{close}\r\n{body}"
    );
    push(rt, answers, text.expect(rt, "memory is ample").as_str());
}

/// The rows as bytes. The last one ends the session where `closes`.
pub(crate) fn talk_of(rt: &impl Abort, alloc: Global, rows: &[Row], closes: bool) -> Talk {
    let mut talk = Talk {
        requests: String::new(alloc),
        answers: String::new(alloc),
    };
    for (at, (path, deed, status, body)) in rows.iter().enumerate() {
        let last = closes && at + 1 == rows.len();
        ask(rt, alloc, &mut talk.requests, path, deed, last);
        tell(rt, alloc, &mut talk.answers, status, body, last);
    }
    talk
}
