//! Worked sessions: the bytes of requests, and those of answers.
ghost use Rattle.std.specs.Prelude.{Some};

use gs1_keys::Text20;
use outside::{Failed, MemorySink, MemorySource, Sink, Source};
use station_http::{Asked, Conn, HttpFault, Kind, Target, all_of, put_answer};
use std::alloc::Global;
use std::process::Abort;

/// A source that gives one byte at a time.
#[derive(Drop)]
struct DropsSource<'a> {
    rest: &'a [u8],
}

impl Source for DropsSource<'_> {
    ghost left = { λ s. Some s.rest.now };

    ghost read_faults = { λ _. 0 };

    fn take(&mut self, piece: &mut [u8]) -> Result<usize, Failed> {
        match self.rest.split_first() {
            None => Ok(0),
            Some((first, rest)) => {
                piece[0] = *first;
                self.rest = rest;
                Ok(1)
            }
        }
    }
}

/// A sink that takes one byte a call.
#[derive(Drop)]
struct DropsSink {
    inner: MemorySink,
}

impl Sink for DropsSink {
    ghost held = { λ s. ⟦<MemorySink as Sink>⟧.held s.inner };

    ghost write_faults = { λ s. ⟦<MemorySink as Sink>⟧.write_faults s.inner };

    fn put(&mut self, piece: &[u8]) -> Result<usize, Failed> {
        self.inner.put(&piece[..1])
    }
}

/// How the bytes end, which come one by one and hold so many requests.
fn end_after(rt: &impl Abort, alloc: Global, count: usize, bytes: &[u8]) -> Result<(), HttpFault> {
    let mut source = DropsSource { rest: bytes };
    let session = all_of(alloc, &mut source).expect(rt, "memory is ample");
    assert!(rt; session.requests.len() == count);
    session.end
}

fn name(rt: &impl Abort, text: &[u8]) -> Text20 {
    Text20::read(text).expect(rt, "a name")
}

const TWO: &[u8] =
    b"\r\nGET /batches/B5 HTTP/1.1\r\nhost: a\r\n\r\nGET /batches/B6 HTTP/1.1\r\ncontent-length: 3\r\nContent-Length: 03\r\nConnection: keep-alive, \tClose \r\n\r\nabcGET /batches/B7 HTTP/1.1\r\n\r\n";

/// Compares what a request asks.
fn expect_asked(rt: &impl Abort, asked: &Asked, batch: &[u8], body: &[u8], close: bool) {
    let batch = name(rt, batch);
    assert!(rt; asked.target == Target::Report { batch });
    assert!(rt; asked.body.bytes() == body);
    assert!(rt; asked.close == close);
}

/// Compares the two requests and the end.
fn expect_two<S: Source>(rt: &impl Abort, alloc: Global, source: &mut S) {
    let session = all_of(alloc, source).expect(rt, "memory is ample");
    assert!(rt; session.end == Ok(()));
    let two = session.requests.len() == 2;
    assert!(rt; two);
    if two {
        expect_asked(rt, &session.requests[0], b"B5", b"", false);
        expect_asked(rt, &session.requests[1], b"B6", b"abc", true);
    }
}

/// A source in memory, whose calls of these numbers fail.
fn source_of(rt: &impl Abort, alloc: Global, bytes: &[u8], failing: &[u64]) -> MemorySource {
    let bytes = bytes.to_vec(alloc).expect(rt, "memory is ample");
    let failing = failing.to_vec(alloc).expect(rt, "memory is ample");
    MemorySource::new(bytes, failing)
}

#[test]
fn two_requests_however_they_are_cut(rt: HostRuntime) {
    let alloc = rt.alloc();
    expect_two(&rt, alloc, &mut source_of(&rt, alloc, TWO, &[]));
    expect_two(&rt, alloc, &mut DropsSource { rest: TWO });
}

#[test]
fn each_fault_of_a_head(rt: HostRuntime) {
    for (bytes, fault) in [
        (
            b"POST /stations/P1/requests/1 HTTP/1.1\ncontent-length: +5\n\n".as_slice(),
            HttpFault::BadHead,
        ),
        (
            b"POST /stations/P1/requests/1 HTTP/1.1\ncontent-length: 5\ncontent-length: 6\n\n",
            HttpFault::BadHead,
        ),
        (
            b"GET /batches/B5 HTTP/1.1\ncontent-length: x\ntransfer-encoding: chunked\n\n",
            HttpFault::BadHead,
        ),
        (b"GET /batches/B5 HTTP/1.2\n\n", HttpFault::BadHead),
        (
            b"POST /stations/P1/requests/1 HTTP/1.1\nTransfer-Encoding: chunked\n\n",
            HttpFault::ChunkedBody,
        ),
        (
            b"POST /stations/P1/requests/1 HTTP/1.1\n\n",
            HttpFault::NoLength,
        ),
        (
            b"POST /stations/P1/requests/1 HTTP/1.1\ncontent-length: 1048577\n\n",
            HttpFault::BodyTooLong,
        ),
        (
            b"GET /units/106141410000000019?x HTTP/1.1\n\n",
            HttpFault::NoRoute,
        ),
        (
            b"GET /units/106141410000000018 HTTP/1.1\n\n",
            HttpFault::NoRoute,
        ),
        (b"DELETE /batches/B6 HTTP/1.1\n\n", HttpFault::BadMethod),
        (
            b"GET /stations/P1/requests/1 HTTP/1.1\n\n",
            HttpFault::BadMethod,
        ),
    ] {
        assert!(rt; end_after(&rt, rt.alloc(), 0, bytes) == Err(fault));
    }
}

#[test]
fn each_end(rt: HostRuntime) {
    for (count, bytes, end) in [
        (0, b"\r\n\r\n".as_slice(), Ok(())),
        (0, b"\r", Err(HttpFault::Cut(1))),
        (0, b"\nGET / HTTP/1.1\r\n", Err(HttpFault::Cut(16))),
        (
            0,
            b"GET /batches/ HTTP/1.1\ncontent-length: 3\n\nab",
            Err(HttpFault::Cut(44)),
        ),
        (1, b"GET /batches/B5 HTTP/1.0\n\nGET", Ok(())),
    ] {
        assert!(rt; end_after(&rt, rt.alloc(), count, bytes) == end);
    }
}

/// A head of so many bytes.
fn head_of(rt: &impl Abort, alloc: Global, length: usize) -> Vec<u8> {
    let mut bytes = Vec::new(alloc);
    bytes
        .extend_from_slice(b"GET /batches/B5 HTTP/1.1\nx: ")
        .expect(rt, "memory is ample");
    for _ in bytes.len()..length {
        bytes.push(b'a').expect(rt, "memory is ample");
    }
    bytes
        .extend_from_slice(b"\n\n")
        .expect(rt, "memory is ample");
    bytes
}

#[test]
fn long_heads(rt: HostRuntime) {
    let alloc = rt.alloc();
    let longest = head_of(&rt, alloc, 8190);
    assert!(rt; end_after(&rt, alloc, 1, &longest) == Ok(()));
    let longer = head_of(&rt, alloc, 8191);
    assert!(rt; end_after(&rt, alloc, 0, &longer) == Err(HttpFault::HeadTooLong));
    let no_end = [b'a'; 8192];
    assert!(rt; end_after(&rt, alloc, 0, &no_end) == Err(HttpFault::HeadTooLong));
}

/// A short request and one of 20,000 bytes.
fn short_and_long(rt: &impl Abort, alloc: Global) -> Vec<u8> {
    let mut bytes = Vec::new(alloc);
    bytes
        .extend_from_slice(
            b"GET /batches/B5 HTTP/1.1\n\nGET /batches/B6 HTTP/1.1\ncontent-length: 20000\n\n",
        )
        .expect(rt, "memory is ample");
    for _ in 0..20_000 {
        bytes.push(b'a').expect(rt, "memory is ample");
    }
    bytes
}

#[test]
fn a_source_fails_at_each_call_in_turn(rt: HostRuntime) {
    let bytes = short_and_long(&rt, rt.alloc());
    for (call, count) in [(1, 0), (2, 1), (3, 1), (4, 2)] {
        let mut source = source_of(&rt, rt.alloc(), &bytes, &[call]);
        let session = all_of(rt.alloc(), &mut source).expect(&rt, "memory is ample");
        assert!(rt; session.end == Err(HttpFault::ReadFault));
        assert!(rt; session.requests.len() == count);
    }
}

/// Compares whether a request comes next, and whether another one or a fault waits behind it.
fn expect_next(
    rt: &impl Abort,
    conn: &mut Conn,
    source: &mut MemorySource,
    comes: bool,
    waits: bool,
) {
    assert!(rt; conn.next(source).is_ok() == comes);
    assert!(rt; conn.waiting() == waits);
}

#[test]
fn it_waits_with_a_whole_request_or_a_fault(rt: HostRuntime) {
    let alloc = rt.alloc();
    let bytes = b"GET /batches/B5 HTTP/1.1\n\nGET /batches/B6 HTTP/1.1\n\nGET /batches/";
    let mut source = source_of(&rt, alloc, bytes, &[]);
    let mut conn = Conn::new(alloc).expect(&rt, "memory is ample");
    assert!(rt; !conn.waiting());
    expect_next(&rt, &mut conn, &mut source, true, true);
    expect_next(&rt, &mut conn, &mut source, true, false);
    expect_next(&rt, &mut conn, &mut source, false, true);
    assert!(rt; conn.next(&mut source).err() == Some(HttpFault::Spent));
}

const ANSWERS: &[u8] =
    b"HTTP/1.1 409 Conflict\r\ncontent-length: 34\r\ncontent-type: application/json\r\n\r\n{\"ok\":false,\"rule\":\"UnknownBatch\"}HTTP/1.1 200 OK\r\ncontent-length: 0\r\ncontent-type: text/plain\r\nconnection: close\r\n\r\n";

const UNKNOWN_BATCH: &[u8] = b"{\"ok\":false,\"rule\":\"UnknownBatch\"}";

/// Takes the one request of these bytes.
fn one_request(rt: &impl Abort, conn: &mut Conn, bytes: &[u8]) -> Asked {
    let mut source = DropsSource { rest: bytes };
    match conn.next(&mut source) {
        Ok(asked) => asked.expect(rt, "a request"),
        Err(fault) => Err(fault).expect(rt, "a request without a fault"),
    }
}

#[test]
fn a_request_and_its_answer(rt: HostRuntime) {
    let alloc = rt.alloc();
    let bytes =
        b"POST /stations/P1/requests/1 HTTP/1.1\r\nhost: localhost\r\ncontent-length: 27\r\n\r\n{\"do\":\"start\",\"batch\":\"B9\"}";
    let mut conn = Conn::new(alloc).expect(&rt, "memory is ample");
    let asked = one_request(&rt, &mut conn, bytes);
    let station = name(&rt, b"P1");
    assert!(rt; asked.target == Target::Submit { station, number: 1 });
    assert!(rt; asked.body.bytes() == b"{\"do\":\"start\",\"batch\":\"B9\"}".as_slice());
    let mut sink = MemorySink::new(alloc, Vec::new(alloc));
    assert!(rt;
        conn.answer(&mut sink, 409, Kind::Json, UNKNOWN_BATCH, asked.close)
            .is_ok()
    );
    assert!(rt; put_answer(&mut sink, 200, Kind::Text, b"", true).is_ok());
    assert!(rt; sink.bytes() == ANSWERS);
}

#[test]
fn a_sink_fails_at_each_call_in_turn(rt: HostRuntime) {
    let alloc = rt.alloc();
    for call in [1, 2, 75, 76, 77, 78, 111, 112] {
        let failing = [call].to_vec(alloc).expect(&rt, "memory is ample");
        let mut sink = DropsSink {
            inner: MemorySink::new(alloc, failing),
        };
        let answer = put_answer(&mut sink, 409, Kind::Json, UNKNOWN_BATCH, false);
        assert!(rt; answer.is_ok() == (call > 111));
        assert!(rt; sink.inner.bytes() == &ANSWERS[..call as usize - 1]);
    }
}
