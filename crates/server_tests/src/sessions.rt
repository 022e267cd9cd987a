//! Sessions of two workers at one desk, one after the other, over devices in memory.
ghost use Rattle.std.specs.Prelude.{◌≡◌, ◌<◌, [], vec_len};
ghost use Rattle.site_store.specs.Open.{HasBegun, IsOpen};
ghost use Rattle.site_store.specs.Standing.{noted_in};
ghost use Rattle.turn_desk.specs.Tokens.{IsCrew};

use crate::cut_link::CutLink;
use deed_words::Note;
use outside::{Clock, Disk, Link, MemoryClock, MemoryDisk, MemoryWords, Words};
use site_server::{SessionEnd, serve_connection};
use site_store::{Devices, Row, Store};
use site_turns::DeskStore;
use std::alloc::Global;
use std::process::Abort;
use std::sync::Wait;
use turn_desk::{Desk, Pass};

/// The journal of a site with two products, of which the second has serials of six digits, a planner, two lines and a
/// station of quality assurance. A closed gate comes behind it and behind its records.
pub(crate) const SITE: &[u8] =
    b"\x01PACKSITE\0\0\0\x5a\x020614141000012\x070614141\x01\0\0\0\0\0\0\0\x01+00:00\0\x0200614141123452\x07\x0a\x0180614141123458\x07\x06\x01\x04\x02P1\x01\x02L1\x02\x02L2\x02\x02Q1\x03";

/// The record of P1's order of batch B6, its request 1.
pub(crate) const ORDER: &[u8] =
    b"\x01\0\0\0\x3b\x81\0\0\0\0\0\0\0\0\x01\0\0\0\x01\x9b\x76\xda\xa8\0\0\x01\x02B680614141123458\x04LOT6271231\0\0\0\x02\0\x02\0\0\0\0";

/// The record of its draw of 000005 and 000007, its request 2.
pub(crate) const DRAW: &[u8] =
    b"\x01\0\0\0\x2c\x81\0\0\0\0\0\0\0\0\x02\0\0\0\x01\x9b\x76\xda\xa8\0\0\x04\x02B6\0\0\0\x02\0\x02\x06000005\x06000007";

/// A gate that is closed.
pub(crate) const END: &[u8] = b"\0";

/// The first moment of the year 2026, at which all of it was written.
const MOMENT: u64 = 1_767_225_600_000;

/// A session: the worker, 0 or 1; whether its link moves one byte a call; the bytes that come; how it ends, and all that is
/// put.
#[derive(Clone, Copy)]
pub(crate) struct Session<'a> {
    pub(crate) worker: usize,
    pub(crate) drops: bool,
    pub(crate) requests: &'a [u8],
    pub(crate) end: SessionEnd,
    pub(crate) answers: &'a [u8],
}

/// Bytes in memory.
pub(crate) fn list<T: Copy + Drop>(rt: &impl Abort, alloc: Global, items: &[T]) -> Vec<T> {
    items.to_vec(alloc).expect(rt, "memory is ample")
}

/// The parts, one behind the other.
pub(crate) fn joined(rt: &impl Abort, alloc: Global, parts: &[&[u8]]) -> Vec<u8> {
    let mut all = Vec::new(alloc);
    for part in parts {
        all.extend_from_slice(part).expect(rt, "memory is ample");
    }
    all
}

/// A disk of these bytes, whose calls of these numbers fail, a clock that stands still, and these random words.
pub(crate) fn devices(
    rt: &impl Abort,
    alloc: Global,
    disk: &[u8],
    failing: &[u64],
    words: &[u64],
) -> Devices<MemoryDisk, MemoryClock, MemoryWords> {
    Devices {
        disk: MemoryDisk::new(alloc, list(rt, alloc, disk), list(rt, alloc, failing)),
        clock: MemoryClock::new(list(rt, alloc, &[MOMENT; 2048]), Vec::new(alloc)),
        words: MemoryWords::new(list(rt, alloc, words), Vec::new(alloc)),
    }
}

/// How many calls of the disk a load makes: the least n of which none fails.
pub(crate) fn calls_of_a_load(rt: &impl Abort, alloc: Global, disk: &[u8]) -> u64 {
    for n in 1..64 {
        if Store::load(alloc, devices(rt, alloc, disk, &[n], &[])).is_ok() {
            return n - 1;
        }
    }
    0
}

/// Serves a link with the pass of a worker, unless it had 1,000 turns.
fn serve_link<L: Link, D: Disk, C: Clock, W: Words, R: Wait>(
    rt: &R,
    alloc: Global,
    desk: &Desk<DeskStore<D, C, W>>,
    passes: &mut Vec<Pass>,
    worker: usize,
    link: &mut L,
) -> Option<SessionEnd>
    requires crew { IsCrew desk.now passes.old.items }
    requires here { worker < vec_len passes.old }
    ensures crew { IsCrew desk.now passes.new.items }
    ensures long { vec_len passes.new ≡ vec_len passes.old }
{
    let pass = &mut passes[worker];
    if pass.turns() >= 1000 {
        return None;
    }
    Some(serve_connection(rt, alloc, desk, pass, link))
}

/// Serves the sessions, one after the other.
fn serve_each<D: Disk, C: Clock, W: Words, R: Wait + Abort>(
    rt: &R,
    alloc: Global,
    desk: &Desk<DeskStore<D, C, W>>,
    passes: &mut Vec<Pass>,
    sessions: &[Session],
)
    requires crew { IsCrew desk.now passes.old.items }
    requires two { vec_len passes.old ≡ 2 }
    ensures crew { IsCrew desk.now passes.new.items }
    ensures two { vec_len passes.new ≡ 2 }
{
    for session in sessions {
        let mut link = CutLink::new(alloc, list(rt, alloc, session.requests), session.drops);
        let worker = if session.worker == 0 { 0 } else { 1 };
        let end = serve_link(rt, alloc, desk, passes, worker, &mut link);
        assert!(rt; end == Some(session.end));
        assert!(rt; link.put_bytes() == session.answers);
    }
}

/// The note without its group.
fn note_of(row: &Row) -> Note {
    match row {
        Row::Done(place, worker, _) => Note::Done(*place, *worker),
        Row::Fault(kind, worker, _) => Note::Fault(*kind, *worker),
    }
}

/// Whether the rows are these notes.
fn are_notes(rows: &[Row], notes: &[Note]) -> bool {
    let mut same = rows.len() == notes.len();
    for (row, note) in rows.iter().zip(notes) {
        same = same && note_of(row) == *note;
    }
    same
}

/// The store that the journal holds.
fn loaded<D: Disk + Drop, C: Clock + Drop, W: Words + Drop>(
    rt: &impl Abort,
    alloc: Global,
    devices: Devices<D, C, W>,
) -> Store<D, C, W>
    ensures open { IsOpen D.Disk C.Clock W.Words result }
    ensures begun { HasBegun D.Disk (D.image devices.disk) result }
    ensures noted { noted_in result.log.items ≡ [] }
    ensures opened { result.opened.value ≡ devices }
{
    match Store::load(alloc, devices) {
        Ok(store) => store,
        Err((fault, _devices)) => Err(fault).expect(rt, "a store is loaded"),
    }
}

/// Two workers serve the sessions at the desk of the store that the journal holds. Gives the store back.
fn serve_all<D: Disk + Drop, C: Clock + Drop, W: Words + Drop, R: Wait + Abort>(
    rt: &R,
    alloc: Global,
    devices: Devices<D, C, W>,
    sessions: &[Session],
) -> Store<D, C, W> {
    let store = loaded(rt, alloc, devices);
    let (desk, mut passes) = Desk::start(alloc, DeskStore { store }, 2)
        .ok()
        .expect(rt, "memory is ample");
    serve_each(rt, alloc, &desk, &mut passes, sessions);
    let DeskStore { store } = desk.close(passes);
    store
}

/// Two workers serve the sessions at the desk of the store that the journal holds, and each goes as it says. Behind them the
/// store has these notes. Gives the disk back.
pub(crate) fn expect_served<R: Wait + Abort>(
    rt: &R,
    alloc: Global,
    devices: Devices<MemoryDisk, MemoryClock, MemoryWords>,
    sessions: &[Session],
    notes: &[Note],
) -> MemoryDisk {
    let store = serve_all(rt, alloc, devices, sessions);
    assert!(rt; are_notes(store.notes(), notes));
    store.into_devices().disk
}
