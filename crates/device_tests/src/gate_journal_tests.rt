//! A journal of the site 7 8 and the payloads 1 2 3 and 4: written, loaded, cut, damaged, and stopped at each call.
use crate::outside_tests::list;
use gate_journal::{
    Frame, Journal, JournalFault, Loaded, gate_place, one_reading, two_readings, with_or_without,
};
use outside::{Disk, FileDisk, MemoryDisk};
use std::alloc::Global;
use std::fs;
use std::process::Abort;

const WRITTEN: [u8; 30] = [
    1, b'P', b'A', b'C', b'K', b'S', b'I', b'T', b'E', 0, 0, 0, 2, 7, 8, 1, 0, 0, 0, 3, 1, 2, 3, 1,
    0, 0, 0, 1, 4, 0,
];

/// A disk in memory of these bytes, of which the calls of these numbers fail.
fn disk_of(rt: &impl Abort, alloc: Global, bytes: &[u8], failing: &[u64]) -> MemoryDisk {
    MemoryDisk::new(alloc, list(rt, alloc, bytes), list(rt, alloc, failing))
}

/// A journal of the site 7 8.
fn made<D: Disk + Drop>(rt: &impl Abort, alloc: Global, disk: D) -> Journal<D> {
    match Journal::init(alloc, disk, &[7, 8]) {
        Ok(journal) => journal,
        Err((fault, _disk)) => Err(fault).expect(rt, "a journal is made"),
    }
}

/// Adds a payload; whether that was done.
fn add<D: Disk + Drop>(
    rt: &impl Abort,
    alloc: Global,
    journal: &mut Journal<D>,
    payload: &[u8],
) -> bool {
    let fits = payload.len() < 1_000_000 && !journal.pending();
    assert!(rt; fits);
    if !fits {
        return false;
    }
    let frame = Frame::of(alloc, payload).expect(rt, "memory is ample");
    journal.append(&frame).is_ok()
}

/// What a journal of these payloads writes.
fn journal_of(rt: &impl Abort, alloc: Global, first: &[u8], second: &[u8]) -> Vec<u8> {
    let mut journal = made(rt, alloc, disk_of(rt, alloc, &[], &[]));
    assert!(rt; add(rt, alloc, &mut journal, first));
    assert!(rt; add(rt, alloc, &mut journal, second));
    journal.into_disk().image(true)
}

/// How many payloads the bytes hold, or the fault.
fn held(rt: &impl Abort, alloc: Global, bytes: &[u8]) -> Result<usize, JournalFault> {
    match Journal::load(alloc, disk_of(rt, alloc, bytes, &[])) {
        Ok((_journal, loaded)) => Ok(loaded.payloads.len()),
        Err((fault, _disk)) => Err(fault),
    }
}

#[test]
fn a_journal_is_written(rt: HostRuntime) {
    let bytes = journal_of(&rt, rt.alloc(), &[1, 2, 3], &[4]);
    assert!(rt; bytes.as_slice() == WRITTEN.as_slice());
}

/// Compares a payload, and its place among the bytes.
fn expect_payload(rt: &impl Abort, loaded: &Loaded, at: usize, place: u64, bytes: &[u8]) {
    let there = at < loaded.payloads.len();
    assert!(rt; there);
    if there {
        let payload = loaded.payloads.get(at);
        assert!(rt; payload.at == place);
        assert!(rt; payload.bytes.bytes() == bytes);
    }
}

/// What is loaded from bytes without a fault.
fn loaded(rt: &impl Abort, alloc: Global, bytes: &[u8]) -> Loaded {
    match Journal::load(alloc, disk_of(rt, alloc, bytes, &[])) {
        Ok((journal, loaded)) => {
            assert!(rt; !journal.pending());
            loaded
        }
        Err((fault, _disk)) => Err(fault).expect(rt, "a journal is loaded"),
    }
}

#[test]
fn a_journal_is_loaded(rt: HostRuntime) {
    let loaded = loaded(&rt, rt.alloc(), &WRITTEN);
    assert!(rt; loaded.site.bytes() == [7, 8].as_slice());
    assert_eq!(rt; loaded.payloads.len(), 2);
    expect_payload(&rt, &loaded, 0, 15, &[1, 2, 3]);
    expect_payload(&rt, &loaded, 1, 23, &[4]);
}

/// The fault where a journal of the site 9 is to be made over these bytes, which then stay.
fn fault_over(rt: &impl Abort, alloc: Global, bytes: &[u8]) -> Option<JournalFault> {
    match Journal::init(alloc, disk_of(rt, alloc, bytes, &[]), &[9]) {
        Ok(_journal) => None,
        Err((fault, disk)) => {
            assert!(rt; disk.image(false).as_slice() == bytes);
            Some(fault)
        }
    }
}

#[test]
fn a_journal_is_made_once(rt: HostRuntime) {
    let alloc = rt.alloc();
    assert!(rt; fault_over(&rt, alloc, &WRITTEN) == Some(JournalFault::AlreadyThere));
    assert!(rt; fault_over(&rt, alloc, &[0, 1, 2]).is_none());
    assert!(rt; fault_over(&rt, alloc, &[1]).is_none());
}

/// A journal gets the payload 1 2 3 over a disk whose call of this number fails: the content, or what was synced of
/// it, and whether all was done.
fn stopped_at(rt: &impl Abort, alloc: Global, call: u64, synced: bool) -> (Vec<u8>, bool) {
    match Journal::init(alloc, disk_of(rt, alloc, &[], &[call]), &[7, 8]) {
        Ok(mut journal) => {
            let done = add(rt, alloc, &mut journal, &[1, 2, 3]);
            (journal.into_disk().image(synced), done)
        }
        Err((_fault, disk)) => (disk.image(synced), false),
    }
}

/// Compares what is held after a stop.
fn expect_stopped(
    rt: &impl Abort,
    alloc: Global,
    call: u64,
    synced: bool,
    expected: Result<usize, JournalFault>,
) {
    let (bytes, done) = stopped_at(rt, alloc, call, synced);
    // Eight calls make the journal, and four append.
    assert!(rt; done == (call == 13));
    assert!(rt;
        held(rt, alloc, &bytes) == expected,
        "after a stop at {call}"
    );
}

#[test]
fn each_call_of_init_and_append_fails_in_turn(rt: HostRuntime) {
    let alloc = rt.alloc();
    for call in 1..14 {
        let content = match call {
            1..8 => Err(JournalFault::NoJournal),
            8..12 => Ok(0),
            _ => Ok(1),
        };
        expect_stopped(&rt, alloc, call, false, content);
        let synced = match call {
            1..9 => Err(JournalFault::NoJournal),
            9..13 => Ok(0),
            _ => Ok(1),
        };
        expect_stopped(&rt, alloc, call, true, synced);
    }
}

/// Loads bytes from a disk whose call of this number fails; they stay.
fn expect_load(
    rt: &impl Abort,
    alloc: Global,
    bytes: &[u8],
    call: u64,
    expected: Result<usize, JournalFault>,
) {
    let (found, after) = match Journal::load(alloc, disk_of(rt, alloc, bytes, &[call])) {
        Ok((journal, loaded)) => (Ok(loaded.payloads.len()), journal.into_disk().image(true)),
        Err((fault, disk)) => (Err(fault), disk.image(true)),
    };
    assert!(rt; found == expected);
    assert!(rt; after.as_slice() == bytes);
}

#[test]
fn each_call_of_load_fails_in_turn(rt: HostRuntime) {
    for call in 1..4 {
        expect_load(&rt, rt.alloc(), &WRITTEN, call, Err(JournalFault::Disk));
    }
    expect_load(&rt, rt.alloc(), &WRITTEN, 4, Ok(2));
}

#[test]
fn a_long_payload_is_read_in_pieces(rt: HostRuntime) {
    let alloc = rt.alloc();
    let mut payload = vec![in alloc; 5; 70_000].expect(&rt, "memory is ample");
    payload[65_535] = 6;
    payload[65_536] = 7;
    payload[69_999] = 8;
    let written = journal_of(&rt, alloc, &payload, &[4]);
    let loaded = loaded(&rt, alloc, &written);
    expect_payload(&rt, &loaded, 0, 15, &payload);
    expect_payload(&rt, &loaded, 1, 70_020, &[4]);
    // A sync, the size, and three pieces.
    for call in 1..6 {
        expect_load(&rt, alloc, &written, call, Err(JournalFault::Disk));
    }
    expect_load(&rt, alloc, &written, 6, Ok(2));
}

/// A journal whose payload 1 2 3 is pending, since the eleventh call fails, as the other one does.
fn pending_journal(rt: &impl Abort, alloc: Global, call: u64) -> Journal<MemoryDisk> {
    let mut journal = made(rt, alloc, disk_of(rt, alloc, &[], &[11, call]));
    assert!(rt; !add(rt, alloc, &mut journal, &[1, 2, 3]));
    assert!(rt; journal.pending());
    journal
}

#[test]
fn each_call_of_mend_fails_in_turn(rt: HostRuntime) {
    let alloc = rt.alloc();
    for call in [12, 13] {
        let mut journal = pending_journal(&rt, alloc, call);
        assert!(rt; journal.mend().is_err());
        assert!(rt; journal.pending());
        assert!(rt; journal.mend().is_ok());
        assert!(rt; add(&rt, alloc, &mut journal, &[4]));
        assert!(rt; journal.into_disk().image(true).as_slice() == WRITTEN.as_slice());
    }
}

#[test]
fn an_append_fails_behind_a_mended_one(rt: HostRuntime) {
    let alloc = rt.alloc();
    let mut journal = pending_journal(&rt, alloc, 14);
    assert!(rt; journal.mend().is_ok());
    assert!(rt; !add(&rt, alloc, &mut journal, &[4]));
    assert!(rt; held(&rt, alloc, &journal.into_disk().image(true)) == Ok(1));
}

#[test]
fn a_stop_in_mend(rt: HostRuntime) {
    let alloc = rt.alloc();
    for (call, synced, count) in [(12, false, 0), (12, true, 0), (13, false, 1), (13, true, 0)] {
        let mut journal = pending_journal(&rt, alloc, call);
        assert!(rt; journal.mend().is_err());
        let bytes = journal.into_disk().image(synced);
        assert!(rt; held(&rt, alloc, &bytes) == Ok(count));
    }
}

#[test]
fn each_front_of_a_journal(rt: HostRuntime) {
    for count in 0..31 {
        let expected = match count {
            0..2 => Err(JournalFault::NoJournal),
            2..15 => Err(JournalFault::BadRecord(0)),
            15..23 => Err(JournalFault::BadRecord(15)),
            23..29 => Err(JournalFault::BadRecord(23)),
            29 => Err(JournalFault::BadRecord(29)),
            _ => Ok(2),
        };
        assert!(rt;
            held(&rt, rt.alloc(), &WRITTEN[..count]) == expected,
            "{count} bytes"
        );
    }
}

#[test]
fn one_byte_is_damaged(rt: HostRuntime) {
    for (place, byte, expected) in [
        (0, 2, Err(JournalFault::NoJournal)),
        (8, b'F', Err(JournalFault::BadRecord(0))),
        (9, 255, Err(JournalFault::BadRecord(0))),
        (15, 2, Ok(0)),
        (23, 0, Ok(1)),
        (24, 255, Err(JournalFault::BadRecord(23))),
        (29, 1, Err(JournalFault::BadRecord(29))),
        (29, 7, Ok(2)),
    ] {
        let mut bytes = WRITTEN;
        bytes[place] = byte;
        assert!(rt;
            held(&rt, rt.alloc(), &bytes) == expected,
            "{byte} at {place}"
        );
    }
}

#[test]
fn a_frame_grows(rt: HostRuntime) {
    let alloc = rt.alloc();
    let mut frame = Frame::of(alloc, &[1, 9]).expect(&rt, "memory is ample");
    assert_eq!(rt; frame.len(), 2);
    frame.grow(2, &[7, 8]).expect(&rt, "memory is ample");
    assert_eq!(rt; frame.len(), 4);
    let mut journal = made(&rt, alloc, disk_of(&rt, alloc, &[], &[]));
    let free = !journal.pending();
    assert!(rt; free);
    assert!(rt; journal.append(&frame).is_ok());
    let bytes = journal.into_disk().image(true);
    let record = bytes.get(15..).unwrap_or(&[]);
    assert!(rt; record == [1, 0, 0, 0, 4, 2, 9, 7, 8, 0].as_slice());
}

#[test]
fn laws_do_nothing(_rt: HostRuntime) {
    one_reading();
    with_or_without();
    gate_place();
    two_readings();
}

/// Adds so many payloads of so many equal bytes.
fn fill<D: Disk + Drop>(
    rt: &impl Abort,
    alloc: Global,
    journal: &mut Journal<D>,
    count: u32,
    size: usize,
) {
    for number in 0..count {
        let payload = vec![in alloc; (number % 256) as u8; size].expect(rt, "memory is ample");
        assert!(rt; add(rt, alloc, journal, &payload));
    }
}

#[test]
fn many_appends_over_a_disk_in_memory(rt: HostRuntime) {
    let alloc = rt.alloc();
    let mut journal = made(&rt, alloc, disk_of(&rt, alloc, &[], &[]));
    fill(&rt, alloc, &mut journal, 12_844, 300);
    let free = !journal.pending();
    assert!(rt; free);
    // The header has 15 bytes and each record 305.
    assert_eq!(rt; journal.end(), 3_917_435);
    let bytes = journal.into_disk().image(true);
    assert!(rt; held(&rt, alloc, &bytes) == Ok(12_844));
}

/// What a journal of a hundred payloads writes.
fn a_hundred(rt: &impl Abort, alloc: Global) -> Vec<u8> {
    let mut journal = made(rt, alloc, disk_of(rt, alloc, &[], &[]));
    fill(rt, alloc, &mut journal, 100, 200);
    journal.into_disk().image(false)
}

#[test]
fn a_hundred_appends_over_a_file(rt: HostRuntime) {
    let alloc = rt.alloc();
    let path = "journal_of_the_test";
    let mut journal = made(&rt, alloc, FileDisk::open(&rt, ".", path));
    fill(&rt, alloc, &mut journal, 100, 200);
    drop(journal);
    let bytes = fs::read(&rt, path).expect(&rt, "it is there");
    assert!(rt; bytes.as_slice() == a_hundred(&rt, alloc).as_slice());
    assert!(rt; Journal::load(alloc, FileDisk::open(&rt, ".", path)).is_ok());
    fs::remove_file(&rt, path).expect(&rt, "it is there");
}
