//! Groups of requests on a store, each in one record: what a stop leaves of one, and what settles it.
ghost use Rattle.std.specs.Prelude.{◌≡◌, ◌<◌, true, length};
ghost use Rattle.deed_words.specs.Proper.{IsProperAsk};
ghost use Rattle.site_store.specs.Asked.{AreOf};
ghost use Rattle.site_store.specs.Open.{IsOpen};

use crate::journal_tests::{DRAW, END, ORDER, SITE};
use crate::program::{Failing, MOMENT, NOTHING, calls_of_a_load, devices, joined};
use deed_words::{Ask, Deed, Reply, Setup, StationId};
use gs1_keys::Text20;
use outside::{Clock, Disk, MemoryClock, MemoryDisk, MemoryWords, Words};
use site_store::{Outcome, Store};
use std::alloc::Global;
use std::process::Abort;

/// What all requests of a group are told.
#[derive(Clone, Copy, PartialEq)]
enum Told {
    Done,
    DiskFault,
    Other,
}

fn told_in(outcome: &Outcome) -> Told {
    match outcome {
        Outcome::Replied(Reply::Accepted(_)) => Told::Done,
        Outcome::DiskFault => Told::DiskFault,
        _ => Told::Other,
    }
}

/// What each of so many is told, where that is one thing.
fn told_all(outcomes: &[Outcome], count: usize) -> Told {
    let Some(first) = outcomes.first() else {
        return Told::Other;
    };
    let told = told_in(first);
    for outcome in outcomes {
        if told_in(outcome) != told {
            return Told::Other;
        }
    }
    if outcomes.len() == count {
        told
    } else {
        Told::Other
    }
}

/// A request of the planner.
fn ask(number: u64, deed: Deed) -> Ask {
    Ask {
        station: StationId(0),
        number,
        operator: None,
        deed,
    }
}

/// Whether the request is proper, and of a station of the site.
fn is_of(setup: &Setup, ask: &Ask) -> bool
    ensures { result ≡ true → (ask.now.station < length setup.now.stations) × IsProperAsk ask.now }
{
    usize::from(ask.station.0) < setup.stations.len() && ask.deed.is_proper()
}

/// Puts a request of the site behind the others.
fn put(rt: &impl Abort, setup: &Setup, asks: &mut Vec<Ask>, ask: Ask)
    requires { AreOf setup.now asks.old.items }
    ensures { AreOf setup.now asks.new.items }
{
    let good = is_of(setup, &ask);
    assert!(rt; good);
    if good {
        asks.push(ask).expect(rt, "memory is ample");
    }
}

/// The batch is started, and its quantity changed.
fn start_and_amend(rt: &impl Abort, alloc: Global, setup: &Setup) -> Vec<Ask>
    ensures { AreOf setup.now result.items }
{
    let batch = Text20::read(b"B6").expect(rt, "a name");
    let mut asks = Vec::new(alloc);
    put(rt, setup, &mut asks, ask(3, Deed::Start(batch)));
    put(rt, setup, &mut asks, ask(4, Deed::Amend(batch, 3)));
    asks
}

/// So many changes of the batch's quantity.
fn amendments(rt: &impl Abort, alloc: Global, setup: &Setup, count: u32) -> Vec<Ask>
    ensures { AreOf setup.now result.items }
{
    let batch = Text20::read(b"B6").expect(rt, "a name");
    let mut asks = Vec::new(alloc);
    'asks: for at in 0..count {
        let deed = Deed::Amend(batch, at.saturating_add(2));
        put(rt, setup, &mut asks, ask(u64::from(at) + 3, deed));
    }
    asks
}

/// The journal of a site in which a batch was ordered and two serials were drawn.
fn drawn(rt: &impl Abort, alloc: Global) -> Vec<u8> {
    joined(rt, alloc, &[SITE, ORDER, DRAW, END])
}

/// A store that is loaded from these bytes, over a disk whose call of this number fails.
fn loaded(
    rt: &impl Abort,
    alloc: Global,
    bytes: &[u8],
    call: u64,
) -> Store<MemoryDisk, MemoryClock, MemoryWords>
    ensures { IsOpen ⟦<MemoryDisk as Disk>⟧ ⟦<MemoryClock as Clock>⟧ ⟦<MemoryWords as Words>⟧ result }
{
    let failing = Failing {
        disk: &[call],
        ..NOTHING
    };
    match Store::load(alloc, devices(rt, alloc, bytes, MOMENT, &[], failing)) {
        Ok(store) => store,
        Err((fault, _devices)) => Err(fault).expect(rt, "a store is loaded"),
    }
}

/// Submits a group, as the first worker.
fn submit<D: Disk, C: Clock, W: Words>(
    rt: &impl Abort,
    alloc: Global,
    store: &mut Store<D, C, W>,
    asks: Vec<Ask>,
) -> Told
    requires open { IsOpen D.Disk C.Clock W.Words store.old }
    requires stations { AreOf store.old.site.setup asks.items }
    ensures { IsOpen D.Disk C.Clock W.Words store.new }
{
    let count = asks.len();
    let mut outcomes = Vec::new(alloc);
    outcomes.reserve(count).expect(rt, "memory is ample");
    let fits = 0 < count && count <= 16;
    assert!(rt; fits);
    if !fits {
        return Told::Other;
    }
    store.submit_all(0, asks, &mut outcomes);
    told_all(&outcomes, count)
}

/// Submits so many changes.
fn amend<D: Disk, C: Clock, W: Words>(
    rt: &impl Abort,
    alloc: Global,
    store: &mut Store<D, C, W>,
    count: u32,
) -> Told
    requires { IsOpen D.Disk C.Clock W.Words store.old }
    ensures { IsOpen D.Disk C.Clock W.Words store.new }
{
    let asks = amendments(rt, alloc, store.site().setup(), count);
    submit(rt, alloc, store, asks)
}

/// What the start and the change are told over a disk whose call of this number fails, and the bytes that a stop behind
/// them leaves.
fn two_stopped(rt: &impl Abort, alloc: Global, call: u64, loses: bool) -> (Told, Vec<u8>) {
    let mut store = loaded(rt, alloc, &drawn(rt, alloc), call);
    let asks = start_and_amend(rt, alloc, store.site().setup());
    let told = submit(rt, alloc, &mut store, asks);
    (told, store.into_devices().disk.image(loses))
}

#[test]
fn a_group_is_one_record(rt: HostRuntime) {
    let alloc = rt.alloc();
    let (told, bytes) = two_stopped(&rt, alloc, 0, true);
    assert!(rt; told == Told::Done);
    let group: &[u8] =
        b"\x01\0\0\0\x37\x82\0\0\0\0\0\0\0\0\x03\0\0\0\x01\x9b\x76\xda\xa8\0\0\x03\x02B6\0\0\0\0\0\0\0\0\0\0\x04\0\0\0\x01\x9b\x76\xda\xa8\0\0\x17\x02B6\0\0\0\x03\0\0\0";
    assert!(rt; bytes == joined(&rt, alloc, &[SITE, ORDER, DRAW, group]));
}

/// The sync behind its bytes fails, or the write of them: both are told so, and nothing of the group is loaded.
#[test]
fn a_group_that_is_not_put_is_told_so_to_each(rt: HostRuntime) {
    let alloc = rt.alloc();
    let calls = calls_of_a_load(&rt, alloc, &drawn(&rt, alloc));
    for call in [1, 2] {
        for loses in [false, true] {
            let (told, bytes) = two_stopped(&rt, alloc, calls.saturating_add(call), loses);
            assert!(rt; told == Told::DiskFault);
            assert!(rt; entries_in(&rt, alloc, &bytes) == 2);
        }
    }
}

/// What sixteen changes are told over a disk whose call of this number fails, and the bytes that a stop behind them leaves.
fn stopped(rt: &impl Abort, alloc: Global, call: u64, loses: bool) -> (Told, Vec<u8>) {
    let mut store = loaded(rt, alloc, &drawn(rt, alloc), call);
    let told = amend(rt, alloc, &mut store, 16);
    (told, store.into_devices().disk.image(loses))
}

/// How many entries a journal holds.
fn entries_in(rt: &impl Abort, alloc: Global, bytes: &[u8]) -> usize {
    loaded(rt, alloc, bytes, 0).site().entries()
}

#[test]
fn a_stop_leaves_all_of_a_group_or_nothing(rt: HostRuntime) {
    let alloc = rt.alloc();
    let calls = calls_of_a_load(&rt, alloc, &drawn(&rt, alloc));
    for (call, told, written, synced) in [
        (1, Told::DiskFault, 2, 2),
        (2, Told::DiskFault, 2, 2),
        (3, Told::DiskFault, 2, 2),
        (4, Told::DiskFault, 18, 2),
        (5, Told::Done, 18, 18),
    ] {
        for (loses, entries) in [(false, written), (true, synced)] {
            let (first, bytes) = stopped(&rt, alloc, calls.saturating_add(call), loses);
            assert!(rt; first == told);
            assert!(rt; entries_in(&rt, alloc, &bytes) == entries);
        }
    }
}

/// After the same the first of the changes comes again, alone: whether nothing was pending before it, what it is told, and
/// how many entries there are.
fn settled(rt: &impl Abort, alloc: Global, call: u64) -> (bool, Told, usize) {
    let mut store = loaded(rt, alloc, &drawn(rt, alloc), call);
    let _first = amend(rt, alloc, &mut store, 16);
    let settled = store.settled();
    let told = amend(rt, alloc, &mut store, 1);
    (settled, told, store.site().entries())
}

#[test]
fn a_pending_group_is_settled(rt: HostRuntime) {
    let alloc = rt.alloc();
    let calls = calls_of_a_load(&rt, alloc, &drawn(&rt, alloc));
    for (call, nothing, entries) in [(1, true, 3), (2, true, 3), (3, false, 18), (4, false, 18)] {
        let (settled, told, found) = settled(&rt, alloc, calls.saturating_add(call));
        assert!(rt; settled == nothing);
        assert!(rt; told == Told::Done);
        assert!(rt; found == entries);
    }
}
