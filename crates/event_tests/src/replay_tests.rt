//! What events lead to.
use crate::example::{case, gln, item, pallet};
use epc_urn::Epc;
use epcis_events::{Action, Disposition, Event, Named, Replay, Step, replay_all};
use gs1_keys::Sscc;
use std::alloc::Global;
use std::process::Abort;

fn named(rt: &impl Abort, alloc: Global, epcs: &[Epc]) -> Named {
    let mut named = Named::new(alloc);
    for name in epcs {
        named.push((*name, 7)).expect(rt, "memory is ample");
    }
    named
}

/// An event with these parts.
fn event(
    rt: &impl Abort,
    alloc: Global,
    action: Action,
    parent: Option<Sscc>,
    epcs: &[Epc],
) -> Event {
    Event {
        aggregation: parent.is_some(),
        action,
        step: Step::Shipping,
        disposition: Disposition::InTransit,
        epcs: named(rt, alloc, epcs),
        parent: parent.map(|sscc| (sscc, 7)),
        time: 0,
        place: (gln(rt), 7),
        offset: *b"+00:00",
        ilmd: None,
    }
}

fn one(rt: &impl Abort) -> Epc {
    item(rt, b"6789")
}

fn cased(rt: &impl Abort) -> Epc {
    Epc::Unit(case(rt))
}

fn palleted(rt: &impl Abort) -> Epc {
    Epc::Unit(pallet(rt))
}

/// A case with an item in it on a pallet, all live.
fn stacked(rt: &impl Abort, alloc: Global) -> Replay {
    let all = [one(rt), cased(rt), palleted(rt)];
    let made = event(rt, alloc, Action::Add, None, &all);
    let inside = [one(rt)];
    let packed = event(rt, alloc, Action::Add, Some(case(rt)), &inside);
    let on_top = [cased(rt)];
    let stacked = event(rt, alloc, Action::Add, Some(pallet(rt)), &on_top);
    let seen = event(rt, alloc, Action::Observe, None, &inside);
    replay_all(alloc, &[made, packed, stacked, seen]).expect(rt, "memory is ample")
}

fn expect_live(rt: &impl Abort, replay: &Replay, live: &[Epc]) {
    assert!(rt; replay.live().as_slice() == live);
}

fn expect_packing(rt: &impl Abort, replay: &Replay, packing: &[(Epc, Sscc)]) {
    assert!(rt; replay.packing().as_slice() == packing);
}

/// Feeds an event that deletes.
fn delete(rt: &impl Abort, alloc: Global, replay: &mut Replay, parent: Option<Sscc>, epcs: &[Epc]) {
    let deleted = event(rt, alloc, Action::Delete, parent, epcs);
    replay.feed(&deleted).expect(rt, "memory is ample");
}

/// The pairs of the item in its case, and of the case on its pallet.
fn in_case(rt: &impl Abort) -> (Epc, Sscc) {
    (one(rt), case(rt))
}

fn on_pallet(rt: &impl Abort) -> (Epc, Sscc) {
    (cased(rt), pallet(rt))
}

#[test]
fn adding_makes_live_and_packs(rt: HostRuntime) {
    let replay = stacked(&rt, rt.alloc());
    expect_live(&rt, &replay, &[one(&rt), cased(&rt), palleted(&rt)]);
    expect_packing(&rt, &replay, &[in_case(&rt), on_pallet(&rt)]);
}

#[test]
fn deleting_takes_out(rt: HostRuntime) {
    let alloc = rt.alloc();
    let mut replay = stacked(&rt, alloc);
    let inside = [one(&rt)];
    delete(&rt, alloc, &mut replay, Some(pallet(&rt)), &inside);
    expect_packing(&rt, &replay, &[in_case(&rt), on_pallet(&rt)]);
    delete(&rt, alloc, &mut replay, Some(case(&rt)), &inside);
    expect_packing(&rt, &replay, &[on_pallet(&rt)]);
    delete(&rt, alloc, &mut replay, Some(pallet(&rt)), &[]);
    expect_packing(&rt, &replay, &[]);
    let gone = [palleted(&rt), one(&rt)];
    delete(&rt, alloc, &mut replay, None, &gone);
    expect_live(&rt, &replay, &[cased(&rt)]);
}
