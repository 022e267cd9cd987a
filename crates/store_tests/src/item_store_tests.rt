//! Rows of two batches: found by their names, lent, counted and taken back.
use deed_words::{BatchId, ItemId, State, StationId};
use gs1_keys::{Gtin, Text20};
use item_store::Items;
use std::alloc::Global;
use std::process::Abort;

pub(crate) fn gtin(rt: &impl Abort) -> Gtin {
    Gtin::read(b"80614141123458").expect(rt, "a GTIN")
}

pub(crate) fn text(rt: &impl Abort, characters: &[u8]) -> Text20 {
    Text20::read(characters).expect(rt, "a text")
}

/// Draws a serial of a new name for a batch.
pub(crate) fn draw(rt: &impl Abort, items: &mut Items, serial: &[u8], batch: u16) {
    let gtin = gtin(rt);
    let serial = text(rt, serial);
    let fits = items.len() < 100;
    assert!(rt; fits);
    if !fits {
        return;
    }
    items.ready(1).expect(rt, "memory is ample");
    let old = items.find(&gtin, &serial);
    assert!(rt; old.is_none());
    if old.is_none() {
        let _item = items.add(gtin, serial, BatchId(batch));
    }
}

/// Lends a Fresh serial to a line.
pub(crate) fn lend(rt: &impl Abort, items: &mut Items, at: u32, line: u8) {
    let fresh = at < items.len() && items.row(ItemId(at)).state == State::Fresh;
    assert!(rt; fresh);
    if fresh {
        items.lend(ItemId(at), StationId(line));
    }
}

/// Moves a serial that isn't Fresh.
pub(crate) fn turn(rt: &impl Abort, items: &mut Items, at: u32, to: State) {
    let lent = at < items.len()
        && items.row(ItemId(at)).state != State::Fresh
        && to != State::Fresh;
    assert!(rt; lent);
    if lent {
        items.set_state(ItemId(at), to);
    }
}

/// Makes a serial Fresh again, of no line.
fn bring_back(rt: &impl Abort, items: &mut Items, at: u32) {
    let there = at < items.len();
    assert!(rt; there);
    if there {
        items.set_row(ItemId(at), None, State::Fresh);
    }
}

/// Takes the last row back.
fn remove_last(rt: &impl Abort, items: &mut Items) {
    let some = items.len() > 0;
    assert!(rt; some);
    if some {
        items.remove_last();
    }
}

/// Compares the first Fresh serials of a batch.
fn expect_fresh(rt: &impl Abort, alloc: Global, items: &Items, batch: u16, fresh: &[ItemId]) {
    let found = items
        .first_fresh(alloc, BatchId(batch), 5)
        .expect(rt, "memory is ample");
    assert!(rt; found.as_slice() == fresh);
}

/// Two rows of batch 0, and between them one of batch 7.
fn three(rt: &impl Abort, alloc: Global) -> Items {
    let mut items = Items::new(alloc);
    draw(rt, &mut items, b"A1", 0);
    draw(rt, &mut items, b"A2", 7);
    draw(rt, &mut items, b"A3", 0);
    items
}

/// Compares the place of a serial.
fn expect_place(rt: &impl Abort, items: &Items, serial: &[u8], place: Option<ItemId>) {
    assert!(rt; items.find(&gtin(rt), &text(rt, serial)) == place);
}

#[test]
fn rows_are_found_by_their_names(rt: HostRuntime) {
    let items = three(&rt, rt.alloc());
    items.tell_apart();
    expect_place(&rt, &items, b"A2", Some(ItemId(1)));
    expect_place(&rt, &items, b"A4", None);
    let other = Gtin::read(b"00614141123452").expect(&rt, "a GTIN");
    assert!(rt; items.find(&other, &text(&rt, b"A2")).is_none());
}

#[test]
fn fresh_rows_are_lent_and_taken_back(rt: HostRuntime) {
    let mut items = three(&rt, rt.alloc());
    lend(&rt, &mut items, 0, 3);
    expect_fresh(&rt, rt.alloc(), &items, 0, &[ItemId(2)]);
    assert!(rt; items.was_lent(BatchId(0), StationId(3)));
    assert!(rt; !items.was_lent(BatchId(7), StationId(3)));
    bring_back(&rt, &mut items, 0);
    expect_fresh(&rt, rt.alloc(), &items, 0, &[ItemId(0), ItemId(2)]);
}

/// Compares how many serials of a batch were drawn, and in which states they are.
fn expect_counts(rt: &impl Abort, items: &Items, batch: u16, expected: [u32; 4]) {
    let counts = items.counts(BatchId(batch));
    let found = [
        counts.drawn,
        counts.unused,
        counts.lent,
        counts.commissioned,
    ];
    assert!(rt; found == expected);
}

#[test]
fn rows_are_counted(rt: HostRuntime) {
    let mut items = three(&rt, rt.alloc());
    lend(&rt, &mut items, 0, 3);
    lend(&rt, &mut items, 2, 3);
    turn(&rt, &mut items, 2, State::Active);
    expect_counts(&rt, &items, 0, [2, 0, 1, 1]);
    turn(&rt, &mut items, 0, State::Spoiled);
    assert!(rt; items.line_counts(BatchId(0), StationId(3)) == [1, 1, 0]);
    assert!(rt; items.witness(BatchId(0), State::Active) == Some(ItemId(2)));
}

/// Compares the next row of the same batch.
fn expect_next(rt: &impl Abort, items: &Items, at: u32, next: Option<ItemId>) {
    let there = at < items.len();
    assert!(rt; there);
    if there {
        assert!(rt; items.next_of(ItemId(at)) == next);
    }
}

#[test]
fn rows_of_a_batch_follow_each_other(rt: HostRuntime) {
    let mut items = three(&rt, rt.alloc());
    assert!(rt; items.first_of(BatchId(7)) == Some(ItemId(1)));
    assert!(rt; items.first_of(BatchId(1)).is_none());
    expect_next(&rt, &items, 0, Some(ItemId(2)));
    expect_next(&rt, &items, 1, None);
}

#[test]
fn fresh_rows_come_behind_lent_ones(rt: HostRuntime) {
    let mut items = three(&rt, rt.alloc());
    lend(&rt, &mut items, 0, 3);
    lend(&rt, &mut items, 2, 3);
    draw(&rt, &mut items, b"A4", 7);
    expect_fresh(&rt, rt.alloc(), &items, 0, &[]);
    draw(&rt, &mut items, b"A5", 0);
    expect_fresh(&rt, rt.alloc(), &items, 0, &[ItemId(4)]);
}

#[test]
fn the_last_row_is_taken_back(rt: HostRuntime) {
    let mut items = three(&rt, rt.alloc());
    remove_last(&rt, &mut items);
    expect_place(&rt, &items, b"A3", None);
    expect_counts(&rt, &items, 0, [1, 1, 0, 0]);
}
