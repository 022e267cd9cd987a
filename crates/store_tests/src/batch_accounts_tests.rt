use crate::batch_book_tests::{declare, start, two};
use crate::item_store_tests::{draw, lend, text, turn};
use crate::pack_tree_tests::{add_item, make, put_item, put_unit, seal, sscc};
use batch_book::Book;
use deed_words::{BatchId, Finding, Level, State, StationId};
use item_store::Items;
use pack_tree::Tree;
use std::alloc::Global;
use std::process::Abort;

/// How many stations the site has.
const STATIONS: u8 = 4;

/// A site's stores.
#[derive(Drop)]
struct Stores {
    book: Book,
    items: Items,
    tree: Tree,
}

/// Two batches without serials: the first without pallets, the second Started and with pallets.
fn two_batches(rt: &impl Abort, alloc: Global) -> Stores {
    Stores {
        book: two(rt, alloc),
        items: Items::new(alloc),
        tree: Tree::new(alloc),
    }
}

/// Draws a serial of a new name for a batch, and lends it to a line.
fn draw_lent(rt: &impl Abort, stores: &mut Stores, serial: &[u8], batch: u16, line: u8) {
    let at = stores.items.len();
    draw(rt, &mut stores.items, serial, batch);
    add_item(rt, &mut stores.tree);
    lend(rt, &mut stores.items, at, line);
}

/// Compares what is found of a batch.
fn expect_found(rt: &impl Abort, stores: &Stores, batch: u16, finding: Option<Finding>) {
    let there = batch < stores.book.len() && stores.tree.items() == stores.items.len();
    assert!(rt; there);
    if there {
        let found = stores
            .book
            .accounted(&stores.items, &stores.tree, BatchId(batch), STATIONS);
        assert_eq!(rt; found.err(), finding);
    }
}

#[test]
fn a_line_declares_what_is_counted(rt: HostRuntime) {
    let mut stores = two_batches(&rt, rt.alloc());
    let line = StationId(1);
    draw_lent(&rt, &mut stores, b"0000000001", 1, 1);
    let lent = Finding::StillLent(text(&rt, b"0000000001"));
    expect_found(&rt, &stores, 1, Some(lent));
    turn(&rt, &mut stores.items, 0, State::Returned);
    expect_found(&rt, &stores, 1, Some(Finding::NotDeclared(line)));
    declare(&rt, &mut stores.book, 1, 1, [0, 0, 0]);
    let differs = Finding::DeclaredDiffers(line, [0, 0, 1], [0, 0, 0]);
    expect_found(&rt, &stores, 1, Some(differs));
    declare(&rt, &mut stores.book, 1, 1, [0, 0, 1]);
    expect_found(&rt, &stores, 1, None);
}

/// Three serials of the second batch: the first is Rejected, the second Lent, the third Active.
fn three_serials(rt: &impl Abort, alloc: Global) -> Stores {
    let mut stores = two_batches(rt, alloc);
    draw_lent(rt, &mut stores, b"A1", 1, 1);
    draw_lent(rt, &mut stores, b"A2", 1, 1);
    draw_lent(rt, &mut stores, b"A3", 1, 1);
    turn(rt, &mut stores.items, 0, State::Rejected);
    turn(rt, &mut stores.items, 2, State::Active);
    stores
}

/// The findings on serials.
fn serials_come_first(rt: &impl Abort, stores: &mut Stores) {
    let lent = Finding::StillLent(text(rt, b"A2"));
    expect_found(rt, stores, 1, Some(lent));
    turn(rt, &mut stores.items, 1, State::Returned);
    let rejected = Finding::StillRejected(text(rt, b"A1"));
    expect_found(rt, stores, 1, Some(rejected));
    turn(rt, &mut stores.items, 0, State::Gone);
    let unpacked = Finding::Unpacked(text(rt, b"A3"));
    expect_found(rt, stores, 1, Some(unpacked));
}

/// The findings on units.
fn units_come_next(rt: &impl Abort, stores: &mut Stores) {
    make(rt, &mut stores.tree, 0, 1, Level::Case);
    put_item(rt, &mut stores.tree, 2, 0);
    expect_found(rt, stores, 1, Some(Finding::UnitOpen(sscc(rt, 0))));
    seal(rt, &mut stores.tree, 0);
    expect_found(rt, stores, 1, Some(Finding::UnitLoose(sscc(rt, 0))));
    make(rt, &mut stores.tree, 1, 1, Level::Pallet);
    put_unit(rt, &mut stores.tree, 0, 1);
    expect_found(rt, stores, 1, Some(Finding::UnitOpen(sscc(rt, 1))));
    seal(rt, &mut stores.tree, 1);
}

#[test]
fn findings_come_in_their_order(rt: HostRuntime) {
    let mut stores = three_serials(&rt, rt.alloc());
    serials_come_first(&rt, &mut stores);
    units_come_next(&rt, &mut stores);
    expect_found(&rt, &stores, 1, Some(Finding::NotDeclared(StationId(1))));
    declare(&rt, &mut stores.book, 1, 1, [2, 0, 1]);
    expect_found(&rt, &stores, 1, None);
}

#[test]
fn other_batches_are_not_looked_at(rt: HostRuntime) {
    let mut stores = two_batches(&rt, rt.alloc());
    draw_lent(&rt, &mut stores, b"A1", 0, 2);
    make(&rt, &mut stores.tree, 0, 0, Level::Case);
    expect_found(&rt, &stores, 1, None);
    expect_found(&rt, &stores, 0, Some(Finding::StillLent(text(&rt, b"A1"))));
}

#[test]
fn cases_without_pallets_stand_alone(rt: HostRuntime) {
    let mut stores = two_batches(&rt, rt.alloc());
    draw_lent(&rt, &mut stores, b"A1", 0, 2);
    turn(&rt, &mut stores.items, 0, State::Active);
    make(&rt, &mut stores.tree, 0, 0, Level::Case);
    put_item(&rt, &mut stores.tree, 0, 0);
    seal(&rt, &mut stores.tree, 0);
    start(&rt, &mut stores.book, 0);
    declare(&rt, &mut stores.book, 0, 2, [1, 0, 0]);
    expect_found(&rt, &stores, 0, None);
}
