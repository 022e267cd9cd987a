use crate::item_store_tests::{gtin, text};
use batch_book::Book;
use deed_words::{BatchId, OrderRow, Phase, StationId};
use std::alloc::Global;
use std::process::Abort;

/// An order of 20 items, 5 to a case.
fn order(rt: &impl Abort, name: &[u8], pallet_size: u16) -> OrderRow {
    OrderRow {
        batch: text(rt, name),
        gtin: gtin(rt),
        lot: text(rt, b"LOT7A"),
        expiry: *b"271231",
        quantity: 20,
        case_size: 5,
        pallet_size,
    }
}

/// Adds a batch of a name that none has.
fn add(rt: &impl Abort, book: &mut Book, name: &[u8], pallet_size: u16) {
    let order = order(rt, name, pallet_size);
    let fits = book.len() < 4096;
    assert!(rt; fits);
    if !fits {
        return;
    }
    book.ready(1, 1).expect(rt, "memory is ample");
    let old = book.find(&order.batch);
    assert!(rt; old.is_none());
    if old.is_none() {
        let _batch = book.add(order);
    }
}

/// Adds a batch of a name that none has, and takes it back.
fn add_and_undo(rt: &impl Abort, book: &mut Book, name: &[u8]) {
    let order = order(rt, name, 0);
    let fits = book.len() < 4096;
    assert!(rt; fits);
    if !fits {
        return;
    }
    book.ready(1, 0).expect(rt, "memory is ample");
    let old = book.find(&order.batch);
    assert!(rt; old.is_none());
    if old.is_none() {
        book.tell_there();
        let _batch = book.add(order);
        book.remove_last();
    }
}

/// How far a batch is.
fn phase(rt: &impl Abort, book: &Book, batch: u16) -> Option<Phase> {
    let there = batch < book.len();
    assert!(rt; there);
    if there {
        Some(book.phase(BatchId(batch)))
    } else {
        None
    }
}

/// Starts a Planned batch.
pub(crate) fn start(rt: &impl Abort, book: &mut Book, batch: u16) {
    let there = batch < book.len() && book.phase(BatchId(batch)) == Phase::Planned;
    assert!(rt; there);
    if there {
        book.start(BatchId(batch));
    }
}

/// Closes a Started batch.
fn close(rt: &impl Abort, book: &mut Book, batch: u16) {
    let there = batch < book.len() && book.phase(BatchId(batch)) == Phase::Started;
    assert!(rt; there);
    if there {
        book.close(BatchId(batch));
    }
}

/// Brings a batch to another phase.
fn bring(rt: &impl Abort, book: &mut Book, batch: u16, phase: Phase) {
    let there = batch < book.len();
    assert!(rt; there);
    if there {
        book.set_phase(BatchId(batch), phase);
    }
}

/// Amends a batch that isn't Closed.
fn amend(rt: &impl Abort, book: &mut Book, batch: u16, quantity: u32) {
    let there = batch < book.len() && book.phase(BatchId(batch)) != Phase::Closed;
    assert!(rt; there);
    if there {
        book.amend(BatchId(batch), quantity);
    }
}

/// The quantity as it was first ordered, and the present one, told in two ways.
fn quantities(rt: &impl Abort, book: &Book, batch: u16) -> (u32, u32, u32) {
    let there = batch < book.len();
    assert!(rt; there);
    if there {
        let batch = BatchId(batch);
        (
            book.row(batch).quantity,
            book.quantity(batch),
            book.batch(batch).quantity,
        )
    } else {
        (0, 0, 0)
    }
}

/// Keeps what a line declares of a Started batch.
pub(crate) fn declare(rt: &impl Abort, book: &mut Book, batch: u16, line: u8, numbers: [u32; 3]) {
    let there = batch < book.len() && book.phase(BatchId(batch)) == Phase::Started;
    assert!(rt; there);
    if there {
        book.ready(0, 1).expect(rt, "memory is ample");
        book.declare(BatchId(batch), StationId(line), numbers);
    }
}

/// Keeps what a line declares of a Started batch, and takes it back.
fn declare_and_undo(rt: &impl Abort, book: &mut Book, batch: u16, line: u8, numbers: [u32; 3]) {
    let there = batch < book.len() && book.phase(BatchId(batch)) == Phase::Started;
    assert!(rt; there);
    if there {
        book.ready(0, 1).expect(rt, "memory is ample");
        book.declare(BatchId(batch), StationId(line), numbers);
        book.undeclare();
    }
}

/// Two batches, of which the second has pallets and is Started.
pub(crate) fn two(rt: &impl Abort, alloc: Global) -> Book {
    let mut book = Book::new(alloc);
    add(rt, &mut book, b"B6", 0);
    add(rt, &mut book, b"B7", 4);
    start(rt, &mut book, 1);
    book
}

#[test]
fn batches_are_found_by_their_names(rt: HostRuntime) {
    let book = two(&rt, rt.alloc());
    book.tell_named();
    assert_eq!(rt; book.len(), 2);
    assert_eq!(rt; book.find(&text(&rt, b"B7")), Some(BatchId(1)));
    assert_eq!(rt; book.find(&text(&rt, b"B8")), None);
}

#[test]
fn an_amended_batch_keeps_its_order(rt: HostRuntime) {
    let mut book = two(&rt, rt.alloc());
    amend(&rt, &mut book, 1, 25);
    assert_eq!(rt; quantities(&rt, &book, 1), (20, 25, 25));
    amend(&rt, &mut book, 1, 20);
    assert_eq!(rt; quantities(&rt, &book, 1), (20, 20, 20));
}

#[test]
fn phases_go_back(rt: HostRuntime) {
    let mut book = two(&rt, rt.alloc());
    assert_eq!(rt; phase(&rt, &book, 0), Some(Phase::Planned));
    close(&rt, &mut book, 1);
    assert_eq!(rt; phase(&rt, &book, 1), Some(Phase::Closed));
    bring(&rt, &mut book, 1, Phase::Started);
    assert_eq!(rt; phase(&rt, &book, 1), Some(Phase::Started));
}

#[test]
fn the_last_declaration_counts(rt: HostRuntime) {
    let mut book = two(&rt, rt.alloc());
    start(&rt, &mut book, 0);
    declare(&rt, &mut book, 1, 1, [1, 2, 3]);
    declare(&rt, &mut book, 0, 1, [7, 7, 7]);
    declare(&rt, &mut book, 1, 1, [4, 5, 6]);
    assert_eq!(rt; book.declared(BatchId(1), StationId(1)), Some([4, 5, 6]));
    assert_eq!(rt; book.declared(BatchId(0), StationId(1)), Some([7, 7, 7]));
    assert_eq!(rt; book.declared(BatchId(1), StationId(2)), None);
}

#[test]
fn an_earlier_declaration_counts_again(rt: HostRuntime) {
    let mut book = two(&rt, rt.alloc());
    declare(&rt, &mut book, 1, 1, [1, 2, 3]);
    declare_and_undo(&rt, &mut book, 1, 1, [9, 9, 9]);
    declare_and_undo(&rt, &mut book, 1, 2, [9, 9, 9]);
    assert_eq!(rt; book.declared(BatchId(1), StationId(1)), Some([1, 2, 3]));
    assert_eq!(rt; book.declared(BatchId(1), StationId(2)), None);
}

#[test]
fn the_last_batch_is_taken_back(rt: HostRuntime) {
    let mut book = two(&rt, rt.alloc());
    add_and_undo(&rt, &mut book, b"B8");
    assert_eq!(rt; book.find(&text(&rt, b"B8")), None);
    add(&rt, &mut book, b"B9", 0);
    assert_eq!(rt; book.find(&text(&rt, b"B9")), Some(BatchId(2)));
}
