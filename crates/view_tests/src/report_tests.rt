//! The report's text.
use batch_report::{BatchView, LineRow, Lines, report};
use deed_words::{OrderRow, Phase};
use gs1_element::is_date;
use gs1_keys::{Gtin, Text20};
use item_store::Counts;
use std::alloc::Global;
use std::process::Abort;

/// A closed batch of 40 items in cases of ten and a pallet of four cases.
const CLOSED: &[u8] = b"batch         B7\n\
product       00614141123452\n\
lot           LOT7A\n\
expiry        2027-12-31\n\
state         closed\n\
planned              40\n\
drawn                50\n\
unused                7\n\
lent                  0\n\
commissioned         40\n\
sampled               1\n\
rejected              1\n\
destroyed             1\n\
cases                 4\n\
pallets               1\n\
events               19\n\
line          L1                         21        1        0\n\
line          L2                         21        0        1\n";

/// A batch that was ordered, and nothing more. Its expiry is the end of a month.
const ORDERED: &[u8] = b"batch         B7\n\
product       00614141123452\n\
lot           LOT7A\n\
expiry        2028-02-29\n\
state         planned\n\
planned         1000000\n\
drawn                 0\n\
unused                0\n\
lent                  0\n\
commissioned          0\n\
sampled               0\n\
rejected              0\n\
destroyed             0\n\
cases                 0\n\
pallets               0\n\
events                0\n";

fn text(rt: &impl Abort, characters: &[u8]) -> Text20 {
    Text20::read(characters).expect(rt, "a text")
}

fn order(rt: &impl Abort, expiry: [u8; 6]) -> OrderRow {
    OrderRow {
        batch: text(rt, b"B7"),
        gtin: Gtin::read(b"00614141123452").expect(rt, "a GTIN"),
        lot: text(rt, b"LOT7A"),
        expiry,
        quantity: 40,
        case_size: 10,
        pallet_size: 4,
    }
}

fn put_line(rt: &impl Abort, lines: &mut Lines, name: &[u8], numbers: [u32; 3]) {
    let name = text(rt, name);
    lines
        .push(LineRow { name, numbers })
        .expect(rt, "memory is ample");
}

fn both_lines(rt: &impl Abort, alloc: Global) -> Lines {
    let mut lines = Lines::new(alloc);
    put_line(rt, &mut lines, b"L1", [21, 1, 0]);
    put_line(rt, &mut lines, b"L2", [21, 0, 1]);
    lines
}

fn no_counts() -> Counts {
    Counts {
        drawn: 0,
        unused: 0,
        lent: 0,
        commissioned: 0,
        sampled: 0,
        rejected: 0,
        destroyed: 0,
    }
}

fn closed_counts() -> Counts {
    Counts {
        drawn: 50,
        unused: 7,
        lent: 0,
        commissioned: 40,
        sampled: 1,
        rejected: 1,
        destroyed: 1,
    }
}

/// The report of a view, whose order expires on a day, is this text.
fn expect_report(rt: &impl Abort, alloc: Global, view: &BatchView, told: &[u8]) {
    let dated = is_date(&view.row.expiry);
    assert!(rt; dated);
    if !dated {
        return;
    }
    let text = report(alloc, view).expect(rt, "memory is ample");
    assert!(rt; text.as_slice() == told);
}

#[test]
fn a_closed_batch(rt: HostRuntime) {
    let view = BatchView {
        row: order(&rt, *b"271231"),
        quantity: 40,
        phase: Phase::Closed,
        counts: closed_counts(),
        cases: 4,
        pallets: 1,
        events: 19,
        lines: both_lines(&rt, rt.alloc()),
    };
    expect_report(&rt, rt.alloc(), &view, CLOSED);
}

#[test]
fn an_ordered_batch(rt: HostRuntime) {
    let view = BatchView {
        row: order(&rt, *b"280200"),
        quantity: 1_000_000,
        phase: Phase::Planned,
        counts: no_counts(),
        cases: 0,
        pallets: 0,
        events: 0,
        lines: Lines::new(rt.alloc()),
    };
    expect_report(&rt, rt.alloc(), &view, ORDERED);
}
