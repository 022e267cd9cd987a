//! Dates and order files by rows, with the places of their faults.
use deed_words::OrderRow;
use site_files::{FileFault, Word, last_day, read_expiry, read_orders};
use std::alloc::Global;
use std::process::Abort;

/// Texts of dates, and the expiries that they are.
const DATES: [(&str, Option<[u8; 6]>); 8] = [
    ("2027-12-31", Some(*b"271231")),
    ("2024-02-29", Some(*b"240229")),
    ("2024-02", Some(*b"240200")),
    ("2023-02-29", None),
    ("2024-02-30", None),
    ("2100-01-01", None),
    ("2024-13", None),
    ("2024-04-00", None),
];

/// Texts of expiries, and the last days that are printed of them.
const LAST_DAYS: [(&str, [u8; 10]); 3] = [
    ("2024-02", *b"2024-02-29"),
    ("2027-02", *b"2027-02-28"),
    ("2027-12-31", *b"2027-12-31"),
];

#[test]
fn dates(rt: HostRuntime) {
    for (text, expiry) in DATES {
        assert!(rt; read_expiry(text.as_bytes()) == expiry);
    }
}

fn expect_last_day(rt: &impl Abort, text: &str, day: [u8; 10]) {
    let expiry = read_expiry(text.as_bytes()).expect(rt, "it is a date");
    assert!(rt; last_day(&expiry) == day);
}

#[test]
fn last_days(rt: HostRuntime) {
    for (text, day) in LAST_DAYS {
        expect_last_day(&rt, text, day);
    }
}

/// The fault of an order file with the header and these bytes after it.
fn fault_after(rt: &impl Abort, alloc: Global, rows: &str) -> Option<FileFault> {
    let mut text = String::from_str(alloc, "batch,gtin,lot,expiry,quantity,case,pallet\n").expect(
        rt,
        "memory is ample",
    );
    text.push_str(rows).expect(rt, "memory is ample");
    read_orders(alloc, text.as_bytes()).err()
}

/// Compares the fields of a row.
fn expect_row(rt: &impl Abort, row: &OrderRow, batch: &[u8], lot: &[u8], expiry: [u8; 6]) {
    assert!(rt; row.batch.bytes() == batch);
    assert!(rt; row.gtin.digits() == b"00614141123452".as_slice());
    assert!(rt; row.lot.bytes() == lot);
    assert!(rt; row.expiry == expiry);
}

#[test]
fn an_order_file(rt: HostRuntime) {
    let text =
        b"\xef\xbb\xbfbatch,gtin,lot,expiry,quantity,case,pallet\r\nB6,614141123452,\"L,6\",2027-12-31,40,10,4\r\n\r\nB7,00614141123452,LOT7A,2027-12,0000050,50,0";
    let rows = read_orders(rt.alloc(), text.as_slice()).expect(&rt, "it is an order file");
    let [first, second] = rows.as_slice() else {
        panic!(rt; "two rows");
    };
    expect_row(&rt, first, b"B6", b"L,6", *b"271231");
    expect_row(&rt, second, b"B7", b"LOT7A", *b"271200");
    assert!(rt; first.quantity == 40);
    assert!(rt; second.quantity == 50);
    assert!(rt; second.pallet_size == 0);
}

/// Files with no header.
const NO_HEADERS: [&str; 2] = ["", "batch,gtin,lot,expiry,quantity,case\n"];

#[test]
fn headers(rt: HostRuntime) {
    for text in NO_HEADERS {
        let fault = read_orders(rt.alloc(), text.as_bytes()).err();
        assert!(rt; fault == Some(FileFault::Row(1, 0)));
    }
}

/// A row that is read.
const GOOD: &str = "B6,00614141123452,L6,2027-12-31,40,10,4\n";

/// Rows with a field that is wrong, and its column, or with other than seven fields.
const BAD_ROWS: [(&str, u64); 8] = [
    ("B6,00614141123452,L6,2027-12-31,40,10\n", 0),
    ("B 6,00614141123452,L6,2027-12-31,40,10,4\n", 1),
    ("B6,00614141123453,L6,2027-12-31,40,10,4\n", 2),
    ("B6,00614141123452,,2027-12-31,40,10,4\n", 3),
    ("B6,00614141123452,L6,2027-02-30,40,10,4\n", 4),
    ("B6,00614141123452,L6,2027-12-31,0,10,4\n", 5),
    ("B6,00614141123452,L6,2027-12-31,40,1001,4\n", 6),
    ("B6,00614141123452,L6,2027-12-31,40,10,+4\n", 7),
];

#[test]
fn rows(rt: HostRuntime) {
    assert!(rt; fault_after(&rt, rt.alloc(), GOOD).is_none());
    for (row, column) in BAD_ROWS {
        let fault = fault_after(&rt, rt.alloc(), row);
        assert!(rt; fault == Some(FileFault::Row(2, column)));
    }
}

#[test]
fn long_files(rt: HostRuntime) {
    let alloc = rt.alloc();
    let mut many = GOOD.repeat(alloc, 1_000).expect(&rt, "memory is ample");
    assert!(rt; fault_after(&rt, alloc, many.as_str()).is_none());
    many.push_str("B\n").expect(&rt, "memory is ample");
    let fault = fault_after(&rt, alloc, many.as_str());
    assert!(rt; fault == Some(FileFault::TooMany(Word::Rows)));
}
