//! Order files: each column wrong, and the headers.
use site_files::{FileFault, read_orders};
use std::alloc::Global;
use std::process::Abort;

/// The fault of an order file with the header and these bytes after it.
fn fault_after(rt: &impl Abort, alloc: Global, rows: &str) -> Option<FileFault> {
    let mut text = String::from_str(alloc, "batch,gtin,lot,expiry,quantity,case,pallet\n").expect(
        rt,
        "memory is ample",
    );
    text.push_str(rows).expect(rt, "memory is ample");
    read_orders(alloc, text.as_bytes()).err()
}

/// Rows with a field that is wrong, and its column, or with other than seven fields.
const BAD_ROWS: [(&str, u64); 27] = [
    (",00614141123452,L6,2027-12-31,40,10,4", 1),
    (
        "B23456789012345678901,00614141123452,L6,2027-12-31,40,10,4",
        1,
    ),
    ("B6,,L6,2027-12-31,40,10,4", 2),
    ("B6,6141411234,L6,2027-12-31,40,10,4", 2),
    ("B6, 00614141123452,L6,2027-12-31,40,10,4", 2),
    ("B6,00614141123452,L#,2027-12-31,40,10,4", 3),
    ("B6,00614141123452,L6,,40,10,4", 4),
    ("B6,00614141123452,L6,271231,40,10,4", 4),
    ("B6,00614141123452,L6,2027-13,40,10,4", 4),
    ("B6,00614141123452,L6,1999-12-31,40,10,4", 4),
    ("B6,00614141123452,L6,2100-01,40,10,4", 4),
    ("B6,00614141123452,L6,2027-12-31,,10,4", 5),
    ("B6,00614141123452,L6,2027-12-31,1000001,10,4", 5),
    ("B6,00614141123452,L6,2027-12-31,00000040,10,4", 5),
    ("B6,00614141123452,L6,2027-12-31,4x,10,4", 5),
    ("B6,00614141123452,L6,2027-12-31,40,0,4", 6),
    ("B6,00614141123452,L6,2027-12-31,40,,4", 6),
    ("B6,00614141123452,L6,2027-12-31,40,1 0,4", 6),
    ("B6,00614141123452,L6,2027-12-31,40,10,", 7),
    ("B6,00614141123452,L6,2027-12-31,40,10,1001", 7),
    ("B6,00614141123452,L6,2027-12-31,40,10,-1", 7),
    ("B6,00614141123452,L6,2027-12-31,40,10,4,", 0),
    ("B6", 0),
    // the first wrong column is told, and the number of fields before it
    ("B 6,1,,2027,0,0,x", 1),
    ("B6,1,,2027,0,0,x", 2),
    ("B6,00614141123452,L6,2027-12-31,0,0,x", 5),
    ("B 6,1,,2027,0,0", 0),
];

/// Rows that are read.
const GOOD_ROWS: [&str; 8] = [
    "B6,00614141123452,L6,2027-12-31,40,10,4\n",
    "B6,00614141123452,L6,2027-12-31,40,10,4",
    "B6,00614141123452,L6,2027-12-31,40,10,4\r\n",
    "\n\r\nB6,00614141123452,L6,2027-12-31,40,10,4\n\n",
    "\"B6\",\"00614141123452\",\"L,6\",\"2027-12-31\",\"40\",\"10\",\"4\"\n",
    "\"B\"\"6\",00614141123452,L6,2027-12-31,40,10,4\n",
    "B6,00614141123452,L6,2024-02-29,0000001,0000001,0000000\n",
    "B6,614141123452,L6,2099-12,1000000,1000,1000\n",
];

/// The row is told as the second row of data, the third record of its file.
fn expect_bad_row(rt: &impl Abort, alloc: Global, row: &str, column: u64) {
    let mut rows = String::from_str(alloc, "B6,00614141123452,L6,2027-12-31,40,10,4\n").expect(
        rt,
        "memory is ample",
    );
    rows.push_str(row).expect(rt, "memory is ample");
    rows.push_str("\nB6\n").expect(rt, "memory is ample");
    let fault = fault_after(rt, alloc, rows.as_str());
    assert!(rt; fault == Some(FileFault::Row(3, column)), "{row}");
}

#[test]
fn each_column(rt: HostRuntime) {
    for (row, column) in BAD_ROWS {
        expect_bad_row(&rt, rt.alloc(), row, column);
    }
    for row in GOOD_ROWS {
        assert!(rt; fault_after(&rt, rt.alloc(), row).is_none());
    }
}

#[test]
fn headers(rt: HostRuntime) {
    for (file, fault) in [
        ("batch,gtin,lot,expiry,quantity,case,pallet", None),
        ("batch,gtin,lot,expiry,quantity,case,pallet\r\n", None),
        ("\u{feff}batch,gtin,lot,expiry,quantity,case,pallet\n", None),
        ("\"batch\",gtin,lot,expiry,quantity,case,pallet\n", None),
        ("\n\nbatch,gtin,lot,expiry,quantity,case,pallet\n", None),
        (
            "batch,gtin,lot,expiry,quantity,case,pallet,\n",
            Some(FileFault::Row(1, 0)),
        ),
        (
            "Batch,gtin,lot,expiry,quantity,case,pallet\n",
            Some(FileFault::Row(1, 0)),
        ),
        (
            "batch, gtin,lot,expiry,quantity,case,pallet\n",
            Some(FileFault::Row(1, 0)),
        ),
        (
            "batch;gtin;lot;expiry;quantity;case;pallet\n",
            Some(FileFault::Row(1, 0)),
        ),
        (
            "B6,00614141123452,L6,2027-12-31,40,10,4\n",
            Some(FileFault::Row(1, 0)),
        ),
    ] {
        assert!(rt; read_orders(rt.alloc(), file.as_bytes()).err() == fault);
    }
}
