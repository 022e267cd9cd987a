//! Scans: what they read as, their parts, and the place of each fault.
use gs1_element::{CodeParts, ElementFault, Part, is_date, print_code, read_code};
use std::process::Abort;

/// Compares what a scan reads as, in a product's GTIN that expires at the end of 2027.
fn expect_read(rt: &impl Abort, scan: &[u8], serial: &[u8], lot: &[u8]) {
    let code = read_code(scan).expect(rt, "a code");
    assert!(rt; code.gtin.digits() == b"00614141123452".as_slice());
    assert!(rt; code.serial.bytes() == serial);
    assert!(rt; code.lot.bytes() == lot);
    assert!(rt; code.expiry == *b"271231");
}

#[test]
fn scans_are_read(rt: HostRuntime) {
    for scan in [
        b"]d20100614141123452211234567890\x1d1727123110LOT7A".as_slice(),
        b"01006141411234521727123110LOT7A\x1d211234567890\x1d7101234567\x1d",
        b"]C110LOT7A\x1d99\x1d17271231\x1d211234567890\x1d0100614141123452\x1d",
        b"37\x1d01006141411234521110LOT710LOT7A\x1d211234567890\x1d17271231",
    ] {
        expect_read(&rt, scan, b"1234567890", b"LOT7A");
    }
}

#[test]
fn texts_have_one_to_twenty_characters(rt: HostRuntime) {
    let short = b"0100614141123452211\x1d1727123110z";
    expect_read(&rt, short, b"1", b"z");
    let long = b"010061414112345221!%&'()*+,-./:;<=>?_\"\x1d1727123110ABCDEFGHIJKLMNOPQRST";
    expect_read(&rt, long, b"!%&'()*+,-./:;<=>?_\"", b"ABCDEFGHIJKLMNOPQRST");
}

/// Compares what is printed of what a scan reads as.
fn expect_printed(rt: &impl Abort, scan: &[u8], text: &[u8]) {
    let code = read_code(scan).expect(rt, "a code");
    let day = is_date(&code.expiry);
    assert!(rt; day);
    if day {
        assert!(rt; print_code(&code).bytes() == text);
    }
}

#[test]
fn codes_are_printed(rt: HostRuntime) {
    let scan = b"]d20100614141123452211234567890\x1d1727123110LOT7A";
    let text = b"01006141411234521727123110LOT7A\x1d211234567890";
    expect_printed(&rt, scan, text);
    let long = b"01006141411234521727123110ABCDEFGHIJKLMNOPQRST\x1d2112345678901234567890";
    assert_eq!(rt; long.len(), 69);
    expect_printed(&rt, long, long);
}

#[test]
fn faults_stand_at_their_places(rt: HostRuntime) {
    for (scan, fault) in [
        (b"".as_slice(), ElementFault::Empty),
        (b"]d2".as_slice(), ElementFault::Empty),
        (b"]C1".as_slice(), ElementFault::Empty),
        (b"0".as_slice(), ElementFault::ShortElement(0)),
        (b"]d20\x1d".as_slice(), ElementFault::ShortElement(3)),
        (
            b"\x1d0100614141123452".as_slice(),
            ElementFault::ShortElement(0),
        ),
        (b"99\x1d\x1d".as_slice(), ElementFault::ShortElement(3)),
        (b"010061414112345".as_slice(), ElementFault::ShortElement(0)),
        (
            b"0100614141\x1d123452".as_slice(),
            ElementFault::ShortElement(0),
        ),
        (b"10A\x1d1727123".as_slice(), ElementFault::ShortElement(4)),
        (b"]d310A".as_slice(), ElementFault::BadIdentifier(0)),
        (
            b"01006141411234521A".as_slice(),
            ElementFault::BadIdentifier(16),
        ),
        (b"A".as_slice(), ElementFault::ShortElement(0)),
        (b"99".as_slice(), ElementFault::Missing(*b"01")),
        (
            b"0100614141123452".as_slice(),
            ElementFault::Missing(*b"10"),
        ),
        (
            b"010061414112345210A".as_slice(),
            ElementFault::Missing(*b"17"),
        ),
        (
            b"010061414112345210A\x1d17271231".as_slice(),
            ElementFault::Missing(*b"21"),
        ),
        (
            b"01006141411234520100614141123453".as_slice(),
            ElementFault::Twice(*b"01"),
        ),
        (b"10A\x1d10#".as_slice(), ElementFault::Twice(*b"10")),
        (b"1727123117270031".as_slice(), ElementFault::Twice(*b"17")),
        (b"211\x1d21".as_slice(), ElementFault::Twice(*b"21")),
        (
            b"010061414112345221123456789012345678901727123110LOT7A".as_slice(),
            ElementFault::BadValue(*b"21", 38),
        ),
        (
            b"0100614141123453".as_slice(),
            ElementFault::BadValue(*b"01", 15),
        ),
        (
            b"01006141411234x3".as_slice(),
            ElementFault::BadValue(*b"01", 14),
        ),
        (b"17271a31".as_slice(), ElementFault::BadValue(*b"17", 5)),
        (b"10".as_slice(), ElementFault::BadValue(*b"10", 2)),
        (
            b"]C121\x1d10A".as_slice(),
            ElementFault::BadValue(*b"21", 5),
        ),
        (b"10LOT 7".as_slice(), ElementFault::BadValue(*b"10", 5)),
        (
            b"10ABCDEFGHIJKLMNOPQRSTU".as_slice(),
            ElementFault::BadValue(*b"10", 22),
        ),
        (b"10#\x1d0".as_slice(), ElementFault::BadValue(*b"10", 2)),
    ] {
        assert!(rt; read_code(scan).err() == Some(fault));
    }
}

#[test]
fn expiries_are_days(rt: HostRuntime) {
    for (scan, fault) in [
        (b"17270031".as_slice(), ElementFault::BadMonthOrDay(4)),
        (b"17271331".as_slice(), ElementFault::BadMonthOrDay(4)),
        (b"17270229".as_slice(), ElementFault::BadMonthOrDay(6)),
        (b"17990229".as_slice(), ElementFault::BadMonthOrDay(6)),
        (b"17270431".as_slice(), ElementFault::BadMonthOrDay(6)),
        (b"17271232".as_slice(), ElementFault::BadMonthOrDay(6)),
        (b"17280229".as_slice(), ElementFault::Missing(*b"01")),
        (b"17000229".as_slice(), ElementFault::Missing(*b"01")),
        (b"17270228".as_slice(), ElementFault::Missing(*b"01")),
        (b"17270200".as_slice(), ElementFault::Missing(*b"01")),
    ] {
        assert!(rt; read_code(scan).err() == Some(fault));
    }
    assert!(rt; !is_date(b"2712310".as_slice()));
}

/// Compares the next part of a scan.
fn expect_part(rt: &impl Abort, parts: &mut CodeParts<'_>, part: Part<'_>) {
    let next = parts.next().expect(rt, "a part");
    assert!(rt; next.at == part.at);
    assert!(rt; next.code == part.code);
    assert!(rt; next.value == part.value);
}

#[test]
fn parts_are_slices(rt: HostRuntime) {
    let scan = b"]d2010061414112345210LOT7A\x1d99\x1d17271231\x1d0".as_slice();
    let mut parts = CodeParts::new(scan);
    for (at, code, value) in [
        (3, *b"01", b"00614141123452".as_slice()),
        (19, *b"10", b"LOT7A".as_slice()),
        (27, *b"99", b"".as_slice()),
        (30, *b"17", b"271231".as_slice()),
    ] {
        expect_part(&rt, &mut parts, Part { at, code, value });
    }
    assert!(rt; parts.next().is_none());
    assert!(rt; CodeParts::new(b"A1").next().is_none());
}

/// How long the first unit of a scan of 24 bytes is.
fn first_length(code: [u8; 2]) -> Option<usize> {
    let mut scan = [b'5'; 24];
    scan[0] = code[0];
    scan[1] = code[1];
    let first = CodeParts::new(&scan).next()?;
    Some(first.value.len() + 2)
}

#[test]
fn lengths_are_predefined(rt: HostRuntime) {
    for (code, length) in [
        (*b"00", 20),
        (*b"01", 16),
        (*b"02", 16),
        (*b"03", 16),
        (*b"04", 18),
        (*b"11", 8),
        (*b"12", 8),
        (*b"13", 8),
        (*b"14", 8),
        (*b"15", 8),
        (*b"16", 8),
        (*b"17", 8),
        (*b"18", 8),
        (*b"19", 8),
        (*b"20", 4),
        (*b"31", 10),
        (*b"32", 10),
        (*b"33", 10),
        (*b"34", 10),
        (*b"35", 10),
        (*b"36", 10),
        (*b"41", 16),
        // Others go on to the end.
        (*b"05", 24),
        (*b"10", 24),
        (*b"21", 24),
        (*b"30", 24),
        (*b"37", 24),
        (*b"40", 24),
        (*b"99", 24),
    ] {
        assert!(rt;
            first_length(code) == Some(length),
            "{}{}",
            code[0],
            code[1]
        );
    }
}

#[test]
fn faults_are_told(rt: HostRuntime) {
    for (fault, text) in [
        (ElementFault::Empty, "the scan is empty"),
        (ElementFault::ShortElement(3), "the unit at 3 is too short"),
        (ElementFault::Missing(*b"01"), "unit 01 is missing"),
        (ElementFault::Twice(*b"10"), "unit 10 stands twice"),
        (
            ElementFault::BadValue(*b"21", 38),
            "the value of unit 21 is wrong at 38",
        ),
        (ElementFault::BadMonthOrDay(6), "no such month or day at 6"),
        (ElementFault::BadIdentifier(16), "no identifier at 16"),
    ] {
        let told = format!(in rt.alloc(); "{fault}").expect(&rt, "memory is ample");
        assert!(rt; told.as_str() == text);
    }
}
