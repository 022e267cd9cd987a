//! Bytes written out by hand, both ways, and the place of each fault.
use crate::example::{site, text};
use deed_words::{Deed, Entry, Setup, StationId};
use entry_bytes::{EntryFault, print_entries, print_entry, print_setup, read_entries, read_setup};
use gs1_keys::{Alphabet, SerialForm, Serials, Text20};
use std::alloc::Global;
use std::process::Abort;

/// A draw of two serials, in version 2 and in version 1.
const DRAWN: &[u8] =
    b"\x81\0\0\0\0\0\0\0\0\x02\0\0\0\x01\x9b\x76\xda\xa8\0\0\x04\x02B6\0\0\0\x02\0\x02\x06000005\x06000007";

const OLD_DRAWN: &[u8] =
    b"\x01\0\0\0\0\0\0\0\0\x02\0\0\0\x01\x9b\x76\xda\xa8\0\x04\x02B6\0\0\0\x02\0\x02\x06000005\x06000007";

/// A start and an amendment, in version 2 and in version 1.
const TWO: &[u8] =
    b"\x82\0\0\0\0\0\0\0\0\x03\0\0\0\x01\x9b\x76\xda\xa8\0\0\x03\x02B6\0\0\0\0\0\0\0\0\0\0\x04\0\0\0\x01\x9b\x76\xda\xa8\0\0\x17\x02B6\0\0\0\x03\0\0";

const OLD_TWO: &[u8] =
    b"\x02\0\0\0\0\0\0\0\0\x03\0\0\0\x01\x9b\x76\xda\xa8\0\x03\x02B6\0\0\0\0\0\0\0\0\0\0\x04\0\0\0\x01\x9b\x76\xda\xa8\0\x17\x02B6\0\0\0\x03\0\0";

/// A start by the operator `ann`.
const NAMED: &[u8] = b"\x81\0\0\0\0\0\0\0\0\x03\0\0\0\x01\x9b\x76\xda\xa8\0\x03ann\x03\x02B6\0\0";

/// The fields in front of the operator of an entry with number 1, in a group of one.
pub(crate) const HEAD: &[u8] = b"\x81\0\0\0\0\0\0\0\0\x01\0\0\0\x01\x9b\x76\xda\xa8\0";

/// An example site, in version 2 and in version 1.
const SITE: &[u8] =
    b"\x020614141000012\x070614141\x01\0\0\0\0\0\0\0\x01+00:00\0\x0200614141123452\x07\x0a\x0180614141123458\x07\x06\x01\x04\x02P1\x01\x02L1\x02\x02L2\x02\x02Q1\x03";

const OLD_SITE: &[u8] =
    b"0614141000012\x070614141\x01\0\0\0\0\0\0\0\x01+00:00\0\x0200614141123452\x07\x0a80614141123458\x07\x06\x04\x02P1\x01\x02L1\x02\x02L2\x02\x02Q1\x03";

/// Prints a proper entry, and compares the bytes.
pub(crate) fn expect_printed(rt: &impl Abort, alloc: Global, entry: &Entry, bytes: &[u8]) {
    assert!(rt; entry.is_proper());
    if !entry.is_proper() {
        return;
    }
    let printed = print_entry(alloc, entry).expect(rt, "memory is ample");
    assert!(rt; printed.as_slice() == bytes);
}

/// Reads a group and prints what was read, in version 2.
pub(crate) fn expect_again(rt: &impl Abort, alloc: Global, bytes: &[u8], again: &[u8]) {
    let entries = read_entries(alloc, bytes).expect(rt, "a group");
    let mut out = Vec::new(alloc);
    print_entries(alloc, entries.as_slice(), &mut out).expect(rt, "memory is ample");
    assert!(rt; out.as_slice() == again);
}

fn expect_fault(rt: &impl Abort, alloc: Global, bytes: &[u8], fault: EntryFault) {
    assert!(rt; read_entries(alloc, bytes).err() == Some(fault));
}

fn expect_site_fault(rt: &impl Abort, alloc: Global, bytes: &[u8], fault: EntryFault) {
    assert!(rt; read_setup(alloc, bytes).err() == Some(fault));
}

/// The bytes with one of them changed.
fn changed(rt: &impl Abort, alloc: Global, bytes: &[u8], at: usize, byte: u8) -> Vec<u8> {
    let mut copy = Vec::new(alloc);
    copy.extend_from_slice(bytes).expect(rt, "memory is ample");
    assert!(rt; at < copy.len());
    if at < copy.len() {
        copy[at] = byte;
    }
    copy
}

/// The two parts in one.
pub(crate) fn joined(rt: &impl Abort, alloc: Global, front: &[u8], back: &[u8]) -> Vec<u8> {
    let mut all = Vec::new(alloc);
    all.extend_from_slice(front).expect(rt, "memory is ample");
    all.extend_from_slice(back).expect(rt, "memory is ample");
    all
}

/// An entry of the first station, with nothing drawn.
pub(crate) fn entry_with(
    alloc: Global,
    number: u64,
    operator: Option<Text20>,
    deed: Deed,
) -> Entry {
    Entry {
        station: StationId(0),
        number,
        worker: 0,
        stamp: 1_767_225_600_000,
        operator,
        deed,
        drawn: Serials::new(alloc),
    }
}

/// A draw with these serials.
fn draw(rt: &impl Abort, alloc: Global, count: u32, serials: &[&[u8]]) -> Entry {
    let mut entry = entry_with(alloc, 2, None, Deed::Draw(text(rt, b"B6"), count));
    let mut drawn = Serials::new(alloc);
    for serial in serials {
        let serial = text(rt, serial);
        drawn.push(serial).expect(rt, "memory is ample");
    }
    entry.drawn = drawn;
    entry
}

#[test]
fn a_draw_is_written_and_read(rt: HostRuntime) {
    let alloc = rt.alloc();
    let drawn = draw(&rt, alloc, 2, &[b"000005", b"000007"]);
    assert_eq!(rt; DRAWN.len(), 44);
    expect_printed(&rt, alloc, &drawn, &DRAWN[1..]);
    expect_again(&rt, alloc, DRAWN, DRAWN);
    assert_eq!(rt; OLD_DRAWN.len(), 43);
    expect_again(&rt, alloc, OLD_DRAWN, DRAWN);
}

#[test]
fn two_entries_stand_in_a_group(rt: HostRuntime) {
    let alloc = rt.alloc();
    assert_eq!(rt; TWO.len(), 55);
    expect_again(&rt, alloc, TWO, TWO);
    assert_eq!(rt; OLD_TWO.len(), 53);
    expect_again(&rt, alloc, OLD_TWO, TWO);
}

#[test]
fn an_operator_is_written_and_read(rt: HostRuntime) {
    let alloc = rt.alloc();
    let operator = Some(text(&rt, b"ann"));
    let named = entry_with(alloc, 3, operator, Deed::Start(text(&rt, b"B6")));
    assert_eq!(rt; NAMED.len(), 29);
    expect_printed(&rt, alloc, &named, &NAMED[1..]);
    expect_again(&rt, alloc, NAMED, NAMED);
}

#[test]
fn faults_of_entries_have_their_places(rt: HostRuntime) {
    let alloc = rt.alloc();
    let faults = [
        // the count byte of the group
        (0, 0, EntryFault::BadField(0)),
        (0, 17, EntryFault::BadField(0)),
        (0, 128, EntryFault::BadField(0)),
        (0, 145, EntryFault::BadField(0)),
        // the stamp, the operator, the tag
        (11, 1, EntryFault::BadField(11)),
        (19, 21, EntryFault::BadField(19)),
        (20, 0, EntryFault::BadTag(20)),
        (20, 24, EntryFault::BadTag(20)),
        // the name of the batch: its length, and a character
        (21, 0, EntryFault::BadField(21)),
        (21, 21, EntryFault::BadField(21)),
        (22, b' ', EntryFault::BadField(21)),
        // the drawn serials: 10,242 are too many, and a third one isn't there
        (28, 0x28, EntryFault::BadField(28)),
        (29, 3, EntryFault::Short(44)),
        (29, 1, EntryFault::Extra(37)),
        (37, 0, EntryFault::BadField(37)),
    ];
    for (at, byte, fault) in faults {
        let bytes = changed(&rt, alloc, DRAWN, at, byte);
        expect_fault(&rt, alloc, bytes.as_slice(), fault);
    }
    let longer = joined(&rt, alloc, DRAWN, b"\0");
    expect_fault(&rt, alloc, longer.as_slice(), EntryFault::Extra(44));
}

/// Where the fields of a deed begin after its tag.
const FIELDS: u64 = 21;

fn expect_deed_fault(rt: &impl Abort, alloc: Global, fields: &[u8], fault: EntryFault) {
    let front = joined(rt, alloc, HEAD, b"\0");
    let bytes = joined(rt, alloc, front.as_slice(), fields);
    expect_fault(rt, alloc, bytes.as_slice(), fault);
}

#[test]
fn faults_of_fields_have_their_places(rt: HostRuntime) {
    for (fields, fault) in [
        // a wrong check digit, a 29th of February, and each number of an order
        (
            b"\x01\x02B680614141123459\x04LOT6271231\0\0\0\x02\0\x02\0\0".as_slice(),
            EntryFault::BadField(24),
        ),
        (
            b"\x01\x02B680614141123458\x04LOT6270229\0\0\0\x02\0\x02\0\0",
            EntryFault::BadField(43),
        ),
        (
            b"\x01\x02B680614141123458\x04LOT6271231\0\0\0\0\0\x02\0\0",
            EntryFault::BadField(49),
        ),
        (
            b"\x01\x02B680614141123458\x04LOT6271231\0\0\0\x02\0\0\0\0",
            EntryFault::BadField(53),
        ),
        (
            b"\x01\x02B680614141123458\x04LOT6271231\0\0\0\x02\0\x02\x03\xe9",
            EntryFault::BadField(55),
        ),
        // a count that is past its range, with three bytes behind it
        (b"\x02\xff\xffabc", EntryFault::BadField(FIELDS)),
        // the kind of an EPC, its GTIN, an SSCC, a level, and a quantity past 1,000,000
        (b"\x09\x02B6\0\x01\x03", EntryFault::BadField(26)),
        (
            b"\x09\x02B6\0\x01\x0180614141123459\x017",
            EntryFault::BadField(27),
        ),
        (b"\x12106141410000000018\0\0", EntryFault::BadField(FIELDS)),
        (b"\x0e\x02B6\x03\0\0", EntryFault::BadField(24)),
        (b"\x17\x02B6\0\x0f\x42\x41\0\0", EntryFault::BadField(24)),
        // a text that ends too early is short, whatever it holds
        (b"\x03\x05 ", EntryFault::Short(FIELDS)),
    ] {
        expect_deed_fault(&rt, rt.alloc(), fields, fault);
    }
}

/// The greatest of the places that is at most this one.
fn field_at(starts: &[u64], at: u64) -> u64 {
    let mut field = 0;
    for start in starts {
        if *start <= at {
            field = *start;
        }
    }
    field
}

#[test]
fn each_cut_of_a_group_is_short_at_its_field(rt: HostRuntime) {
    let alloc = rt.alloc();
    let starts = [
        0, 1, 2, 10, 11, 19, 20, 21, 24, 26, 27, 35, 36, 44, 45, 46, 49, 53,
    ];
    for at in 0..TWO.len() {
        let cut = TWO.get(..at).unwrap_or(&[]);
        let fault = EntryFault::Short(field_at(&starts, at as u64));
        expect_fault(&rt, alloc, cut, fault);
    }
}

/// A draw of ten thousand equal serials.
fn long_draw(rt: &impl Abort, alloc: Global) -> Entry {
    let mut entry = draw(rt, alloc, 10_000, &[]);
    let mut drawn = Serials::new(alloc);
    let serial = text(rt, b"000005");
    for _ in 0..10_000 {
        drawn.push(serial).expect(rt, "memory is ample");
    }
    entry.drawn = drawn;
    entry
}

#[test]
fn a_draw_of_ten_thousand(rt: HostRuntime) {
    let alloc = rt.alloc();
    let drawn = long_draw(&rt, alloc);
    let proper = drawn.is_proper();
    assert!(rt; proper);
    if proper {
        let printed = print_entry(alloc, &drawn).expect(&rt, "memory is ample");
        assert_eq!(rt; printed.len(), 29 + 70_000);
        let group = joined(&rt, alloc, b"\x81", printed.as_slice());
        expect_again(&rt, alloc, group.as_slice(), group.as_slice());
    }
}

fn expect_site(rt: &impl Abort, alloc: Global, setup: &Setup, bytes: &[u8]) {
    let mut out = Vec::new(alloc);
    print_setup(alloc, setup, &mut out).expect(rt, "memory is ample");
    assert!(rt; out.as_slice() == bytes);
}

#[test]
fn a_site_is_written_and_read(rt: HostRuntime) {
    let alloc = rt.alloc();
    let digits = SerialForm {
        alphabet: Alphabet::Digits,
        length: 6,
    };
    assert_eq!(rt; SITE.len(), 90);
    expect_site(&rt, alloc, &site(&rt, alloc, digits), SITE);
    let read = read_setup(alloc, SITE).expect(&rt, "a site");
    expect_site(&rt, alloc, &read, SITE);
    assert_eq!(rt; OLD_SITE.len(), 87);
    let older = read_setup(alloc, OLD_SITE).expect(&rt, "a site of version 1");
    expect_site(&rt, alloc, &older, SITE);
}

#[test]
fn letters_are_the_alphabet_2(rt: HostRuntime) {
    let alloc = rt.alloc();
    let letters = SerialForm {
        alphabet: Alphabet::Base32,
        length: 6,
    };
    let bytes = changed(&rt, alloc, SITE, 72, 2);
    expect_site(&rt, alloc, &site(&rt, alloc, letters), bytes.as_slice());
    let read = read_setup(alloc, bytes.as_slice()).expect(&rt, "a site");
    expect_site(&rt, alloc, &read, bytes.as_slice());
}

#[test]
fn faults_of_sites_have_their_places(rt: HostRuntime) {
    let alloc = rt.alloc();
    let faults = [
        // neither 2 nor a digit, the check digit of the location number
        (0, 3, 0),
        (2, b'1', 1),
        // the length of the prefix, one with which the number doesn't begin, one that has a letter
        (14, 5, 14),
        (15, b'1', 14),
        (15, b'A', 14),
        // the extension digit, the reference, the offset
        (22, 10, 22),
        (23, 1, 23),
        (31, b' ', 31),
        (35, b'9', 31),
        // the count of products, the lengths, the alphabet
        (37, 2, 37),
        (38, 0, 37),
        (53, 13, 53),
        (54, 19, 54),
        (55, 0, 55),
        (55, 3, 55),
        // the count of stations, a name that came before, a role
        (73, 0, 73),
        (73, 65, 73),
        (79, b'P', 78),
        (77, 4, 77),
    ];
    for (at, byte, place) in faults {
        let bytes = changed(&rt, alloc, SITE, at, byte);
        expect_site_fault(&rt, alloc, bytes.as_slice(), EntryFault::BadField(place));
    }
    let long = changed(&rt, alloc, SITE, 54, 13);
    let letters = changed(&rt, alloc, long.as_slice(), 55, 2);
    expect_site_fault(&rt, alloc, letters.as_slice(), EntryFault::BadField(55));
    expect_site_fault(&rt, alloc, &SITE[..89], EntryFault::Short(89));
    expect_site_fault(&rt, alloc, b"", EntryFault::Short(0));
    let longer = joined(&rt, alloc, SITE, b"\x01");
    expect_site_fault(&rt, alloc, longer.as_slice(), EntryFault::Extra(90));
}

#[test]
fn a_gtin_that_came_before_is_told_at_the_second(rt: HostRuntime) {
    let alloc = rt.alloc();
    let twice =
        b"\x020614141000012\x070614141\x01\0\0\0\0\0\0\0\x01+00:00\0\x0200614141123452\x07\x0a\x0100614141123452\x07\x06\x01\x01\x02P1\x01";
    expect_site_fault(&rt, alloc, twice, EntryFault::BadField(56));
}
