//! Texts of the EPC Tag Data Standard, and a fault at each place.
ghost use Rattle.epc_urn.specs.Urns.{IsPrefixLength};

use epc_urn::{Epc, UrnFault, print_sgln, print_urn, read_urn};
use gs1_keys::{Gln, Gtin, Sscc, Text20};
use std::process::Abort;

/// Compares what a text reads as, and prints it again.
fn expect_name(rt: &impl Abort, text: &str, epc: Epc, prefix_length: u8)
    requires { IsPrefixLength prefix_length }
{
    assert!(rt;
        read_urn(text.as_bytes()) == Ok((epc, prefix_length)),
        "at {text}"
    );
    assert!(rt;
        print_urn(&epc, prefix_length).bytes() == text.as_bytes(),
        "at {text}"
    );
}

fn item(rt: &impl Abort, serial: &[u8]) -> Epc {
    let gtin = Gtin::read(b"80614141123458").expect(rt, "a GTIN");
    Epc::Item(gtin, Text20::read(serial).expect(rt, "a serial"))
}

fn unit(rt: &impl Abort) -> Epc {
    Epc::Unit(Sscc::read(b"106141410000000019").expect(rt, "an SSCC"))
}

#[test]
fn items_are_read_and_printed(rt: HostRuntime) {
    for (length, text) in [
        (6, "urn:epc:id:sgtin:061414.8112345.6789"),
        (7, "urn:epc:id:sgtin:0614141.812345.6789"),
        (8, "urn:epc:id:sgtin:06141411.82345.6789"),
        (9, "urn:epc:id:sgtin:061414112.8345.6789"),
        (10, "urn:epc:id:sgtin:0614141123.845.6789"),
        (11, "urn:epc:id:sgtin:06141411234.85.6789"),
        (12, "urn:epc:id:sgtin:061414112345.8.6789"),
    ] {
        let whole = 6 <= length && length <= 12;
        assert!(rt; whole);
        expect_name(&rt, text, item(&rt, b"6789"), length);
    }
}

#[test]
fn units_are_read_and_printed(rt: HostRuntime) {
    for (length, text) in [
        (6, "urn:epc:id:sscc:061414.11000000001"),
        (7, "urn:epc:id:sscc:0614141.1000000001"),
        (8, "urn:epc:id:sscc:06141410.100000001"),
        (9, "urn:epc:id:sscc:061414100.10000001"),
        (10, "urn:epc:id:sscc:0614141000.1000001"),
        (11, "urn:epc:id:sscc:06141410000.100001"),
        (12, "urn:epc:id:sscc:061414100000.10001"),
    ] {
        let whole = 6 <= length && length <= 12;
        assert!(rt; whole);
        expect_name(&rt, text, unit(&rt), length);
    }
}

#[test]
fn characters_are_escaped(rt: HostRuntime) {
    let escaped = item(&rt, b"A/B%1");
    expect_name(&rt, "urn:epc:id:sgtin:0614141.812345.A%2FB%251", escaped, 7);
    let longest_text =
        "urn:epc:id:sgtin:0614141.812345.%2F%2F%2F%2F%2F%2F%2F%2F%2F%2F%2F%2F%2F%2F%2F%2F%2F%2F%2F%2F";
    let longest = item(&rt, b"////////////////////");
    expect_name(&rt, longest_text, longest, 7);
}

#[test]
fn a_site_is_printed(rt: HostRuntime) {
    let gln = Gln::read(b"0614141000012").expect(&rt, "a GLN");
    assert!(rt; print_sgln(&gln, 7).bytes() == b"urn:epc:id:sgln:0614141.00001.0".as_slice());
}

/// How long the URN of a serial of one character is, which reads as it was; nothing where there is no such serial.
fn length_with(rt: &impl Abort, character: u8) -> Option<usize> {
    let serial = Text20::read(&[character]).ok()?;
    let gtin = Gtin::read(b"80614141123458").expect(rt, "a GTIN");
    let text = print_urn(&Epc::Item(gtin, serial), 7);
    assert!(rt; read_urn(text.bytes()) == Ok((Epc::Item(gtin, serial), 7)));
    Some(text.bytes().len())
}

#[test]
fn each_character_has_one_spelling(rt: HostRuntime) {
    let mut as_they_are = 0u32;
    let mut escaped = 0u32;
    for character in 0..=255u8 {
        match length_with(&rt, character) {
            Some(33) => as_they_are = as_they_are.saturating_add(1),
            Some(_) => escaped = escaped.saturating_add(1),
            None => {}
        }
    }
    assert!(rt; (as_they_are, escaped) == (75, 7));
}

#[test]
fn the_first_fault_answers(rt: HostRuntime) {
    let table = [
        ("", UrnFault::UnknownScheme),
        (
            "URN:epc:id:sgtin:0614141.812345.6789",
            UrnFault::UnknownScheme,
        ),
        ("urn:epc:id:sgln:0614141.00001.0", UrnFault::UnknownScheme),
        (
            "urn:epc:id:sgtin:.812345.6789",
            UrnFault::BadPrefixLength(0),
        ),
        (
            "urn:epc:id:sgtin:06141.41812345.6789",
            UrnFault::BadPrefixLength(5),
        ),
        (
            "urn:epc:id:sgtin:0614141812345..6789",
            UrnFault::BadPrefixLength(13),
        ),
        (
            "urn:epc:id:sgtin:06141,41812345.6789",
            UrnFault::BadField(22),
        ),
        ("urn:epc:id:sgtin:06141418123456789", UrnFault::BadField(34)),
        (
            "urn:epc:id:sgtin:0614141.81234.6789",
            UrnFault::BadField(30),
        ),
        (
            "urn:epc:id:sgtin:0614141.8123450.6789",
            UrnFault::BadField(31),
        ),
        (
            "urn:epc:id:sgtin:0614141.81A345.6%41",
            UrnFault::BadField(27),
        ),
        ("urn:epc:id:sgtin:0614141.812345.", UrnFault::BadField(32)),
        (
            "urn:epc:id:sgtin:0614141.812345.A/B%2f",
            UrnFault::BadField(33),
        ),
        (
            "urn:epc:id:sgtin:0614141.812345.A B",
            UrnFault::BadField(33),
        ),
        (
            "urn:epc:id:sgtin:0614141.812345.A%2fB",
            UrnFault::BadEscape(33),
        ),
        (
            "urn:epc:id:sgtin:0614141.812345.A%/41",
            UrnFault::BadEscape(33),
        ),
        (
            "urn:epc:id:sgtin:0614141.812345.A%2",
            UrnFault::BadEscape(33),
        ),
        (
            "urn:epc:id:sgtin:0614141.812345.A%41B",
            UrnFault::EscapeNotNeeded(33),
        ),
        (
            "urn:epc:id:sgtin:0614141.812345.A%00B",
            UrnFault::EscapeNotNeeded(33),
        ),
        (
            "urn:epc:id:sgtin:0614141.812345.123456789012345678901",
            UrnFault::TooLong,
        ),
        (
            "urn:epc:id:sgtin:0614141.812345.12345678901234567890 ",
            UrnFault::TooLong,
        ),
        (
            "urn:epc:id:sgtin:0614141.812345.12345678901234567890%41",
            UrnFault::TooLong,
        ),
        (
            "urn:epc:id:sgtin:0614141.812345.1234567890123456789%41",
            UrnFault::EscapeNotNeeded(51),
        ),
        ("urn:epc:id:sscc:.1000000001", UrnFault::BadPrefixLength(0)),
        (
            "urn:epc:id:sscc:06141.411000000001",
            UrnFault::BadPrefixLength(5),
        ),
        (
            "urn:epc:id:sscc:0614141000000.0001",
            UrnFault::BadPrefixLength(13),
        ),
        ("urn:epc:id:sscc:0614141-1000000001", UrnFault::BadField(23)),
        ("urn:epc:id:sscc:06141411000000001", UrnFault::BadField(33)),
        ("urn:epc:id:sscc:0614141.100000001", UrnFault::BadField(33)),
        ("urn:epc:id:sscc:0614141.100000001.", UrnFault::BadField(33)),
        (
            "urn:epc:id:sscc:0614141.10000000019",
            UrnFault::BadField(34),
        ),
        (
            "urn:epc:id:sscc:0614141.1000000001.",
            UrnFault::BadField(34),
        ),
    ];
    for (text, fault) in table {
        assert!(rt; read_urn(text.as_bytes()).err() == Some(fault), "at {text}");
    }
}

/// What a URN that was cut after `end` bytes is, where the fields begin at `fields` and which is whole from `whole` bytes on.
fn cut_fault(end: usize, fields: usize, whole: usize) -> Option<UrnFault> {
    if end < fields {
        Some(UrnFault::UnknownScheme)
    } else if end < whole {
        Some(UrnFault::BadField(end as u64))
    } else {
        None
    }
}

#[test]
fn a_cut_name_of_an_item_ends_too_early(rt: HostRuntime) {
    let item = b"urn:epc:id:sgtin:0614141.812345.A%2FB".as_slice();
    for end in 0..item.len() {
        // behind the `%` one and two digits are missing
        let due = if end == 34 || end == 35 {
            Some(UrnFault::BadEscape(33))
        } else {
            cut_fault(end, 17, 33)
        };
        assert!(rt; read_urn(&item[..end]).err() == due, "at {end}");
    }
}

#[test]
fn a_cut_name_of_a_unit_ends_too_early(rt: HostRuntime) {
    let unit = b"urn:epc:id:sscc:0614141.1000000001".as_slice();
    for end in 0..unit.len() {
        assert!(rt;
            read_urn(&unit[..end]).err() == cut_fault(end, 16, 34),
            "at {end}"
        );
    }
}
