//! Keys and texts, the fault of each, and serials.
use gs1_keys::{
    Alphabet, Gln, Gtin, KeyFault, Memory, Prefix, SerialForm, Serials, Sscc, Text20, check_digit,
    first_not_digit, first_not_in_set, set_characters,
};
use std::process::Abort;

/// Compares the 14 digits of a GTIN.
fn expect_gtin(rt: &impl Abort, text: &[u8], digits: &[u8]) {
    let gtin = Gtin::read(text).expect(rt, "a GTIN");
    assert!(rt; gtin.digits() == digits);
}

#[test]
fn gtins_are_read(rt: HostRuntime) {
    expect_gtin(&rt, b"80614141123458", b"80614141123458");
    expect_gtin(&rt, b"00614141123452", b"00614141123452");
    expect_gtin(&rt, b"0614141123452", b"00614141123452");
    expect_gtin(&rt, b"614141123452", b"00614141123452");
    expect_gtin(&rt, b"96385074", b"00000096385074");
}

fn prefix(rt: &impl Abort) -> Prefix {
    Prefix::read(b"0614141").expect(rt, "a prefix")
}

#[test]
fn other_keys_are_read(rt: HostRuntime) {
    let sscc = Sscc::read(b"106141410000000019").expect(&rt, "an SSCC");
    assert!(rt; sscc.digits() == b"106141410000000019".as_slice());
    let gln = Gln::read(b"0614141000012").expect(&rt, "a GLN");
    assert!(rt; gln.digits() == b"0614141000012".as_slice());
    assert!(rt; prefix(&rt).digits() == b"0614141".as_slice());
}

#[test]
fn check_digits_are_told(rt: HostRuntime) {
    assert!(rt; check_digit(b"8061414112345").ok() == Some(8));
    assert!(rt; check_digit(b"10614141000000005").ok() == Some(7));
}

/// Compares the SSCC of a serial reference.
fn expect_issued(rt: &impl Abort, reference: u64, digits: &[u8]) {
    let prefix = prefix(rt);
    let fits = prefix.digits().len() == 7 && reference < 1_000_000_000;
    assert!(rt; fits);
    if fits {
        assert!(rt; Sscc::issue(&prefix, 1, reference).digits() == digits);
    }
}

#[test]
fn an_sscc_is_issued(rt: HostRuntime) {
    expect_issued(&rt, 5, b"106141410000000057");
    expect_issued(&rt, 999_999_999, b"106141419999999991");
}

/// What a text is read as.
#[derive(Clone, Copy)]
enum Key {
    Gtin,
    Sscc,
    Gln,
    Prefix,
    Text,
    Digits,
}

fn fault_of(key: Key, text: &[u8]) -> Option<KeyFault> {
    match key {
        Key::Gtin => Gtin::read(text).err(),
        Key::Sscc => Sscc::read(text).err(),
        Key::Gln => Gln::read(text).err(),
        Key::Prefix => Prefix::read(text).err(),
        Key::Text => Text20::read(text).err(),
        Key::Digits => check_digit(text).err(),
    }
}

#[test]
fn faults_come_in_order(rt: HostRuntime) {
    let rows = [
        (
            Key::Gtin,
            b"00614141123453".as_slice(),
            KeyFault::BadCheck(2, 3),
        ),
        (Key::Gtin, b"", KeyFault::BadLength(0)),
        (Key::Gtin, b"0614141x3", KeyFault::BadLength(9)),
        (Key::Gtin, b"0061414112345x", KeyFault::NotDigit(13)),
        (Key::Gtin, b"x061414112345y", KeyFault::NotDigit(0)),
        (Key::Gtin, b"96385075", KeyFault::BadCheck(4, 5)),
        (Key::Sscc, b"10614141000000001", KeyFault::BadLength(17)),
        (Key::Sscc, b"1061414100000000 9", KeyFault::NotDigit(16)),
        (Key::Sscc, b"106141410000000018", KeyFault::BadCheck(9, 8)),
        (Key::Gln, b"061414100001", KeyFault::BadLength(12)),
        (Key::Gln, b"061414100001A", KeyFault::NotDigit(12)),
        (Key::Gln, b"0614141000011", KeyFault::BadCheck(2, 1)),
        (Key::Prefix, b"06141", KeyFault::BadLength(5)),
        (Key::Prefix, b"0614141000012", KeyFault::BadLength(13)),
        (Key::Prefix, b"06141x1", KeyFault::NotDigit(5)),
        (Key::Text, b"", KeyFault::BadLength(0)),
        (Key::Text, b"12345678901234567890#", KeyFault::BadLength(21)),
        (Key::Text, b"LOT 7#", KeyFault::NotInSet(3)),
        (Key::Digits, b"", KeyFault::BadLength(0)),
        (Key::Digits, b"10614141000000005x", KeyFault::BadLength(18)),
        (Key::Digits, b"1061414100000000x", KeyFault::NotDigit(16)),
    ];
    for (key, text, fault) in rows {
        assert!(rt; fault_of(key, text) == Some(fault));
    }
}

/// Whether a byte is a text of one character.
fn is_text(byte: u8) -> bool {
    Text20::read(&[byte]).is_ok() && first_not_in_set(&[byte]).is_none()
}

#[test]
fn the_set_has_82_characters(rt: HostRuntime) {
    let set =
        br#"!"%&'()*+,-./0123456789:;<=>?ABCDEFGHIJKLMNOPQRSTUVWXYZ_abcdefghijklmnopqrstuvwxyz"#;
    assert!(rt; set_characters() == set);
    for byte in 0..=255 {
        assert!(rt; is_text(byte) == set.contains(&byte));
    }
}

#[test]
fn serials_keep_their_order(rt: HostRuntime) {
    let first = Text20::read(b"1").expect(&rt, "a text");
    let mut serials = Serials::new(rt.alloc());
    assert!(rt; serials.is_empty());
    serials.push(first).expect(&rt, "memory is ample");
    assert_eq!(rt; serials.len(), 1);
    assert!(rt; serials.get(0).bytes() == b"1".as_slice());
    assert!(rt; serials.as_slice() == [first].as_slice());
}

#[test]
fn digits_are_written(rt: HostRuntime) {
    let mut out = [0; 5];
    Alphabet::Digits.write(&mut out, 270);
    assert!(rt; out == *b"00270");
    assert!(rt; first_not_digit(b"270").is_none());
    assert!(rt; first_not_digit(b"12/4") == Some(2));
}

const SIX_LETTERS: SerialForm = SerialForm {
    alphabet: Alphabet::Base32,
    length: 6,
};

/// Compares the text of a number.
fn expect_text(rt: &impl Abort, number: u64, text: &[u8]) {
    let fits = SIX_LETTERS.is_proper() && number < 1_073_741_824;
    assert!(rt; fits);
    if fits {
        assert!(rt; SIX_LETTERS.text(number).bytes() == text);
    }
}

#[test]
fn numbers_are_written_in_a_form(rt: HostRuntime) {
    expect_text(&rt, 1_073_741_823, b"ZZZZZZ");
    expect_text(&rt, 33, b"000011");
    let text = Text20::read(b"00000I").expect(&rt, "a text");
    assert!(rt; !SIX_LETTERS.has(&text));
}

#[test]
fn forms_have_sizes(rt: HostRuntime) {
    assert!(rt; SIX_LETTERS.is_proper());
    assert_eq!(rt; SIX_LETTERS.size(), 1_073_741_824);
    assert_eq!(rt; SIX_LETTERS.half(), 536_870_912);
}

#[test]
fn faults_are_told(rt: HostRuntime) {
    for (fault, text) in [
        (KeyFault::BadLength(9), "a length of 9 does not fit"),
        (KeyFault::NotDigit(13), "no digit at 13"),
        (KeyFault::BadCheck(2, 3), "check digit 3 in place of 2"),
        (KeyFault::NotInSet(3), "no character of the set at 3"),
    ] {
        let told = format!(in rt.alloc(); "{fault}").expect(&rt, "memory is ample");
        assert!(rt; told.as_str() == text);
    }
}

#[test]
fn out_of_memory_is_told(rt: HostRuntime) {
    let told = format!(in rt.alloc(); "{Memory}").expect(&rt, "memory is ample");
    assert!(rt; told.as_str() == "out of memory");
}
