use numerals::number;

#[test]
fn digits_are_read(rt: HostRuntime) {
    for (text, longest, found) in [
        (b"0".as_slice(), 1, Some(0)),
        (b"007", 3, Some(7)),
        (
            b"18446744073709551615",
            20,
            Some(18_446_744_073_709_551_615),
        ),
        (b"18446744073709551616", 20, None),
        (b"007", 2, None),
        (b"", 3, None),
        (b"+7", 3, None),
    ] {
        assert!(rt; number(text, longest) == found);
    }
}
