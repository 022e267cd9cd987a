//! A case, and items of two products that share a serial.
use epc_urn::Epc;
use gs1_keys::{Gtin, Sscc, Text20};
use name_marks::{Marks, first_repeat};
use std::alloc::Global;
use std::process::Abort;

fn item(rt: &impl Abort, gtin: &[u8]) -> Epc {
    let serial = Text20::read(b"000005").expect(rt, "a serial");
    Epc::Item(Gtin::read(gtin).expect(rt, "a GTIN"), serial)
}

/// An item, one of another product, and a case.
fn three(rt: &impl Abort) -> [Epc; 3] {
    let case = Sscc::read(b"106141410000000019").expect(rt, "an SSCC");
    [
        item(rt, b"80614141123458"),
        item(rt, b"00614141123452"),
        Epc::Unit(case),
    ]
}

#[test]
fn names_are_told_apart(rt: HostRuntime) {
    let [one, other, case] = three(&rt);
    let names = [one, case];
    let marks = Marks::of(rt.alloc(), &names).expect(&rt, "memory is ample");
    assert!(rt; marks.has(&one));
    assert!(rt; marks.has(&case));
    assert!(rt; !marks.has(&other));
}

/// Compares the place of the first name that came before.
fn expect_repeat(rt: &impl Abort, alloc: Global, names: &[Epc], place: Option<usize>) {
    let found = first_repeat(alloc, names).expect(rt, "memory is ample");
    assert!(rt; found == place);
}

#[test]
fn the_first_repeat_is_found(rt: HostRuntime) {
    let names = three(&rt);
    expect_repeat(&rt, rt.alloc(), &names, None);
    let [one, other, case] = three(&rt);
    let [one_again, other_again, _case] = three(&rt);
    let names = [one, other, case, other_again, one_again];
    expect_repeat(&rt, rt.alloc(), &names, Some(3));
}
