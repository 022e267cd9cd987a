//! Lines and bodies, what they ask, and the texts of what isn't kept.
use crate::example::example_site;
use deed_json::{AskFault, DeedFault, Member, Unkept, read_ask, read_body, unkept_text};
use deed_words::{Ask, Deed};
use gs1_element::ElementFault;
use std::alloc::Global;
use std::process::Abort;

/// Reads a line that has no fault.
fn good(rt: &impl Abort, alloc: Global, line: &str) -> Ask {
    read_ask(alloc, &example_site(rt, alloc), line.as_bytes()).expect(rt, "it asks")
}

#[test]
fn a_line_of_a_site(rt: HostRuntime) {
    let line =
        "{\"station\":\"P1\",\"station\":\"L1\",\"number\":18446744073709551615,\"deed\":{\"do\":\"close\",\"batch\":\"B6\",\"operator\":\"ann\",\"note\":\"\\ud83d\\ude00\"},\"more\":0}";
    let ask = good(&rt, rt.alloc(), line);
    assert_eq!(rt; ask.station.0, 1);
    assert_eq!(rt; ask.number, 18_446_744_073_709_551_615);
    assert!(rt; ask.operator.is_some());
    assert!(rt; matches!(&ask.deed, Deed::Close(_)));
}

#[test]
fn bodies(rt: HostRuntime) {
    let close = b"{\"do\":\"close\",\"batch\":\"B6\"}";
    assert!(rt; read_body(rt.alloc(), close).is_ok());
    assert!(rt; read_body(rt.alloc(), b"[]").err() == Some(AskFault::BadLine));
}

/// Compares the fault of a line.
fn expect_fault(rt: &impl Abort, alloc: Global, line: &str, fault: AskFault) {
    let site = example_site(rt, alloc);
    assert!(rt; read_ask(alloc, &site, line.as_bytes()).err() == Some(fault));
}

#[test]
fn faults_of_lines(rt: HostRuntime) {
    let alloc = rt.alloc();
    expect_fault(&rt, alloc, "{", AskFault::BadLine);
    let unknown = "{\"station\":\"X\",\"number\":1,\"deed\":{}}";
    expect_fault(&rt, alloc, unknown, AskFault::NoStation);
    let null = "{\"station\":\"P1\",\"number\":1,\"deed\":null}";
    expect_fault(&rt, alloc, null, AskFault::BadDeed(DeedFault::NotObject));
    let nested = "[".repeat(alloc, 200).expect(&rt, "memory is ample");
    expect_fault(&rt, alloc, nested.as_str(), AskFault::BadLine);
}

/// Compares the text of what isn't kept.
fn expect_unkept(rt: &impl Abort, alloc: Global, unkept: Unkept, text: &str) {
    let found = unkept_text(alloc, unkept).expect(rt, "memory is ample");
    assert!(rt; found.as_str() == text);
}

#[test]
fn texts_of_what_is_not_kept(rt: HostRuntime) {
    let alloc = rt.alloc();
    let line = "{\"fault\":\"BadLine\",\"ok\":false}";
    expect_unkept(&rt, alloc, Unkept::from(AskFault::BadLine), line);
    let no_batch = Unkept::BadDeed(DeedFault::NoMember(Member::Batch));
    let text = "{\"code\":2,\"fault\":\"BadDeed\",\"name\":\"batch\",\"ok\":false}";
    expect_unkept(&rt, alloc, no_batch, text);
    let bad_code = Unkept::BadDeed(DeedFault::BadCode(3, ElementFault::Twice(*b"10")));
    let text = "{\"code\":4,\"fault\":\"BadDeed\",\"index\":3,\"inner\":4,\"ok\":false}";
    expect_unkept(&rt, alloc, bad_code, text);
    let row = Unkept::BadDeed(DeedFault::BadRow(2, 5));
    let text = "{\"code\":8,\"column\":5,\"fault\":\"BadDeed\",\"line\":2,\"ok\":false}";
    expect_unkept(&rt, alloc, row, text);
    let gap = "{\"fault\":\"NumberGap\",\"last\":4,\"ok\":false}";
    expect_unkept(&rt, alloc, Unkept::NumberGap(4), gap);
}
