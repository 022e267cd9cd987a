//! Each deed in JSON with each of its members good, missing and wrong.
use deed_json::{AskFault, DeedFault, Member, read_body};
use deed_words::Deed;
use std::alloc::Global;
use std::process::Abort;

/// The deeds by their tags: the word of each, and its members in the order in which they are read.
const DEEDS: [(&str, &[Member]); 23] = [
    (
        "order",
        &[
            Member::Batch,
            Member::Gtin,
            Member::Lot,
            Member::Expiry,
            Member::Quantity,
            Member::Case,
            Member::Pallet,
        ],
    ),
    ("orders", &[Member::Csv]),
    ("start", &[Member::Batch]),
    ("draw", &[Member::Batch, Member::Count]),
    ("lend", &[Member::Batch, Member::Count]),
    ("commission", &[Member::Batch, Member::Codes]),
    ("spoil", &[Member::Batch, Member::Serials]),
    ("giveback", &[Member::Batch, Member::Serials]),
    ("sample", &[Member::Batch, Member::Items]),
    ("reject", &[Member::Batch, Member::Items]),
    ("reinstate", &[Member::Batch, Member::Items]),
    ("destroy", &[Member::Batch, Member::Items]),
    ("decommission", &[Member::Batch, Member::Items]),
    ("container", &[Member::Batch, Member::Level]),
    ("pack", &[Member::Unit, Member::Children]),
    ("unpack", &[Member::Unit, Member::Children]),
    ("unpack_all", &[Member::Unit]),
    ("seal", &[Member::Unit]),
    ("unseal", &[Member::Unit]),
    ("void", &[Member::Unit]),
    (
        "declare",
        &[
            Member::Batch,
            Member::Good,
            Member::Spoiled,
            Member::Returned,
        ],
    ),
    ("close", &[Member::Batch]),
    ("amend", &[Member::Batch, Member::Quantity]),
];

/// A good value of the member.
fn good(member: Member) -> &'static str {
    match member {
        Member::Do => r#""close""#,
        Member::Batch => r#""B6""#,
        Member::Gtin => r#""614141123452""#,
        Member::Lot => r#""LOT-6""#,
        Member::Expiry => r#""2027-02""#,
        Member::Quantity => "1000000",
        Member::Case => "1000",
        Member::Pallet => "0",
        Member::Csv => {
            r#""batch,gtin,lot,expiry,quantity,case,pallet\nB6,614141123452,L6,2027-12-31,2,2,0""#
        }
        Member::Count => "4294967295",
        Member::Codes => r#"["]d201806141411234581727123110L6\u001d21000005"]"#,
        Member::Serials => r#"["000005","A\"1"]"#,
        Member::Items =>
            r#"["urn:epc:id:sgtin:0614141.812345.000005","urn:epc:id:sscc:0614141.1000000001"]"#,
        Member::Level => r#""pallet""#,
        Member::Unit => r#""urn:epc:id:sscc:0614141.1000000001""#,
        Member::Children => "[]",
        Member::Good => "21",
        Member::Spoiled => "0",
        Member::Returned => "1",
        Member::Operator => r#""ann""#,
    }
}

/// Wrong values of the member: of another type, or out of its range.
fn wrong(member: Member) -> &'static [&'static str] {
    match member {
        Member::Do => &["1", "null", r#""dance""#, r#""Close""#, r#""close ""#],
        Member::Batch => &[
            "6",
            "null",
            "[]",
            r#""""#,
            r#""B 6""#,
            r#""B23456789012345678901""#,
        ],
        Member::Gtin => &[
            "614141123452",
            r#""00614141123453""#,
            r#""6141411234""#,
            r#""61414112345x""#,
        ],
        Member::Lot => &["6", "{}", r#""""#, r##""L#6""##],
        Member::Expiry => &[
            "202712",
            r#""2027-13""#,
            r#""2027-02-29""#,
            r#""2027-2""#,
            r#""1999-12""#,
        ],
        Member::Quantity => &["0", "1000001", "-1", "1.0", "true", r#""40""#],
        Member::Case => &["0", "1001", "null", r#""1""#],
        Member::Pallet => &["-1", "1001", "0.0", r#""0""#],
        Member::Csv => &["1", "null", "[]"],
        Member::Count => &["-1", "4294967296", "1.0", r#""1""#],
        Member::Codes => &["1", "{}", r#""01""#, "[1]", "[null]"],
        Member::Serials => &["1", r#""000005""#, "[5]", r#"[""]"#, r#"["000005","0 5"]"#],
        Member::Items => &["null", "{}", r#""urn""#, "[1]", "[[]]"],
        Member::Level => &["1", r#""box""#, r#""Case""#, "null"],
        Member::Unit => &[
            "1",
            r#""106141410000000019""#,
            r#""urn:epc:id:sgtin:0614141.812345.000005""#,
        ],
        Member::Children => &["null", "{}", r#""urn""#, "[true]"],
        Member::Good => &["-1", "4294967296", r#""21""#],
        Member::Spoiled => &["-1", "1.5", "[0]"],
        Member::Returned => &["-1", "4294967296", "false"],
        Member::Operator => &["1", "null", r#""""#, r#""ann b""#],
    }
}

/// The tag of the deed.
fn tag(deed: &Deed) -> usize {
    match deed {
        Deed::Order(_) => 1,
        Deed::Orders(_) => 2,
        Deed::Start(_) => 3,
        Deed::Draw(_, _) => 4,
        Deed::Lend(_, _) => 5,
        Deed::Commission(_, _) => 6,
        Deed::Spoil(_, _) => 7,
        Deed::Giveback(_, _) => 8,
        Deed::Sample(_, _) => 9,
        Deed::Reject(_, _) => 10,
        Deed::Reinstate(_, _) => 11,
        Deed::Destroy(_, _) => 12,
        Deed::Decommission(_, _) => 13,
        Deed::Container(_, _) => 14,
        Deed::Pack(_, _) => 15,
        Deed::Unpack(_, _) => 16,
        Deed::UnpackAll(_) => 17,
        Deed::Seal(_) => 18,
        Deed::Unseal(_) => 19,
        Deed::Void(_) => 20,
        Deed::Declare(_, _, _, _) => 21,
        Deed::Close(_) => 22,
        Deed::Amend(_, _) => 23,
    }
}

/// Puts a member last.
fn put(rt: &impl Abort, text: &mut String, member: Member, value: &str) {
    text.push_str(",\"").expect(rt, "memory is ample");
    text.push_str(member.name()).expect(rt, "memory is ample");
    text.push_str("\":").expect(rt, "memory is ample");
    text.push_str(value).expect(rt, "memory is ample");
}

/// The deed of a word with the first of its members, of which there are so many, and no end.
fn begun(rt: &impl Abort, alloc: Global, word: &str, members: &[Member], count: usize) -> String {
    let mut text = String::from_str(alloc, "{\"do\":\"").expect(rt, "memory is ample");
    text.push_str(word).expect(rt, "memory is ample");
    text.push('"').expect(rt, "memory is ample");
    for member in members.iter().take(count) {
        put(rt, &mut text, *member, good(*member));
    }
    text
}

/// The text, closed, is a deed of that tag.
fn expect_deed(rt: &impl Abort, alloc: Global, text: String, number: usize) {
    let mut text = text;
    text.push('}').expect(rt, "memory is ample");
    let said = read_body(alloc, text.as_bytes()).expect(rt, "it is a deed");
    assert!(rt; tag(&said.deed) == number);
}

/// The text, closed, has this fault.
fn expect_fault(rt: &impl Abort, alloc: Global, text: String, fault: DeedFault) {
    let mut text = text;
    text.push('}').expect(rt, "memory is ample");
    let found = read_body(alloc, text.as_bytes()).err();
    assert!(rt; found == Some(AskFault::BadDeed(fault)), "{text}");
}

/// Wrong values of all members but the first ones and this one stand behind it.
fn put_wrong_ones(rt: &impl Abort, text: &mut String, members: &[Member], from: usize) {
    for member in members.iter().skip(from) {
        if let Some(value) = wrong(*member).first() {
            put(rt, text, *member, value);
        }
    }
}

/// Where the member at that place is missing, or wrong, it is told, whatever the later ones are.
fn expect_member(
    rt: &impl Abort,
    alloc: Global,
    word: &str,
    members: &[Member],
    at: usize,
    member: Member,
) {
    let mut text = begun(rt, alloc, word, members, at);
    put_wrong_ones(rt, &mut text, members, at.saturating_add(1));
    expect_fault(rt, alloc, text, DeedFault::NoMember(member));
    for value in wrong(member) {
        let mut text = begun(rt, alloc, word, members, at);
        put(rt, &mut text, member, value);
        expect_fault(rt, alloc, text, DeedFault::BadMember(member));
    }
}

/// A deed is read with all its members, and refused for each of them.
fn expect_members(rt: &impl Abort, alloc: Global, number: usize, word: &str, members: &[Member]) {
    let text = begun(rt, alloc, word, members, members.len());
    expect_deed(rt, alloc, text, number);
    for (at, member) in members.iter().enumerate() {
        expect_member(rt, alloc, word, members, at, *member);
    }
}

#[test]
fn each_member_of_each_deed(rt: HostRuntime) {
    for (at, (word, members)) in DEEDS.iter().enumerate() {
        expect_members(&rt, rt.alloc(), at.saturating_add(1), word, members);
    }
}

/// Operators that are read, and those that aren't, behind all other members.
fn expect_operators(rt: &impl Abort, alloc: Global) {
    let members = [Member::Batch, Member::Operator];
    let text = begun(rt, alloc, "close", &members, 2);
    expect_deed(rt, alloc, text, 22);
    for value in wrong(Member::Operator) {
        let mut text = begun(rt, alloc, "close", &members, 1);
        put(rt, &mut text, Member::Operator, value);
        expect_fault(rt, alloc, text, DeedFault::BadMember(Member::Operator));
    }
    let mut text = begun(rt, alloc, "close", &members, 0);
    put(rt, &mut text, Member::Operator, "1");
    expect_fault(rt, alloc, text, DeedFault::NoMember(Member::Batch));
}

/// Words that are none.
fn expect_no_words(rt: &impl Abort, alloc: Global) {
    for value in wrong(Member::Do) {
        let mut text = String::from_str(alloc, "{\"batch\":\"B6\"").expect(rt, "memory is ample");
        put(rt, &mut text, Member::Do, value);
        expect_fault(rt, alloc, text, DeedFault::BadMember(Member::Do));
    }
    let text = String::from_str(alloc, "{\"batch\":\"B6\"").expect(rt, "memory is ample");
    expect_fault(rt, alloc, text, DeedFault::NoMember(Member::Do));
}

#[test]
fn words_and_operators(rt: HostRuntime) {
    expect_operators(&rt, rt.alloc());
    expect_no_words(&rt, rt.alloc());
}

/// Whether the deed is an order of what expires in February 2027, on no day that is told.
fn expires_in_february(deed: &Deed) -> bool {
    match deed {
        Deed::Order(row) => row.expiry == *b"270200",
        _ => false,
    }
}

#[test]
fn a_month_has_day_0(rt: HostRuntime) {
    let order =
        r#"{"do":"order","batch":"B6","gtin":"614141123452","lot":"L6","expiry":"2027-02","quantity":2,"case":2,"pallet":0}"#;
    let said = read_body(rt.alloc(), order.as_bytes()).expect(&rt, "it is a deed");
    assert!(rt; expires_in_february(&said.deed));
}
