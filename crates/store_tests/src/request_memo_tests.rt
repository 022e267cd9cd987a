//! What numbers mean, what is taken back, and which deeds are equal.
ghost use Rattle.std.specs.Prelude.{◌≡◌, ◌<◌, length};

use deed_words::{Answer, Ask, Codes, Deed, Epcs, Level, OrderRow, Reply, Rows, Rule, StationId};
use epc_urn::Epc;
use gs1_element::Code;
use gs1_keys::{Gtin, Serials, Sscc, Text20};
use request_memo::{Memo, Seen, kept_and_taken_back, same_deed, taken_back_and_kept};
use std::alloc::Global;
use std::process::Abort;

fn text(rt: &impl Abort, characters: &[u8]) -> Text20 {
    Text20::read(characters).expect(rt, "a text")
}

fn gtin(rt: &impl Abort) -> Gtin {
    Gtin::read(b"80614141123458").expect(rt, "a GTIN")
}

fn sscc(rt: &impl Abort) -> Sscc {
    Sscc::read(b"106141410000000019").expect(rt, "an SSCC")
}

fn start(rt: &impl Abort, batch: &[u8]) -> Deed {
    Deed::Start(text(rt, batch))
}

/// What a number means.
#[derive(Clone, Copy, PartialEq)]
enum Meaning {
    New,
    Kept,
    Refused,
    Reused,
    Gap(u64),
}

fn meaning_of(memo: &Memo, station: u8, number: u64, deed: &Deed) -> Meaning
    requires { station < length memo.now.told }
{
    match memo.look(StationId(station), number, deed) {
        Seen::Kept(Reply::Accepted(_)) => Meaning::Kept,
        Seen::Kept(Reply::Refused(_)) => Meaning::Refused,
        Seen::Reused(_) => Meaning::Reused,
        Seen::New => Meaning::New,
        Seen::Gap(last) => Meaning::Gap(last),
    }
}

/// A memo of two stations.
fn two_stations(rt: &impl Abort, alloc: Global) -> Memo
    ensures { length result.told ≡ 2 }
{
    Memo::new(alloc, 2).expect(rt, "memory is ample")
}

/// Compares what numbers of the second station mean for the start of a batch.
fn expect_meanings(rt: &impl Abort, memo: &Memo, batch: &[u8], rows: &[(u64, Meaning)])
    requires { length memo.now.told ≡ 2 }
{
    let deed = start(rt, batch);
    for (number, expected) in rows {
        assert!(rt; meaning_of(memo, 1, *number, &deed) == *expected);
    }
}

/// Keeps a deed of the second station that was done.
fn keep(rt: &impl Abort, memo: &mut Memo, deed: Deed)
    requires { length memo.old.told ≡ 2 }
    ensures { length memo.new.told ≡ 2 }
{
    memo.ready(StationId(1)).expect(rt, "memory is ample");
    memo.push(StationId(1), deed, Reply::Accepted(Answer::Plain));
}

/// A station's numbers begin at 1 and leave none out. Each station has its own.
#[test]
fn a_number_means_one_thing(rt: HostRuntime) {
    let rt = &rt;
    let mut memo = two_stations(rt, rt.alloc());
    let none = [
        (0, Meaning::Gap(0)),
        (1, Meaning::New),
        (2, Meaning::Gap(0)),
    ];
    expect_meanings(rt, &memo, b"B6", &none);
    keep(rt, &mut memo, start(rt, b"B6"));
    let one = [
        (0, Meaning::Gap(1)),
        (1, Meaning::Kept),
        (2, Meaning::New),
        (3, Meaning::Gap(1)),
    ];
    expect_meanings(rt, &memo, b"B6", &one);
    expect_meanings(rt, &memo, b"B7", &[(1, Meaning::Reused)]);
    assert_eq!(rt; memo.last(StationId(1)), 1);
    assert!(rt; meaning_of(&memo, 0, 1, &start(rt, b"B6")) == Meaning::New);
}

/// A request by an operator.
fn asked_by(rt: &impl Abort, operator: &[u8]) -> Ask {
    Ask {
        station: StationId(1),
        number: 1,
        operator: Some(text(rt, operator)),
        deed: start(rt, b"B6"),
    }
}

/// A repeat by another operator is the same request: the memo isn't told who operated.
#[test]
fn operators_are_not_compared(rt: HostRuntime) {
    let rt = &rt;
    let mut memo = two_stations(rt, rt.alloc());
    keep(rt, &mut memo, asked_by(rt, b"ann").deed);
    let by_bob = asked_by(rt, b"bob");
    assert!(rt; meaning_of(&memo, 1, by_bob.number, &by_bob.deed) == Meaning::Kept);
}

/// Compares a start that came back with a batch's.
fn expect_start(rt: &impl Abort, deed: &Deed, batch: &[u8]) {
    assert!(rt; same_deed(deed, &start(rt, batch)));
}

/// Keeps a deed of the first station, and takes it back.
fn keep_and_back(rt: &impl Abort, memo: &mut Memo, batch: &[u8])
    requires { length memo.old.told ≡ 2 }
    ensures { length memo.new.told ≡ 2 }
{
    memo.ready(StationId(0)).expect(rt, "memory is ample");
    let (deed, reply) = kept_and_taken_back(
        memo,
        StationId(0),
        start(rt, batch),
        Reply::Accepted(Answer::Plain),
    );
    expect_start(rt, &deed, batch);
    assert!(rt; matches!(&reply, Reply::Accepted(Answer::Plain)));
}

/// Keeps a refused start of the first station, and takes it back twice: for a moment, and for good.
fn refuse_and_back(rt: &impl Abort, memo: &mut Memo, batch: &[u8])
    requires { length memo.old.told ≡ 2 }
{
    memo.ready_for(StationId(0), 2)
        .expect(rt, "memory is ample");
    let refused = Reply::Refused(Rule::BatchStarted);
    memo.push(StationId(0), start(rt, batch), refused);
    taken_back_and_kept(memo, StationId(0));
    expect_start(
        rt,
        &memo.told(StationId(0), memo.last(StationId(0))).deed,
        batch,
    );
    let (deed, _reply) = memo.unpush(StationId(0));
    expect_start(rt, &deed, batch);
}

/// What was kept last comes back as it was, and its number is the next one again.
#[test]
fn the_last_request_is_taken_back(rt: HostRuntime) {
    let rt = &rt;
    let mut memo = two_stations(rt, rt.alloc());
    keep_and_back(rt, &mut memo, b"B7");
    assert_eq!(rt; memo.last(StationId(0)), 0);
    refuse_and_back(rt, &mut memo, b"B6");
}

fn order(rt: &impl Abort, quantity: u32) -> OrderRow {
    OrderRow {
        batch: text(rt, b"B6"),
        gtin: gtin(rt),
        lot: text(rt, b"LOT6"),
        expiry: *b"271231",
        quantity,
        case_size: 2,
        pallet_size: 0,
    }
}

fn orders(rt: &impl Abort, alloc: Global, quantity: u32) -> Deed {
    let mut rows = Rows::new(alloc);
    rows.push(order(rt, 2)).expect(rt, "memory is ample");
    rows.push(order(rt, quantity)).expect(rt, "memory is ample");
    Deed::Orders(rows)
}

fn commission(rt: &impl Abort, alloc: Global, expiry: [u8; 6]) -> Deed {
    let mut codes = Codes::new(alloc);
    codes
        .push(Code {
            gtin: gtin(rt),
            serial: text(rt, b"000005"),
            lot: text(rt, b"LOT6"),
            expiry,
        })
        .expect(rt, "memory is ample");
    Deed::Commission(text(rt, b"B6"), codes)
}

fn spoil(rt: &impl Abort, alloc: Global, serial: &[u8]) -> Deed {
    let mut serials = Serials::new(alloc);
    serials.push(text(rt, serial)).expect(rt, "memory is ample");
    Deed::Spoil(text(rt, b"B6"), serials)
}

fn pack(rt: &impl Abort, alloc: Global, child: Epc) -> Deed {
    let mut children = Epcs::new(alloc);
    children.push(child).expect(rt, "memory is ample");
    Deed::Pack(sscc(rt), children)
}

/// Compares two deeds.
fn expect_same(rt: &impl Abort, one: Deed, other: Deed, same: bool) {
    assert!(rt; same_deed(&one, &other) == same);
}

/// Orders are equal where each part is.
#[test]
fn orders_are_compared_part_by_part(rt: HostRuntime) {
    let rt = &rt;
    let alloc = rt.alloc();
    expect_same(
        rt,
        Deed::Order(order(rt, 2)),
        Deed::Order(order(rt, 2)),
        true,
    );
    expect_same(
        rt,
        Deed::Order(order(rt, 2)),
        Deed::Order(order(rt, 3)),
        false,
    );
    expect_same(rt, orders(rt, alloc, 3), orders(rt, alloc, 3), true);
    expect_same(rt, orders(rt, alloc, 3), orders(rt, alloc, 2), false);
}

/// Lists are equal where they are as long and alike at each place.
#[test]
fn lists_are_compared_place_by_place(rt: HostRuntime) {
    let rt = &rt;
    let alloc = rt.alloc();
    let made = commission(rt, alloc, *b"271231");
    expect_same(rt, made, commission(rt, alloc, *b"271231"), true);
    let made = commission(rt, alloc, *b"271231");
    expect_same(rt, made, commission(rt, alloc, *b"271200"), false);
    expect_same(
        rt,
        spoil(rt, alloc, b"000005"),
        spoil(rt, alloc, b"000005"),
        true,
    );
    expect_same(
        rt,
        spoil(rt, alloc, b"000005"),
        spoil(rt, alloc, b"00005"),
        false,
    );
}

fn container(rt: &impl Abort, level: Level) -> Deed {
    Deed::Container(text(rt, b"B6"), level)
}

fn declare(rt: &impl Abort, returned: u32) -> Deed {
    Deed::Declare(text(rt, b"B6"), 1, 2, returned)
}

/// Packs an item.
fn pack_item(rt: &impl Abort, alloc: Global) -> Deed {
    pack(rt, alloc, Epc::Item(gtin(rt), text(rt, b"000005")))
}

/// What is packed is compared name by name.
#[test]
fn names_are_compared(rt: HostRuntime) {
    let rt = &rt;
    let alloc = rt.alloc();
    expect_same(rt, pack_item(rt, alloc), pack_item(rt, alloc), true);
    expect_same(
        rt,
        pack_item(rt, alloc),
        pack(rt, alloc, Epc::Unit(sscc(rt))),
        false,
    );
}

/// A deed of another kind, or one that names another thing, is another deed.
#[test]
fn kinds_are_compared(rt: HostRuntime) {
    let rt = &rt;
    expect_same(
        rt,
        container(rt, Level::Case),
        container(rt, Level::Pallet),
        false,
    );
    expect_same(rt, declare(rt, 3), declare(rt, 4), false);
    let batch = text(rt, b"B6");
    expect_same(rt, Deed::Draw(batch, 1), Deed::Lend(batch, 1), false);
}
