//! Whole sites, served by workers in threads.
ghost use Rattle.std.specs.Prelude.{◌≡◌, Some, []};
ghost use Rattle.site_server.specs.Chain.{IsUnopened};
ghost use Rattle.site_service.specs.Doors.{AreUnopened};

use crate::sessions::{devices, list};
use crate::side_link::SideLink;
use crate::talk::{CONFLICT, OK, ORDERED, ask, tell};
use outside::{Door, Link, MemoryDoor, MemoryLink, MemorySink, MemorySource, Sink};
use site_console::site_top;
use site_service::site_serve;
use std::alloc::Global;
use std::process::Abort;
use std::sync::atomic::AtomicU64;
use std::sync::{Arc, Wait};
use std::thread::Threads;

/// How many numbered requests each planner sends; behind every fourth it asks for a report.
const REQUESTS: usize = 200;

/// A site with eight planners.
const PLANNERS: &str = r#"[site]
gln = "0614141000012"
prefix = "0614141"
extension = 1
reference = 1
offset = "+00:00"

[[product]]
gtin = "80614141123458"
prefix_length = 7
serial_length = 6

[[station]]
name = "P1"
role = "planner"

[[station]]
name = "P2"
role = "planner"

[[station]]
name = "P3"
role = "planner"

[[station]]
name = "P4"
role = "planner"

[[station]]
name = "P5"
role = "planner"

[[station]]
name = "P6"
role = "planner"

[[station]]
name = "P7"
role = "planner"

[[station]]
name = "P8"
role = "planner"
"#;

/// What a planner is told whose order came behind another planner's for the same batch.
const TAKEN: &str = r#"{"ok":false,"row":1,"rule":"OrderConflict"}"#;

/// What the program with these words puts, and the journal that a stop behind it leaves.
fn program(
    rt: &impl Abort,
    alloc: Global,
    words: &[&str],
    site: &[u8],
    journal: &[u8],
) -> (Vec<u8>, Vec<u8>) {
    let mut args = Vec::new(alloc);
    for word in words {
        args.push(String::from_str(alloc, word).expect(rt, "memory is ample"))
            .expect(rt, "memory is ample");
    }
    let mut site = MemorySource::new(list(rt, alloc, site), Vec::new(alloc));
    let mut input = MemorySource::new(Vec::new(alloc), Vec::new(alloc));
    let mut out = MemorySink::new(alloc, Vec::new(alloc));
    let devices = devices(rt, alloc, journal, &[], &[]);
    let (status, devices) = site_top(alloc, &args, &mut site, &mut input, &mut out, devices);
    assert!(rt; status == 0);
    (list(rt, alloc, out.bytes()), devices.disk.image(true))
}

/// The journal of the site with eight planners.
fn planners(rt: &impl Abort, alloc: Global) -> Vec<u8> {
    let (_ready, journal) = program(rt, alloc, &["init", "site.toml"], PLANNERS.as_bytes(), b"");
    journal
}

/// A planner's numbered order of a batch, in a quantity of its own.
fn push_order(
    rt: &impl Abort,
    alloc: Global,
    requests: &mut String,
    planner: usize,
    number: usize,
    batch: usize,
) {
    let path = format!(in alloc; "/stations/P{planner}/requests/{number}").expect(
        rt,
        "memory is ample",
    );
    let deed = format!(in alloc;
        "{{\"do\":\"order\",\"batch\":\"B{batch}\",\"gtin\":\"80614141123458\",\"lot\":\"LOT6\",\"expiry\":\"2027-12-31\",\"quantity\":{planner},\"case\":2,\"pallet\":0}}"
    ).expect(rt, "memory is ample");
    ask(rt, alloc, requests, path.as_str(), deed.as_str(), false);
}

/// A request for the report of a batch.
fn push_look(rt: &impl Abort, alloc: Global, requests: &mut String, batch: usize) {
    let path = format!(in alloc; "/batches/B{batch}").expect(rt, "memory is ample");
    ask(rt, alloc, requests, path.as_str(), "", false);
}

/// The report of a batch that this planner ordered.
fn push_report(rt: &impl Abort, alloc: Global, answers: &mut String, planner: usize, batch: usize) {
    let report = format!(in alloc;
        "batch         B{batch}\nproduct       80614141123458\nlot           LOT6\nexpiry        2027-12-31\nstate         planned\nplanned               {planner}\ndrawn                 0\nunused                0\nlent                  0\ncommissioned          0\nsampled               0\nrejected              0\ndestroyed             0\ncases                 0\npallets               0\nevents                0\n"
    ).expect(rt, "memory is ample");
    tell(rt, alloc, answers, OK, report.as_str(), false);
}

/// A link on which these requests come.
fn link_of(rt: &impl Abort, alloc: Global, requests: &str) -> MemoryLink
    ensures { ⟦<MemoryLink as Sink>⟧.held result ≡ Some [] }
{
    let bytes = requests
        .as_bytes()
        .to_vec(alloc)
        .expect(rt, "memory is ample");
    MemoryLink::new(alloc, bytes, Vec::new(alloc), Vec::new(alloc))
}

/// A door with this link.
fn door_of<L: Link + Drop>(rt: &impl Abort, alloc: Global, link: L) -> MemoryDoor<L>
    requires { L.held link ≡ Some [] }
    ensures { IsUnopened (⟦<MemoryDoor<L> as Door>⟧.state result) }
{
    let mut links = Vec::new(alloc);
    links.push(link).expect(rt, "memory is ample");
    MemoryDoor::new(alloc, links, Vec::new(alloc))
}

/// A door more.
fn push_door<G: Door>(rt: &impl Abort, doors: &mut Vec<G>, door: G)
    requires unopened { AreUnopened G.state doors.old.items }
    requires door { IsUnopened (G.state door) }
    ensures { AreUnopened G.state doors.new.items }
{
    doors.push(door).expect(rt, "memory is ample");
}

/// The doors, served to their ends by a worker each, and the journal that a stop leaves then.
fn serve<L: Link + Drop + Send, R: Threads + Wait + Sync + Abort>(
    rt: &R,
    alloc: Global,
    doors: Vec<MemoryDoor<L>>,
    journal: &[u8],
) -> (Vec<MemoryDoor<L>>, Vec<u8>)
    requires unopened { AreUnopened ⟦<MemoryDoor<L> as Door>⟧.state doors.items }
{
    if doors.is_empty() || doors.len() > 64 {
        panic!(rt; "1 to 64 doors");
    }
    let mut out = MemorySink::new(alloc, Vec::new(alloc));
    let devices = devices(rt, alloc, journal, &[], &[]);
    let (status, doors, devices) = site_serve(rt, alloc, doors, &mut out, devices);
    assert!(rt; status == 0);
    assert!(rt; out.bytes().is_empty());
    (doors, devices.disk.image(true))
}

/// What was put on the link of a door.
fn expect_side(rt: &impl Abort, doors: &[MemoryDoor<SideLink>], at: usize, answers: &[u8]) {
    let door = doors.get(at).expect(rt, "a door");
    let link = door.back(0).expect(rt, "a link");
    assert!(rt; link.put_bytes() == answers);
}

/// The first planner orders a batch, and looks at it and at the other one's.
fn first_requests(rt: &impl Abort, alloc: Global) -> String {
    let mut requests = String::new(alloc);
    push_order(rt, alloc, &mut requests, 1, 1, 1);
    push_look(rt, alloc, &mut requests, 1);
    push_look(rt, alloc, &mut requests, 2);
    requests
}

/// What it is told.
fn first_answers(rt: &impl Abort, alloc: Global) -> String {
    let mut answers = ordered(rt, alloc);
    push_report(rt, alloc, &mut answers, 1, 1);
    push_report(rt, alloc, &mut answers, 2, 2);
    answers
}

/// The second planner orders a batch.
fn second_requests(rt: &impl Abort, alloc: Global) -> String {
    let mut requests = String::new(alloc);
    push_order(rt, alloc, &mut requests, 2, 1, 2);
    requests
}

/// An order was accepted.
fn ordered(rt: &impl Abort, alloc: Global) -> String {
    let mut answers = String::new(alloc);
    tell(rt, alloc, &mut answers, OK, ORDERED, false);
    answers
}

/// Two doors, with a link each: the first link's puts wait until the second one's order was told, and fail if that doesn't
/// come.
fn two_doors(rt: &impl Abort, alloc: Global) -> Vec<MemoryDoor<SideLink>>
    ensures { AreUnopened ⟦<MemoryDoor<SideLink> as Door>⟧.state result.items }
{
    let shown = Arc::new(alloc, AtomicU64::new(0)).expect(rt, "memory is ample");
    let other = Arc::try_clone(&shown).expect(rt, "memory is ample");
    let first = link_of(rt, alloc, first_requests(rt, alloc).as_str());
    let second = link_of(rt, alloc, second_requests(rt, alloc).as_str());
    let first = SideLink::waiting(first, other);
    let second = SideLink::showing(second, shown, ordered(rt, alloc).len());
    let mut doors = Vec::new(alloc);
    push_door(rt, &mut doors, door_of(rt, alloc, first));
    push_door(rt, &mut doors, door_of(rt, alloc, second));
    doors
}

#[test]
fn two_links_are_served_side_by_side(rt: HostRuntime) {
    let alloc = rt.alloc();
    let doors = two_doors(&rt, alloc);
    let (doors, _journal) = serve(&rt, alloc, doors, &planners(&rt, alloc));
    expect_side(&rt, &doors, 0, first_answers(&rt, alloc).as_bytes());
    expect_side(&rt, &doors, 1, ordered(&rt, alloc).as_bytes());
}

/// What a planner sends: its orders, and a request for a report behind every fourth of them.
fn requests_of(rt: &impl Abort, alloc: Global, planner: usize) -> String {
    let mut requests = String::new(alloc);
    for number in 1..=REQUESTS {
        push_order(rt, alloc, &mut requests, planner, number, number);
        if number % 4 == 0 {
            push_look(rt, alloc, &mut requests, number);
        }
    }
    requests
}

/// What it is told, where these planners were the first to order the batches.
fn answers_to(rt: &impl Abort, alloc: Global, planner: usize, first: &[usize]) -> String {
    let mut answers = String::new(alloc);
    for number in 1..=REQUESTS {
        let had = first.get(number).copied().unwrap_or(0);
        if had == planner {
            tell(rt, alloc, &mut answers, OK, ORDERED, false);
        } else {
            tell(rt, alloc, &mut answers, CONFLICT, TAKEN, false);
        }
        if number % 4 == 0 {
            push_report(rt, alloc, &mut answers, had, number);
        }
    }
    answers
}

/// The planner, the number and the verdict of a line of the log.
fn entry_of(line: &str) -> Option<(usize, usize, &str)> {
    let mut words = line.split(' ');
    let _place = words.next()?;
    let planner = words.next()?.strip_prefix("P")?.parse().ok()?;
    let number = words.next()?.parse().ok()?;
    let _deed = words.next()?;
    let _operator = words.next()?;
    Some((planner, number, words.next()?))
}

/// Which planner was the first to order each batch, where the numbers of each stand in their order from 1, and each batch
/// was accepted once.
fn first_ones(rt: &impl Abort, alloc: Global, log: &str) -> Vec<usize> {
    let mut last: [usize; 9] = [0; 9];
    let mut first = Vec::new(alloc);
    first.resize(REQUESTS + 1, 0).expect(rt, "memory is ample");
    for line in log.lines() {
        let (planner, number, verdict) = entry_of(line).expect(rt, "an entry");
        let known = last.get(planner).copied().unwrap_or(0);
        assert!(rt; number == known.saturating_add(1));
        if planner < 9 {
            last[planner] = number;
        }
        if verdict == "ok" {
            assert!(rt; first.get(number) == Some(&0));
            if number < first.len() {
                first[number] = planner;
            }
        }
    }
    assert!(rt;
        last == [
            0, REQUESTS, REQUESTS, REQUESTS, REQUESTS, REQUESTS, REQUESTS, REQUESTS, REQUESTS
        ]
    );
    first
}

/// A door more, with the link of a planner.
fn push_planner(
    rt: &impl Abort,
    alloc: Global,
    doors: &mut Vec<MemoryDoor<MemoryLink>>,
    planner: usize,
)
    requires { AreUnopened ⟦<MemoryDoor<MemoryLink> as Door>⟧.state doors.old.items }
    ensures { AreUnopened ⟦<MemoryDoor<MemoryLink> as Door>⟧.state doors.new.items }
{
    let requests = requests_of(rt, alloc, planner);
    let link = link_of(rt, alloc, requests.as_str());
    push_door(rt, doors, door_of(rt, alloc, link));
}

/// A door for each of the eight planners.
fn eight_doors(rt: &impl Abort, alloc: Global) -> Vec<MemoryDoor<MemoryLink>>
    ensures { AreUnopened ⟦<MemoryDoor<MemoryLink> as Door>⟧.state result.items }
{
    let mut doors = Vec::new(alloc);
    push_planner(rt, alloc, &mut doors, 1);
    push_planner(rt, alloc, &mut doors, 2);
    push_planner(rt, alloc, &mut doors, 3);
    push_planner(rt, alloc, &mut doors, 4);
    push_planner(rt, alloc, &mut doors, 5);
    push_planner(rt, alloc, &mut doors, 6);
    push_planner(rt, alloc, &mut doors, 7);
    push_planner(rt, alloc, &mut doors, 8);
    doors
}

/// The log of a journal with 1,600 entries and no events.
fn log_of(rt: &impl Abort, alloc: Global, journal: &[u8]) -> Vec<u8> {
    let (put, journal) = program(rt, alloc, &["check"], b"", journal);
    assert!(rt; put.as_slice() == b"check: entries 1600, events 0, live 0, pairs 0\n".as_slice());
    let (log, _journal) = program(rt, alloc, &["log", "1", "10000"], b"", &journal);
    log
}

/// Each planner was told what its entries in the log say.
fn expect_all_told(rt: &impl Abort, alloc: Global, doors: &[MemoryDoor<MemoryLink>], log: &[u8]) {
    let first = first_ones(rt, alloc, str::from_utf8(log).expect(rt, "a text"));
    for (at, door) in doors.iter().enumerate() {
        let answers = answers_to(rt, alloc, at.saturating_add(1), &first);
        let link = door.back(0).expect(rt, "a link");
        assert!(rt; link.put_bytes() == answers.as_bytes());
    }
}

/// Each planner orders the same batches, in a quantity of its own: the first one's order of each is accepted, and the others
/// conflict with it. The journal has each request once, and what each was told is what its entry says.
#[test]
fn eight_workers_answer_each_request_once(rt: HostRuntime) {
    let alloc = rt.alloc();
    let doors = eight_doors(&rt, alloc);
    let (doors, journal) = serve(&rt, alloc, doors, &planners(&rt, alloc));
    assert!(rt; doors.len() == 8);
    expect_all_told(&rt, alloc, &doors, &log_of(&rt, alloc, &journal));
}
