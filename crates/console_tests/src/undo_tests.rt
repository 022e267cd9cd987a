//! A whole batch on a site is taken back, the last request first, and made again; and so are two batches at once.
ghost use Rattle.std.specs.Prelude.{◌≡◌, ◌+◌, ◌<◌, ◌∷◌, [], length};
ghost use Rattle.deed_words.specs.History.{own, world_of};
ghost use Rattle.deed_words.specs.Proper.{IsProperAsk};
ghost use Rattle.site_core.specs.Plans.{IsNext};
ghost use Rattle.site_core.specs.Rooms.{HasRoomFor};

use crate::batch_tests::{TWO_BATCHES, WHOLE_BATCH};
use crate::program::{E1, MOMENT};
use crate::talk::{Row, numbered, written_out};
use deed_json::read_body;
use deed_words::{Ask, BatchId, Deed, StationId};
use gs1_keys::Text20;
use outside::MemoryWords;
use request_memo::Seen;
use site_core::{Planned, Site};
use site_files::read_site;
use site_stores::changes_are_taken_back;
use std::alloc::Global;
use std::process::Abort;

fn new_site(rt: &impl Abort, alloc: Global) -> Site {
    let setup = read_site(alloc, E1.as_bytes()).expect(rt, "it is a site file");
    Site::new(alloc, setup).expect(rt, "memory is ample")
}

fn words(rt: &impl Abort, alloc: Global) -> MemoryWords {
    MemoryWords::new(numbered(rt, alloc, 1, 50), Vec::new(alloc))
}

/// The station of that name.
fn station_called(rt: &impl Abort, site: &Site, name: &str) -> StationId
    ensures { result < length site.now.setup.stations }
{
    let name = Text20::read(name.as_bytes()).expect(rt, "a name");
    let station = site.station(&name).expect(rt, "a station");
    if usize::from(station.0) >= site.setup().stations.len() {
        panic!(rt; "a station that isn't there");
    }
    station
}

/// The last number of the station: the number 0 leaves a gap.
#[tactic(auto, using(crate::proofs::Turning::gap_last))]
fn last_number(rt: &impl Abort, site: &Site, station: StationId, deed: &Deed) -> u64
    requires { station < length site.now.setup.stations }
    ensures { result ≡ length (own station site.now.history) }
{
    match site.look(station, 0, deed) {
        Seen::Gap(last) => last,
        Seen::Kept(_) | Seen::Reused(_) | Seen::New => panic!(rt; "the number 0 leaves a gap"),
    }
}

/// What a station asks next.
fn next_ask(rt: &impl Abort, alloc: Global, site: &Site, name: &str, deed: &str) -> Ask
    ensures station { result.station < length site.now.setup.stations }
    ensures number { result.number ≡ length (own result.station site.now.history) + 1 }
    ensures proper { IsProperAsk result }
{
    let text = written_out(rt, alloc, deed);
    let Ok(said) = read_body(alloc, text.as_bytes()) else {
        panic!(rt; "it is no deed: {deed}");
    };
    let station = station_called(rt, site, name);
    let last = last_number(rt, site, station, &said.deed);
    if last >= 1_000_000 {
        panic!(rt; "few numbers were given");
    }
    Ask {
        station,
        number: last + 1,
        operator: said.operator,
        deed: said.deed,
    }
}

/// Plans what a station asks next.
fn planned(
    rt: &impl Abort,
    alloc: Global,
    site: &mut Site,
    words: &mut MemoryWords,
    row: &Row,
) -> Planned
    ensures room { HasRoomFor site.new (result ∷ []) }
    ensures next { IsNext site.new.setup site.new.history site.new.content result }
    ensures setup { site.new.setup ≡ site.old.setup }
    ensures history { site.new.history ≡ site.old.history }
    ensures content { site.new.content ≡ site.old.content }
{
    let (station, deed, _) = *row;
    let ask = next_ask(rt, alloc, site, station, deed);
    if site.last_stamp() > MOMENT {
        panic!(rt; "all is asked at one moment");
    }
    let Ok(planned) = site.plan(0, ask, MOMENT, words) else {
        panic!(rt; "it is planned: {deed}");
    };
    planned
}

/// All that is asked is done, and then taken back, the last thing first.
fn there_and_back(
    rt: &impl Abort,
    alloc: Global,
    site: &mut Site,
    words: &mut MemoryWords,
    rows: &[Row],
)
    ensures setup { site.new.setup ≡ site.old.setup }
    ensures history { site.new.history ≡ site.old.history }
    ensures content { site.new.content ≡ site.old.content }
{
    let Some((row, later)) = rows.split_first() else {
        return;
    };
    changes_are_taken_back();
    let planned = planned(rt, alloc, site, words, row);
    let done = site.commit(planned);
    there_and_back(rt, alloc, site, words, later);
    let _again = site.undo(done);
}

/// All that is asked is done.
fn go_there(
    rt: &impl Abort,
    alloc: Global,
    site: &mut Site,
    words: &mut MemoryWords,
    rows: &[Row],
) {
    for row in rows {
        let planned = planned(rt, alloc, site, words, row);
        let _done = site.commit(planned);
    }
}

/// Nothing stands, and no batch of that name.
fn expect_nothing(rt: &impl Abort, site: &Site, batch: &str) {
    let name = Text20::read(batch.as_bytes()).expect(rt, "a name");
    assert!(rt; site.entries() == 0 && site.last_stamp() == 0);
    assert!(rt; site.batch(&name).is_none());
}

/// The batch of that name.
fn batch_called(rt: &impl Abort, site: &Site, name: &str) -> BatchId
    ensures { result < length (world_of site.now.setup site.now.history).batches }
{
    let name = Text20::read(name.as_bytes()).expect(rt, "a name");
    let Some(batch) = site.batch(&name) else {
        panic!(rt; "no such batch");
    };
    batch
}

fn expect_view(rt: &impl Abort, site: &Site) {
    let batch = batch_called(rt, site, "B7");
    let view = site.batch_view(batch).expect(rt, "memory is ample");
    assert!(rt; view.events == 19 && view.cases == 4 && view.pallets == 1);
    let counts = view.counts;
    assert!(rt; counts.drawn == 50 && counts.unused == 7 && counts.lent == 0);
    assert!(rt; counts.commissioned == 40 && counts.sampled == 1);
    assert!(rt; counts.rejected == 1 && counts.destroyed == 1);
    assert!(rt; view.lines.len() == 2);
}

fn take_a_batch_back(rt: &impl Abort, alloc: Global, site: &mut Site) {
    there_and_back(rt, alloc, site, &mut words(rt, alloc), &WHOLE_BATCH);
    expect_nothing(rt, site, "B7");
    there_and_back(rt, alloc, site, &mut words(rt, alloc), &TWO_BATCHES);
    expect_nothing(rt, site, "C7");
    expect_nothing(rt, site, "C8");
    go_there(rt, alloc, site, &mut words(rt, alloc), &WHOLE_BATCH);
    assert!(rt; site.entries() == 34);
    expect_view(rt, site);
}

#[test]
fn a_whole_batch_is_taken_back_and_made_again(rt: HostRuntime) {
    let mut site = new_site(&rt, rt.alloc());
    take_a_batch_back(&rt, rt.alloc(), &mut site);
}
