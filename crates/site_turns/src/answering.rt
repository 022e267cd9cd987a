//! Answering requests at the desk.
ghost use Rattle.std.specs.Prelude.{◌≡◌, ◌≤◌, ◌<◌, ◌+◌, ◌^◌, true};
ghost use Rattle.turn_desk.specs.Notes.{Turned};
ghost use Rattle.deed_words.specs.Stations.{station_of};
ghost use Rattle.site_turns.specs.Answering.{Answers, Posts, Shows};
ghost use Rattle.site_turns.specs.Posts.{posted};
ghost use Rattle.site_turns.specs.Shown.{is_shown};
ghost use Rattle.site_turns.specs.Turns.{IsPosted, IsToldFirst, TakesTurn};

use crate::group::{Answered, Group};
use crate::lists::Lists;
use crate::post::{Post, read_post};
use crate::serving::DeskStore;
use crate::showing::Show;
use crate::unread::Unread;
use deed_json::AskFault;
use gs1_keys::Text20;
use http_routes::Target;
use outside::{Clock, Disk, Words};
use site_answers::{FaultName, Response, unasked_response};
use std::alloc::Global;
use std::sync::Wait;
use turn_desk::{Desk, Pass};

/// Answers the first of some numbered requests in one turn.
pub fn answer_posts<D: Disk, C: Clock, W: Words, R: Wait>(
    rt: &R,
    alloc: Global,
    desk: &Desk<DeskStore<D, C, W>>,
    pass: &mut Pass,
    lists: Lists,
) -> Answered
    requires own { pass.old.desk ≡ desk.now }
    requires turns { pass.old.turns < 2 ^ 57 }
    ensures same { (pass.new.desk ≡ desk.now) × (pass.new.worker ≡ pass.old.worker) × (pass.new.last ≡ pass.old.last) }
    ensures turns { pass.new.turns ≡ pass.old.turns + 1 }
    ensures turned { Turned pass.old.worker pass.old.seen pass.new.seen (λ xs ys. TakesTurn desk.now.origin pass.old.worker lists.posts.items xs ys result.said.items result.rest.items) }
{
    let mut group = Group {
        alloc,
        lists: Some(lists),
    };
    desk.turn(rt, pass, &mut group)
}

/// Answers a POST whose body is a JSON object and spells no deed, in one turn.
pub fn answer_unread<D: Disk, C: Clock, W: Words, R: Wait>(
    rt: &R,
    alloc: Global,
    desk: &Desk<DeskStore<D, C, W>>,
    pass: &mut Pass,
    station: Text20,
    fault: AskFault,
) -> Response
    requires own { pass.old.desk ≡ desk.now }
    requires turns { pass.old.turns < 2 ^ 57 }
    ensures same { (pass.new.desk ≡ desk.now) × (pass.new.worker ≡ pass.old.worker) × (pass.new.last ≡ pass.old.last) }
    ensures turns { pass.new.turns ≡ pass.old.turns + 1 }
    ensures turned { Turned pass.old.worker pass.old.seen pass.new.seen (λ xs ys. IsToldFirst (station_of desk.now.origin.setup station) fault xs ys result) }
{
    let mut unread = Unread {
        alloc,
        station,
        fault,
    };
    desk.turn(rt, pass, &mut unread)
}

/// Answers a GET, in one turn.
pub fn show<D: Disk, C: Clock, W: Words, R: Wait>(
    rt: &R,
    alloc: Global,
    desk: &Desk<DeskStore<D, C, W>>,
    pass: &mut Pass,
    target: Target,
) -> Response
    requires own { pass.old.desk ≡ desk.now }
    requires turns { pass.old.turns < 2 ^ 57 }
    requires shown { is_shown target ≡ true }
    ensures same { (pass.new.desk ≡ desk.now) × (pass.new.worker ≡ pass.old.worker) × (pass.new.last ≡ pass.old.last) }
    ensures turns { pass.new.turns ≡ pass.old.turns + 1 }
    ensures turned { Turned pass.old.worker pass.old.seen pass.new.seen (λ xs ys. Shows desk.now.origin target xs ys result) }
{
    let mut show = Show { alloc, target };
    desk.turn(rt, pass, &mut show)
}

/// Answers a POST whose body reads as a deed, by itself.
fn answer_one<D: Disk, C: Clock, W: Words, R: Wait>(
    rt: &R,
    alloc: Global,
    desk: &Desk<DeskStore<D, C, W>>,
    pass: &mut Pass,
    post: Post,
) -> Response
    requires own { pass.old.desk ≡ desk.now }
    requires turns { pass.old.turns < 2 ^ 57 }
    ensures same { (pass.new.desk ≡ desk.now) × (pass.new.worker ≡ pass.old.worker) × (pass.new.last ≡ pass.old.last) }
    ensures turns { pass.new.turns ≤ pass.old.turns + 1 }
    ensures turned { Turned pass.old.worker pass.old.seen pass.new.seen (λ xs ys. IsPosted desk.now.origin pass.old.worker post xs ys result) }
{
    let Ok(lists) = Lists::of_one(alloc, post) else {
        return Response::fault(FaultName::Memory);
    };
    let Answered { said, rest } = answer_posts(rt, alloc, desk, pass, lists);
    let _rest = rest;
    let mut said = said;
    match said.pop() {
        Some(response) => response,
        None => unreachable!(),
    }
}

/// Answers a POST.
fn answer_post<D: Disk, C: Clock, W: Words, R: Wait>(
    rt: &R,
    alloc: Global,
    desk: &Desk<DeskStore<D, C, W>>,
    pass: &mut Pass,
    station: Text20,
    number: u64,
    body: &[u8],
) -> Response
    requires own { pass.old.desk ≡ desk.now }
    requires turns { pass.old.turns < 2 ^ 57 }
    ensures same { (pass.new.desk ≡ desk.now) × (pass.new.worker ≡ pass.old.worker) × (pass.new.last ≡ pass.old.last) }
    ensures turns { pass.new.turns ≤ pass.old.turns + 1 }
    ensures turned { Turned pass.old.worker pass.old.seen pass.new.seen (λ xs ys. Posts desk.now.origin pass.old.worker (posted desk.now.origin.setup station number body.now) xs ys result) }
{
    match read_post(alloc, station, number, body) {
        Ok(post) => answer_one(rt, alloc, desk, pass, post),
        Err(AskFault::Memory) => Response::fault(FaultName::Memory),
        Err(AskFault::BadLine) => unasked_response(alloc, AskFault::BadLine),
        Err(AskFault::NoStation) => unreachable!(),
        Err(AskFault::BadDeed(broken)) => {
            answer_unread(rt, alloc, desk, pass, station, AskFault::BadDeed(broken))
        }
    }
}

/// Answers one request, in one turn at most.
pub fn answer<D: Disk, C: Clock, W: Words, R: Wait>(
    rt: &R,
    alloc: Global,
    desk: &Desk<DeskStore<D, C, W>>,
    pass: &mut Pass,
    target: Target,
    body: &[u8],
) -> Response
    requires own { pass.old.desk ≡ desk.now }
    requires turns { pass.old.turns < 2 ^ 57 }
    ensures same { (pass.new.desk ≡ desk.now) × (pass.new.worker ≡ pass.old.worker) × (pass.new.last ≡ pass.old.last) }
    ensures turns { pass.new.turns ≤ pass.old.turns + 1 }
    ensures turned { Turned pass.old.worker pass.old.seen pass.new.seen (λ xs ys. Answers desk.now.origin pass.old.worker target body.now xs ys result) }
{
    match target {
        Target::Submit { station, number } => {
            answer_post(rt, alloc, desk, pass, station, number, body)
        }
        Target::Report { .. } => show(rt, alloc, desk, pass, target),
        Target::Events { .. } => show(rt, alloc, desk, pass, target),
        Target::Item { .. } => show(rt, alloc, desk, pass, target),
        Target::Unit { .. } => show(rt, alloc, desk, pass, target),
    }
}
