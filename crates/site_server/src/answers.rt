//! Answering the requests of a link: POSTs whose bodies read as deeds in groups, and others one by one.
ghost use Rattle.std.specs.Prelude.{◌≡◌, ◌≢◌, ◌⊎◌, ◌≤◌, ◌<◌, ◌+◌, ◌^◌, ◌==◌, ◌&&◌, ◌++◌, ◌∷◌, [], false, true, length, OnOk, OnErr, IfSome};
ghost use Rattle.outside.specs.Causes.{HasCause};
ghost use Rattle.station_http.specs.Waiting.{IsWaiting};
ghost use Rattle.site_server.specs.Gathered.{AreAnswered, ArePosts, CloseAs, Gathers, IsExchanged, IsPostOf};

use crate::talk::{put_all, put_to};
use http_routes::Target;
use outside::{Clock, Disk, Failed, Link, Words};
use site_answers::{FaultName, Response};
use site_turns::{Answered, DeskStore, Lists, Post, answer, answer_posts, read_post};
use station_http::{Asked, Conn};
use std::alloc::Global;
use std::collections::VecDeque;
use std::mem;
use std::sync::Wait;
use turn_desk::{Desk, Pass};

/// How many requests a group has at most.
pub(crate) const GROUP: usize = 16;

/// Gathers a request, where it is a POST whose body reads as a deed and more wait behind it; else answers what was
/// gathered, and it. `conn` is the connection that handed it out.
pub(crate) fn take_in<L: Link, D: Disk, C: Clock, W: Words, R: Wait>(
    rt: &R,
    alloc: Global,
    desk: &Desk<DeskStore<D, C, W>>,
    pass: &mut Pass,
    link: &mut L,
    conn: &Conn,
    posts: &mut VecDeque<Post>,
    asked: Asked,
) -> Result<(), Failed>
    requires own { pass.old.desk ≡ desk.now }
    requires turns { pass.old.turns + length posts.old.items < 2 ^ 57 }
    requires few { length posts.old.items < 16 }
    ensures same { (pass.new.desk ≡ desk.now) × (pass.new.worker ≡ pass.old.worker) × (pass.new.last ≡ pass.old.last) }
    ensures turns { pass.new.turns + length posts.new.items ≤ pass.old.turns + length posts.old.items + 1 }
    ensures few { OnOk result (length posts.new.items < 16) }
    ensures waits { OnOk result ((posts.new.items ≡ []) ⊎ IsWaiting conn.now true) }
    ensures answered { (asks : _) → ArePosts asks posts.old.items → CloseAs false asks → AreAnswered desk.now.origin pass.old.worker (asks ++ asked ∷ []) posts.new.items (L.held link.old) (L.held link.new) pass.old.seen pass.new.seen result }
    ensures cause { HasCause (L.write_faults link.old) (L.write_faults link.new) result }
    ensures left { L.left link.new ≡ L.left link.old }
    ensures faults { L.read_faults link.new ≡ L.read_faults link.old }
{
    let close = asked.close;
    if !gather(alloc, &asked, posts) {
        answer_gathered(rt, alloc, desk, pass, link, posts, false)?;
        return answer_alone(rt, alloc, desk, pass, link, asked);
    }
    if close || posts.len() == GROUP || !conn.waiting() {
        return answer_gathered(rt, alloc, desk, pass, link, posts, close);
    }
    Ok(())
}

/// Gathers a POST whose body reads as a deed, where there is room, and says so. Else nothing changes.
fn gather(alloc: Global, asked: &Asked, posts: &mut VecDeque<Post>) -> bool
    ensures { Gathers asked.now posts.old.items posts.new.items result }
{
    if posts.len() >= posts.capacity() {
        return false;
    }
    match post_of(alloc, asked) {
        None => false,
        Some(post) => {
            posts.push_back_reserved(post);
            true
        }
    }
}

/// The request as a POST whose body reads as a deed, if it is one and memory was found for it.
fn post_of(alloc: Global, asked: &Asked) -> Option<Post>
    ensures { IfSome result (λ post. IsPostOf asked.now post) }
{
    match &asked.target {
        Target::Submit { station, number } => {
            read_post(alloc, *station, *number, asked.body.bytes()).ok()
        }
        _ => None,
    }
}

/// Answers all that was gathered, in as few turns as that takes, and puts the answers. The answer of the last request
/// is the last where `last`.
pub(crate) fn answer_gathered<L: Link, D: Disk, C: Clock, W: Words, R: Wait>(
    rt: &R,
    alloc: Global,
    desk: &Desk<DeskStore<D, C, W>>,
    pass: &mut Pass,
    link: &mut L,
    posts: &mut VecDeque<Post>,
    last: bool,
) -> Result<(), Failed>
    requires own { pass.old.desk ≡ desk.now }
    requires turns { pass.old.turns + length posts.old.items ≤ 2 ^ 57 }
    requires few { length posts.old.items ≤ 16 }
    ensures same { (pass.new.desk ≡ desk.now) × (pass.new.worker ≡ pass.old.worker) × (pass.new.last ≡ pass.old.last) }
    ensures turns { pass.new.turns + length posts.new.items ≤ pass.old.turns + length posts.old.items }
    ensures none { OnOk result (posts.new.items ≡ []) }
    ensures some { OnErr result (posts.old.items ≢ []) }
    ensures answered { (asks : _) → ArePosts asks posts.old.items → CloseAs last asks → AreAnswered desk.now.origin pass.old.worker asks posts.new.items (L.held link.old) (L.held link.new) pass.old.seen pass.new.seen result }
    ensures cause { HasCause (L.write_faults link.old) (L.write_faults link.new) result }
    ensures left { L.left link.new ≡ L.left link.old }
    ensures faults { L.read_faults link.new ≡ L.read_faults link.old }
{
    'turns: while !posts.is_empty() {
        answer_first(rt, alloc, desk, pass, link, posts, last)?;
    }
    Ok(())
}

/// Answers the first of what was gathered, in one turn at most, and puts the answers. What is left is for another turn.
fn answer_first<L: Link, D: Disk, C: Clock, W: Words, R: Wait>(
    rt: &R,
    alloc: Global,
    desk: &Desk<DeskStore<D, C, W>>,
    pass: &mut Pass,
    link: &mut L,
    posts: &mut VecDeque<Post>,
    last: bool,
) -> Result<(), Failed>
    requires own { pass.old.desk ≡ desk.now }
    requires turns { pass.old.turns < 2 ^ 57 }
    requires some { posts.old.items ≢ [] }
    requires few { length posts.old.items ≤ 16 }
    ensures same { (pass.new.desk ≡ desk.now) × (pass.new.worker ≡ pass.old.worker) × (pass.new.last ≡ pass.old.last) }
    ensures turns { pass.new.turns ≤ pass.old.turns + 1 }
    ensures fewer { length posts.new.items < length posts.old.items }
    ensures exchanged { (asks : _) → ArePosts asks posts.old.items → CloseAs last asks → IsExchanged desk.now.origin pass.old.worker asks posts.new.items (L.held link.old) (L.held link.new) pass.old.seen pass.new.seen result }
    ensures cause { HasCause (L.write_faults link.old) (L.write_faults link.new) result }
    ensures left { L.left link.new ≡ L.left link.old }
    ensures faults { L.read_faults link.new ≡ L.read_faults link.old }
{
    let gathered = mem::replace(posts, VecDeque::new(alloc));
    match Lists::new(alloc, gathered) {
        Ok(lists) => {
            let Answered { said, rest } = answer_posts(rt, alloc, desk, pass, lists);
            *posts = rest;
            put_all(&said, link, is_last(last, posts))
        }
        Err(back) => {
            *posts = back;
            let _post = posts.pop_front();
            put_to(
                &Response::fault(FaultName::Memory),
                link,
                is_last(last, posts),
            )
        }
    }
}

/// Whether the last answer of a group is the last of all: it is meant to be, and nothing is left.
fn is_last(last: bool, posts: &VecDeque<Post>) -> bool
    ensures { result ≡ (last && (length posts.now.items == 0)) }
{
    last && posts.is_empty()
}

/// Answers a request by itself, in one turn at most, and puts the answer.
fn answer_alone<L: Link, D: Disk, C: Clock, W: Words, R: Wait>(
    rt: &R,
    alloc: Global,
    desk: &Desk<DeskStore<D, C, W>>,
    pass: &mut Pass,
    link: &mut L,
    asked: Asked,
) -> Result<(), Failed>
    requires own { pass.old.desk ≡ desk.now }
    requires turns { pass.old.turns < 2 ^ 57 }
    ensures same { (pass.new.desk ≡ desk.now) × (pass.new.worker ≡ pass.old.worker) × (pass.new.last ≡ pass.old.last) }
    ensures turns { pass.new.turns ≤ pass.old.turns + 1 }
    ensures answered { AreAnswered desk.now.origin pass.old.worker (asked ∷ []) [] (L.held link.old) (L.held link.new) pass.old.seen pass.new.seen result }
    ensures cause { HasCause (L.write_faults link.old) (L.write_faults link.new) result }
    ensures left { L.left link.new ≡ L.left link.old }
    ensures faults { L.read_faults link.new ≡ L.read_faults link.old }
{
    let Asked {
        target,
        body,
        close,
    } = asked;
    let said = answer(rt, alloc, desk, pass, target, body.bytes());
    put_to(&said, link, close)
}
