//! One session.
ghost use Rattle.std.specs.Prelude.{◌≡◌, ◌≤◌, ◌<◌, ◌+◌, ◌^◌, ℕ, List, [], true, false};
ghost use Rattle.outside.specs.Causes.{HasCauseIf};
ghost use Rattle.outside.specs.Devices.{Puts};
ghost use Rattle.outside.specs.Doors.{wire};
ghost use Rattle.station_http.specs.declared.stage.Stage.TheVariants.{Open};
ghost use Rattle.site_server.specs.Serving.{IsServed, TakesTurns, is_write_fault};
ghost use Rattle.site_server.specs.Closing.{ClosesWith, EndsBy, is_spent, is_quiet, quiet_end, end_with};

use crate::answers::{GROUP, answer_gathered, take_in};
use crate::end::SessionEnd;
use crate::talk::{next_of, put_to};
use outside::{Clock, Disk, Link, Words};
use site_answers::{FaultName, Response, refusal};
use site_turns::{DeskStore, Post};
use station_http::{Conn, HttpFault};
use std::alloc::Global;
use std::collections::VecDeque;
use std::sync::Wait;
use turn_desk::{Desk, Pass};

/// Answers the requests of a link, in their order, until its session ends. POSTs whose bodies read as deeds are gathered
/// while the next request or fault was read already, up to 16, and answered in one turn where the site has their stations.
pub fn serve_connection<L: Link, D: Disk, C: Clock, W: Words, R: Wait>(
    rt: &R,
    alloc: Global,
    desk: &Desk<DeskStore<D, C, W>>,
    pass: &mut Pass,
    link: &mut L,
) -> SessionEnd
    requires own { pass.old.desk ≡ desk.now }
    requires turns { pass.old.turns < 2 ^ 56 }
    ensures same { (pass.new.desk ≡ desk.now) × (pass.new.worker ≡ pass.old.worker) × (pass.new.last ≡ pass.old.last) }
    ensures turns { pass.new.turns ≤ pass.old.turns + 2 ^ 36 }
    ensures requests { TakesTurns (L.left link.old) (L.left link.new) pass.old.turns pass.new.turns }
    ensures served { IsServed desk.now.origin pass.old.worker
        (wire (L.left link.old) (L.held link.old) (L.read_faults link.old) (L.write_faults link.old))
        (wire (L.left link.new) (L.held link.new) (L.read_faults link.new) (L.write_faults link.new)) pass.old.seen pass.new.seen result }
{
    let Ok(mut conn) = Conn::new(alloc) else {
        return close_with(link, FaultName::Memory);
    };
    let Ok(mut posts) = VecDeque::with_capacity(alloc, GROUP) else {
        return close_with(link, FaultName::Memory);
    };
    serve_requests(rt, alloc, desk, pass, link, &mut conn, &mut posts)
}

/// The requests of a connection, from its first byte on.
fn serve_requests<L: Link, D: Disk, C: Clock, W: Words, R: Wait>(
    rt: &R,
    alloc: Global,
    desk: &Desk<DeskStore<D, C, W>>,
    pass: &mut Pass,
    link: &mut L,
    conn: &mut Conn,
    posts: &mut VecDeque<Post>,
) -> SessionEnd
    requires own { pass.old.desk ≡ desk.now }
    requires turns { pass.old.turns < 2 ^ 56 }
    requires fresh { (conn.old.pending ≡ []) × (conn.old.taken ≡ 0) × (conn.old.stage ≡ Open) }
    requires none { posts.old.items ≡ [] }
    ensures same { (pass.new.desk ≡ desk.now) × (pass.new.worker ≡ pass.old.worker) × (pass.new.last ≡ pass.old.last) }
    ensures turns { pass.new.turns ≤ pass.old.turns + 2 ^ 36 }
    ensures requests { TakesTurns (L.left link.old) (L.left link.new) pass.old.turns pass.new.turns }
    ensures served { IsServed desk.now.origin pass.old.worker
        (wire (L.left link.old) (L.held link.old) (L.read_faults link.old) (L.write_faults link.old))
        (wire (L.left link.new) (L.held link.new) (L.read_faults link.new) (L.write_faults link.new)) pass.old.seen pass.new.seen result }
{
    'requests: loop {
        match next_of(conn, link) {
            Err(fault) => {
                let Ok(()) = answer_gathered(rt, alloc, desk, pass, link, posts, false) else {
                    return SessionEnd::WriteFault;
                };
                return end_by(link, fault);
            }
            Ok(None) => {
                let Ok(()) = answer_gathered(rt, alloc, desk, pass, link, posts, false) else {
                    return SessionEnd::WriteFault;
                };
                return SessionEnd::Ended;
            }
            Ok(Some(asked)) => {
                let Ok(()) = take_in(rt, alloc, desk, pass, link, conn, posts, asked) else {
                    return SessionEnd::WriteFault;
                };
            }
        }
    }
}

/// The end by a fault, which is answered where it has a status.
fn end_by<L: Link>(link: &mut L, fault: HttpFault) -> SessionEnd
    requires { is_spent fault ≡ false }
    ensures end { Puts (L.held link.old) (L.held link.new) (λ put. EndsBy fault result put) }
    ensures cause { HasCauseIf (is_write_fault result) (L.write_faults link.old) (L.write_faults link.new) }
    ensures left { L.left link.new ≡ L.left link.old }
    ensures faults { L.read_faults link.new ≡ L.read_faults link.old }
{
    match refusal(fault) {
        Some(name) => close_with(link, name),
        None => end_of(fault),
    }
}

/// The end by a fault without a status.
fn end_of(fault: HttpFault) -> SessionEnd
    requires { is_quiet fault ≡ true }
    ensures { result ≡ quiet_end fault }
{
    match fault {
        HttpFault::ReadFault => SessionEnd::ReadFault,
        HttpFault::Cut(_) => SessionEnd::Cut,
        HttpFault::SessionLong => SessionEnd::SessionLong,
        _ => unreachable!(),
    }
}

/// Puts the last answer.
fn close_with<L: Link>(link: &mut L, name: FaultName) -> SessionEnd
    ensures put { Puts (L.held link.old) (L.held link.new) (λ put. ClosesWith name result put) }
    ensures cause { HasCauseIf (is_write_fault result) (L.write_faults link.old) (L.write_faults link.new) }
    ensures left { L.left link.new ≡ L.left link.old }
    ensures faults { L.read_faults link.new ≡ L.read_faults link.old }
{
    let said = Response::fault(name);
    let Ok(()) = put_to(&said, link, true) else {
        return SessionEnd::WriteFault;
    };
    end_with(name)
}

fn end_with(name: FaultName) -> SessionEnd
    ensures { result ≡ end_with name }
{
    match name {
        FaultName::Memory => SessionEnd::Memory,
        name => SessionEnd::Refused(name.status()),
    }
}
