//! Sending the requests of the simulation.
ghost use Rattle.std.specs.Prelude.{◌≡◌, ◌<◌, ◌≤◌, ◌+◌, ◌^◌, ◌∷◌, [], Bool, List, true, false, length, IfErr, IfOk, OnOk};
ghost use Rattle.outside.specs.Causes.{HasCauseIf};
ghost use Rattle.deed_words.specs.Proper.{IsProperAsk};
ghost use Rattle.site_store.specs.declared.outcome.Outcome.{Outcome as TheOutcome};
ghost use Rattle.site_store.specs.Moved.{TakesBoth};
ghost use Rattle.site_store.specs.Open.{IsOpen, store_state};
ghost use Rattle.site_sim.specs.Asking.{IsFair};
ghost use Rattle.site_sim.specs.Example as example;
ghost use Rattle.site_sim.specs.Knowing.{IsSmall, Learns, drawn_for, is_accepted};
ghost use Rattle.site_sim.specs.Requests.{send, sends, sends_at};
ghost use Rattle.site_sim.specs.Sends.{Sent, TurnsTo, Went, coming_of, is_failed};
ghost use Rattle.site_sim.specs.Simulated.{is_disk, is_there};
ghost use Rattle.site_sim.specs.Standing.{Stands};
ghost use Rattle.site_sim.specs.declared.fault.SimFault.TheVariants.{Memory};

use crate::asking::ask_of;
use crate::fault::SimFault;
use crate::known::Known;
use crate::request::{Request, request_at};
use deed_words::{Ask, Reply, numbers_mean_one_thing};
use outside::{Clock, Disk, Words};
use site_store::{Outcome, Store};
use std::alloc::Global;

/// What comes of a request, as far as the simulation goes by it.
#[derive(Drop)]
enum Coming {
    /// It got this reply.
    Came(Reply),
    /// A call of the disk failed.
    Failed,
    /// Memory was wanting.
    Wanting,
    /// Another outcome.
    Other,
}

/// What comes of a request, as far as the simulation goes by it.
fn coming_of(outcome: Outcome) -> Coming
    ensures { result ≡ coming_of outcome }
{
    match outcome {
        Outcome::Replied(reply) => Coming::Came(reply),
        Outcome::NumberReused => Coming::Other,
        Outcome::NumberGap(_) => Coming::Other,
        Outcome::DiskFault => Coming::Failed,
        Outcome::ClockFault => Coming::Other,
        Outcome::ClockRange(_) => Coming::Other,
        Outcome::WordsFault => Coming::Other,
        Outcome::WordsSpent(_) => Coming::Other,
        Outcome::JournalFull(_, _) => Coming::Other,
        Outcome::Memory => Coming::Wanting,
    }
}

/// Sends the requests one after the other, up to the first one that isn't accepted, or all of them.
pub(crate) fn send_all<D: Disk, C: Clock, W: Words>(
    alloc: Global,
    store: &mut Store<D, C, W>,
    known: &mut Known,
    count: u32,
) -> Result<(), SimFault>
    requires some { 1 ≤ count }
    requires few { count ≤ 200000 }
    requires stands { Stands D.Disk C.Clock W.Words store.old known.old }
    requires none { known.old.sent ≡ 0 }
    ensures went { OnOk result ((all : Bool) × (done : List Sent) × (known.new.sent ≡ length done)
        × Went (store_state store.old) (sends count) (C.moments_left store.old.clock) (C.moments_left store.new.clock) (W.words_left store.old.words) (W.words_left store.new.words) all done (store_state store.new)) }
    ensures stands { OnOk result (Stands D.Disk C.Clock W.Words store.new known.new) }
    ensures cause { HasCauseIf (is_disk result) (D.disk_faults store.old.journal.disk) (D.disk_faults store.new.journal.disk) }
    ensures fault { is_there result ≡ false }
{
    let mut at: u32 = 0;
    'requests: while let Some(request) = request_at(count, at) {
        at += 1;
        match send_at(alloc, store, known, at, request) {
            Ok(true) => {}
            Ok(false) => return Ok(()),
            Err(fault) => return Err(fault),
        }
    }
    Ok(())
}

/// Sends the request with this place, counted from 1, and says whether it was accepted. One whose place is a multiple of
/// ten is sent twice in a row.
fn send_at<D: Disk, C: Clock, W: Words>(
    alloc: Global,
    store: &mut Store<D, C, W>,
    known: &mut Known,
    place: u32,
    request: Request,
) -> Result<bool, SimFault>
    requires fair { IsFair request }
    requires few { known.old.sent < 2 ^ 40 }
    requires stands { Stands D.Disk C.Clock W.Words store.old known.old }
    ensures went { IfOk result (λ going. (done : List Sent) × (known.new.sent ≡ known.old.sent + length done)
        × Went (store_state store.old) (sends_at place request) (C.moments_left store.old.clock) (C.moments_left store.new.clock) (W.words_left store.old.words) (W.words_left store.new.words) going done (store_state store.new)) }
    ensures stands { OnOk result (Stands D.Disk C.Clock W.Words store.new known.new) }
    ensures sent { OnOk result (known.new.sent ≤ known.old.sent + 2) }
    ensures cause { HasCauseIf (is_disk result) (D.disk_faults store.old.journal.disk) (D.disk_faults store.new.journal.disk) }
    ensures fault { is_there result ≡ false }
{
    let going = send(alloc, store, known, request, false)?;
    if going && place % 10 == 0 {
        return send(alloc, store, known, request, true);
    }
    Ok(going)
}

/// Sends a request, for the first time or once more, and says whether it was accepted.
fn send<D: Disk, C: Clock, W: Words>(
    alloc: Global,
    store: &mut Store<D, C, W>,
    known: &mut Known,
    request: Request,
    again: bool,
) -> Result<bool, SimFault>
    requires fair { IsFair request }
    requires few { known.old.sent < 2 ^ 41 }
    requires stands { Stands D.Disk C.Clock W.Words store.old known.old }
    ensures went { IfOk result (λ going. (x : Sent) × Went (store_state store.old) (send request again ∷ []) (C.moments_left store.old.clock) (C.moments_left store.new.clock) (W.words_left store.old.words) (W.words_left store.new.words) going (x ∷ []) (store_state store.new)) }
    ensures stands { OnOk result (Stands D.Disk C.Clock W.Words store.new known.new) }
    ensures sent { OnOk result (known.new.sent ≡ known.old.sent + 1) }
    ensures cause { HasCauseIf (is_disk result) (D.disk_faults store.old.journal.disk) (D.disk_faults store.new.journal.disk) }
    ensures fault { is_there result ≡ false }
{
    numbers_mean_one_thing();
    let Ok(ask) = ask_of(alloc, known, request, again) else {
        return Err(SimFault::Memory);
    };
    let coming = turn(store, ask);
    store.site().tell_kept();
    known.sent += 1;
    match coming {
        Coming::Came(reply) => take_note(known, request, again, reply),
        Coming::Failed => Err(SimFault::Disk),
        Coming::Wanting => Err(SimFault::Memory),
        Coming::Other => Ok(false),
    }
}

/// Sends one request, as worker 0: one step of the store.
fn turn<D: Disk, C: Clock, W: Words>(store: &mut Store<D, C, W>, ask: Ask) -> Coming
    requires station { ask.station < 4 }
    requires proper { IsProperAsk ask }
    requires opens { IsOpen D.Disk C.Clock W.Words store.old }
    requires setup { store.old.site.setup ≡ example.site }
    requires none { (store_state store.old).pending ≡ [] }
    ensures turns { TakesBoth (C.moments_left store.old.clock) (C.moments_left store.new.clock) (W.words_left store.old.words) (W.words_left store.new.words)
        (λ taken. (outcome : TheOutcome) × (result ≡ coming_of outcome) × TurnsTo (store_state store.old) ask taken outcome (store_state store.new)) }
    ensures none { is_failed result ≡ false → (store_state store.new).pending ≡ [] }
    ensures cause { HasCauseIf (is_failed result) (D.disk_faults store.old.journal.disk) (D.disk_faults store.new.journal.disk) }
    ensures opens { IsOpen D.Disk C.Clock W.Words store.new }
    ensures setup { store.new.site.setup ≡ example.site }
{
    coming_of(store.submit(0, ask))
}

/// Takes note of the reply to a request, unless it was sent once more, and says whether it was accepted.
fn take_note(
    known: &mut Known,
    request: Request,
    again: bool,
    reply: Reply,
) -> Result<bool, SimFault>
    requires small { IsSmall known.old }
    requires few { known.old.sent < 2 ^ 42 }
    requires serials { again ≡ false → known.old.serials + length (drawn_for request reply) < 2 ^ 64 }
    ensures going { IfOk result (λ going. going ≡ is_accepted reply) }
    ensures learns { OnOk result (again ≡ false → Learns known.old known.new request reply) }
    ensures stays { again ≡ true → known.new ≡ known.old }
    ensures fault { IfErr result (λ e. e ≡ Memory) }
{
    if again {
        return Ok(is_accepted(&reply));
    }
    match known.learn(request, reply) {
        Ok(going) => Ok(going),
        Err(_) => Err(SimFault::Memory),
    }
}

/// Whether it is a reply to an accepted request.
fn is_accepted(reply: &Reply) -> bool
    ensures { result ≡ is_accepted reply.now }
{
    match reply {
        Reply::Accepted(_) => true,
        Reply::Refused(_) => false,
    }
}
