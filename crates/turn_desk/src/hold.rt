//! The steps of one turn, on the table. A parameter that begins with `_` is for the contract alone.
ghost use Rattle.std.specs.Prelude.{◌≡◌, ◌≢◌, ◌<◌, List, [], ◌∷◌, ◌++◌, length, true};
ghost use Rattle.turn_desk.specs.declared.view.Stage.TheVariants.{Idle, Waits, First, Works, Counted, Back};
ghost use Rattle.turn_desk.specs.declared.view.Noted.{Noted};
ghost use Rattle.turn_desk.specs.Notes.{IsOf};
ghost use Rattle.turn_desk.specs.Rule.{Took, waiting, first_at, counted, back, resting};

use crate::plays::{AddNotes, PassOn, PutBack, TakeValue, Ticket, Turns, Watch};
use crate::stands::{Job, Stands};
use crate::view::View;
use atomic_table::{Seat, Shared};
use std::snapshot::Snapshot;
use std::sync::Wait;
use std::thread;

// How often a worker looks, and lets others run, before it sleeps.
const LOOKS: u32 = 64;

pub(crate) type Top<V> = Shared<V, View, Snapshot<V>, Turns>;

// The worker's ticket, which nobody else has.
pub(crate) fn take_ticket<V: Stands>(top: &Top<V>, seat: &mut Seat<V, View>) -> u64
    requires table { (seat.old.table_id ≡ top.now.table_id) × (top.now.table_id.words ≡ 4) }
    requires rests { (seat.old.me.1 ≡ []) × (seat.old.me.0.live ≡ true) × (seat.old.me.0.stage ≡ Idle) }
    requires left { 0 < seat.old.me.0.left }
    ensures table { seat.new.table_id ≡ seat.old.table_id }
    ensures waits { seat.new.me ≡ (waiting result seat.old.me.0, []) }
{
    top.fetch_add::<Ticket>(seat, 0, 1)
}

// The number of turns that are over.
fn look<V: Stands>(top: &Top<V>, seat: &mut Seat<V, View>, _ticket: u64) -> u64
    requires table { (seat.old.table_id ≡ top.now.table_id) × (top.now.table_id.words ≡ 4) }
    requires waits { (seat.old.me.0.live ≡ true) × (seat.old.me.0.stage ≡ Waits _ticket) }
    ensures table { seat.new.table_id ≡ seat.old.table_id }
    ensures first { result ≡ _ticket → seat.new.me ≡ (first_at _ticket seat.old.me.0, seat.old.me.1) }
    ensures other { result ≢ _ticket → seat.new.me ≡ seat.old.me }
{
    top.load::<Watch>(seat, 1)
}

// Waits until as many turns are over as tickets were taken before this one.
pub(crate) fn wait<V: Stands, R: Wait>(rt: &R, top: &Top<V>, seat: &mut Seat<V, View>, ticket: u64)
    requires table { (seat.old.table_id ≡ top.now.table_id) × (top.now.table_id.words ≡ 4) }
    requires waits { (seat.old.me.0.live ≡ true) × (seat.old.me.0.stage ≡ Waits ticket) }
    ensures table { seat.new.table_id ≡ seat.old.table_id }
    ensures first { seat.new.me ≡ (first_at ticket seat.old.me.0, seat.old.me.1) }
{
    let mut looks = 0;
    for _ in rt.forever() {
        let found = look(top, seat, ticket);
        if found == ticket {
            return;
        }
        if looks < LOOKS {
            looks += 1;
            thread::yield_now();
        } else {
            top.park(rt, 1, (found % (1 << 32)) as u32);
        }
    }
    unreachable!()
}

// Takes the value.
pub(crate) fn take<V: Stands>(top: &Top<V>, seat: &mut Seat<V, View>, _ticket: u64)
    requires table { (seat.old.table_id ≡ top.now.table_id) × (top.now.table_id.words ≡ 4) }
    requires first { (seat.old.me.1 ≡ []) × (seat.old.me.0.live ≡ true) × (seat.old.me.0.stage ≡ First _ticket) }
    ensures table { seat.new.table_id ≡ seat.old.table_id }
    ensures took { Took V.noted V.origin V.sound _ticket seat.old.me seat.new.me }
{
    top.swap::<TakeValue>(seat, 2, 1);
}

// Does the job on the value, and says how many notes it added.
pub(crate) fn work<V: Stands, J: Job<V>>(
    top: &Top<V>,
    seat: &mut Seat<V, View>,
    worker: u8,
    job: &mut J,
) -> (J::Answer, u64)
    requires table { seat.old.table_id ≡ top.now.table_id }
    requires holds { (y : V) × (seat.old.me.1 ≡ (0, y) ∷ []) × V.sound y }
    ensures table { (seat.new.table_id ≡ seat.old.table_id) × (seat.new.me.0 ≡ seat.old.me.0) }
    ensures works { (y : V) × (z : V) × (mine : List Noted) × (seat.old.me.1 ≡ (0, y) ∷ []) × (seat.new.me.1 ≡ (0, z) ∷ []) × V.sound z × (V.origin z ≡ V.origin y) × IsOf worker mine × (V.noted z ≡ V.noted y ++ mine) × (result.1 ≡ length mine) × J.relates job.old worker (V.origin y) (V.noted y) (V.noted z) result.0 }
{
    let value = seat.slot_mut(top, 0);
    let before = value.count();
    let answer = job.work(worker, value);
    let after = value.count();
    (answer, after - before)
}

// Adds the notes to the count. From here on they are seen as the worker's.
pub(crate) fn add<V: Stands>(top: &Top<V>, seat: &mut Seat<V, View>, count: u64, _ticket: u64)
    requires table { (seat.old.table_id ≡ top.now.table_id) × (top.now.table_id.words ≡ 4) }
    requires works { (seat.old.me.0.live ≡ true) × (seat.old.me.0.stage ≡ Works _ticket) }
    requires appends { (y : V) × (mine : List Noted) × (seat.old.me.1 ≡ (0, y) ∷ []) × (V.noted y ≡ seat.old.me.0.seen ++ mine) × IsOf seat.old.me.0.worker mine × (count ≡ length mine) }
    ensures table { seat.new.table_id ≡ seat.old.table_id }
    ensures counted { (y : V) × (seat.old.me.1 ≡ (0, y) ∷ []) × (seat.new.me ≡ (counted _ticket (V.noted y) seat.old.me.0, seat.old.me.1)) }
{
    top.fetch_add::<AddNotes>(seat, 3, count);
}

// Puts the value back.
pub(crate) fn put_back<V: Stands>(top: &Top<V>, seat: &mut Seat<V, View>, _ticket: u64)
    requires table { (seat.old.table_id ≡ top.now.table_id) × (top.now.table_id.words ≡ 4) × (top.now.table_id.slots ≡ 1) }
    requires done { (seat.old.me.0.live ≡ true) × (seat.old.me.0.stage ≡ Counted _ticket) }
    requires value { (y : V) × (seat.old.me.1 ≡ (0, y) ∷ []) × (V.noted y ≡ seat.old.me.0.seen) × (V.origin y ≡ seat.old.me.0.origin) × V.sound y }
    ensures table { seat.new.table_id ≡ seat.old.table_id }
    ensures back { seat.new.me ≡ (back _ticket seat.old.me.0, []) }
{
    top.swap::<PutBack>(seat, 2, 0);
}

// Ends the turn, and wakes who waits.
pub(crate) fn pass_on<V: Stands>(top: &Top<V>, seat: &mut Seat<V, View>, _ticket: u64)
    requires table { (seat.old.table_id ≡ top.now.table_id) × (top.now.table_id.words ≡ 4) }
    requires back { (seat.old.me.0.live ≡ true) × (seat.old.me.0.stage ≡ Back _ticket) }
    ensures table { seat.new.table_id ≡ seat.old.table_id }
    ensures passed { seat.new.me ≡ (resting seat.old.me.0, seat.old.me.1) }
{
    top.fetch_add::<PassOn>(seat, 1, 1);
    top.wake_all(1);
}
