//! How the workers' seats are made, and taken in at the end.
ghost use Rattle.std.specs.Prelude.{◌≡◌, ◌<◌, ◌≤◌, ◌^◌, suc, [], ◌∷◌, true, false, map, IfOk, IfErr, vec_len, vec_capacity};
ghost use Rattle.turn_desk.specs.declared.view.Stage.TheVariants.{Idle};
ghost use Rattle.turn_desk.specs.Rule.{first_view, parted, part, gathered, knowing, Settled};
ghost use Rattle.turn_desk.specs.Tokens.{IsCrew, IsFresh, IsRest, seen_of};

use crate::hold::Top;
use crate::pass::Pass;
use crate::plays::{Cut, Gather, Turns};
use crate::stands::Stands;
use crate::view::View;
use atomic_table::{Refused, Seat, Table};
use std::alloc::Global;
use std::snapshot::Snapshot;

// The table of a desk.
pub(crate) type Whole<V> = Table<V, View, Snapshot<V>, Turns, Global>;

// Cuts a worker's seat from the first one, which has the next worker's number from then on.
pub(crate) fn cut<V: Stands>(top: &Top<V>, first: &mut Seat<V, View>) -> Seat<V, View>
    requires table { (first.old.table_id ≡ top.now.table_id) × (top.now.table_id.words ≡ 4) }
    requires first { (first.old.me.0.live ≡ true) × (first.old.me.0.first ≡ true) × (first.old.me.0.stage ≡ Idle) }
    requires new { (first.old.me.0.seen ≡ []) × (first.old.me.0.known ≡ []) × (2 ^ 57 ≤ first.old.me.0.left) }
    ensures left { (first.new.table_id ≡ first.old.table_id) × (first.new.me ≡ (parted first.old.me.0, first.old.me.1)) }
    ensures right { (result.table_id ≡ first.old.table_id) × (result.me ≡ (part first.old.me.0, [])) }
{
    top.split_seat::<Cut>(first)
}

// The first seat takes in a worker's.
pub(crate) fn gather<V: Stands>(top: &Top<V>, first: &mut Seat<V, View>, other: Seat<V, View>)
    requires table { (first.old.table_id ≡ top.now.table_id) × (other.table_id ≡ top.now.table_id) × (top.now.table_id.words ≡ 4) }
    requires first { (first.old.me.0.live ≡ true) × (first.old.me.0.first ≡ true) × (first.old.me.0.stage ≡ Idle) }
    requires other { (other.me.1 ≡ []) × (other.me.0.live ≡ true) × (other.me.0.first ≡ false) × (other.me.0.stage ≡ Idle) }
    requires next { suc other.me.0.worker ≡ first.old.me.0.low }
    ensures { (first.new.table_id ≡ first.old.table_id) × (first.new.me ≡ (gathered first.old.me.0 other.me.0, first.old.me.1)) }
{
    top.join_seat::<Gather>(first, other);
}

// The table of a new desk, and its first seat.
pub(crate) fn lay<V: Stands>(alloc: Global, value: V) -> Result<(Whole<V>, Seat<V, View>), V>
    requires { (V.noted value ≡ []) × V.sound value }
    ensures ok { IfOk result (λ r. (r.0.shared.table_id.words ≡ 4) × (r.0.shared.table_id.slots ≡ 1) × (r.0.shared.key.value ≡ value) × (r.1.table_id ≡ r.0.shared.table_id) × (r.1.me ≡ (first_view (V.origin value), []))) }
    ensures err { IfErr result (λ v. v ≡ value) }
{
    let mut slots = Vec::new(alloc);
    if slots.reserve(1).is_err() {
        slots.destroy_empty();
        return Err(value);
    }
    let about = Snapshot::of(&value);
    slots.push_reserved(value);
    match Table::new(alloc, &[0, 0, 0, 0], slots, &about) {
        Ok(made) => Ok(made),
        Err(Refused { mut slots }) => {
            let Some(value) = slots.pop() else {
                unreachable!()
            };
            slots.destroy_empty();
            Err(value)
        }
    }
}

// A pass for each worker. The first seat is the last worker's.
pub(crate) fn deal<V: Stands>(
    top: &Top<V>,
    seat: Seat<V, View>,
    mut passes: Vec<Pass>,
    workers: u8,
) -> Vec<Pass>
    requires table { (seat.table_id ≡ top.now.table_id) × (top.now.table_id.words ≡ 4) }
    requires first { seat.me ≡ (first_view (V.origin top.now.key.value), []) }
    requires room { (passes.items ≡ []) × (0 < workers) × (workers ≤ 64) × (workers ≤ vec_capacity passes) }
    ensures long { vec_len result ≡ workers }
    ensures crew { IsCrew (record { table = top.now.table_id; origin = V.origin top.now.key.value }) result.items }
    ensures fresh { IsFresh result.items }
{
    let mut seat = seat;
    for worker in 0..workers - 1 {
        let badge = cut(top, &mut seat).into_badge();
        passes.push_reserved(Pass {
            badge,
            worker,
            turns: 0,
        });
    }
    passes.push_reserved(Pass {
        badge: seat.into_badge(),
        worker: workers - 1,
        turns: 0,
    });
    passes
}

// The first seat takes in the other workers.
pub(crate) fn take_in<V: Stands>(
    top: &Top<V>,
    first: Seat<V, View>,
    passes: Vec<Pass>,
) -> Seat<V, View>
    requires table { (first.table_id ≡ top.now.table_id) × (top.now.table_id.words ≡ 4) }
    requires first { (first.me.1 ≡ []) × (first.me.0.live ≡ true) × (first.me.0.first ≡ true) × (first.me.0.stage ≡ Idle) }
    requires all { (first.me.0.low ≡ vec_len passes) × (first.me.0.known ≡ []) }
    requires crew { IsRest (record { table = top.now.table_id; origin = first.me.0.origin }) passes.items }
    ensures table { result.table_id ≡ first.table_id }
    ensures all { result.me ≡ (knowing 0 (map seen_of passes.items) first.me.0, []) }
{
    let mut passes = passes;
    let mut first = first;
    while let Some(pass) = passes.pop() {
        let Pass {
            badge,
            worker: _,
            turns: _,
        } = pass;
        gather(top, &mut first, badge.into_seat());
    }
    first
}

// The value of a table whose first seat has taken in all others.
pub(crate) fn settle<V: Stands>(whole: Whole<V>, seat: Seat<V, View>) -> V
    requires table { (seat.table_id ≡ whole.shared.table_id) × (whole.shared.table_id.slots ≡ 1) }
    requires first { (seat.me.0.live ≡ true) × (seat.me.0.first ≡ true) × (seat.me.0.stage ≡ Idle) × (seat.me.0.low ≡ 0) }
    ensures origin { V.origin result ≡ V.origin whole.shared.key.value }
    ensures sound { V.sound result }
    ensures settled { Settled (V.noted result) seat.me.0 }
{
    let mut closed = whole.close_with(seat);
    let value = closed.take(0);
    closed.free();
    value
}
