//! The desk.
ghost use Rattle.std.specs.Prelude.{◌≡◌, ◌+◌, ◌<◌, ◌≤◌, ◌^◌, [], IfOk, IfErr, vec_len};
ghost use Rattle.turn_desk.specs.Notes.{Turned};
ghost use Rattle.turn_desk.specs.Tokens.{IsCrew, IsFresh, Tells};

use crate::ends::{deal, lay, settle, take_in};
use crate::hold::{add, pass_on, put_back, take, take_ticket, wait, work};
use crate::pass::Pass;
use crate::plays::Turns;
use crate::stands::{Job, Stands};
use crate::view::View;
use atomic_table::{Badge, Table};
use std::alloc::Global;
use std::marker::Model;
use std::mem::replace;
use std::snapshot::Snapshot;
use std::sync::Wait;

/// A value that workers have in turns. A contract sees which desk it is, and what no turn changes.
pub struct Desk<V: Stands> {
    table: Table<V, View, Snapshot<V>, Turns, Global>,
}

impl<V: Stands> Model for Desk<V> {
    ghost use Rattle.std.specs.Prelude.{◌≡◌};
    ghost use Rattle.turn_desk.specs.Tokens.{Place};

    ghost Value = { Place };

    ghost view = { λ d. record { table = d.table.shared.table_id; origin = V.origin d.table.shared.key.value } };

    ghost invariant = { λ d. (d.table.shared.table_id.words ≡ 4) × (d.table.shared.table_id.slots ≡ 1) };
}

impl<V: Stands> Desk<V> {
    /// A desk for 1 to 64 workers, and their passes, in the order of their numbers from 0. The value must
    /// stand for no notes.
    ///
    /// # Errors
    ///
    /// For want of memory the value comes back as it was.
    pub fn start(alloc: Global, value: V, workers: u8) -> Result<(Desk<V>, Vec<Pass>), V>
        requires workers { (0 < workers) × (workers ≤ 64) }
        requires bare { V.noted value ≡ [] }
        requires sound { V.sound value }
        ensures origin { IfOk result (λ r. r.0.origin ≡ V.origin value) }
        ensures count { IfOk result (λ r. vec_len r.1 ≡ workers) }
        ensures crew { IfOk result (λ r. IsCrew r.0 r.1.items) }
        ensures fresh { IfOk result (λ r. IsFresh r.1.items) }
        ensures back { IfErr result (λ v. v ≡ value) }
    {
        let Ok(passes) = Vec::with_capacity(alloc, usize::from(workers)) else {
            return Err(value);
        };
        let (table, seat) = lay(alloc, value)?;
        let passes = deal(&table.shared, seat, passes, workers);
        Ok((Desk { table }, passes))
    }

    /// The value, once every worker has given back its pass: all passes that `start` gave, in its order.
    /// It takes no memory.
    pub fn close(self, passes: Vec<Pass>) -> V
        requires some { 0 < vec_len passes }
        requires crew { IsCrew self passes.items }
        ensures origin { V.origin result ≡ self.origin }
        ensures sound { V.sound result }
        ensures notes { Tells passes.items (V.noted result) }
    {
        let mut passes = passes;
        let Some(last) = passes.pop() else {
            unreachable!()
        };
        let Pass {
            badge,
            worker: _,
            turns: _,
        } = last;
        let seat = take_in(&self.table.shared, badge.into_seat(), passes);
        let Desk { table } = self;
        settle(table, seat)
    }

    /// Waits for the worker's turn, and does the job in it. It takes no memory but the job's.
    ///
    /// The pass is of this desk and has had fewer than 2^57 turns. Afterwards it has seen what it had seen,
    /// then notes of other workers, and then those of this turn.
    pub fn turn<J: Job<V>, R: Wait>(&self, rt: &R, pass: &mut Pass, job: &mut J) -> J::Answer
        requires own { pass.old.desk ≡ self.now }
        requires turns { pass.old.turns < 2 ^ 57 }
        ensures desk { pass.new.desk ≡ self.now }
        ensures worker { pass.new.worker ≡ pass.old.worker }
        ensures last { pass.new.last ≡ pass.old.last }
        ensures turns { pass.new.turns ≡ pass.old.turns + 1 }
        ensures turned { Turned pass.old.worker pass.old.seen pass.new.seen (λ xs ys. J.relates job.old pass.old.worker self.now.origin xs ys result) }
    {
        let top = &self.table.shared;
        let mut seat = replace(&mut pass.badge, Badge::blank()).into_seat::<V>();
        let ticket = take_ticket(top, &mut seat);
        wait(rt, top, &mut seat, ticket);
        take(top, &mut seat, ticket);
        let (answer, count) = work(top, &mut seat, pass.worker, job);
        add(top, &mut seat, count, ticket);
        put_back(top, &mut seat, ticket);
        pass_on(top, &mut seat, ticket);
        pass.badge = seat.into_badge();
        pass.turns += 1;
        answer
    }
}
