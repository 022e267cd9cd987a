//! The pool of the serials that were drawn.
ghost use Rattle.std.specs.Prelude.{◌≡◌, ◌≢◌, ◌+◌, ◌^◌, ◌<◌, ◌≤◌, ◌++◌, ℕ, List, [], length as count_of, map, All, true, IfOk, OnOk, vec_len, vec_capacity};
ghost use Rattle.gs1_keys.specs.Keys.{IsText};
ghost use Rattle.gs1_keys.specs.Forms.{is_among, is_form, AreNew};
ghost use Rattle.outside.specs.Causes.{HasCauseIf};
ghost use Rattle.outside.specs.Devices.{Takes};
ghost use Rattle.serial_pool.specs.Ends.{DrawEnds, KnownEnds, is_words_fault};
ghost use Rattle.serial_pool.specs.Held.{had_of, drawn_count, drawn_for, DrawnOnce, IsPlanFor, IsLastDrawn, HasRoomFor};
ghost use Rattle.serial_pool.specs.Index.{hash_in};

use crate::draw::draw;
use crate::drawn::{DrawnSerial, append, cut_off, was_drawn};
use crate::fault::{DrawFault, KnownFault};
use crate::known::know;
use crate::plan::{DrawDone, DrawPlan};
use crate::tally::Tally;
use gs1_keys::{Gtin, Memory, SerialForm, Serials, Text20};
use outside::Words;
use place_table::PlaceTable;
use std::alloc::Global;
use std::marker::Model;

/// The serials that were drawn, each for a GTIN. No serial of a GTIN is drawn twice.
#[derive(Drop)]
pub struct Pool {
    alloc: Global,
    drawn: Vec<DrawnSerial>,
    /// Finds a serial that was drawn by its GTIN and itself.
    table: PlaceTable,
    /// How many were drawn for each GTIN.
    tally: Tally,
    /// For how many more serials there is room.
    room: usize,
}

impl Model for Pool {
    ghost use Rattle.std.specs.Prelude.{vec_capacity};
    ghost use Rattle.serial_pool.specs.Held.{PoolView, IsDrawn};
    ghost use Rattle.serial_pool.specs.Index.{gtins_of, IsKept};

    ghost Value = { PoolView };

    ghost view = { λ p. record { drawn = p.drawn.items; room = p.room; gtins = gtins_of p.tally } };

    ghost invariant = { λ p. IsDrawn p.drawn.items × IsKept p.drawn.items p.table p.tally p.room (vec_capacity p.drawn) };
}

impl Pool {
    /// A pool from which nothing was drawn. It takes no memory.
    pub fn new(alloc: Global) -> Pool
        ensures drawn { result.drawn ≡ [] }
        ensures room { result.room ≡ 0 }
    {
        Pool {
            alloc,
            drawn: Vec::new(alloc),
            table: PlaceTable::new(alloc),
            tally: Tally::new(alloc),
            room: 0,
        }
    }

    /// Looks for so many new serials of the form in the words to come, and makes room for them.
    /// What was drawn stays; words that were taken are gone, whatever the answer.
    ///
    /// # Errors
    ///
    /// `PoolThin` exactly where more than half of the serials would be drawn, before any word is taken.
    /// `WordsSpent` exactly where `4 * count + 64` words held fewer new serials than were asked. `WordsFault` where a
    /// word couldn't be had. `Memory` where no memory was found.
    pub fn plan_draw<W: Words>(
        &mut self,
        gtin: &Gtin,
        form: &SerialForm,
        words: &mut W,
        count: u32,
    ) -> Result<DrawPlan, DrawFault>
        requires form { is_form form.now ≡ true }
        requires some { 1 ≤ count }
        requires few { drawn_count gtin.now self.old.drawn + count < 2 ^ 32 }
        ensures draw { Takes (W.words_left words.old) (W.words_left words.new) (λ taken. DrawEnds (had_of gtin.now self.old.drawn) form.now count taken result) }
        ensures cause { HasCauseIf (is_words_fault result) (W.word_faults words.old) (W.word_faults words.new) }
        ensures new { IfOk result (λ plan. AreNew (had_of gtin.now self.old.drawn) form.now plan.serials) }
        ensures texts { IfOk result (λ plan. All IsText plan.serials) }
        ensures gtin { IfOk result (λ plan. plan.gtin ≡ gtin.now) }
        ensures made_for { IfOk result (λ plan. IsPlanFor self.new.drawn plan) }
        ensures room { IfOk result (λ plan. HasRoomFor self.new plan) }
        ensures drawn { self.new.drawn ≡ self.old.drawn }
        ensures kept { self.old.room ≤ self.new.room }
        ensures still { (other : List ℕ) → is_among self.old.gtins other ≡ true → is_among self.new.gtins other ≡ true }
    {
        let have = u64::from(self.drawn(gtin));
        let asked = u64::from(count);
        let half = form.half();
        if have + asked > half {
            return Err(DrawFault::PoolThin(have, asked, half));
        }
        let plan = draw(
            self.alloc,
            &self.table,
            self.drawn.as_slice(),
            gtin,
            form,
            count,
            words,
        )?;
        self.make_room(gtin, plan.serials.len())?;
        Ok(plan)
    }

    /// Plans serials that were drawn before, as a journal gives them back, each of the form, and makes
    /// room for them. What was drawn stays.
    ///
    /// # Errors
    ///
    /// `NotNew` with the place of the first serial that isn't of the form, was drawn already for the GTIN, or
    /// came earlier in the list. `Memory` where no memory was found.
    pub fn plan_known(
        &mut self,
        gtin: &Gtin,
        form: &SerialForm,
        serials: &Serials,
    ) -> Result<DrawPlan, KnownFault>
        requires form { is_form form.now ≡ true }
        requires few { drawn_count gtin.now self.old.drawn + count_of serials.now < 2 ^ 32 }
        ensures known { KnownEnds (had_of gtin.now self.old.drawn) form.now serials.now result }
        ensures gtin { IfOk result (λ plan. plan.gtin ≡ gtin.now) }
        ensures made_for { IfOk result (λ plan. IsPlanFor self.new.drawn plan) }
        ensures room { IfOk result (λ plan. HasRoomFor self.new plan) }
        ensures drawn { self.new.drawn ≡ self.old.drawn }
        ensures kept { self.old.room ≤ self.new.room }
        ensures still { (other : List ℕ) → is_among self.old.gtins other ≡ true → is_among self.new.gtins other ≡ true }
    {
        let plan = know(
            self.alloc,
            &self.table,
            self.drawn.as_slice(),
            gtin,
            form,
            serials,
        )?;
        self.make_room(gtin, plan.serials.len())?;
        Ok(plan)
    }

    /// Draws what was planned, and tells what was done. It takes no memory.
    pub fn commit_draw(&mut self, plan: DrawPlan) -> DrawDone
        requires made_for { IsPlanFor self.old.drawn plan }
        requires room { HasRoomFor self.old plan }
        ensures drawn { self.new.drawn ≡ self.old.drawn ++ drawn_for plan.gtin plan.serials }
        ensures own { had_of plan.gtin self.new.drawn ≡ had_of plan.gtin self.old.drawn ++ plan.serials }
        ensures others { (gtin : List ℕ) → gtin ≢ plan.gtin → had_of gtin self.new.drawn ≡ had_of gtin self.old.drawn }
        ensures once { DrawnOnce self.new.drawn }
        ensures room { self.new.room + count_of plan.serials ≡ self.old.room }
        ensures gtins { self.new.gtins ≡ self.old.gtins }
        ensures done { result ≡ plan }
    {
        let count = plan.serials.len();
        append(&mut self.drawn, &mut self.table, plan.gtin, &plan.serials);
        self.tally.raise(&plan.gtin, count as u32);
        self.room -= count;
        DrawDone {
            gtin: plan.gtin,
            serials: plan.serials,
        }
    }

    /// Takes back what was drawn last, and gives its plan and the room for it again. It takes no memory.
    pub fn take_back(&mut self, done: DrawDone) -> DrawPlan
        requires last { IsLastDrawn self.old.drawn done }
        requires known { is_among self.old.gtins done.gtin ≡ true }
        ensures drawn { self.old.drawn ≡ self.new.drawn ++ drawn_for done.gtin done.serials }
        ensures room { self.new.room ≡ self.old.room + count_of done.serials }
        ensures gtins { self.new.gtins ≡ self.old.gtins }
        ensures plan { result ≡ done }
        ensures made_for { IsPlanFor self.new.drawn result }
        ensures has_room { HasRoomFor self.new result }
    {
        let count = done.serials.len();
        cut_off(&mut self.drawn, &mut self.table, count);
        self.tally.lower(&done.gtin, count as u32);
        self.room += count;
        DrawPlan {
            gtin: done.gtin,
            serials: done.serials,
        }
    }

    /// Whether the serial was drawn for the GTIN.
    pub fn has(&self, gtin: &Gtin, serial: &Text20) -> bool
        ensures { result ≡ is_among (had_of gtin.now self.now.drawn) serial.now }
    {
        was_drawn(&self.table, self.drawn.as_slice(), gtin, serial)
    }

    /// How many serials were drawn for the GTIN.
    pub fn drawn(&self, gtin: &Gtin) -> u32
        ensures count { result ≡ drawn_count gtin.now self.now.drawn }
        ensures once { DrawnOnce self.now.drawn }
    {
        self.tally.count(gtin)
    }

    /// Makes room for so many more serials of the GTIN.
    fn make_room(&mut self, gtin: &Gtin, more: usize) -> Result<(), Memory>
        ensures drawn { self.new.drawn ≡ self.old.drawn }
        ensures ok { OnOk result ((more ≤ self.new.room) × (is_among self.new.gtins gtin.now ≡ true)) }
        ensures kept { self.old.room ≤ self.new.room }
        ensures still { (other : List ℕ) → is_among self.old.gtins other ≡ true → is_among self.new.gtins other ≡ true }
    {
        self.tally.know(gtin)?;
        reserve(&mut self.drawn, &mut self.table, more)?;
        self.room = self.room.max(more);
        Ok(())
    }
}

/// How many serials there are at most.
const MOST_SERIALS: usize = 1 << 30;

/// Makes room for so many more serials and their places.
fn reserve(drawn: &mut Vec<DrawnSerial>, table: &mut PlaceTable, more: usize) -> Result<(), Memory>
    requires hashed { table.old.hashes ≡ map hash_in drawn.old.items }
    ensures items { drawn.new.items ≡ drawn.old.items }
    ensures hashes { table.new.hashes ≡ table.old.hashes }
    ensures capacity { vec_capacity drawn.old ≤ vec_capacity drawn.new }
    ensures places { table.old.room ≤ table.new.room }
    ensures room { OnOk result ((more ≤ table.new.room) × (vec_len drawn.new + more ≤ vec_capacity drawn.new)) }
{
    if more > MOST_SERIALS || drawn.len() > MOST_SERIALS - more {
        return Err(Memory);
    }
    table.ready(more)?;
    drawn.reserve(more)?;
    Ok(())
}
