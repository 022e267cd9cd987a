//! Numbered requests to a store, in groups.
ghost use Rattle.std.specs.Prelude.{◌≡◌, ◌≢◌, ◌⊎◌, ◌≤◌, ◌++◌, ◌∷◌, [], List, ℕ, IsSome, IfOk, length, map, vec_len, vec_capacity};
ghost use Rattle.outside.specs.Disks.{LeavesOnly};
ghost use Rattle.deed_words.specs.History.{world_of};
ghost use Rattle.batch_book.specs.Content.{world_in};
ghost use Rattle.entry_bytes.specs.Spelling.{group_bytes};
ghost use Rattle.site_store.specs.Asked.{AreOf};
ghost use Rattle.outside.specs.Causes.{HasCauseIf};
ghost use Rattle.site_store.specs.Images.{HoldsBetween, HoldsState, SettledFrom, Grows};
ghost use Rattle.site_store.specs.Moved.{TakesBoth};
ghost use Rattle.site_store.specs.Noting.{Noted, IsOf};
ghost use Rattle.site_store.specs.Standing.{end_of};
ghost use Rattle.site_store.specs.Open.{IsOpen, IsSoundStore, store_state, notes_of};
ghost use Rattle.site_store.specs.Calls.{AppendCalls, StepCalls};
ghost use Rattle.site_store.specs.Causes.{tells_disk_fault, HasCauses};
ghost use Rattle.site_store.specs.States.{State, settled};
ghost use Rattle.site_store.specs.Steps.{Answers, Steps};
ghost use Rattle.site_store.specs.Going.{lost_after};
ghost use Rattle.site_store.specs.Refusals.{refusal_of};
ghost use Rattle.deed_words.specs.declared.entry.Ask.{Ask};
ghost use Rattle.deed_words.specs.declared.entry.FaultKind.TheVariants as kind;

use crate::finish::Finish;
use crate::group::Group;
use crate::outcome::Outcome;
use crate::settle::Mend;
use crate::store::Store;
use deed_words::Ask;
use gate_journal::Frame;
use gs1_keys::Memory;
use outside::{Clock, Disk, Words};
use site_core::Site;
use std::alloc::Global;
use std::snapshot::Snapshot;

/// The payload of a group without entries: its count byte.
const NO_ENTRIES: u8 = 128;

/// No requests yet.
pub(crate) fn no_group(alloc: Global, site: &Site) -> Result<Group, Memory>
    ensures base { IfOk result (λ group. group.base.value ≡ site.now) }
    ensures empty { IfOk result (λ group. (group.rows.items ≡ []) × (group.committed.items ≡ []) × (group.frame ≡ group_bytes [])) }
    ensures world { world_in site.now.content ≡ world_of site.now.setup site.now.history }
{
    site.tell_kept();
    match Frame::of(alloc, &[NO_ENTRIES]) {
        Ok(frame) => Ok(Group {
            base: Snapshot::of(site),
            rows: Vec::new(alloc),
            committed: Vec::new(alloc),
            frame,
        }),
        Err(fault) => Err(fault),
    }
}

/// Why all requests of a call are refused.
#[derive(Clone, Copy, Debug, PartialEq, Eq)]
pub(crate) enum Refusal {
    /// The mend of what is pending failed.
    Disk,
    /// Memory was wanting.
    Memory,
}

/// The same answer to each request.
fn refuse_all(asks: Vec<Ask>, outcomes: &mut Vec<Outcome>, refusal: Refusal)
    requires empty { outcomes.old.items ≡ [] }
    requires spare { length asks.items ≤ vec_capacity outcomes.old }
    ensures { outcomes.new.items ≡ map (λ (ask : Ask). refusal_of refusal) asks.items }
{
    let mut rest = asks.into_iter();
    'asks: while let Some(ask) = rest.next() {
        let _ask = ask;
        outcomes.push_reserved(match refusal {
            Refusal::Disk => Outcome::DiskFault,
            Refusal::Memory => Outcome::Memory,
        });
    }
}

/// In place of all answers from this place on: the disk failed.
fn fail_from(outcomes: &mut Vec<Outcome>, kept: usize)
    requires { kept ≤ vec_len outcomes.old }
    ensures { outcomes.new.items ≡ lost_after kept outcomes.old.items }
{
    let count = outcomes.len();
    outcomes.truncate(kept);
    'lost: while outcomes.len() < count {
        outcomes.push_reserved(Outcome::DiskFault);
    }
}

/// How many of the first answers stand whatever comes of the append.
fn kept_now(kept: usize, group: &Group, outcomes: &Vec<Outcome>) -> usize
    ensures none { group.now.committed.items ≡ [] → result ≡ length outcomes.now.items }
    ensures some { group.now.committed.items ≢ [] → result ≡ kept }
{
    if group.committed.is_empty() {
        outcomes.len()
    } else {
        kept
    }
}

impl<D: Disk, C: Clock, W: Words> Store<D, C, W> {
    /// Answers the requests of a group, behind what was settled.
    fn answer_all(&mut self, worker: u8, asks: Vec<Ask>, outcomes: &mut Vec<Outcome>)
        requires sound { IsSoundStore self.old }
        requires none { self.old.pending.items ≡ [] }
        requires stations { AreOf self.old.site.setup asks.items }
        requires few { length asks.items ≤ 16 }
        requires empty { outcomes.old.items ≡ [] }
        requires spare { length asks.items ≤ vec_capacity outcomes.old }
        ensures answers { TakesBoth (C.moments_left self.old.clock) (C.moments_left self.new.clock) (W.words_left self.old.words) (W.words_left self.new.words) (λ taken. (more : List Noted) × (notes_of self.new ≡ notes_of self.old ++ more) × Answers self.old.site.setup self.old.journal.end self.old.site.history worker asks.items taken outcomes.new.items (store_state self.new) more) }
        ensures sound { IsSoundStore self.new }
        ensures images { LeavesOnly D.moment D.image_since self.old.journal.disk self.new.journal.disk (HoldsBetween self.old.site.setup (settled self.old.site.history) (store_state self.new)) }
        ensures calls { AppendCalls self.old.site.history (tells_disk_fault outcomes.new.items (store_state self.new).pending) (store_state self.new) (D.disk_calls self.old.journal.disk) (D.disk_calls self.new.journal.disk) }
        ensures disk { HasCauseIf (tells_disk_fault outcomes.new.items (store_state self.new).pending) (D.disk_faults self.old.journal.disk) (D.disk_faults self.new.journal.disk) }
        ensures clock { HasCauses kind.Clock (notes_of self.old) (notes_of self.new) (C.clock_faults self.old.clock) (C.clock_faults self.new.clock) }
        ensures words { HasCauses kind.Words (notes_of self.old) (notes_of self.new) (W.word_faults self.old.words) (W.word_faults self.new.words) }
        ensures told { IsSome (D.content self.old.journal.disk) → IsSome (D.content self.new.journal.disk) }
        ensures setup { self.new.site.setup ≡ self.old.site.setup }
        ensures opened { (self.new.opening ≡ self.old.opening) × (self.new.opened ≡ self.old.opened) }
    {
        let Ok(mut group) = no_group(self.alloc, &self.site) else {
            refuse_all(asks, outcomes, Refusal::Memory);
            return;
        };
        let mut kept = 0;
        let mut rest = asks.into_iter();
        'asks: while let Some(ask) = rest.next() {
            let outcome = self.attempt(worker, ask, &mut group);
            outcomes.push_reserved(outcome);
            kept = kept_now(kept, &group, outcomes);
        }
        match self.finish(worker, group) {
            Finish::Written => {}
            Finish::Lost => fail_from(outcomes, kept),
        }
    }

    /// Answers 1 to 16 numbered requests, each of a station of the setup, in their order: what is pending is settled
    /// first, and all that is new is written in one record.
    pub fn submit_all(&mut self, worker: u8, asks: Vec<Ask>, outcomes: &mut Vec<Outcome>)
        requires open { IsOpen D.Disk C.Clock W.Words self.old }
        requires stations { AreOf self.old.site.setup asks.items }
        requires some { asks.items ≢ [] }
        requires few { length asks.items ≤ 16 }
        requires empty { outcomes.old.items ≡ [] }
        requires spare { length asks.items ≤ vec_capacity outcomes.old }
        ensures steps { TakesBoth (C.moments_left self.old.clock) (C.moments_left self.new.clock) (W.words_left self.old.words) (W.words_left self.new.words)
            (λ taken. (notes : List Noted) × (notes_of self.new ≡ notes_of self.old ++ notes) × IsOf worker notes
            × Steps self.old.site.setup (end_of self.old.journal.end self.old.journal.pending) (store_state self.old) worker asks.items taken outcomes.new.items (store_state self.new) notes) }
        ensures images { LeavesOnly D.moment D.image_since self.old.journal.disk self.new.journal.disk (HoldsBetween self.old.site.setup (store_state self.old) (store_state self.new)) }
        ensures at_return { (c : List ℕ) → D.image self.new.journal.disk c → HoldsState self.new.site.setup (store_state self.new) c }
        ensures grows { Grows (store_state self.old) (store_state self.new) }
        ensures settling { (store_state self.old).pending ≢ [] → (store_state self.new ≡ store_state self.old)
            ⊎ SettledFrom D.moment D.image_since self.old.site.setup (store_state self.old) self.old.journal.disk self.new.journal.disk (store_state self.new) }
        ensures calls { StepCalls (store_state self.old) (tells_disk_fault outcomes.new.items (store_state self.new).pending) (store_state self.new) (D.disk_calls self.old.journal.disk) (D.disk_calls self.new.journal.disk) }
        ensures disk { HasCauseIf (tells_disk_fault outcomes.new.items (store_state self.new).pending) (D.disk_faults self.old.journal.disk) (D.disk_faults self.new.journal.disk) }
        ensures clock { HasCauses kind.Clock (notes_of self.old) (notes_of self.new) (C.clock_faults self.old.clock) (C.clock_faults self.new.clock) }
        ensures words { HasCauses kind.Words (notes_of self.old) (notes_of self.new) (W.word_faults self.old.words) (W.word_faults self.new.words) }
        ensures told { IsSome (D.content self.old.journal.disk) → IsSome (D.content self.new.journal.disk) }
        ensures setup { self.new.site.setup ≡ self.old.site.setup }
        ensures opened { (self.new.opening ≡ self.old.opening) × (self.new.opened ≡ self.old.opened) }
        ensures open { IsOpen D.Disk C.Clock W.Words self.new }
    {
        match self.settle(worker) {
            Mend::Settled => self.answer_all(worker, asks, outcomes),
            Mend::Failed => refuse_all(asks, outcomes, Refusal::Disk),
            Mend::Wanting => refuse_all(asks, outcomes, Refusal::Memory),
        }
    }
}
