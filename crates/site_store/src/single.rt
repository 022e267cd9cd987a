//! One numbered request to a store: a group of one, without a list.
ghost use Rattle.std.specs.Prelude.{◌≡◌, ◌≢◌, ◌⊎◌, ◌<◌, ◌++◌, [], List, ℕ, IsSome, length};
ghost use Rattle.outside.specs.Causes.{HasCauseIf};
ghost use Rattle.outside.specs.Disks.{LeavesOnly};
ghost use Rattle.deed_words.specs.Proper.{IsProperAsk};
ghost use Rattle.site_store.specs.Calls.{AppendCalls, StepCalls};
ghost use Rattle.site_store.specs.Causes.{is_disk_fault, is_clock_fault, is_words_fault};
ghost use Rattle.site_store.specs.Images.{HoldsBetween, HoldsState, SettledFrom, Grows};
ghost use Rattle.site_store.specs.Moved.{TakesBoth};
ghost use Rattle.site_store.specs.Noting.{Noted, IsOf};
ghost use Rattle.site_store.specs.One as one;
ghost use Rattle.site_store.specs.Open.{IsOpen, IsSoundStore, store_state, notes_of};
ghost use Rattle.site_store.specs.Standing.{end_of};
ghost use Rattle.site_store.specs.declared.outcome.Outcome.TheVariants.{DiskFault};
ghost use Rattle.site_store.specs.States.{settled};

use crate::finish::Finish;
use crate::outcome::Outcome;
use crate::settle::Mend;
use crate::store::Store;
use crate::submit::no_group;
use deed_words::Ask;
use outside::{Clock, Disk, Words};

/// In place of an answer whose entry isn't in the history: the disk failed.
fn lost(outcome: Outcome) -> Outcome
    ensures { result ≡ DiskFault }
{
    let _outcome = outcome;
    Outcome::DiskFault
}

impl<D: Disk, C: Clock, W: Words> Store<D, C, W> {
    /// Answers a request, behind what was settled.
    fn answer_one(&mut self, worker: u8, ask: Ask) -> Outcome
        requires sound { IsSoundStore self.old }
        requires none { self.old.pending.items ≡ [] }
        requires station { ask.station < length self.old.site.setup.stations }
        requires proper { IsProperAsk ask }
        ensures answers { TakesBoth (C.moments_left self.old.clock) (C.moments_left self.new.clock) (W.words_left self.old.words) (W.words_left self.new.words) (λ taken. (more : List Noted) × (notes_of self.new ≡ notes_of self.old ++ more) × one.Answers self.old.site.setup self.old.journal.end self.old.site.history worker ask taken result (store_state self.new) more) }
        ensures sound { IsSoundStore self.new }
        ensures images { LeavesOnly D.moment D.image_since self.old.journal.disk self.new.journal.disk (HoldsBetween self.old.site.setup (settled self.old.site.history) (store_state self.new)) }
        ensures disk { HasCauseIf (is_disk_fault result (store_state self.new).pending) (D.disk_faults self.old.journal.disk) (D.disk_faults self.new.journal.disk) }
        ensures clock { HasCauseIf (is_clock_fault result) (C.clock_faults self.old.clock) (C.clock_faults self.new.clock) }
        ensures words { HasCauseIf (is_words_fault result) (W.word_faults self.old.words) (W.word_faults self.new.words) }
        ensures calls { AppendCalls self.old.site.history (is_disk_fault result (store_state self.new).pending) (store_state self.new) (D.disk_calls self.old.journal.disk) (D.disk_calls self.new.journal.disk) }
        ensures told { IsSome (D.content self.old.journal.disk) → IsSome (D.content self.new.journal.disk) }
        ensures setup { self.new.site.setup ≡ self.old.site.setup }
        ensures opened { (self.new.opening ≡ self.old.opening) × (self.new.opened ≡ self.old.opened) }
    {
        let Ok(mut group) = no_group(self.alloc, &self.site) else {
            return Outcome::Memory;
        };
        let outcome = self.attempt(worker, ask, &mut group);
        match self.finish(worker, group) {
            Finish::Written => outcome,
            Finish::Lost => lost(outcome),
        }
    }

    /// Answers a numbered request of a station of the setup: what is pending is settled first, then the number is
    /// looked at, then the clock is asked, and then the entry is planned, written and kept.
    pub fn submit(&mut self, worker: u8, ask: Ask) -> Outcome
        requires open { IsOpen D.Disk C.Clock W.Words self.old }
        requires station { ask.station < length self.old.site.setup.stations }
        requires proper { IsProperAsk ask }

        // One step from what the store stands for to what it stands for afterwards, with its notes, which are this worker's.
        ensures steps { TakesBoth (C.moments_left self.old.clock) (C.moments_left self.new.clock) (W.words_left self.old.words) (W.words_left self.new.words)
            (λ taken. (notes : List Noted) × (notes_of self.new ≡ notes_of self.old ++ notes) × IsOf worker notes
            × one.Steps self.old.site.setup (end_of self.old.journal.end self.old.journal.pending) (store_state self.old) worker ask taken result (store_state self.new) notes) }

        // Each image since the start holds what the store stood for or stands for, and each image at the return what it stands for.
        ensures images { LeavesOnly D.moment D.image_since self.old.journal.disk self.new.journal.disk (HoldsBetween self.old.site.setup (store_state self.old) (store_state self.new)) }
        ensures at_return { (c : List ℕ) → D.image self.new.journal.disk c → HoldsState self.new.site.setup (store_state self.new) c }

        // Nothing that it stood for is lost, and what was pending still is, or was settled before anything else was done.
        ensures grows { Grows (store_state self.old) (store_state self.new) }
        ensures settling { (store_state self.old).pending ≢ [] → (store_state self.new ≡ store_state self.old)
            ⊎ SettledFrom D.moment D.image_since self.old.site.setup (store_state self.old) self.old.journal.disk self.new.journal.disk (store_state self.new) }

        // Which call of the disk failed decides what is pending: the entry after the last two calls of its append, nothing after the first two.
        ensures calls { StepCalls (store_state self.old) (is_disk_fault result (store_state self.new).pending) (store_state self.new) (D.disk_calls self.old.journal.disk) (D.disk_calls self.new.journal.disk) }

        // Each fault of a device has its cause, and any other answer none.
        ensures disk { HasCauseIf (is_disk_fault result (store_state self.new).pending) (D.disk_faults self.old.journal.disk) (D.disk_faults self.new.journal.disk) }
        ensures clock { HasCauseIf (is_clock_fault result) (C.clock_faults self.old.clock) (C.clock_faults self.new.clock) }
        ensures words { HasCauseIf (is_words_fault result) (W.word_faults self.old.words) (W.word_faults self.new.words) }
        ensures told { IsSome (D.content self.old.journal.disk) → IsSome (D.content self.new.journal.disk) }

        ensures setup { self.new.site.setup ≡ self.old.site.setup }
        ensures opened { (self.new.opening ≡ self.old.opening) × (self.new.opened ≡ self.old.opened) }
        ensures open { IsOpen D.Disk C.Clock W.Words self.new }
    {
        match self.settle(worker) {
            Mend::Settled => self.answer_one(worker, ask),
            Mend::Failed => Outcome::DiskFault,
            Mend::Wanting => Outcome::Memory,
        }
    }
}
