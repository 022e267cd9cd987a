//! Settling what is pending.
ghost use Rattle.std.specs.Prelude.{◌≡◌, ◌≢◌, ◌-◌, ◌++◌, [], List, IsSome, not, true, false, vec_len, vec_capacity};
ghost use Rattle.outside.specs.Causes.{HasCauseIf};
ghost use Rattle.outside.specs.Disks.{LeavesOnly, OneOrTwoCalls};
ghost use Rattle.site_store.specs.Calls.{mended_calls};
ghost use Rattle.site_store.specs.Images.{HoldsState};
ghost use Rattle.site_store.specs.Mends.{Mends, is_settled};
ghost use Rattle.site_store.specs.Noting.{Noted};
ghost use Rattle.site_store.specs.Open.{IsSoundStore, store_state};
ghost use Rattle.site_store.specs.Standing.{IsSound, state_of, end_of, noted_in, in_order};

use crate::adding::note_fault;
use crate::store::Store;
use crate::undoing::put_in;
use deed_words::FaultKind;
use outside::{Clock, Disk, Words};

/// What came of a mend.
#[derive(Clone, Copy, Debug, PartialEq, Eq)]
pub(crate) enum Mend {
    /// Nothing is pending.
    Settled,
    /// A call of the disk failed, and what was pending still is.
    Failed,
    /// The same, and memory was wanting for the note of it.
    Wanting,
}

impl<D: Disk, C: Clock, W: Words> Store<D, C, W> {
    /// Puts what is pending into the history. Where that succeeds it takes no memory.
    pub(crate) fn settle(&mut self, worker: u8) -> Mend
        requires sound { IsSoundStore self.old }
        ensures mends { (notes : List Noted) × (noted_in self.new.log.items ≡ noted_in self.old.log.items ++ notes) × Mends (store_state self.old) worker result (store_state self.new) notes }
        ensures sound { IsSoundStore self.new }
        ensures none { is_settled result ≡ true → self.new.pending.items ≡ [] }
        ensures behind { is_settled result ≡ false → in_order self.old.pending.items ≢ [] }
        ensures end { end_of self.new.journal.end self.new.journal.pending ≡ end_of self.old.journal.end self.old.journal.pending }
        ensures images { LeavesOnly D.moment D.image_since self.old.journal.disk self.new.journal.disk (HoldsState self.old.site.setup (store_state self.old)) }
        ensures cause { HasCauseIf (not (is_settled result)) (D.disk_faults self.old.journal.disk) (D.disk_faults self.new.journal.disk) }
        ensures calls { is_settled result ≡ true → D.disk_calls self.new.journal.disk ≡ mended_calls (store_state self.old).pending (D.disk_calls self.old.journal.disk) }
        ensures calls_err { is_settled result ≡ false → OneOrTwoCalls (D.disk_calls self.old.journal.disk) (D.disk_calls self.new.journal.disk) }
        ensures told { IsSome (D.content self.old.journal.disk) → IsSome (D.content self.new.journal.disk) }
        ensures setup { self.new.site.setup ≡ self.old.site.setup }
        ensures devices { (self.new.clock ≡ self.old.clock) × (self.new.words ≡ self.old.words) }
        ensures opened { (self.new.opening ≡ self.old.opening) × (self.new.opened ≡ self.old.opened) }
    {
        match self.journal.mend() {
            Ok(()) => {
                put_in(&mut self.site, &mut self.log, worker, &mut self.pending);
                Mend::Settled
            }
            Err(_) => {
                if self.log.reserve(self.pending.len() + 1).is_err() {
                    return Mend::Wanting;
                }
                let nothing = Vec::new(self.alloc);
                note_fault(&mut self.log, FaultKind::Disk, worker, &nothing);
                Mend::Failed
            }
        }
    }
}
