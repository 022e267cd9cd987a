//! Writing what a group has come to.
ghost use Rattle.std.specs.Prelude.{◌≡◌, ◌++◌, ◌-◌, [], List, IsSome, length, true, false, vec_len, vec_capacity};
ghost use Rattle.outside.specs.Causes.{HasCauseIf};
ghost use Rattle.outside.specs.Disks.{LeavesOnly};
ghost use Rattle.site_store.specs.Calls.{AppendCalls};
ghost use Rattle.site_store.specs.Images.{HoldsBetween};
ghost use Rattle.site_store.specs.Noting.{Noted};
ghost use Rattle.site_store.specs.Open.{IsSoundStore, IsTryingStore, store_state};
ghost use Rattle.site_store.specs.Standing.{IsSound, state_of, entries_of, in_order, noted_in};
ghost use Rattle.site_store.specs.Trying.{IsTrying, Finishes};
ghost use Rattle.site_store.specs.Lost.{is_lost};

use crate::adding::{note_all, note_fault, note_faults};
use crate::group::Group;
use crate::store::Store;
use crate::undoing::take_back;
use deed_words::FaultKind;
use outside::{Clock, Disk, Words};
use site_core::Planned;

/// What came of the entries of a group.
#[derive(Clone, Copy, Debug, PartialEq, Eq)]
pub(crate) enum Finish {
    /// They are in the history.
    Written,
    /// A call of the append failed.
    Lost,
}

/// Keeps what was taken back where it is pending, and else lets it go.
fn forget_unless(pending: &mut Vec<Planned>, is_pending: bool)
    ensures some { is_pending ≡ true → pending.new.items ≡ pending.old.items }
    ensures none { is_pending ≡ false → pending.new.items ≡ [] }
{
    if !is_pending {
        pending.clear();
    }
}

impl<D: Disk, C: Clock, W: Words> Store<D, C, W> {
    /// Writes what a group has come to, in one record. It takes no memory.
    pub(crate) fn finish(&mut self, worker: u8, group: Group) -> Finish
        requires trying { IsTryingStore self.old group }
        requires none { self.old.pending.items ≡ [] }
        ensures finishes { (more : List Noted) × (noted_in self.new.log.items ≡ noted_in self.old.log.items ++ more) × Finishes group.base.value.history (entries_of group.committed.items) worker (noted_in group.rows.items) result (store_state self.new) more }
        ensures sound { IsSoundStore self.new }
        ensures images { LeavesOnly D.moment D.image_since self.old.journal.disk self.new.journal.disk (HoldsBetween group.base.value.setup (state_of group.base.value []) (store_state self.new)) }
        ensures cause { HasCauseIf (is_lost result) (D.disk_faults self.old.journal.disk) (D.disk_faults self.new.journal.disk) }
        ensures calls { AppendCalls group.base.value.history (is_lost result) (store_state self.new) (D.disk_calls self.old.journal.disk) (D.disk_calls self.new.journal.disk) }
        ensures told { IsSome (D.content self.old.journal.disk) → IsSome (D.content self.new.journal.disk) }
        ensures setup { self.new.site.setup ≡ group.base.value.setup }
        ensures devices { (self.new.clock ≡ self.old.clock) × (self.new.words ≡ self.old.words) }
        ensures opened { (self.new.opening ≡ self.old.opening) × (self.new.opened ≡ self.old.opened) }
    {
        let Group {
            base: _,
            rows,
            committed,
            frame,
        } = group;
        if committed.is_empty() {
            note_all(&mut self.log, rows);
            return Finish::Written;
        }
        match self.journal.append(&frame) {
            Ok(()) => {
                note_all(&mut self.log, rows);
                Finish::Written
            }
            Err(_) => {
                note_faults(&mut self.log, rows);
                take_back(&mut self.site, &mut self.pending, committed);
                let is_pending = self.journal.pending();
                forget_unless(&mut self.pending, is_pending);
                note_fault(&mut self.log, FaultKind::Disk, worker, &self.pending);
                Finish::Lost
            }
        }
    }
}
