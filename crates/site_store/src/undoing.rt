//! Taking back what was committed, and putting it in again.
ghost use Rattle.std.specs.Prelude.{◌≡◌, ◌≢◌, ◌≤◌, ◌+◌, ◌-◌, ◌^◌, ◌++◌, [], List, length, vec_len, vec_capacity};
ghost use Rattle.deed_words.specs.declared.entry.Entry.{Entry};
ghost use Rattle.site_core.specs.Rooms.{HasRoomFor};
ghost use Rattle.site_store.specs.Coming.{AreLast, AreNext};
ghost use Rattle.site_store.specs.Noting.{dones};
ghost use Rattle.site_store.specs.Standing.{noted_in, in_order, entries_of};

use crate::adding::note_done;
use crate::log::Row;
use site_core::{Committed, Planned, Site, the_first_has_room};

/// Takes back what was committed, from the last on, and puts it where what is pending stands. It takes no memory.
pub(crate) fn take_back(site: &mut Site, pending: &mut Vec<Planned>, committed: Vec<Committed>)
    requires last { AreLast site.old.setup site.old.history site.old.content committed.items }
    requires none { pending.old.items ≡ [] }
    requires spare { length committed.items ≤ vec_capacity pending.old - vec_len pending.old }
    ensures setup { site.new.setup ≡ site.old.setup }
    ensures history { (before : List Entry) → site.old.history ≡ before ++ entries_of committed.items → site.new.history ≡ before }
    ensures pending { in_order pending.new.items ≡ committed.items }
    ensures room { HasRoomFor site.new (in_order pending.new.items) }
    ensures next { AreNext site.new.setup site.new.history site.new.content (in_order pending.new.items) }
{
    let mut committed = committed;
    'committed: while let Some(last) = committed.pop() {
        pending.push_reserved(site.undo(last));
    }
}

/// Puts what is pending into the history, from the first on, with a note of each. It takes no memory.
pub(crate) fn put_in(site: &mut Site, log: &mut Vec<Row>, worker: u8, pending: &mut Vec<Planned>)
    requires room { HasRoomFor site.old (in_order pending.old.items) }
    requires next { AreNext site.old.setup site.old.history site.old.content (in_order pending.old.items) }
    requires spare { length (in_order pending.old.items) ≤ vec_capacity log.old - vec_len log.old }
    requires few { in_order pending.old.items ≢ [] → length site.old.history + length (in_order pending.old.items) ≤ 2 ^ 32 }
    ensures setup { site.new.setup ≡ site.old.setup }
    ensures history { site.new.history ≡ site.old.history ++ entries_of (in_order pending.old.items) }
    ensures noted { noted_in log.new.items ≡ noted_in log.old.items ++ dones worker (length site.old.history) (entries_of (in_order pending.old.items)) }
    ensures none { pending.new.items ≡ [] }
{
    the_first_has_room();
    'pending: while let Some(planned) = pending.pop() {
        note_done(log, site.entries() as u64, worker, planned.entry());
        let _committed = site.commit(planned);
    }
}
