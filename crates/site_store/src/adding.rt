//! Notes, without memory.
ghost use Rattle.std.specs.Prelude.{◌≡◌, ◌<◌, ◌≤◌, ◌+◌, ◌-◌, ◌^◌, ◌++◌, ◌∷◌, [], length, vec_len, vec_capacity};
ghost use Rattle.site_store.specs.Noting.{dones, fault};
ghost use Rattle.site_store.specs.Standing.{noted_in, entries_of, in_order};
ghost use Rattle.site_store.specs.Trying.{no_dones};

use crate::log::Row;
use deed_words::{Entry, FaultKind};
use site_core::Planned;
use std::snapshot::Snapshot;

/// Notes that an entry was settled at this place of the history.
pub(crate) fn note_done(log: &mut Vec<Row>, place: u64, worker: u8, entry: &Entry)
    requires spare { vec_len log.old < vec_capacity log.old }
    requires few { place < 2 ^ 32 }
    ensures noted { noted_in log.new.items ≡ noted_in log.old.items ++ dones worker place (entry.now ∷ []) }
    ensures len { vec_len log.new ≡ vec_len log.old + 1 }
    ensures capacity { vec_capacity log.new ≡ vec_capacity log.old }
{
    log.push_reserved(Row::Done(place as u32, worker, Snapshot::of(entry)));
}

/// Notes a fault, which left this pending.
pub(crate) fn note_fault(log: &mut Vec<Row>, kind: FaultKind, worker: u8, left: &Vec<Planned>)
    requires spare { vec_len log.old < vec_capacity log.old }
    ensures noted { noted_in log.new.items ≡ noted_in log.old.items ++ fault kind worker (entries_of (in_order left.now.items)) }
    ensures len { vec_len log.new ≡ vec_len log.old + 1 }
    ensures capacity { vec_capacity log.new ≡ vec_capacity log.old }
{
    log.push_reserved(Row::Fault(kind, worker, Snapshot::of(left)));
}

/// Puts all notes last.
pub(crate) fn note_all(log: &mut Vec<Row>, rows: Vec<Row>)
    requires spare { vec_len log.old + length rows.items ≤ vec_capacity log.old }
    ensures noted { noted_in log.new.items ≡ noted_in log.old.items ++ noted_in rows.items }
    ensures len { vec_len log.new ≡ vec_len log.old + length rows.items }
    ensures capacity { vec_capacity log.new ≡ vec_capacity log.old }
{
    let mut rest = rows.into_iter();
    'rows: while let Some(row) = rest.next() {
        log.push_reserved(row);
    }
}

/// Puts the notes of faults last, and no others.
pub(crate) fn note_faults(log: &mut Vec<Row>, rows: Vec<Row>)
    requires spare { vec_len log.old + length rows.items ≤ vec_capacity log.old }
    ensures noted { noted_in log.new.items ≡ noted_in log.old.items ++ no_dones (noted_in rows.items) }
    ensures len { vec_len log.new ≤ vec_len log.old + length rows.items }
    ensures capacity { vec_capacity log.new ≡ vec_capacity log.old }
{
    let mut rest = rows.into_iter();
    'rows: while let Some(row) = rest.next() {
        match row {
            Row::Done(_, _, _) => {}
            Row::Fault(kind, worker, left) => log.push_reserved(Row::Fault(kind, worker, left)),
        }
    }
}
