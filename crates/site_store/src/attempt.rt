//! Trying the requests of a group, one after the other.
ghost use Rattle.std.specs.Prelude.{◌≡◌, ◌<◌, ◌≤◌, ◌+◌, ◌-◌, ◌^◌, ◌∷◌, [], true, false, IfSome, IfNone, length, vec_len, vec_capacity};
ghost use Rattle.outside.specs.Causes.{HasCauseIf};
ghost use Rattle.deed_words.specs.History.{own};
ghost use Rattle.deed_words.specs.Numbers.{Means, New};
ghost use Rattle.deed_words.specs.Proper.{IsProperAsk};
ghost use Rattle.site_store.specs.Causes.{is_clock_fault, is_words_fault};
ghost use Rattle.site_store.specs.Moved.{TakesBoth};
ghost use Rattle.site_core.specs.Plans.{IsNext};
ghost use Rattle.site_core.specs.Rooms.{HasRoomFor};
ghost use Rattle.site_store.specs.Open.{IsTryingStore};
ghost use Rattle.site_store.specs.Standing.{entries_of, noted_in, journal_limit};
ghost use Rattle.site_store.specs.Tried.{Tried, KeptOne, HasPlace, IsKnown, IsRepeat};
ghost use Rattle.site_store.specs.declared.outcome.Outcome.TheVariants.{JournalFull};

use crate::adding::{note_done, note_fault};
use crate::group::Group;
use crate::outcome::Outcome;
use crate::store::Store;
use deed_words::{Ask, FaultKind, Reply};
use entry_bytes::print_entry;
use gate_journal::LIMIT;
use outside::{Clock, Disk, Words};
use request_memo::Seen;
use site_core::{PlanFault, Planned, Site};

/// The last millisecond of the year 9999.
const LATEST: u64 = 253_402_300_799_999;

/// Whether a payload of so many bytes fits behind this end of the journal.
fn fits(end: u64, asked: u64) -> bool
    requires { asked + 6 < 2 ^ 64 }
    ensures fits { result ≡ true → end + 6 + asked ≤ journal_limit }
    ensures full { result ≡ false → journal_limit < end + 6 + asked }
{
    end <= LIMIT && 6 + asked <= LIMIT - end
}

/// The journal is full for a planned entry, which goes.
fn full(end: u64, asked: u64, planned: Planned) -> Outcome
    ensures { result ≡ JournalFull end asked }
{
    let _planned = planned;
    Outcome::JournalFull(end, asked)
}

/// The reply that was kept, once more.
fn repeat(reply: &Reply) -> Outcome
    ensures { IsRepeat reply.now result }
{
    match reply.copy() {
        Ok(reply) => Outcome::Replied(reply),
        Err(_) => Outcome::Memory,
    }
}

/// What is answered to a request whose number isn't the station's next one.
fn known(site: &Site, ask: &Ask) -> Option<Outcome>
    requires { ask.now.station < length site.now.setup.stations }
    ensures some { IfSome result (λ outcome. IsKnown site.now.setup site.now.history ask.now outcome) }
    ensures none { IfNone result (Means site.now.setup site.now.history ask.now.station ask.now.number ask.now.deed New) }
{
    match site.look(ask.station, ask.number, &ask.deed) {
        Seen::Kept(reply) => Some(repeat(reply)),
        Seen::Reused(_) => Some(Outcome::NumberReused),
        Seen::New => None,
        Seen::Gap(last) => Some(Outcome::NumberGap(last)),
    }
}

impl<D: Disk, C: Clock, W: Words> Store<D, C, W> {
    /// Makes room for one entry more of a group, with all notes that may come of it.
    fn make_place(&mut self, group: &mut Group) -> bool
        requires trying { IsTryingStore self.old group.old }
        requires none { self.old.pending.items ≡ [] }
        ensures place { result ≡ true → HasPlace (length group.new.rows.items) (vec_capacity group.new.rows - vec_len group.new.rows) (length group.new.committed.items) (vec_capacity group.new.committed - vec_len group.new.committed) (vec_capacity self.new.log - vec_len self.new.log) (vec_capacity self.new.pending - vec_len self.new.pending) }
        ensures trying { IsTryingStore self.new group.new }
        ensures base { group.new.base ≡ group.old.base }
        ensures journal { self.new.journal ≡ self.old.journal }
        ensures notes { self.new.log.items ≡ self.old.log.items }
        ensures pending { self.new.pending.items ≡ self.old.pending.items }
        ensures opened { (self.new.opening ≡ self.old.opening) × (self.new.opened ≡ self.old.opened) }
        ensures site { self.new.site ≡ self.old.site }
        ensures devices { (self.new.clock ≡ self.old.clock) × (self.new.words ≡ self.old.words) }
        ensures group { (group.new.rows.items ≡ group.old.rows.items) × (group.new.committed.items ≡ group.old.committed.items) × (group.new.frame ≡ group.old.frame) }
    {
        let entries = group.committed.len() + 1;
        let notes = group.rows.len() + 1 + 2 * entries;
        self.log.reserve(notes).is_ok()
            && self.pending.reserve(entries).is_ok()
            && group.committed.reserve(1).is_ok()
            && group.rows.reserve(1).is_ok()
    }

    /// Puts a planned entry into the frame of its group, and into the site.
    fn keep(&mut self, worker: u8, planned: Planned, group: &mut Group) -> Outcome
        requires trying { IsTryingStore self.old group.old }
        requires none { self.old.pending.items ≡ [] }
        requires place { HasPlace (length group.old.rows.items) (vec_capacity group.old.rows - vec_len group.old.rows) (length group.old.committed.items) (vec_capacity group.old.committed - vec_len group.old.committed) (vec_capacity self.old.log - vec_len self.old.log) (vec_capacity self.old.pending - vec_len self.old.pending) }
        requires few { length group.old.committed.items < 16 }
        requires room { HasRoomFor self.old.site (planned ∷ []) }
        requires next { IsNext self.old.site.setup self.old.site.history self.old.site.content planned }
        ensures kept { KeptOne self.old.journal.end self.old.site.history self.new.site.history (entries_of group.old.committed.items) (entries_of group.new.committed.items) (noted_in group.old.rows.items) (noted_in group.new.rows.items) worker planned result }
        ensures trying { IsTryingStore self.new group.new }
        ensures base { group.new.base ≡ group.old.base }
        ensures journal { self.new.journal ≡ self.old.journal }
        ensures notes { self.new.log.items ≡ self.old.log.items }
        ensures pending { self.new.pending.items ≡ self.old.pending.items }
        ensures opened { (self.new.opening ≡ self.old.opening) × (self.new.opened ≡ self.old.opened) }
        ensures devices { (self.new.clock ≡ self.old.clock) × (self.new.words ≡ self.old.words) }
    {
        let Ok(bytes) = print_entry(self.alloc, planned.entry()) else {
            return Outcome::Memory;
        };
        let end = self.journal.end();
        let asked = group.frame.len() + bytes.len() as u64;
        if !fits(end, asked) {
            return full(end, asked, planned);
        }
        let Ok(reply) = planned.reply().copy() else {
            return Outcome::Memory;
        };
        let count = group.committed.len() as u8 + 129;
        let Ok(()) = group.frame.grow(count, &bytes) else {
            return Outcome::Memory;
        };
        let place = self.site.entries() as u64;
        note_done(&mut group.rows, place, worker, planned.entry());
        group.committed.push_reserved(self.site.commit(planned));
        Outcome::Replied(reply)
    }

    /// Answers a request of a group with its station's next number.
    fn enter(&mut self, worker: u8, ask: Ask, group: &mut Group) -> Outcome
        requires trying { IsTryingStore self.old group.old }
        requires none { self.old.pending.items ≡ [] }
        requires few { length group.old.committed.items < 16 }
        requires station { ask.station < length self.old.site.setup.stations }
        requires next { ask.number ≡ length (own ask.station self.old.site.history) + 1 }
        requires proper { IsProperAsk ask }
        ensures tried { TakesBoth (C.moments_left self.old.clock) (C.moments_left self.new.clock) (W.words_left self.old.words) (W.words_left self.new.words) (λ taken. Tried self.old.site.setup self.old.journal.end self.old.site.history self.new.site.history (entries_of group.old.committed.items) (entries_of group.new.committed.items) (noted_in group.old.rows.items) (noted_in group.new.rows.items) worker ask taken result) }
        ensures trying { IsTryingStore self.new group.new }
        ensures base { group.new.base ≡ group.old.base }
        ensures journal { self.new.journal ≡ self.old.journal }
        ensures notes { self.new.log.items ≡ self.old.log.items }
        ensures pending { self.new.pending.items ≡ self.old.pending.items }
        ensures opened { (self.new.opening ≡ self.old.opening) × (self.new.opened ≡ self.old.opened) }
        ensures clock { HasCauseIf (is_clock_fault result) (C.clock_faults self.old.clock) (C.clock_faults self.new.clock) }
        ensures words { HasCauseIf (is_words_fault result) (W.word_faults self.old.words) (W.word_faults self.new.words) }
    {
        if !self.make_place(group) {
            return Outcome::Memory;
        }
        let Ok(ms) = self.clock.now_ms() else {
            note_fault(&mut group.rows, FaultKind::Clock, worker, &self.pending);
            return Outcome::ClockFault;
        };
        if ms > LATEST {
            note_fault(&mut group.rows, FaultKind::Range, worker, &self.pending);
            return Outcome::ClockRange(ms);
        }
        let stamp = self.site.last_stamp().max(ms);
        match self.site.plan(worker, ask, stamp, &mut self.words) {
            Ok(planned) => self.keep(worker, planned, group),
            Err(PlanFault::WordsFault) => {
                note_fault(&mut group.rows, FaultKind::Words, worker, &self.pending);
                Outcome::WordsFault
            }
            Err(PlanFault::WordsSpent(found)) => {
                note_fault(&mut group.rows, FaultKind::Spent, worker, &self.pending);
                Outcome::WordsSpent(found)
            }
            Err(PlanFault::Memory) => Outcome::Memory,
        }
    }

    /// Answers a request of a group, behind those in front of it, and puts its entry into the site, if it has one.
    pub(crate) fn attempt(&mut self, worker: u8, ask: Ask, group: &mut Group) -> Outcome
        requires trying { IsTryingStore self.old group.old }
        requires none { self.old.pending.items ≡ [] }
        requires few { length group.old.committed.items < 16 }
        requires station { ask.station < length self.old.site.setup.stations }
        requires proper { IsProperAsk ask }
        ensures tried { TakesBoth (C.moments_left self.old.clock) (C.moments_left self.new.clock) (W.words_left self.old.words) (W.words_left self.new.words) (λ taken. Tried self.old.site.setup self.old.journal.end self.old.site.history self.new.site.history (entries_of group.old.committed.items) (entries_of group.new.committed.items) (noted_in group.old.rows.items) (noted_in group.new.rows.items) worker ask taken result) }
        ensures trying { IsTryingStore self.new group.new }
        ensures base { group.new.base ≡ group.old.base }
        ensures journal { self.new.journal ≡ self.old.journal }
        ensures notes { self.new.log.items ≡ self.old.log.items }
        ensures pending { self.new.pending.items ≡ self.old.pending.items }
        ensures opened { (self.new.opening ≡ self.old.opening) × (self.new.opened ≡ self.old.opened) }
        ensures clock { HasCauseIf (is_clock_fault result) (C.clock_faults self.old.clock) (C.clock_faults self.new.clock) }
        ensures words { HasCauseIf (is_words_fault result) (W.word_faults self.old.words) (W.word_faults self.new.words) }
    {
        match known(&self.site, &ask) {
            Some(outcome) => outcome,
            None => self.enter(worker, ask, group),
        }
    }
}
