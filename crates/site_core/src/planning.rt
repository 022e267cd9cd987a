//! The next entry: of a request, and of an entry that was read back.
ghost use Rattle.std.specs.Prelude.{◌≡◌, ◌<◌, ◌≤◌, ◌+◌, ◌^◌, ◌∷◌, [], List, length, map, IfOk, IfErr, IfSome, IfNone, OnOk, slice_index};
ghost use Rattle.outside.specs.Causes.{HasCauseIf};
ghost use Rattle.outside.specs.Devices.{Takes};
ghost use Rattle.deed_words.specs.History.{own, last_stamp, world_of, MayDraw};
ghost use Rattle.deed_words.specs.Names.{Text};
ghost use Rattle.deed_words.specs.Proper.{IsProperAsk, IsProperDeed, IsProperEntry};
ghost use Rattle.deed_words.specs.Rules.{broken};
ghost use Rattle.batch_book.specs.Content.{world_in};
ghost use Rattle.serial_pool.specs.declared.drawn.DrawnSerial.{DrawnSerial};
ghost use Rattle.site_rules.specs.Asked.{IsSubject};
ghost use Rattle.request_memo.specs.Memos.{told_by};
ghost use Rattle.site_deeds.specs.DrawEnds.{is_words_fault};
ghost use Rattle.site_deeds.specs.Decisions.{serials_drawn, Decides, IsDecided};
ghost use Rattle.site_deeds.specs.Draws.{drawn_by_plan, MayCommit};
ghost use Rattle.site_deeds.specs.declared.fault.KnownFault.TheVariants.{NotDrawn};
ghost use Rattle.site_core.specs.declared.planned.Planned.{Planned as ThePlanned};
ghost use Rattle.site_core.specs.Adopting.{Fails, FailsEarly, IsStamped};
ghost use Rattle.site_core.specs.Plans.{Plans, IsNext};
ghost use Rattle.deed_words.specs.Happenings.{listed, moved_by};
ghost use Rattle.deed_words.specs.Replies.{reply_to};
ghost use Rattle.deed_words.specs.declared.entry.Entry.{Entry as TheEntry};
ghost use Rattle.move_list.specs.Held.{HasRoom};
ghost use Rattle.move_list.specs.Kept.{kept_of};
ghost use Rattle.site_core.specs.Rooms.{HasRoomFor, HasMoreRoom, FitsIn, IsKnown, IsRoomier};

use crate::keeping::kept_move;
use crate::planned::Planned;
use crate::site::{Site, count_entries, stamp_of_last};
use crate::unlawful::Unlawful;
use deed_words::{Ask, Deed, Entry, Reply, Setup, StationId};
use gs1_keys::{Memory, Serials};
use move_list::{MoveList, Moved};
use outside::Words;
use request_memo::Memo;
use serial_pool::DrawPlan;
use site_deeds::{Decided, KnownFault, PlanFault, decide, decide_known};
use site_rules::Subject;
use std::alloc::Global;

impl Site {
    /// Works out the entry that a request becomes, with its reply, and makes all room that it needs. A rule that the
    /// request breaks is a reply. A draw that breaks none takes words. What the site holds stays as it is.
    ///
    /// The request is proper, of a station of the setup, and has its next number; the stamp is not before the last one,
    /// and not past the year 9999.
    ///
    /// # Errors
    ///
    /// `WordsSpent` exactly where `4 * count + 64` words held fewer new serials than the draw asks for. `WordsFault`
    /// where a word couldn't be had. `Memory` where no memory was found.
    pub fn plan<W: Words>(
        &mut self,
        worker: u8,
        ask: Ask,
        stamp: u64,
        words: &mut W,
    ) -> Result<Planned, PlanFault>
        requires station { ask.station < length self.old.setup.stations }
        requires number { ask.number ≡ length (own ask.station self.old.history) + 1 }
        requires proper { IsProperAsk ask }
        requires stamp { last_stamp self.old.history ≤ stamp }
        requires last { stamp ≤ 253402300799999 }
        ensures plan { Takes (W.words_left words.old) (W.words_left words.new) (λ taken. Plans self.old.setup self.old.history self.old.content worker ask stamp taken result) }
        ensures cause { HasCauseIf (is_words_fault result) (W.word_faults words.old) (W.word_faults words.new) }
        ensures same { (self.new.setup ≡ self.old.setup) × (self.new.history ≡ self.old.history) × (self.new.content ≡ self.old.content) }
        ensures room { IfOk result (λ planned. HasRoomFor self.new (planned ∷ [])) }
        ensures kept { (later : List ThePlanned) → HasRoomFor self.old later → HasRoomFor self.new later }
    {
        let decided = match self.decide(ask.station, &ask.deed, words) {
            Ok(decided) => decided,
            Err(fault) => return Err(fault),
        };
        let Ok(drawn) = drawn_serials(self.alloc, &decided.draw) else {
            return Err(PlanFault::Memory);
        };
        let Ok(moved) = self.kept_move(&ask.deed, &decided.subject, &decided.reply) else {
            return Err(PlanFault::Memory);
        };
        let Ok(()) = self.ready(ask.station, &moved) else {
            return Err(PlanFault::Memory);
        };
        let entry = entry_of(worker, ask, stamp, drawn);
        Ok(planned(entry, decided, moved))
    }

    /// Checks an entry that was read back: it may come next, with the reply that it gets and what it changes, and there
    /// is room for it; or the first reason why it may not. What the site holds stays as it is. The entry is proper.
    ///
    /// # Errors
    ///
    /// `BadStation` where the station isn't of the setup; `BadNumber` with the station's next number where it has
    /// another one; `StampFell` where its stamp is before the last one; `BadDrawn` where it drew otherwise than its deed
    /// does: an accepted draw as many serials as it asks for, of its product's form, new and all different, and any
    /// other entry none; each where none before it holds. `Memory` where no memory was found.
    pub fn adopt(&mut self, entry: Entry) -> Result<Planned, Unlawful>
        requires proper { IsProperEntry entry }
        ensures entry { IfOk result (λ planned. planned.entry ≡ entry) }
        ensures next { IfOk result (λ planned. IsNext self.old.setup self.old.history self.old.content planned) }
        ensures fault { IfErr result (λ fault. Fails self.old.setup self.old.history entry fault) }
        ensures same { (self.new.setup ≡ self.old.setup) × (self.new.history ≡ self.old.history) × (self.new.content ≡ self.old.content) }
        ensures room { IfOk result (λ planned. HasRoomFor self.new (planned ∷ [])) }
        ensures kept { (later : List ThePlanned) → HasRoomFor self.old later → HasRoomFor self.new later }
    {
        if let Some(fault) = self.fault(&entry) {
            return Err(fault);
        }
        let decided = match self.decide_known(&entry) {
            Ok(decided) => decided,
            Err(KnownFault::NotDrawn) => return Err(Unlawful::BadDrawn),
            Err(KnownFault::Memory) => return Err(Unlawful::Memory),
        };
        let Ok(moved) = self.kept_move(&entry.deed, &decided.subject, &decided.reply) else {
            return Err(Unlawful::Memory);
        };
        let Ok(()) = self.ready(entry.station, &moved) else {
            return Err(Unlawful::Memory);
        };
        Ok(planned(entry, decided, moved))
    }

    /// What comes of a deed, and room for it.
    fn decide<W: Words>(
        &mut self,
        station: StationId,
        deed: &Deed,
        words: &mut W,
    ) -> Result<Decided, PlanFault>
        requires proper { IsProperDeed deed.now }
        ensures decides { Takes (W.words_left words.old) (W.words_left words.new) (λ taken. Decides self.old.setup self.old.content station deed.now taken result) }
        ensures cause { HasCauseIf (is_words_fault result) (W.word_faults words.old) (W.word_faults words.new) }
        ensures same { (self.new.setup ≡ self.old.setup) × (self.new.history ≡ self.old.history) × (self.new.content ≡ self.old.content) }
        ensures world { world_in self.old.content ≡ world_of self.old.setup self.old.history }
        ensures room { IfOk result (λ decided. FitsIn self.new.room decided.change decided.draw) }
        ensures kept { IsRoomier self.old.room self.new.room }
    {
        self.tell_kept();
        decide(
            self.alloc,
            &self.setup,
            &mut self.stores,
            &mut self.pool,
            station,
            deed,
            words,
        )
    }

    /// What comes of the deed of an entry that was read back, with what it drew, and room for it.
    fn decide_known(&mut self, entry: &Entry) -> Result<Decided, KnownFault>
        requires proper { IsProperEntry entry.now }
        ensures known { IfOk result (λ decided. IsDecided self.old.setup self.old.content entry.now.station entry.now.deed entry.now.drawn decided) }
        ensures fault { IfErr result (λ fault. fault ≡ NotDrawn → MayDraw self.old.setup (world_of self.old.setup self.old.history) (broken self.old.setup (world_of self.old.setup self.old.history) entry.now.station entry.now.deed) entry.now.deed entry.now.drawn → ⊥) }
        ensures same { (self.new.setup ≡ self.old.setup) × (self.new.history ≡ self.old.history) × (self.new.content ≡ self.old.content) }
        ensures world { world_in self.old.content ≡ world_of self.old.setup self.old.history }
        ensures room { IfOk result (λ decided. FitsIn self.new.room decided.change decided.draw) }
        ensures kept { IsRoomier self.old.room self.new.room }
    {
        self.tell_kept();
        decide_known(
            self.alloc,
            &self.setup,
            &mut self.stores,
            &mut self.pool,
            entry.station,
            &entry.deed,
            &entry.drawn,
        )
    }

    /// The first reason why the entry may not come next, apart from what it drew.
    fn fault(&self, entry: &Entry) -> Option<Unlawful>
        ensures fault { IfSome result (λ fault. Fails self.now.setup self.now.history entry.now fault) }
        ensures none { IfNone result (IsStamped self.now.setup (length (own entry.now.station self.now.history) + 1) (last_stamp self.now.history) entry.now) }
    {
        let _entries = count_entries(&self.kept);
        fault_of(&self.setup, &self.memo, stamp_of_last(&self.kept), entry)
    }

    /// What is kept of the move of the next entry, if it has one: of an entry with this deed that gets this reply. What the
    /// deed is about was found when it was decided.
    ///
    /// # Errors
    ///
    /// `Memory` where no memory was found, or there are 2^32 - 1 entries.
    fn kept_move(
        &self,
        deed: &Deed,
        subject: &Subject,
        reply: &Reply,
    ) -> Result<Option<Moved>, Memory>
        requires subject { IsSubject self.now.content deed.now subject.now }
        ensures few { IfOk result (λ moved. length self.now.history + 1 < 2 ^ 32) }
        ensures moved { IfOk result (λ moved. (entry : TheEntry) → entry.deed ≡ deed.now → reply.now ≡ reply_to self.now.setup (world_of self.now.setup self.now.history) entry
            → map kept_of (moved_by self.now.setup (world_of self.now.setup self.now.history) (length self.now.history) entry (broken self.now.setup (world_of self.now.setup self.now.history) entry.station entry.deed)) ≡ listed moved) }
    {
        let place = count_entries(&self.kept);
        if place >= MOST_ENTRIES {
            return Err(Memory);
        }
        kept_move(self.alloc, &self.stores, place as u32, deed, subject, reply)
    }

    /// Makes room for one more entry of the station, with its move, if it has one.
    fn ready(&mut self, station: StationId, moved: &Option<Moved>) -> Result<(), Memory>
        requires { station < length self.old.setup.stations }
        ensures same { (self.new.setup ≡ self.old.setup) × (self.new.history ≡ self.old.history) × (self.new.content ≡ self.old.content) }
        ensures entries { OnOk result (1 ≤ self.new.room.entries) }
        ensures numbers { OnOk result (1 ≤ slice_index self.new.room.numbers station) }
        ensures moves { OnOk result (HasRoom self.new.room.moves moved.now) }
        ensures kept { IsRoomier self.old.room self.new.room }
    {
        self.memo.ready(station)?;
        ready_move(&mut self.moves, moved)?;
        let Ok(()) = self.kept.reserve(1) else {
            return Err(Memory);
        };
        Ok(())
    }
}

/// How many entries a site has at most: their places and their number are kept in 32 bits.
const MOST_ENTRIES: usize = 0xFFFF_FFFF;

/// Makes room for the move, if there is one.
fn ready_move(moves: &mut MoveList, moved: &Option<Moved>) -> Result<(), Memory>
    ensures same { moves.new.moves ≡ moves.old.moves }
    ensures ok { OnOk result (HasRoom moves.new.room moved.now) }
    ensures kept { HasMoreRoom moves.old.room moves.new.room }
{
    match moved {
        Some(moved) => moves.ready(moved.batch),
        None => Ok(()),
    }
}

/// A copy of the serials that are to be drawn, none where there is no draw.
fn drawn_serials(alloc: Global, draw: &Option<DrawPlan>) -> Result<Serials, Memory>
    ensures { IfOk result (λ drawn. drawn ≡ serials_drawn draw.now) }
{
    match draw {
        Some(plan) => plan.serials().copy(),
        None => Ok(Serials::new(alloc)),
    }
}

/// The entry that the request becomes.
fn entry_of(worker: u8, ask: Ask, stamp: u64, drawn: Serials) -> Entry
    ensures { result ≡ record { station = ask.station; number = ask.number; worker = worker; stamp = stamp; operator = ask.operator; deed = ask.deed; drawn = drawn } }
{
    Entry {
        station: ask.station,
        number: ask.number,
        worker,
        stamp,
        operator: ask.operator,
        deed: ask.deed,
        drawn,
    }
}

/// The entry with what comes of it.
fn planned(entry: Entry, decided: Decided, moved: Option<Moved>) -> Planned
    requires some { IfSome decided.draw (λ plan. 0 < length plan.serials) }
    ensures entry { result.entry ≡ entry }
    ensures reply { result.reply ≡ decided.reply }
    ensures change { result.change ≡ decided.change }
    ensures serials { serials_drawn result.draw ≡ serials_drawn decided.draw }
    ensures drawn { drawn_by_plan result.draw ≡ drawn_by_plan decided.draw }
    ensures may { (pairs : List DrawnSerial) → MayCommit pairs decided.draw → MayCommit pairs result.draw }
    ensures known { (gtins : List Text) → IsKnown gtins decided.draw → IsKnown gtins result.draw }
    ensures some { IfSome result.draw (λ plan. 0 < length plan.serials) }
    ensures moved { result.moved ≡ moved }
{
    Planned {
        entry,
        reply: decided.reply,
        change: decided.change,
        draw: decided.draw,
        moved,
    }
}

/// The first reason why the entry may not come next, apart from what it drew, where the last stamp is this one.
fn fault_of(setup: &Setup, memo: &Memo, last: u64, entry: &Entry) -> Option<Unlawful>
    requires stations { length memo.now.told ≡ length setup.now.stations }
    requires few { length (told_by memo.now.told entry.now.station) + 1 < 2 ^ 64 }
    ensures fault { IfSome result (λ fault. FailsEarly setup.now (length (told_by memo.now.told entry.now.station) + 1) last entry.now fault) }
    ensures none { IfNone result (IsStamped setup.now (length (told_by memo.now.told entry.now.station) + 1) last entry.now) }
{
    if usize::from(entry.station.0) >= setup.stations.len() {
        return Some(Unlawful::BadStation);
    }
    let expected = memo.last(entry.station) + 1;
    if entry.number != expected {
        return Some(Unlawful::BadNumber(expected));
    }
    if entry.stamp < last {
        return Some(Unlawful::StampFell);
    }
    None
}
