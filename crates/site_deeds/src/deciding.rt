//! What comes of a deed.
ghost use Rattle.std.specs.Prelude.{◌≡◌, ◌≤◌, [], None, Some, true, false, IfOk, IfErr};
ghost use Rattle.std.specs.List.{position};
ghost use Rattle.outside.specs.Causes.{HasCauseIf};
ghost use Rattle.outside.specs.Devices.{Takes};
ghost use Rattle.gs1_keys.specs.Forms.{is_among};
ghost use Rattle.deed_words.specs.Effects.{gtin_of};
ghost use Rattle.deed_words.specs.History.{AreNewFor, MayDraw};
ghost use Rattle.deed_words.specs.Proper.{IsProperDeed};
ghost use Rattle.deed_words.specs.Rules.{broken};
ghost use Rattle.deed_words.specs.Sound.{IsSound};
ghost use Rattle.deed_words.specs.declared.deed.Deed.TheVariants.{Draw};
ghost use Rattle.deed_words.specs.declared.reply.Reply.TheVariants.{Accepted, Refused};
ghost use Rattle.serial_pool.specs.Held.{IsPlanFor};
ghost use Rattle.batch_book.specs.Batches.{is_called};
ghost use Rattle.batch_book.specs.Content.{world_in};
ghost use Rattle.site_rules.specs.Asked.{IsFound};
ghost use Rattle.site_rules.specs.Suits.{is_draw};
ghost use Rattle.site_stores.specs.Changes.{room_for};
ghost use Rattle.site_stores.specs.Holding.{IsWithin};
ghost use Rattle.site_stores.specs.declared.change.Change.TheVariants.{Nothing};
ghost use Rattle.site_deeds.specs.Decisions.{Decides, IsDecided};
ghost use Rattle.site_deeds.specs.DrawEnds.{is_words_fault};
ghost use Rattle.site_deeds.specs.Draws.{drawn_in, HasRoomToDraw};
ghost use Rattle.site_deeds.specs.declared.fault.KnownFault.TheVariants as known;

use crate::decided::Decided;
use crate::doing::{batch_found, do_deed};
use crate::done::Done;
use crate::drawing::{draw, plan_known, plan_serials};
use crate::fault::{KnownFault, PlanFault};
use crate::judging::{Judged, judge};
use deed_words::{BatchId, Deed, Reply, Rule, Setup, StationId};
use gs1_keys::{Memory, Serials, Text20};
use outside::Words;
use serial_pool::{DrawPlan, Pool};
use site_rules::{Found, Subject};
use site_stores::{Change, Stores};
use std::alloc::Global;

/// A deed that breaks the rule: it changes nothing.
fn refused(rule: Rule, subject: Subject) -> Decided
    ensures reply { result.reply ≡ Refused rule }
    ensures subject { result.subject ≡ subject }
    ensures change { result.change ≡ Nothing }
    ensures draw { result.draw ≡ None }
{
    Decided {
        reply: Reply::Refused(rule),
        subject,
        change: Change::Nothing,
        draw: None,
    }
}

/// A deed that is done.
fn accepted(done: Done, subject: Subject, draw: Option<DrawPlan>) -> Decided
    ensures reply { result.reply ≡ Accepted done.answer }
    ensures subject { result.subject ≡ subject }
    ensures change { result.change ≡ done.change }
    ensures draw { result.draw ≡ draw }
{
    Decided {
        reply: Reply::Accepted(done.answer),
        subject,
        change: done.change,
        draw,
    }
}

/// What the deed is about, of what was found of its names.
fn subject_in(found: &Found) -> Subject
    ensures unit { result.unit ≡ found.now.unit }
    ensures batch { result.batch ≡ found.now.batch }
{
    Subject {
        unit: found.unit,
        batch: found.batch,
    }
}

/// What comes of a deed that breaks no rule, and draws nothing.
fn decide_other(
    alloc: Global,
    setup: &Setup,
    stores: &mut Stores,
    station: StationId,
    deed: &Deed,
    found: &Found,
) -> Result<Decided, Memory>
    requires proper { IsProperDeed deed.now }
    requires sound { IsSound setup.now (world_in stores.old.content) }
    requires allowed { broken setup.now (world_in stores.old.content) station deed.now ≡ None }
    requires found { IsFound stores.old.content deed.now found.now }
    requires other { is_draw deed.now ≡ false }
    ensures decided { IfOk result (λ decided. IsDecided setup.now stores.old.content station deed.now [] decided) }
    ensures draw { IfOk result (λ decided. decided.draw ≡ None) }
    ensures content { stores.new.content ≡ stores.old.content }
    ensures kept { IsWithin stores.old.room stores.new.room }
    ensures room { IfOk result (λ decided. IsWithin (room_for decided.change) stores.new.room) }
{
    let done = do_deed(alloc, setup, stores, station, deed, found)?;
    Ok(accepted(done, subject_in(found), None))
}

/// What comes of a draw that breaks no rule, with this plan. The place of its batch is known.
fn decide_planned(
    setup: &Setup,
    stores: &mut Stores,
    station: StationId,
    name: &Text20,
    batch: BatchId,
    count: u32,
    plan: DrawPlan,
) -> Result<Decided, Memory>
    requires allowed { broken setup.now (world_in stores.old.content) station (Draw name.now count) ≡ None }
    requires place { position (is_called name.now) stores.old.content.batches ≡ Some batch }
    requires sound { IsSound setup.now (world_in stores.old.content) }
    requires new { AreNewFor setup.now (world_in stores.old.content) (gtin_of (world_in stores.old.content) name.now) count plan.serials }
    requires gtin { plan.gtin ≡ gtin_of (world_in stores.old.content) name.now }
    requires made_for { IsPlanFor (drawn_in (world_in stores.old.content)) plan }
    ensures decided { IfOk result (λ decided. IsDecided setup.now stores.old.content station (Draw name.now count) plan.serials decided) }
    ensures draw { IfOk result (λ decided. decided.draw ≡ Some plan) }
    ensures content { stores.new.content ≡ stores.old.content }
    ensures kept { IsWithin stores.old.room stores.new.room }
    ensures room { IfOk result (λ decided. IsWithin (room_for decided.change) stores.new.room) }
{
    let done = draw(stores, name, batch, plan.serials())?;
    let subject = Subject {
        unit: None,
        batch: Some(batch),
    };
    Ok(accepted(done, subject, Some(plan)))
}

/// What comes of a draw that breaks no rule. The place of its batch is known.
fn decide_draw<W: Words>(
    setup: &Setup,
    stores: &mut Stores,
    pool: &mut Pool,
    station: StationId,
    name: &Text20,
    batch: BatchId,
    count: u32,
    words: &mut W,
) -> Result<Decided, PlanFault>
    requires allowed { broken setup.now (world_in stores.old.content) station (Draw name.now count) ≡ None }
    requires place { position (is_called name.now) stores.old.content.batches ≡ Some batch }
    requires sound { IsSound setup.now (world_in stores.old.content) }
    requires pool { pool.old.drawn ≡ drawn_in (world_in stores.old.content) }
    ensures decides { Takes (W.words_left words.old) (W.words_left words.new) (λ taken. Decides setup.now stores.old.content station (Draw name.now count) taken result) }
    ensures cause { HasCauseIf (is_words_fault result) (W.word_faults words.old) (W.word_faults words.new) }
    ensures content { stores.new.content ≡ stores.old.content }
    ensures kept { IsWithin stores.old.room stores.new.room }
    ensures room { IfOk result (λ decided. IsWithin (room_for decided.change) stores.new.room) }
    ensures drawn { pool.new.drawn ≡ pool.old.drawn }
    ensures draw_room { IfOk result (λ decided. HasRoomToDraw pool.new decided.draw) }
    ensures pool_kept { pool.old.room ≤ pool.new.room }
    ensures still { (gtin : _) → is_among pool.old.gtins gtin ≡ true → is_among pool.new.gtins gtin ≡ true }
{
    let plan = match plan_serials(setup, stores, pool, station, name, batch, count, words) {
        Ok(plan) => plan,
        Err(fault) => return Err(fault),
    };
    match decide_planned(setup, stores, station, name, batch, count, plan) {
        Ok(decided) => Ok(decided),
        Err(_) => Err(PlanFault::Memory),
    }
}

/// What comes of a deed of this station at a site that holds these stores, and what the pool draws for it. The stores
/// and the pool stay as they are, and have room for it: to make the change and to draw takes no memory.
///
/// # Errors
///
/// `WordsFault` where a random word couldn't be had, `WordsSpent` where all the words that a draw may take held too few
/// new serials, both for a draw alone. `Memory` where no memory was found, or a count passes what is kept of it: 2^64
/// things that were put into units, 2^32 things that stand in one.
pub fn decide<W: Words>(
    alloc: Global,
    setup: &Setup,
    stores: &mut Stores,
    pool: &mut Pool,
    station: StationId,
    deed: &Deed,
    words: &mut W,
) -> Result<Decided, PlanFault>
    requires proper { IsProperDeed deed.now }
    requires sound { IsSound setup.now (world_in stores.old.content) }
    requires pool { pool.old.drawn ≡ drawn_in (world_in stores.old.content) }
    ensures decides { Takes (W.words_left words.old) (W.words_left words.new) (λ taken. Decides setup.now stores.old.content station deed.now taken result) }
    ensures cause { HasCauseIf (is_words_fault result) (W.word_faults words.old) (W.word_faults words.new) }
    ensures content { stores.new.content ≡ stores.old.content }
    ensures kept { IsWithin stores.old.room stores.new.room }
    ensures room { IfOk result (λ decided. IsWithin (room_for decided.change) stores.new.room) }
    ensures drawn { pool.new.drawn ≡ pool.old.drawn }
    ensures draw_room { IfOk result (λ decided. HasRoomToDraw pool.new decided.draw) }
    ensures pool_kept { pool.old.room ≤ pool.new.room }
    ensures still { (gtin : _) → is_among pool.old.gtins gtin ≡ true → is_among pool.new.gtins gtin ≡ true }
{
    stores.tell_whole();
    let found = match judge(alloc, setup, stores, pool, station, deed) {
        Ok(Judged::Allowed(found)) => found,
        Ok(Judged::Breaks(rule, subject)) => return Ok(refused(rule, subject)),
        Err(_) => return Err(PlanFault::Memory),
    };
    if let Deed::Draw(name, count) = deed {
        let batch = batch_found(&found);
        return decide_draw(setup, stores, pool, station, name, batch, *count, words);
    }
    match decide_other(alloc, setup, stores, station, deed, &found) {
        Ok(decided) => Ok(decided),
        Err(_) => Err(PlanFault::Memory),
    }
}

/// What comes of a draw that breaks no rule, with serials that were read back. The place of its batch is known.
fn decide_known_draw(
    setup: &Setup,
    stores: &mut Stores,
    pool: &mut Pool,
    station: StationId,
    name: &Text20,
    batch: BatchId,
    count: u32,
    drawn: &Serials,
) -> Result<Decided, KnownFault>
    requires allowed { broken setup.now (world_in stores.old.content) station (Draw name.now count) ≡ None }
    requires place { position (is_called name.now) stores.old.content.batches ≡ Some batch }
    requires sound { IsSound setup.now (world_in stores.old.content) }
    requires pool { pool.old.drawn ≡ drawn_in (world_in stores.old.content) }
    ensures known { IfOk result (λ decided. IsDecided setup.now stores.old.content station (Draw name.now count) drawn.now decided) }
    ensures fault { IfErr result (λ fault. fault ≡ known.NotDrawn → MayDraw setup.now (world_in stores.old.content) (broken setup.now (world_in stores.old.content) station (Draw name.now count)) (Draw name.now count) drawn.now → ⊥) }
    ensures content { stores.new.content ≡ stores.old.content }
    ensures kept { IsWithin stores.old.room stores.new.room }
    ensures room { IfOk result (λ decided. IsWithin (room_for decided.change) stores.new.room) }
    ensures drawn { pool.new.drawn ≡ pool.old.drawn }
    ensures draw_room { IfOk result (λ decided. HasRoomToDraw pool.new decided.draw) }
    ensures pool_kept { pool.old.room ≤ pool.new.room }
    ensures still { (gtin : _) → is_among pool.old.gtins gtin ≡ true → is_among pool.new.gtins gtin ≡ true }
{
    let plan = match plan_known(setup, stores, pool, station, name, batch, count, drawn) {
        Ok(plan) => plan,
        Err(fault) => return Err(fault),
    };
    match decide_planned(setup, stores, station, name, batch, count, plan) {
        Ok(decided) => Ok(decided),
        Err(_) => Err(KnownFault::Memory),
    }
}

/// What comes of a deed, as `decide` tells it, with serials that were read back, as from a journal.
///
/// # Errors
///
/// `NotDrawn` where the deed can't have drawn these serials: a draw those alone that are new for its GTIN, of its form
/// and as many as it asks for, any other deed none. `Memory` where no memory was found.
pub fn decide_known(
    alloc: Global,
    setup: &Setup,
    stores: &mut Stores,
    pool: &mut Pool,
    station: StationId,
    deed: &Deed,
    drawn: &Serials,
) -> Result<Decided, KnownFault>
    requires proper { IsProperDeed deed.now }
    requires sound { IsSound setup.now (world_in stores.old.content) }
    requires pool { pool.old.drawn ≡ drawn_in (world_in stores.old.content) }
    ensures known { IfOk result (λ decided. IsDecided setup.now stores.old.content station deed.now drawn.now decided) }
    ensures fault { IfErr result (λ fault. fault ≡ known.NotDrawn → MayDraw setup.now (world_in stores.old.content) (broken setup.now (world_in stores.old.content) station deed.now) deed.now drawn.now → ⊥) }
    ensures content { stores.new.content ≡ stores.old.content }
    ensures kept { IsWithin stores.old.room stores.new.room }
    ensures room { IfOk result (λ decided. IsWithin (room_for decided.change) stores.new.room) }
    ensures drawn { pool.new.drawn ≡ pool.old.drawn }
    ensures draw_room { IfOk result (λ decided. HasRoomToDraw pool.new decided.draw) }
    ensures pool_kept { pool.old.room ≤ pool.new.room }
    ensures still { (gtin : _) → is_among pool.old.gtins gtin ≡ true → is_among pool.new.gtins gtin ≡ true }
{
    stores.tell_whole();
    let found = match judge(alloc, setup, stores, pool, station, deed) {
        Ok(Judged::Allowed(found)) => found,
        Ok(Judged::Breaks(rule, subject)) => {
            if !drawn.is_empty() {
                return Err(KnownFault::NotDrawn);
            }
            return Ok(refused(rule, subject));
        }
        Err(_) => return Err(KnownFault::Memory),
    };
    if let Deed::Draw(name, count) = deed {
        let batch = batch_found(&found);
        return decide_known_draw(setup, stores, pool, station, name, batch, *count, drawn);
    }
    if !drawn.is_empty() {
        return Err(KnownFault::NotDrawn);
    }
    match decide_other(alloc, setup, stores, station, deed, &found) {
        Ok(decided) => Ok(decided),
        Err(_) => Err(KnownFault::Memory),
    }
}
