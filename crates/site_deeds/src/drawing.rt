//! Serials that are drawn for a batch.
ghost use Rattle.std.specs.Prelude.{◌≡◌, ◌≤◌, ◌+◌, ◌^◌, ◌<◌, None, Some, true, length, IfOk, IfErr, map};
ghost use Rattle.std.specs.List.{position};
ghost use Rattle.outside.specs.Causes.{HasCauseIf};
ghost use Rattle.outside.specs.Devices.{Takes};
ghost use Rattle.gs1_keys.specs.Forms.{is_among, AreNew};
ghost use Rattle.gs1_keys.specs.declared.form.SerialForm.{SerialForm as TheForm};
ghost use Rattle.serial_pool.specs.Held.{IsPlanFor, HasRoomFor, drawn_count};
ghost use Rattle.deed_words.specs.Effects.{gtin_of, with_drawn};
ghost use Rattle.deed_words.specs.History.{AreNewFor, serials_of};
ghost use Rattle.deed_words.specs.Rules.{broken};
ghost use Rattle.deed_words.specs.declared.deed.Deed.TheVariants.{Draw};
ghost use Rattle.deed_words.specs.declared.reply.Answer.TheVariants.{Listed};
ghost use Rattle.batch_book.specs.Batches.{is_called};
ghost use Rattle.batch_book.specs.Content.{world_in};
ghost use Rattle.site_stores.specs.Holding.{IsWithin};
ghost use Rattle.site_deeds.specs.Does.{Does};
ghost use Rattle.site_deeds.specs.DrawEnds.{DrawEnds, is_words_fault};
ghost use Rattle.site_deeds.specs.Draws.{drawn_in};
ghost use Rattle.site_deeds.specs.declared.fault.KnownFault.TheVariants as known;

use crate::done::Done;
use crate::fault::{KnownFault, PlanFault};
use deed_words::{Answer, BatchId, Setup, StationId};
use gs1_keys::{Memory, Serials, Text20};
use outside::Words;
use serial_pool::{DrawFault, DrawPlan, KnownFault as NotKnown, Pool};
use site_stores::{Change, Stores};

/// Plans the serials of a draw that breaks no rule. The place of its batch is known.
pub(crate) fn plan_serials<W: Words>(
    setup: &Setup,
    stores: &Stores,
    pool: &mut Pool,
    station: StationId,
    name: &Text20,
    batch: BatchId,
    count: u32,
    words: &mut W,
) -> Result<DrawPlan, PlanFault>
    requires allowed { broken setup.now (world_in stores.now.content) station (Draw name.now count) ≡ None }
    requires place { position (is_called name.now) stores.now.content.batches ≡ Some batch }
    requires pool { pool.old.drawn ≡ drawn_in (world_in stores.now.content) }
    ensures draw { Takes (W.words_left words.old) (W.words_left words.new) (λ taken. DrawEnds setup.now (world_in stores.now.content) name.now count taken result) }
    ensures cause { HasCauseIf (is_words_fault result) (W.word_faults words.old) (W.word_faults words.new) }
    ensures new { IfOk result (λ plan. AreNewFor setup.now (world_in stores.now.content) (gtin_of (world_in stores.now.content) name.now) count plan.serials) }
    ensures gtin { IfOk result (λ plan. plan.gtin ≡ gtin_of (world_in stores.now.content) name.now) }
    ensures made_for { IfOk result (λ plan. IsPlanFor pool.new.drawn plan) }
    ensures room { IfOk result (λ plan. HasRoomFor pool.new plan) }
    ensures drawn { pool.new.drawn ≡ pool.old.drawn }
    ensures kept { pool.old.room ≤ pool.new.room }
    ensures still { (gtin : _) → is_among pool.old.gtins gtin ≡ true → is_among pool.new.gtins gtin ≡ true }
{
    let order = stores.batch_at(batch).order;
    let Some(product) = setup.product(&order.gtin) else {
        unreachable!()
    };
    match pool.plan_draw(&order.gtin, &product.form, words, count) {
        Ok(plan) => Ok(plan),
        Err(DrawFault::PoolThin(_, _, _)) => unreachable!(),
        Err(DrawFault::WordsSpent(found)) => Err(PlanFault::WordsSpent(found)),
        Err(DrawFault::WordsFault) => Err(PlanFault::WordsFault),
        Err(DrawFault::Memory) => Err(PlanFault::Memory),
    }
}

/// Plans serials that were read back for a draw that breaks no rule. The place of its batch is known.
pub(crate) fn plan_known(
    setup: &Setup,
    stores: &Stores,
    pool: &mut Pool,
    station: StationId,
    name: &Text20,
    batch: BatchId,
    count: u32,
    drawn: &Serials,
) -> Result<DrawPlan, KnownFault>
    requires allowed { broken setup.now (world_in stores.now.content) station (Draw name.now count) ≡ None }
    requires place { position (is_called name.now) stores.now.content.batches ≡ Some batch }
    requires pool { pool.old.drawn ≡ drawn_in (world_in stores.now.content) }
    ensures new { IfOk result (λ plan. AreNewFor setup.now (world_in stores.now.content) (gtin_of (world_in stores.now.content) name.now) count plan.serials) }
    ensures known { IfOk result (λ plan. plan.serials ≡ drawn.now) }
    ensures gtin { IfOk result (λ plan. plan.gtin ≡ gtin_of (world_in stores.now.content) name.now) }
    ensures made_for { IfOk result (λ plan. IsPlanFor pool.new.drawn plan) }
    ensures room { IfOk result (λ plan. HasRoomFor pool.new plan) }
    ensures fault { IfErr result (λ fault. fault ≡ known.NotDrawn → AreNewFor setup.now (world_in stores.now.content) (gtin_of (world_in stores.now.content) name.now) count drawn.now → ⊥) }
    ensures drawn { pool.new.drawn ≡ pool.old.drawn }
    ensures kept { pool.old.room ≤ pool.new.room }
    ensures still { (gtin : _) → is_among pool.old.gtins gtin ≡ true → is_among pool.new.gtins gtin ≡ true }
{
    if drawn.len() as u64 != u64::from(count) {
        return Err(KnownFault::NotDrawn);
    }
    let order = stores.batch_at(batch).order;
    let Some(product) = setup.product(&order.gtin) else {
        unreachable!()
    };
    match pool.plan_known(&order.gtin, &product.form, drawn) {
        Ok(plan) => Ok(plan),
        Err(NotKnown::NotNew(_)) => Err(KnownFault::NotDrawn),
        Err(NotKnown::Memory) => Err(KnownFault::Memory),
    }
}

/// These serials are drawn for the batch of the name, whose place is known. They are new for its GTIN, and of its
/// product's form.
pub(crate) fn draw(
    stores: &mut Stores,
    name: &Text20,
    batch: BatchId,
    serials: &Serials,
) -> Result<Done, Memory>
    requires place { position (is_called name.now) stores.old.content.batches ≡ Some batch }
    requires new { (form : TheForm) × AreNew (serials_of (world_in stores.old.content) (gtin_of (world_in stores.old.content) name.now)) form serials.now }
    requires rows { length stores.old.content.rows + length serials.now ≤ 1000000 }
    requires batches { length stores.old.content.batches ≤ 4096 }
    requires units { length stores.old.content.units ≤ 65536 }
    ensures done { IfOk result (λ done. Does stores.new done (Listed serials.now) (with_drawn (world_in stores.new.content) name.now serials.now)) }
    ensures content { stores.new.content ≡ stores.old.content }
    ensures kept { IsWithin stores.old.room stores.new.room }
{
    stores.ready(0, 0, serials.len() as u32, 0)?;
    stores.tell_whole();
    let gtin = stores.batch_at(batch).order.gtin;
    let told = serials.copy()?;
    let drawn = serials.copy()?;
    Ok(Done {
        answer: Answer::Listed(told),
        change: Change::Drawn(batch, gtin, drawn),
    })
}
