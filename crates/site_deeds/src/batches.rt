//! Deeds on one batch: it is started, amended and closed, and a line declares its serials.
ghost use Rattle.std.specs.Prelude.{◌≡◌, ◌≢◌, ◌<◌, ◌≤◌, ◌∷◌, [], Some, IfOk, length};
ghost use Rattle.std.specs.List.{position, slice_get};
ghost use Rattle.deed_words.specs.Effects.{with_phase, with_quantity, with_declaration};
ghost use Rattle.deed_words.specs.Names.{Text};
ghost use Rattle.deed_words.specs.declared.reply.Answer.TheVariants.{Plain};
ghost use Rattle.deed_words.specs.declared.words.Phase.TheVariants.{Started, Closed};
ghost use Rattle.deed_words.specs.declared.world.Batch.{Batch as TheBatch};
ghost use Rattle.batch_book.specs.Batches.{is_called};
ghost use Rattle.batch_book.specs.Content.{world_in};
ghost use Rattle.site_stores.specs.Holding.{IsWithin};
ghost use Rattle.site_deeds.specs.Does.{Does};

use crate::done::{Done, plain};
use deed_words::{BatchId, Phase, StationId};
use gs1_keys::Memory;
use site_stores::{Change, Stores};

/// The batch at the place is in this phase from now on.
pub(crate) fn to_phase(stores: &Stores, batch: BatchId, phase: Phase) -> Done
    requires there { batch < length stores.now.content.batches }
    ensures { (name : Text) → position (is_called name) stores.now.content.batches ≡ Some batch → Does stores.now result Plain (with_phase (world_in stores.now.content) phase name) }
{
    stores.tell_whole();
    let old = stores.batch_at(batch).phase;
    plain(Change::Phased(batch, old, phase))
}

/// The batch at the place is of so many items from now on.
pub(crate) fn amend(stores: &Stores, batch: BatchId, quantity: u32) -> Done
    requires there { batch < length stores.now.content.batches }
    requires working { (kept : TheBatch) → slice_get stores.now.content.batches batch ≡ Some kept → kept.phase ≢ Closed }
    ensures { (name : Text) → position (is_called name) stores.now.content.batches ≡ Some batch → Does stores.now result Plain (with_quantity (world_in stores.now.content) quantity name) }
{
    stores.tell_whole();
    let old = stores.batch_at(batch).quantity;
    plain(Change::Amended(batch, old, quantity))
}

/// The line declares so many serials of the batch at the place: good, spoiled and returned.
pub(crate) fn declare(
    stores: &mut Stores,
    line: StationId,
    batch: BatchId,
    good: u32,
    spoiled: u32,
    returned: u32,
) -> Result<Done, Memory>
    requires there { batch < length stores.old.content.batches }
    requires started { (kept : TheBatch) → slice_get stores.old.content.batches batch ≡ Some kept → kept.phase ≡ Started }
    requires batches { length stores.old.content.batches ≤ 4096 }
    requires rows { length stores.old.content.rows ≤ 1000000 }
    requires units { length stores.old.content.units ≤ 65536 }
    ensures done { IfOk result (λ done. (name : Text) → position (is_called name) stores.old.content.batches ≡ Some batch → Does stores.new done Plain (with_declaration (world_in stores.new.content) (record { batch = name; line = line; good = good; spoiled = spoiled; returned = returned }))) }
    ensures content { stores.new.content ≡ stores.old.content }
    ensures kept { IsWithin stores.old.room stores.new.room }
{
    stores.ready(0, 1, 0, 0)?;
    stores.tell_whole();
    Ok(plain(Change::Said(batch, line, [good, spoiled, returned])))
}
