//! Deeds on one unit: it is made, sealed, opened again, and put out of use.
ghost use Rattle.std.specs.Prelude.{◌≡◌, ◌≤◌, ◌<◌, ◌+◌, Some, IfOk, length};
ghost use Rattle.std.specs.List.{position};
ghost use Rattle.deed_words.specs.Effects.{with_mark, with_unit};
ghost use Rattle.deed_words.specs.Names.{Text};
ghost use Rattle.deed_words.specs.Setups.{code_of, reference_bound};
ghost use Rattle.deed_words.specs.Sound.{IsSound};
ghost use Rattle.deed_words.specs.declared.reply.Answer.TheVariants.{Plain, Made};
ghost use Rattle.pack_tree.specs.Units.{is_coded};
ghost use Rattle.batch_book.specs.Batches.{is_called};
ghost use Rattle.batch_book.specs.Content.{world_in};
ghost use Rattle.site_stores.specs.Holding.{IsWithin};
ghost use Rattle.site_deeds.specs.Does.{Does};

use crate::done::{Done, plain};
use deed_words::{Answer, BatchId, Level, Mark, Setup, UnitId};
use gs1_keys::{Memory, Sscc};
use site_stores::{Change, Stores};

/// The unit at the place has this mark from now on.
pub(crate) fn to_mark(stores: &Stores, unit: UnitId, mark: Mark) -> Done
    requires there { unit < length stores.now.content.units }
    ensures { (sscc : Text) → position (is_coded sscc) stores.now.content.units ≡ Some unit → Does stores.now result Plain (with_mark (world_in stores.now.content) mark sscc) }
{
    stores.tell_whole();
    let old = stores.unit_at(unit).mark;
    plain(Change::Marked(unit, old, mark))
}

/// The code of the unit of this place.
#[tactic(auto, unfolding(deed_words::specs::Setups::code_of, deed_words::specs::Setups::reference_bound))]
fn code_at(setup: &Setup, place: u32) -> Sscc
    requires { setup.now.reference + place < reference_bound setup.now }
    ensures { result ≡ code_of setup.now place }
{
    setup.tell_proper();
    Sscc::issue(
        &setup.prefix,
        setup.extension,
        setup.reference + u64::from(place),
    )
}

/// An empty unit is made for the batch at the place.
pub(crate) fn make(
    stores: &mut Stores,
    setup: &Setup,
    batch: BatchId,
    level: Level,
) -> Result<Done, Memory>
    requires there { batch < length stores.old.content.batches }
    requires sound { IsSound setup.now (world_in stores.old.content) }
    requires some { length (world_in stores.old.content).units < 65536 }
    requires unspent { setup.now.reference + length (world_in stores.old.content).units < reference_bound setup.now }
    ensures done { IfOk result (λ done. (name : Text) → position (is_called name) stores.old.content.batches ≡ Some batch → Does stores.new done (Made (code_of setup.now (length (world_in stores.new.content).units))) (with_unit setup.now (world_in stores.new.content) name level)) }
    ensures content { stores.new.content ≡ stores.old.content }
    ensures kept { IsWithin stores.old.room stores.new.room }
{
    stores.ready(0, 0, 0, 1)?;
    stores.tell_whole();
    let sscc = code_at(setup, stores.unit_count());
    Ok(Done {
        answer: Answer::Made(sscc),
        change: Change::Made(sscc, batch, level),
    })
}
