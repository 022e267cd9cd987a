//! What an accepted deed is told, and what it changes: each deed by its kind.
ghost use Rattle.std.specs.Prelude.{◌≡◌, ◌≢◌, None, Some, [], IfOk, false};
ghost use Rattle.deed_words.specs.Proper.{IsProperDeed};
ghost use Rattle.deed_words.specs.Rules.{broken};
ghost use Rattle.deed_words.specs.Sound.{IsSound};
ghost use Rattle.batch_book.specs.Content.{world_in};
ghost use Rattle.site_rules.specs.Asked.{IsFound};
ghost use Rattle.site_rules.specs.Suits.{is_draw};
ghost use Rattle.site_stores.specs.Holding.{IsWithin};
ghost use Rattle.site_deeds.specs.Does.{DoesDeed};

use crate::batches::{amend, declare, to_phase};
use crate::done::Done;
use crate::lending::lend;
use crate::moving::move_rows;
use crate::ordering::order;
use crate::packing::{empty, put, take};
use crate::units::{make, to_mark};
use deed_words::{BatchId, Deed, Mark, Phase, Setup, StationId, UnitId};
use gs1_keys::Memory;
use site_rules::Found;
use site_stores::Stores;
use std::alloc::Global;
use std::slice::from_ref;

/// The place of the unit that the deed names, which is there.
fn unit_found(found: &Found) -> UnitId
    requires there { found.now.unit ≢ None }
    ensures { found.now.unit ≡ Some result }
{
    let Some(unit) = found.unit else {
        unreachable!()
    };
    unit
}

/// The place of the batch that the deed is about, which is there.
pub(crate) fn batch_found(found: &Found) -> BatchId
    requires there { found.now.batch ≢ None }
    ensures { found.now.batch ≡ Some result }
{
    let Some(batch) = found.batch else {
        unreachable!()
    };
    batch
}

/// What a deed that breaks no rule is told and changes; for a draw `draw` does the same. What its names stand for was
/// found when its rules were tried.
pub(crate) fn do_deed(
    alloc: Global,
    setup: &Setup,
    stores: &mut Stores,
    station: StationId,
    deed: &Deed,
    found: &Found,
) -> Result<Done, Memory>
    requires proper { IsProperDeed deed.now }
    requires sound { IsSound setup.now (world_in stores.old.content) }
    requires allowed { broken setup.now (world_in stores.old.content) station deed.now ≡ None }
    requires found { IsFound stores.old.content deed.now found.now }
    requires other { is_draw deed.now ≡ false }
    ensures done { IfOk result (λ done. DoesDeed setup.now stores.new station deed.now [] done) }
    ensures content { stores.new.content ≡ stores.old.content }
    ensures kept { IsWithin stores.old.room stores.new.room }
{
    stores.tell_whole();
    let places = found.places.as_slice();
    let origins = found.origins.as_slice();
    match deed {
        Deed::Order(row) => order(alloc, stores, from_ref(row), origins),
        Deed::Orders(rows) => order(alloc, stores, rows.as_slice(), origins),
        Deed::Start(_) => Ok(to_phase(stores, batch_found(found), Phase::Started)),
        Deed::Draw(_, _) => unreachable!(),
        Deed::Lend(_, count) => lend(alloc, stores, station, batch_found(found), *count),
        Deed::Commission(_, _)
        | Deed::Spoil(_, _)
        | Deed::Giveback(_, _)
        | Deed::Sample(_, _)
        | Deed::Reject(_, _)
        | Deed::Reinstate(_, _)
        | Deed::Destroy(_, _)
        | Deed::Decommission(_, _) => move_rows(alloc, stores, deed, places),
        Deed::Container(_, level) => make(stores, setup, batch_found(found), *level),
        Deed::Pack(_, children) => {
            let unit = unit_found(found);
            put(alloc, stores, unit, children.as_slice(), places)
        }
        Deed::Unpack(_, children) => take(alloc, stores, children.as_slice(), places),
        Deed::UnpackAll(_) => empty(alloc, stores, unit_found(found)),
        Deed::Seal(_) => Ok(to_mark(stores, unit_found(found), Mark::Sealed)),
        Deed::Unseal(_) => Ok(to_mark(stores, unit_found(found), Mark::Filling)),
        Deed::Void(_) => Ok(to_mark(stores, unit_found(found), Mark::Void)),
        Deed::Declare(_, good, spoiled, returned) => {
            let batch = batch_found(found);
            declare(stores, station, batch, *good, *spoiled, *returned)
        }
        Deed::Close(_) => Ok(to_phase(stores, batch_found(found), Phase::Closed)),
        Deed::Amend(_, quantity) => Ok(amend(stores, batch_found(found), *quantity)),
    }
}
