//! Deeds on what stands in a unit: things are put in, and some or all are taken out.
ghost use Rattle.std.specs.Prelude.{◌≡◌, ◌≢◌, ◌<◌, None, Some, map, length, IfOk, IsSome};
ghost use Rattle.std.specs.List.{AllByRecursion as Every, IsDistinct, position};
ghost use Rattle.deed_words.specs.Effects.{with_children, without_children, emptied};
ghost use Rattle.deed_words.specs.Names.{Text, same_name};
ghost use Rattle.deed_words.specs.World.{parent, inside};
ghost use Rattle.deed_words.specs.declared.reply.Answer.TheVariants.{Plain, Taken};
ghost use Rattle.pack_tree.specs.Units.{is_coded};
ghost use Rattle.batch_book.specs.Content.{world_in};
ghost use Rattle.site_stores.specs.Holding.{IsWithin};
ghost use Rattle.site_stores.specs.Places.{place_of};
ghost use Rattle.site_deeds.specs.Does.{Does};

use crate::done::{Done, plain};
use deed_words::{Answer, UnitId};
use epc_urn::Epc;
use gs1_keys::Memory;
use pack_tree::Node;
use site_stores::{Change, Nodes, Stores};
use std::alloc::Global;

/// The things at these places.
fn nodes_at(alloc: Global, places: &[Option<Node>]) -> Result<Nodes, Memory>
    requires there { Every (λ place. place ≢ None) places.now }
    ensures { IfOk result (λ nodes. map Some nodes ≡ places.now) }
{
    let mut nodes = Nodes::new(alloc);
    for place in places {
        let Some(node) = *place else { unreachable!() };
        nodes.push(node)?;
    }
    Ok(nodes)
}

/// The children are put into the unit at the place. Where each of them is, is known.
///
/// # Errors
///
/// `Memory` where no memory was found, or 2^64 things were put before.
pub(crate) fn put(
    alloc: Global,
    stores: &Stores,
    unit: UnitId,
    children: &[Epc],
    places: &[Option<Node>],
) -> Result<Done, Memory>
    requires there { unit < length stores.now.content.units }
    requires places { places.now ≡ map (place_of stores.now.content.rows stores.now.content.units) children.now }
    requires once { IsDistinct same_name children.now }
    requires known { Every (λ place. place ≢ None) places.now }
    requires alone { Every (λ child. parent (world_in stores.now.content) child ≡ None) children.now }
    ensures { IfOk result (λ done. (sscc : Text) → position (is_coded sscc) stores.now.content.units ≡ Some unit → Does stores.now done Plain (with_children (world_in stores.now.content) sscc children.now)) }
{
    stores.tell_whole();
    let nodes = nodes_at(alloc, places)?;
    if stores.last_number() > u64::MAX - children.len() as u64 {
        return Err(Memory);
    }
    Ok(plain(Change::Put(unit, nodes)))
}

/// The children are taken out of the unit. Where each of them is, is known.
pub(crate) fn take(
    alloc: Global,
    stores: &mut Stores,
    children: &[Epc],
    places: &[Option<Node>],
) -> Result<Done, Memory>
    requires places { places.now ≡ map (place_of stores.old.content.rows stores.old.content.units) children.now }
    requires once { IsDistinct same_name children.now }
    requires inside { Every (λ child. IsSome (parent (world_in stores.old.content) child)) children.now }
    requires known { Every (λ place. place ≢ None) places.now }
    ensures done { IfOk result (λ done. Does stores.new done Plain (without_children (world_in stores.new.content) children.now)) }
    ensures content { stores.new.content ≡ stores.old.content }
    ensures kept { IsWithin stores.old.room stores.new.room }
{
    stores.tell_whole();
    let nodes = nodes_at(alloc, places)?;
    let gone = stores.try_all(alloc, nodes.as_slice())?;
    Ok(plain(Change::Taken(gone)))
}

/// All that stands in the unit at the place is taken out.
///
/// # Errors
///
/// `Memory` where no memory was found, or 2^32 things stand in the unit.
pub(crate) fn empty(alloc: Global, stores: &mut Stores, unit: UnitId) -> Result<Done, Memory>
    requires there { unit < length stores.old.content.units }
    ensures done { IfOk result (λ done. (sscc : Text) → position (is_coded sscc) stores.old.content.units ≡ Some unit → Does stores.new done (Taken (length (inside (world_in stores.new.content) sscc))) (emptied (world_in stores.new.content) sscc)) }
    ensures content { stores.new.content ≡ stores.old.content }
    ensures kept { IsWithin stores.old.room stores.new.room }
{
    stores.tell_whole();
    let gone = stores.try_empty(alloc, unit)?;
    let count = gone.as_slice().len() as u64;
    if count > u64::from(u32::MAX) {
        return Err(Memory);
    }
    Ok(Done {
        answer: Answer::Taken(count as u32),
        change: Change::Taken(gone),
    })
}
