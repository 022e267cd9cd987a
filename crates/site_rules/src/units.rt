//! The rules on the unit that a deed names.
ghost use Rattle.std.specs.Prelude.{◌≡◌, ◌+◌, ◌<◌, ◌^◌, true, length};
ghost use Rattle.deed_words.specs.Deeds.{unit_named, named};
ghost use Rattle.deed_words.specs.World.{inside};
ghost use Rattle.deed_words.specs.Tests.{unknown_unit, unit_void, unit_sealed, unit_not_sealed, room_of, over, unit_full, unit_not_empty, nothing_inside};
ghost use Rattle.batch_book.specs.Content.{world_in};
ghost use Rattle.site_rules.specs.Asked.{IsAsked};
ghost use Rattle.site_rules.specs.Suits.{names_unit};

use crate::asked::Asked;
use crate::batches::{batch_for, unit_for};
use deed_words::{Batch, Container, Level, Mark, Rule};

/// There is no such unit.
#[tactic(auto, unfolding(deed_words::specs::Tests::unknown_unit, deed_words::specs::Chain::when))]
pub(crate) fn unknown_unit(asked: &Asked) -> Option<Rule>
    requires unit { names_unit asked.now.deed.now ≡ true }
    requires asked { IsAsked asked.now.stores.now.content asked.now.deed.now asked.now.names.now asked.now.found asked.now.repeat }
    ensures { result ≡ unknown_unit asked.now.setup.now (world_in asked.now.stores.now.content) asked.now.station asked.now.deed.now }
{
    let Some(_) = unit_for(asked) else {
        return Some(Rule::UnknownUnit);
    };
    None
}

/// The unit is void.
#[tactic(auto, unfolding(deed_words::specs::Tests::unit_void, deed_words::specs::Moves::is_void, deed_words::specs::Chain::holds_of, deed_words::specs::Chain::when))]
pub(crate) fn unit_void(asked: &Asked) -> Option<Rule>
    requires unit { names_unit asked.now.deed.now ≡ true }
    requires asked { IsAsked asked.now.stores.now.content asked.now.deed.now asked.now.names.now asked.now.found asked.now.repeat }
    ensures { result ≡ unit_void asked.now.setup.now (world_in asked.now.stores.now.content) asked.now.station asked.now.deed.now }
{
    let Some(unit) = unit_for(asked) else {
        return None;
    };
    match unit.mark {
        Mark::Filling => None,
        Mark::Sealed => None,
        Mark::Void => Some(Rule::UnitVoid),
    }
}

/// The unit is sealed.
#[tactic(auto, unfolding(deed_words::specs::Tests::unit_sealed, deed_words::specs::Moves::is_sealed, deed_words::specs::Chain::holds_of, deed_words::specs::Chain::when))]
pub(crate) fn unit_sealed(asked: &Asked) -> Option<Rule>
    requires unit { names_unit asked.now.deed.now ≡ true }
    requires asked { IsAsked asked.now.stores.now.content asked.now.deed.now asked.now.names.now asked.now.found asked.now.repeat }
    ensures { result ≡ unit_sealed asked.now.setup.now (world_in asked.now.stores.now.content) asked.now.station asked.now.deed.now }
{
    let Some(unit) = unit_for(asked) else {
        return None;
    };
    match unit.mark {
        Mark::Filling => None,
        Mark::Sealed => Some(Rule::UnitSealed),
        Mark::Void => None,
    }
}

/// The unit is filling.
#[tactic(auto, unfolding(deed_words::specs::Tests::unit_not_sealed, deed_words::specs::Moves::is_filling, deed_words::specs::Chain::holds_of, deed_words::specs::Chain::when))]
pub(crate) fn unit_not_sealed(asked: &Asked) -> Option<Rule>
    requires unit { names_unit asked.now.deed.now ≡ true }
    requires asked { IsAsked asked.now.stores.now.content asked.now.deed.now asked.now.names.now asked.now.found asked.now.repeat }
    ensures { result ≡ unit_not_sealed asked.now.setup.now (world_in asked.now.stores.now.content) asked.now.station asked.now.deed.now }
{
    let Some(unit) = unit_for(asked) else {
        return None;
    };
    match unit.mark {
        Mark::Filling => Some(Rule::UnitNotSealed),
        Mark::Sealed => None,
        Mark::Void => None,
    }
}

/// How many things a unit of the level takes.
#[tactic(auto, unfolding(deed_words::specs::Tests::room_of))]
fn room_of(batch: &Batch, level: Level) -> u64
    ensures { result ≡ room_of batch.now level }
{
    match level {
        Level::Case => u64::from(batch.order.case_size),
        Level::Pallet => u64::from(batch.order.pallet_size),
    }
}

/// How many things stand in the unit that the deed names.
fn count_inside(asked: &Asked) -> u64
    requires unit { names_unit asked.now.deed.now ≡ true }
    requires asked { IsAsked asked.now.stores.now.content asked.now.deed.now asked.now.names.now asked.now.found asked.now.repeat }
    ensures { result ≡ length (inside (world_in asked.now.stores.now.content) (unit_named asked.now.deed.now)) }
{
    asked.stores.tell_whole();
    let Some(unit) = asked.found.unit else {
        return 0;
    };
    asked.stores.tree().count(unit)
}

/// The things that the deed names don't go into the unit, beside what stands in it.
#[tactic(auto, unfolding(deed_words::specs::Tests::over, deed_words::specs::Chain::when))]
fn over(asked: &Asked, unit: &Container, batch: &Batch) -> Option<Rule>
    requires unit { names_unit asked.now.deed.now ≡ true }
    requires asked { IsAsked asked.now.stores.now.content asked.now.deed.now asked.now.names.now asked.now.found asked.now.repeat }
    ensures { result ≡ over (world_in asked.now.stores.now.content) (unit_named asked.now.deed.now) (length asked.now.names.now) unit.now batch.now }
{
    let have = count_inside(asked);
    let more = asked.names.len() as u64;
    let room = room_of(batch, unit.level);
    if room < have || room - have < more {
        return Some(Rule::UnitFull(have, room));
    }
    None
}

/// The things don't go into the unit.
#[tactic(auto, unfolding(deed_words::specs::Tests::unit_full))]
pub(crate) fn unit_full(asked: &Asked) -> Option<Rule>
    requires unit { names_unit asked.now.deed.now ≡ true }
    requires asked { IsAsked asked.now.stores.now.content asked.now.deed.now asked.now.names.now asked.now.found asked.now.repeat }
    ensures { result ≡ unit_full asked.now.setup.now (world_in asked.now.stores.now.content) asked.now.station asked.now.deed.now }
{
    let Some(unit) = unit_for(asked) else {
        return None;
    };
    let Some(batch) = batch_for(asked) else {
        return None;
    };
    over(asked, &unit, &batch)
}

/// Things stand in the unit.
#[tactic(auto, unfolding(deed_words::specs::Tests::unit_not_empty, deed_words::specs::Chain::when))]
pub(crate) fn unit_not_empty(asked: &Asked) -> Option<Rule>
    requires unit { names_unit asked.now.deed.now ≡ true }
    requires asked { IsAsked asked.now.stores.now.content asked.now.deed.now asked.now.names.now asked.now.found asked.now.repeat }
    ensures { result ≡ unit_not_empty asked.now.setup.now (world_in asked.now.stores.now.content) asked.now.station asked.now.deed.now }
{
    let have = count_inside(asked);
    if have > 0 {
        return Some(Rule::UnitNotEmpty(have));
    }
    None
}

/// Nothing stands in the unit.
#[tactic(auto, unfolding(deed_words::specs::Tests::nothing_inside, deed_words::specs::Chain::when), using(crate::proofs::Ranges::emptiness))]
pub(crate) fn nothing_inside(asked: &Asked) -> Option<Rule>
    requires unit { names_unit asked.now.deed.now ≡ true }
    requires asked { IsAsked asked.now.stores.now.content asked.now.deed.now asked.now.names.now asked.now.found asked.now.repeat }
    ensures { result ≡ nothing_inside asked.now.setup.now (world_in asked.now.stores.now.content) asked.now.station asked.now.deed.now }
{
    if count_inside(asked) == 0 {
        return Some(Rule::NothingInside);
    }
    None
}
