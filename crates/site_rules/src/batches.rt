//! The rules on roles, and on the batch that a deed is about.
ghost use Rattle.std.specs.Prelude.{◌≡◌, [], true, false, IfSome, IfNone};
ghost use Rattle.deed_words.specs.Roles.{is_for};
ghost use Rattle.deed_words.specs.World.{World, unit_of};
ghost use Rattle.deed_words.specs.Deeds.{batch_for, batch_named, batch_with, unit_named};
ghost use Rattle.deed_words.specs.Tests.{role_forbids, unknown_batch, not_started, started, closed};
ghost use Rattle.batch_book.specs.Content.{world_in};
ghost use Rattle.site_rules.specs.Asked.{IsAsked};
ghost use Rattle.site_rules.specs.Suits.{names_unit, is_about_batch};

use crate::asked::Asked;
use crate::places::told_unit;
use deed_words::{Batch, Container, Deed, Phase, Role, Rule};
use gs1_keys::{Sscc, Text20};

/// Whether a station of the role may do the deed.
#[tactic(auto, unfolding(deed_words::specs::Roles::is_for, deed_words::specs::Roles::is_planner, deed_words::specs::Roles::is_line, deed_words::specs::Roles::is_quality, deed_words::specs::Roles::is_line_or_quality))]
fn is_for(deed: &Deed, role: Role) -> bool
    ensures { result ≡ is_for deed.now role }
{
    match deed {
        Deed::Order(_)
        | Deed::Orders(_)
        | Deed::Start(_)
        | Deed::Draw(_, _)
        | Deed::Close(_)
        | Deed::Amend(_, _) => role == Role::Planner,
        Deed::Lend(_, _)
        | Deed::Commission(_, _)
        | Deed::Spoil(_, _)
        | Deed::Giveback(_, _)
        | Deed::Container(_, _)
        | Deed::Pack(_, _)
        | Deed::Seal(_)
        | Deed::Declare(_, _, _, _) => role == Role::Line,
        Deed::Reinstate(_, _) | Deed::Destroy(_, _) | Deed::Decommission(_, _) => {
            role == Role::Quality
        }
        Deed::Sample(_, _)
        | Deed::Reject(_, _)
        | Deed::Unpack(_, _)
        | Deed::UnpackAll(_)
        | Deed::Unseal(_)
        | Deed::Void(_) => role != Role::Planner,
    }
}

/// The deed isn't for the station's role.
#[tactic(auto, unfolding(deed_words::specs::Tests::role_forbids, deed_words::specs::Chain::holds_of, deed_words::specs::Chain::when))]
pub(crate) fn role_forbids(asked: &Asked) -> Option<Rule>
    ensures { result ≡ role_forbids asked.now.setup.now (world_in asked.now.stores.now.content) asked.now.station asked.now.deed.now }
{
    let Some(role) = asked.setup.role(asked.station) else {
        return Some(Rule::RoleForbids);
    };
    if is_for(asked.deed, role) {
        return None;
    }
    Some(Rule::RoleForbids)
}

/// The unit that the deed names.
#[tactic(auto, unfolding(deed_words::specs::Deeds::unit_named, crate::specs::Suits::names_unit))]
pub(crate) fn unit_named(deed: &Deed) -> Option<Sscc>
    ensures some { IfSome result (λ sscc. sscc ≡ unit_named deed.now) }
    ensures names { IfSome result (λ _. names_unit deed.now ≡ true) }
    ensures none { IfNone result (names_unit deed.now ≡ false) }
{
    match deed {
        Deed::Pack(unit, _)
        | Deed::Unpack(unit, _)
        | Deed::UnpackAll(unit)
        | Deed::Seal(unit)
        | Deed::Unseal(unit)
        | Deed::Void(unit) => Some(*unit),
        _ => None,
    }
}

/// That unit, where it is there.
pub(crate) fn unit_for(asked: &Asked) -> Option<Container>
    requires unit { names_unit asked.now.deed.now ≡ true }
    requires asked { IsAsked asked.now.stores.now.content asked.now.deed.now asked.now.names.now asked.now.found asked.now.repeat }
    ensures { result ≡ unit_of (world_in asked.now.stores.now.content) (unit_named asked.now.deed.now) }
{
    asked.stores.tell_whole();
    let Some(unit) = asked.found.unit else {
        return None;
    };
    let row = asked.stores.unit_at(unit);
    Some(told_unit(asked.stores, &row))
}

/// The batch that the deed names.
#[tactic(auto, unfolding(deed_words::specs::Deeds::batch_named, crate::specs::Suits::names_unit, crate::specs::Suits::is_about_batch))]
pub(crate) fn batch_named(deed: &Deed) -> Option<Text20>
    ensures some { IfSome result (λ name. (w : World) → batch_named w deed.now ≡ name) }
    ensures none { IfNone result ((w : World) → batch_named w deed.now ≡ batch_with w (unit_named deed.now)) }
    ensures unit { IfNone result (is_about_batch deed.now ≡ true → names_unit deed.now ≡ true) }
{
    match deed {
        Deed::Start(name)
        | Deed::Draw(name, _)
        | Deed::Lend(name, _)
        | Deed::Commission(name, _)
        | Deed::Spoil(name, _)
        | Deed::Giveback(name, _)
        | Deed::Sample(name, _)
        | Deed::Reject(name, _)
        | Deed::Reinstate(name, _)
        | Deed::Destroy(name, _)
        | Deed::Decommission(name, _)
        | Deed::Container(name, _)
        | Deed::Declare(name, _, _, _)
        | Deed::Close(name)
        | Deed::Amend(name, _) => Some(*name),
        _ => None,
    }
}

/// The name of the batch that the deed is about: the one that it names, or that of its unit.
#[tactic(auto, unfolding(deed_words::specs::Deeds::batch_with))]
pub(crate) fn batch_name(asked: &Asked) -> Option<Text20>
    requires about { is_about_batch asked.now.deed.now ≡ true }
    requires asked { IsAsked asked.now.stores.now.content asked.now.deed.now asked.now.names.now asked.now.found asked.now.repeat }
    ensures some { IfSome result (λ name. batch_named (world_in asked.now.stores.now.content) asked.now.deed.now ≡ name) }
    ensures none { IfNone result (batch_named (world_in asked.now.stores.now.content) asked.now.deed.now ≡ []) }
{
    if let Some(name) = batch_named(asked.deed) {
        return Some(name);
    }
    match unit_for(asked) {
        Some(unit) => Some(unit.batch),
        None => None,
    }
}

/// The batch that the deed is about, where it is there.
#[tactic(auto, unfolding(deed_words::specs::Deeds::batch_for))]
pub(crate) fn batch_for(asked: &Asked) -> Option<Batch>
    requires about { is_about_batch asked.now.deed.now ≡ true }
    requires asked { IsAsked asked.now.stores.now.content asked.now.deed.now asked.now.names.now asked.now.found asked.now.repeat }
    ensures { result ≡ batch_for (world_in asked.now.stores.now.content) asked.now.deed.now }
{
    let Some(batch) = asked.found.batch else {
        return None;
    };
    Some(asked.stores.batch_at(batch))
}

/// There is no such batch.
#[tactic(auto, unfolding(deed_words::specs::Tests::unknown_batch, deed_words::specs::Chain::when))]
pub(crate) fn unknown_batch(asked: &Asked) -> Option<Rule>
    requires about { is_about_batch asked.now.deed.now ≡ true }
    requires asked { IsAsked asked.now.stores.now.content asked.now.deed.now asked.now.names.now asked.now.found asked.now.repeat }
    ensures { result ≡ unknown_batch asked.now.setup.now (world_in asked.now.stores.now.content) asked.now.station asked.now.deed.now }
{
    let Some(_) = batch_for(asked) else {
        return Some(Rule::UnknownBatch);
    };
    None
}

/// The batch is planned.
#[tactic(auto, unfolding(deed_words::specs::Tests::not_started, deed_words::specs::Tests::is_planned, deed_words::specs::Chain::holds_of, deed_words::specs::Chain::when))]
pub(crate) fn not_started(asked: &Asked) -> Option<Rule>
    requires about { is_about_batch asked.now.deed.now ≡ true }
    requires asked { IsAsked asked.now.stores.now.content asked.now.deed.now asked.now.names.now asked.now.found asked.now.repeat }
    ensures { result ≡ not_started asked.now.setup.now (world_in asked.now.stores.now.content) asked.now.station asked.now.deed.now }
{
    let Some(batch) = batch_for(asked) else {
        return None;
    };
    match batch.phase {
        Phase::Planned => Some(Rule::BatchNotStarted),
        Phase::Started => None,
        Phase::Closed => None,
    }
}

/// The batch is started.
#[tactic(auto, unfolding(deed_words::specs::Tests::started, deed_words::specs::Tests::is_started, deed_words::specs::Chain::holds_of, deed_words::specs::Chain::when))]
pub(crate) fn started(asked: &Asked) -> Option<Rule>
    requires about { is_about_batch asked.now.deed.now ≡ true }
    requires asked { IsAsked asked.now.stores.now.content asked.now.deed.now asked.now.names.now asked.now.found asked.now.repeat }
    ensures { result ≡ started asked.now.setup.now (world_in asked.now.stores.now.content) asked.now.station asked.now.deed.now }
{
    let Some(batch) = batch_for(asked) else {
        return None;
    };
    match batch.phase {
        Phase::Planned => None,
        Phase::Started => Some(Rule::BatchStarted),
        Phase::Closed => None,
    }
}

/// The batch is closed.
#[tactic(auto, unfolding(deed_words::specs::Tests::closed, deed_words::specs::Tests::is_closed, deed_words::specs::Chain::holds_of, deed_words::specs::Chain::when))]
pub(crate) fn closed(asked: &Asked) -> Option<Rule>
    requires about { is_about_batch asked.now.deed.now ≡ true }
    requires asked { IsAsked asked.now.stores.now.content asked.now.deed.now asked.now.names.now asked.now.found asked.now.repeat }
    ensures { result ≡ closed asked.now.setup.now (world_in asked.now.stores.now.content) asked.now.station asked.now.deed.now }
{
    let Some(batch) = batch_for(asked) else {
        return None;
    };
    match batch.phase {
        Phase::Planned => None,
        Phase::Started => None,
        Phase::Closed => Some(Rule::BatchClosed),
    }
}
