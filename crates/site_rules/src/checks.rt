//! Rules that are tried on each thing that a deed names.
ghost use Rattle.std.specs.Prelude.{◌≡◌, map, not, Some, option_map, option_and_then, nat_eq};
ghost use Rattle.deed_words.specs.Names.{same};
ghost use Rattle.deed_words.specs.Chain.{each, when, holds_of};
ghost use Rattle.deed_words.specs.World.{parent};
ghost use Rattle.deed_words.specs.Tests.{is_known, is_of, unfit, other_line, takes};
ghost use Rattle.deed_words.specs.declared.rule.Rule.TheVariants.{UnknownSerial, OtherBatch, WrongLevel, WrongState, LentToOther, HasParent, NotChild};
ghost use Rattle.batch_book.specs.Content.{world_in};
ghost use Rattle.site_stores.specs.Places.{place_of};
ghost use Rattle.site_rules.specs.Rows.{forbids};

use crate::moves::{moved, told_mark, told_state};
use crate::places::{is_of, row_at, unit_at};
use deed_words::{Deed, Level, Mark, Rule, State, StationId, same_sscc};
use epc_urn::Epc;
use gs1_keys::{Sscc, Text20};
use pack_tree::Node;
use site_stores::Stores;

/// A rule that is tried on each thing.
pub(crate) trait Check {
    ghost use Rattle.std.specs.Prelude.{ℕ, Option};
    ghost use Rattle.epc_urn.specs.declared.epc.Epc.{Epc};
    ghost use Rattle.deed_words.specs.declared.rule.Rule.{Rule};
    ghost use Rattle.batch_book.specs.Content.{Content};

    /// What it says of the thing with the index and the name.
    ghost says: { Self → ℕ → Epc → Option Rule };

    /// What the stores hold.
    ghost content: { Self → Content };

    fn check(&self, index: u64, name: &Epc, place: Option<Node>) -> Option<Rule>
        requires place { place ≡ place_of (content self.now).rows (content self.now).units name.now }
        ensures { result ≡ says self.now index name.now };
}

/// What the check says of the first thing of which it says something.
pub(crate) fn first_of<C: Check>(check: &C, names: &[Epc], places: &[Option<Node>]) -> Option<Rule>
    requires places { places.now ≡ map (place_of (C.content check.now).rows (C.content check.now).units) names.now }
    ensures { result ≡ each names.now (C.says check.now) }
{
    for (index, name) in names.iter().enumerate() {
        if let Some(rule) = check.check(index as u64, name, places[index]) {
            return Some(rule);
        }
    }
    None
}

/// It is known.
#[derive(Drop)]
pub(crate) struct Known<'a> {
    pub(crate) stores: &'a Stores,
    pub(crate) deed: &'a Deed,
}

impl Check for Known<'_> {
    ghost says = { λ c k name. when (not (is_known (world_in c.stores.now.content) c.deed.now name)) (UnknownSerial k) };

    ghost content = { λ c. c.stores.now.content };

    #[tactic(auto, unfolding(deed_words::specs::Tests::is_known, deed_words::specs::Chain::when))]
    fn check(&self, index: u64, name: &Epc, place: Option<Node>) -> Option<Rule> {
        match name {
            Epc::Item(gtin, serial) => {
                let Some(_) = row_at(self.stores, gtin, serial, place) else {
                    return Some(Rule::UnknownSerial(index));
                };
                None
            }
            Epc::Unit(sscc) => match self.deed {
                Deed::Pack(_, _) => {
                    let Some(_) = unit_at(self.stores, sscc, place) else {
                        return Some(Rule::UnknownSerial(index));
                    };
                    None
                }
                _ => Some(Rule::UnknownSerial(index)),
            },
        }
    }
}

/// It is of the batch.
#[derive(Drop)]
pub(crate) struct AtHome<'a> {
    pub(crate) stores: &'a Stores,
    pub(crate) batch: Text20,
}

impl Check for AtHome<'_> {
    ghost says = { λ c k name. when (not (is_of (world_in c.stores.now.content) c.batch name)) (OtherBatch k) };

    ghost content = { λ c. c.stores.now.content };

    #[tactic(auto, unfolding(deed_words::specs::Chain::when))]
    fn check(&self, index: u64, name: &Epc, place: Option<Node>) -> Option<Rule> {
        if is_of(self.stores, &self.batch, name, place) {
            return None;
        }
        Some(Rule::OtherBatch(index))
    }
}

/// Whether the deed can't be done to a row of the state.
#[tactic(auto, unfolding(crate::specs::Rows::forbids, deed_words::specs::Moves::is_active))]
fn forbids(deed: &Deed, state: State) -> bool
    ensures { result ≡ forbids deed.now state }
{
    match deed {
        Deed::Pack(_, _) => state != State::Active,
        _ => moved(deed, state).is_none(),
    }
}

/// Its state allows the deed.
#[derive(Drop)]
pub(crate) struct Standing<'a> {
    pub(crate) stores: &'a Stores,
    pub(crate) deed: &'a Deed,
}

impl Check for Standing<'_> {
    ghost says = { λ c k name. option_map (WrongState k) (unfit (world_in c.stores.now.content) c.deed.now name) };

    ghost content = { λ c. c.stores.now.content };

    #[tactic(auto, unfolding(deed_words::specs::Tests::unfit, deed_words::specs::Chain::when, deed_words::specs::Moves::is_sealed), using(crate::proofs::Fitness::unfit_item))]
    fn check(&self, index: u64, name: &Epc, place: Option<Node>) -> Option<Rule> {
        match name {
            Epc::Item(gtin, serial) => {
                let Some(row) = row_at(self.stores, gtin, serial, place) else {
                    return None;
                };
                if forbids(self.deed, row.state) {
                    return Some(Rule::WrongState(index, told_state(row.state)));
                }
                None
            }
            Epc::Unit(sscc) => match self.deed {
                Deed::Pack(_, _) => {
                    let Some(unit) = unit_at(self.stores, sscc, place) else {
                        return None;
                    };
                    if unit.mark == Mark::Sealed {
                        return None;
                    }
                    Some(Rule::WrongState(index, told_mark(unit.mark)))
                }
                _ => None,
            },
        }
    }
}

/// The line, where it isn't this one.
#[tactic(auto, unfolding(deed_words::specs::Chain::when))]
fn other_than(line: Option<StationId>, station: StationId) -> Option<StationId>
    ensures { result ≡ option_and_then (λ line. when (not (nat_eq line station)) line) line }
{
    let Some(other) = line else {
        return None;
    };
    if other.0 == station.0 {
        return None;
    }
    Some(other)
}

/// It was lent to this line.
#[derive(Drop)]
pub(crate) struct Lent<'a> {
    pub(crate) stores: &'a Stores,
    pub(crate) station: StationId,
}

impl Check for Lent<'_> {
    ghost says = { λ c k name. option_map (LentToOther k) (other_line (world_in c.stores.now.content) c.station name) };

    ghost content = { λ c. c.stores.now.content };

    #[tactic(auto, unfolding(deed_words::specs::Tests::other_line, deed_words::specs::Chain::when))]
    fn check(&self, index: u64, name: &Epc, place: Option<Node>) -> Option<Rule> {
        match name {
            Epc::Item(gtin, serial) => {
                let Some(row) = row_at(self.stores, gtin, serial, place) else {
                    return None;
                };
                let Some(line) = other_than(row.line, self.station) else {
                    return None;
                };
                Some(Rule::LentToOther(index, line))
            }
            Epc::Unit(_) => None,
        }
    }
}

/// It stands in nothing.
#[derive(Drop)]
pub(crate) struct Loose<'a> {
    pub(crate) stores: &'a Stores,
}

impl Check for Loose<'_> {
    ghost says = { λ c k name. option_map (HasParent k) (parent (world_in c.stores.now.content) name) };

    ghost content = { λ c. c.stores.now.content };

    fn check(&self, index: u64, name: &Epc, place: Option<Node>) -> Option<Rule> {
        let Some(sscc) = self.stores.parent_at(name, place) else {
            return None;
        };
        Some(Rule::HasParent(index, sscc))
    }
}

/// It stands in the unit.
#[derive(Drop)]
pub(crate) struct Inside<'a> {
    pub(crate) stores: &'a Stores,
    pub(crate) unit: Sscc,
}

impl Check for Inside<'_> {
    ghost says = { λ c k name. when (not (holds_of (same c.unit) (parent (world_in c.stores.now.content) name))) (NotChild k) };

    ghost content = { λ c. c.stores.now.content };

    #[tactic(auto, unfolding(deed_words::specs::Chain::when, deed_words::specs::Chain::holds_of))]
    fn check(&self, index: u64, name: &Epc, place: Option<Node>) -> Option<Rule> {
        let Some(sscc) = self.stores.parent_at(name, place) else {
            return Some(Rule::NotChild(index));
        };
        if same_sscc(&self.unit, &sscc) {
            return None;
        }
        Some(Rule::NotChild(index))
    }
}

/// Whether the thing goes into a unit of the level.
#[tactic(auto, unfolding(deed_words::specs::Tests::takes, deed_words::specs::Chain::holds_of, deed_words::specs::Accounts::is_case))]
fn takes(stores: &Stores, level: Level, name: &Epc, place: Option<Node>) -> bool
    requires place { place ≡ place_of stores.now.content.rows stores.now.content.units name.now }
    ensures { result ≡ takes (world_in stores.now.content) level name.now }
{
    match (level, name) {
        (Level::Case, Epc::Item(_, _)) => true,
        (Level::Case, Epc::Unit(_)) => false,
        (Level::Pallet, Epc::Item(_, _)) => false,
        (Level::Pallet, Epc::Unit(sscc)) => match unit_at(stores, sscc, place) {
            Some(unit) => unit.level == Level::Case,
            None => false,
        },
    }
}

/// It goes into a unit of the level.
#[derive(Drop)]
pub(crate) struct Fitting<'a> {
    pub(crate) stores: &'a Stores,
    pub(crate) level: Level,
}

impl Check for Fitting<'_> {
    ghost says = { λ c k name. when (not (takes (world_in c.stores.now.content) c.level name)) (WrongLevel k) };

    ghost content = { λ c. c.stores.now.content };

    #[tactic(auto, unfolding(deed_words::specs::Chain::when))]
    fn check(&self, index: u64, name: &Epc, place: Option<Node>) -> Option<Rule> {
        if takes(self.stores, self.level, name, place) {
            return None;
        }
        Some(Rule::WrongLevel(index))
    }
}
