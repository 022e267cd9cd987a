//! What is seen of an item, of a unit, and of an entry.
ghost use Rattle.std.specs.Prelude.{◌≡◌, ◌<◌, ◌++◌, ◌∷◌, List, length, option_and_then};
ghost use Rattle.batch_book.specs.Content.{world_in};
ghost use Rattle.deed_words.specs.History.{world_of};
ghost use Rattle.deed_words.specs.declared.entry.Entry.{Entry as TheEntry};
ghost use Rattle.site_core.specs.Seen.{item_seen, unit_seen, name_of_station, rule_told, IsLogOf};

use crate::site::Site;
use deed_words::{Deed, Level, Mark, Reply, Rule, Setup, State, StationId, numbers_mean_one_thing};
use epc_urn::Epc;
use gs1_keys::{Gtin, Sscc, Text20};
use site_stores::Stores;

/// A serial as it stands.
#[derive(Clone, Copy, Debug, PartialEq, Eq)]
pub struct ItemView {
    /// The name of its batch.
    pub batch: Text20,
    /// The name of the line to which it was lent.
    pub line: Option<Text20>,
    /// Its state.
    pub state: State,
    /// The case that it stands in.
    pub parent: Option<Sscc>,
}

/// A case or a pallet as it stands.
#[derive(Clone, Copy, Debug, PartialEq, Eq)]
pub struct UnitView {
    /// The name of its batch.
    pub batch: Text20,
    /// What it is.
    pub level: Level,
    /// How it stands.
    pub mark: Mark,
    /// The pallet that it stands on.
    pub parent: Option<Sscc>,
    /// How many things stand in it.
    pub children: u64,
}

/// An entry as a log tells it.
#[derive(Debug, Drop)]
pub struct Logged<'a> {
    /// Who asked.
    pub station: StationId,
    /// The station's own number of the request.
    pub number: u64,
    /// Who worked at the station, where it was told.
    pub operator: Option<Text20>,
    /// What was asked for.
    pub deed: &'a Deed,
    /// The rule that it broke, where it was refused.
    pub rule: Option<Rule>,
}

/// The name of a station.
#[tactic(auto, unfolding(crate::specs::Seen::name_of_station))]
fn station_name(setup: &Setup, station: StationId) -> Option<Text20>
    ensures { result ≡ name_of_station setup.now station }
{
    let at = usize::from(station.0);
    if at < setup.stations.len() {
        Some(setup.stations.get(at).name)
    } else {
        None
    }
}

/// The name of the line, if there is one.
fn line_name(setup: &Setup, line: Option<StationId>) -> Option<Text20>
    ensures { result ≡ option_and_then (name_of_station setup.now) line }
{
    match line {
        Some(line) => station_name(setup, line),
        None => None,
    }
}

/// What is seen of the item of the name.
#[tactic(auto, unfolding(crate::specs::Seen::item_seen))]
fn item_view(setup: &Setup, stores: &Stores, gtin: &Gtin, serial: &Text20) -> Option<ItemView>
    ensures { result ≡ item_seen setup.now (world_in stores.now.content) gtin.now serial.now }
{
    let Some(row) = stores.row(gtin, serial) else {
        return None;
    };
    Some(ItemView {
        batch: row.batch,
        line: line_name(setup, row.line),
        state: row.state,
        parent: stores.parent(&Epc::Item(*gtin, *serial)),
    })
}

/// What is seen of the unit of the code.
#[tactic(auto, unfolding(crate::specs::Seen::unit_seen))]
fn unit_view(stores: &Stores, sscc: &Sscc) -> Option<UnitView>
    ensures { result ≡ unit_seen (world_in stores.now.content) sscc.now }
{
    let Some(unit) = stores.unit(sscc) else {
        return None;
    };
    Some(UnitView {
        batch: unit.batch,
        level: unit.level,
        mark: unit.mark,
        parent: stores.parent(&Epc::Unit(*sscc)),
        children: stores.count_inside(sscc),
    })
}

/// The rule of a refusal.
#[tactic(auto, unfolding(crate::specs::Seen::rule_told))]
fn rule_in(reply: &Reply) -> Option<Rule>
    ensures { result ≡ rule_told reply.now }
{
    match reply {
        Reply::Accepted(_) => None,
        Reply::Refused(rule) => Some(*rule),
    }
}

impl Site {
    /// What is seen of the item of the name: its batch, its line, its state, and the case that it stands in. It is None
    /// exactly where no such serial was drawn. It takes no memory, and no more time for a larger site.
    pub fn item_view(&self, gtin: &Gtin, serial: &Text20) -> Option<ItemView>
        ensures { result ≡ item_seen self.now.setup (world_of self.now.setup self.now.history) gtin.now serial.now }
    {
        item_view(&self.setup, &self.stores, gtin, serial)
    }

    /// What is seen of the unit of the code: its batch, what it is, how it stands, the pallet that it stands on, and how
    /// many things stand in it. It is None exactly where no such unit was made. It takes no memory, and no more time for
    /// a larger site.
    pub fn unit_view(&self, sscc: &Sscc) -> Option<UnitView>
        ensures { result ≡ unit_seen (world_of self.now.setup self.now.history) sscc.now }
    {
        unit_view(&self.stores, sscc)
    }

    /// What a log tells of the entry at a place of the history, from 0. It takes no memory.
    pub fn logged(&self, place: u32) -> Logged<'_>
        requires { place < length self.now.history }
        ensures { (front more : List TheEntry) (entry : TheEntry) → self.now.history ≡ front ++ entry ∷ more → length front ≡ place → IsLogOf self.now.setup (world_of self.now.setup front) entry result }
    {
        numbers_mean_one_thing();
        self.tell_kept();
        let kept = &self.kept[place as usize];
        let told = self.memo.told(kept.station, kept.number);
        Logged {
            station: kept.station,
            number: kept.number,
            operator: kept.operator,
            deed: &told.deed,
            rule: rule_in(&told.reply),
        }
    }
}
