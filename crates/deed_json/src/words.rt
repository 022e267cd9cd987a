//! The words of replies.
ghost use Rattle.std.specs.Prelude.{◌≡◌, ◌<◌, length};
ghost use Rattle.deed_json.specs.Replies.{condition_word, what_word, station_name};

use deed_words::{Condition, Setup, StationId, What};
use gs1_keys::Text20;

/// The word of a state or a mark.
#[tactic(auto, unfolding(crate::specs::Replies::condition_word))]
pub(crate) fn word_of_condition(condition: Condition) -> &'static str
    ensures { result.now ≡ condition_word condition }
{
    match condition {
        Condition::Fresh => "fresh",
        Condition::Lent => "lent",
        Condition::Returned => "returned",
        Condition::Spoiled => "spoiled",
        Condition::Active => "active",
        Condition::Sampled => "sampled",
        Condition::Rejected => "rejected",
        Condition::Gone => "gone",
        Condition::Filling => "filling",
        Condition::Sealed => "sealed",
        Condition::Void => "void",
    }
}

/// The word of what a site is full of.
#[tactic(auto, unfolding(crate::specs::Replies::what_word))]
pub(crate) fn word_of_what(what: What) -> &'static str
    ensures { result.now ≡ what_word what }
{
    match what {
        What::Batches => "batches",
        What::Serials => "serials",
        What::Units => "units",
    }
}

/// The name of a station.
#[tactic(auto, unfolding(crate::specs::Replies::station_name))]
pub(crate) fn name_of_station(setup: &Setup, station: StationId) -> &Text20
    requires { station < length setup.now.stations }
    ensures { result.now ≡ station_name setup.now station }
{
    &setup.stations.get(usize::from(station.0)).name
}
