//! Stations by their names.
ghost use Rattle.std.specs.Prelude.{◌≡◌, ◌<◌, ◌≤◌, length, IfSome};
ghost use Rattle.deed_words.specs.Names.{same};
ghost use Rattle.deed_words.specs.Chain.{each, when};
ghost use Rattle.deed_words.specs.Stations.{station_of};

use crate::{Setup, Station, StationId};

/// Whether the station has that name.
#[tactic(auto, unfolding(crate::specs::Names::same))]
fn is_named(station: &Station, name: &[u8]) -> bool
    ensures { result ≡ same station.now.name name.now }
{
    station.name.bytes() == name
}

/// The place of the first station with that name.
fn place_of(stations: &[Station], name: &[u8]) -> Option<usize>
    ensures is { result ≡ each stations.now (λ k station. when (same station.name name.now) k) }
    ensures within { IfSome result (λ k. k < length stations.now) }
{
    for (place, station) in stations.iter().enumerate() {
        if is_named(station, name) {
            return Some(place);
        }
    }
    None
}

/// The station of the setup with that name. Text that is no name of a station finds none.
#[tactic(auto, unfolding(crate::specs::Stations::station_of))]
pub fn station_of(setup: &Setup, name: &[u8]) -> Option<StationId>
    ensures is { result ≡ station_of setup.now name.now }
    ensures within { IfSome result (λ k. k < length setup.now.stations) }
{
    setup.tell_proper();
    match place_of(setup.stations.as_slice(), name) {
        Some(place) => Some(StationId(place as u8)),
        None => None,
    }
}
