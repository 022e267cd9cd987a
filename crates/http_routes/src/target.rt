//! What a request is about.
ghost use Rattle.std.specs.Prelude.{◌≡◌, bytes_eq};
ghost use Rattle.http_routes.specs.Targets.{target_in, method_of, submit_in, report_in, events_in, item_in, unit_in};

use crate::page::Page;
use crate::routes::Routes;
use crate::segment::{gtin, name, number_of, ranged, segment, sscc};
use gs1_keys::{Gtin, Sscc, Text20};
use http::Method;

/// What a request is about.
#[derive(Clone, Copy, Debug, PartialEq, Eq)]
pub enum Target {
    /// `POST /stations/{station}/requests/{number}`: the deed in the body, as this numbered request of the station.
    Submit {
        /// The station's name.
        station: Text20,
        /// The request's number.
        number: u64,
    },
    /// `GET /batches/{batch}`: the report of a batch.
    Report {
        /// The batch's name.
        batch: Text20,
    },
    /// `GET /batches/{batch}/events/{from}/{count}`: so many events of a batch.
    Events {
        /// The batch's name.
        batch: Text20,
        /// The number of the first event, from 1.
        from: u32,
        /// How many, 1 to 100.
        count: u32,
    },
    /// `GET /items/{gtin}/{serial}`: an item.
    Item {
        /// Its GTIN.
        gtin: Gtin,
        /// Its serial.
        serial: Text20,
    },
    /// `GET /units/{sscc}`: a unit.
    Unit {
        /// Its SSCC.
        sscc: Sscc,
    },
}

#[tactic(auto, unfolding(crate::specs::Targets::submit_in))]
fn submit(station: &[u8], number: &[u8]) -> Option<Target>
    ensures { result ≡ submit_in station.now number.now }
{
    Some(Target::Submit {
        station: name(station)?,
        number: number_of(number, 20)?,
    })
}

#[tactic(auto, unfolding(crate::specs::Targets::report_in))]
fn report(batch: &[u8]) -> Option<Target>
    ensures { result ≡ report_in batch.now }
{
    Some(Target::Report {
        batch: name(batch)?,
    })
}

#[tactic(auto, unfolding(crate::specs::Targets::events_in))]
fn events(batch: &[u8], from: &[u8], count: &[u8]) -> Option<Target>
    ensures { result ≡ events_in batch.now from.now count.now }
{
    Some(Target::Events {
        batch: name(batch)?,
        from: ranged(from, u32::MAX)?,
        count: ranged(count, 100)?,
    })
}

#[tactic(auto, unfolding(crate::specs::Targets::item_in))]
fn item(code: &[u8], serial: &[u8]) -> Option<Target>
    ensures { result ≡ item_in code.now serial.now }
{
    Some(Target::Item {
        gtin: gtin(code)?,
        serial: name(serial)?,
    })
}

#[tactic(auto, unfolding(crate::specs::Targets::unit_in))]
fn unit(code: &[u8]) -> Option<Target>
    ensures { result ≡ unit_in code.now }
{
    Some(Target::Unit { sscc: sscc(code)? })
}

impl Routes {
    /// What a path names, if it is one of the five and its segments are valid names, keys and numbers.
    pub fn target(&self, path: &str) -> Option<Target>
        ensures { result ≡ target_in path.now }
    {
        if path.as_bytes().contains(&b'?') {
            return None;
        }
        match self.page(path) {
            None => None,
            Some(Page::Requests) => submit(segment(path, 2), segment(path, 4)),
            Some(Page::Report) => report(segment(path, 2)),
            Some(Page::Events) => events(segment(path, 2), segment(path, 4), segment(path, 5)),
            Some(Page::Item) => item(segment(path, 2), segment(path, 3)),
            Some(Page::Unit) => unit(segment(path, 2)),
        }
    }
}

impl Target {
    /// Whether this is the method of the target: POST for a numbered request, GET for all else.
    pub fn has_method(&self, method: &[u8]) -> bool
        ensures { result ≡ bytes_eq method.now (method_of self.now) }
    {
        match self {
            Target::Submit { .. } => method == Method::POST.as_str().as_bytes(),
            _ => method == Method::GET.as_str().as_bytes(),
        }
    }
}
