//! Requests whose bodies spell no deed.
ghost use Rattle.std.specs.Prelude.{◌≡◌};
ghost use Rattle.deed_words.specs.Stations.{station_of};
ghost use Rattle.site_turns.specs.Turns.{IsToldFirst};

use crate::serving::DeskStore;
use deed_json::AskFault;
use gs1_keys::Text20;
use outside::{Clock, Disk, Words};
use site_answers::{Response, unasked_response};
use std::alloc::Global;
use turn_desk::Job;

/// Looks whether the site has a station, since that is told before a deed that doesn't read.
#[derive(Drop)]
pub struct Unread {
    /// For the text of the answer.
    pub alloc: Global,
    /// The name of the station.
    pub station: Text20,
    /// What is wrong with the deed.
    pub fault: AskFault,
}

impl<D: Disk, C: Clock, W: Words> Job<DeskStore<D, C, W>> for Unread {
    type Answer = Response;

    ghost use Rattle.deed_words.specs.Stations.{station_of};
    ghost use Rattle.site_turns.specs.Turns.{IsToldFirst};

    ghost relates = { λ job worker origin xs ys answer. IsToldFirst (station_of origin.setup job.station) job.fault xs ys answer };

    fn work(&mut self, _worker: u8, desk: &mut DeskStore<D, C, W>) -> Response {
        let fault = match desk.store.site().station(&self.station) {
            None => AskFault::NoStation,
            Some(_) => self.fault,
        };
        unasked_response(self.alloc, fault)
    }
}
