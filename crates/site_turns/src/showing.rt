//! Requests that only read.
ghost use Rattle.std.specs.Prelude.{◌≡◌, true};
ghost use Rattle.site_turns.specs.Answering.{Shows};
ghost use Rattle.site_turns.specs.Origins.{IsServing, desk_notes, origin_of};
ghost use Rattle.site_turns.specs.Shown.{is_shown};

use crate::serving::DeskStore;
use http_routes::Target;
use outside::{Clock, Disk, Words};
use site_answers::{Response, events_response, item_response, report_response, unit_response};
use site_store::Store;
use std::alloc::Global;
use turn_desk::Job;

/// Reads what a GET asks for.
#[derive(Drop)]
pub struct Show {
    /// For the text of the answer.
    pub alloc: Global,
    /// What is asked for, which isn't a numbered request.
    pub target: Target,
    /// The condition of its work.
    ghost shown: { is_shown target ≡ true },
}

impl<D: Disk, C: Clock, W: Words> Job<DeskStore<D, C, W>> for Show {
    type Answer = Response;

    ghost use Rattle.site_turns.specs.Answering.{Shows};

    ghost relates = { λ job worker origin xs ys answer. Shows origin job.target xs ys answer };

    fn work(&mut self, _worker: u8, desk: &mut DeskStore<D, C, W>) -> Response {
        shown(self.alloc, &desk.store, &self.target)
    }
}

/// What is told of the site as it stands.
fn shown<D: Disk, C: Clock, W: Words>(
    alloc: Global,
    store: &Store<D, C, W>,
    target: &Target,
) -> Response
    requires serving { IsServing D.Disk C.Clock W.Words store.now }
    requires shown { is_shown target.now ≡ true }
    ensures { Shows (origin_of D.Disk C.Clock W.Words store.now) target.now (desk_notes store.now) (desk_notes store.now) result }
{
    let site = store.site();
    match target {
        Target::Report { batch } => report_response(alloc, site, batch),
        Target::Events { batch, from, count } => events_response(alloc, site, batch, *from, *count),
        Target::Item { gtin, serial } => item_response(alloc, site, gtin, serial),
        Target::Unit { sscc } => unit_response(alloc, site, sscc),
        Target::Submit { .. } => unreachable!(),
    }
}
