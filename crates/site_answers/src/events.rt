//! The events of a batch, as a document.
ghost use Rattle.std.specs.Prelude.{◌≡◌, ◌<◌, All, IfOk, Some, length, true};
ghost use Rattle.std.specs.List.{filter_map, position};
ghost use Rattle.deed_words.specs.History.{last_stamp, world_of};
ghost use Rattle.deed_words.specs.Names.{Text};
ghost use Rattle.deed_words.specs.Happenings.{has_event};
ghost use Rattle.batch_book.specs.Batches.{is_called};
ghost use Rattle.epcis_events.specs.Documents.{IsProperEvent};
ghost use Rattle.epcis_events.specs.Events.{event_of};
ghost use Rattle.site_core.specs.Seen.{moves_seen};
ghost use Rattle.site_answers.specs.Batches.{events_answer, events_numbered, part_of_events};
ghost use Rattle.site_answers.specs.Saying.{IsSaid};

use crate::fault_name::FaultName;
use crate::response::Response;
use deed_words::{BatchId, Move, Setup};
use epcis_events::{Event, document, event_of, events_are_proper, moves_have_events};
use gs1_keys::{Memory, Text20};
use site_core::Site;
use station_http::Kind;
use std::alloc::Global;

/// The events of moves.
fn events_in(alloc: Global, moves: &[Move], setup: &Setup) -> Result<Vec<Event>, Memory>
    requires { All (λ moved. has_event moved.kept.deed ≡ true) moves.now }
    ensures { IfOk result (λ events. events.items ≡ filter_map (event_of setup.now) moves.now) }
{
    let mut events = Vec::new(alloc);
    for moved in moves {
        events.push(event_of(alloc, moved, setup)?)?;
    }
    Ok(events)
}

/// So many events of a batch, from the one with a number on.
fn events_between(
    alloc: Global,
    site: &Site,
    batch: BatchId,
    from: u32,
    count: u32,
) -> Result<Vec<Event>, Memory>
    requires { batch < length (world_of site.now.setup site.now.history).batches }
    ensures are { IfOk result (λ events. events.items ≡ events_numbered from count (filter_map (event_of site.now.setup) (moves_seen site.now.setup site.now.history (Some batch)))) }
    ensures proper { IfOk result (λ events. All IsProperEvent events.items) }
{
    moves_have_events();
    events_are_proper();
    site.tell_kept();
    let moves = site.moves(Some(batch), from, count)?;
    events_in(alloc, moves.as_slice(), site.setup())
}

/// The document of so many events of a batch.
fn document_of(
    alloc: Global,
    site: &Site,
    batch: BatchId,
    from: u32,
    count: u32,
) -> Result<Vec<u8>, Memory>
    requires { batch < length (world_of site.now.setup site.now.history).batches }
    ensures { IfOk result (λ text. (name : Text) → position (is_called name) (world_of site.now.setup site.now.history).batches ≡ Some batch → text.items ≡ part_of_events site.now.setup site.now.history name from count) }
{
    site.tell_kept();
    let events = events_between(alloc, site, batch, from, count)?;
    document(alloc, &events, site.last_stamp())
}

/// The answer about so many events of the batch of a name, from the one with a number on, the first one having the
/// number 1: their document, or that there is no such batch. Where there are fewer, it has those that are there. It
/// costs what it answers.
pub fn events_response(alloc: Global, site: &Site, name: &Text20, from: u32, count: u32) -> Response
    ensures { IsSaid (events_answer site.now.setup site.now.history name.now from count) result }
{
    let Some(batch) = site.batch(name) else {
        return Response::fault(FaultName::UnknownBatch);
    };
    match document_of(alloc, site, batch, from, count) {
        Ok(text) => Response::made(200, Kind::Json, text),
        Err(_) => Response::fault(FaultName::Memory),
    }
}
