//! The events of a site, one by one, made from its moves.
ghost use Rattle.std.specs.Prelude.{◌≡◌, ◌<◌, ◌≤◌, ◌-◌, length, take, drop, IfOk, IfSome};
ghost use Rattle.deed_words.specs.Happenings.{listed};
ghost use Rattle.deed_words.specs.History.{world_of};
ghost use Rattle.epcis_events.specs.Documents.{IsProperEvent};
ghost use Rattle.site_console.specs.Looks.{events_seen};

use deed_words::BatchId;
use epcis_events::{Event, event_of, events_are_proper, moves_have_events};
use gs1_keys::Memory;
use site_core::Site;
use std::alloc::Global;

/// The event with a number, from 1, of all events or of those of a batch; None where there are fewer. One move is read,
/// and no other.
///
/// # Errors
///
/// `Memory` where no memory was found.
pub(crate) fn event_at(
    alloc: Global,
    site: &Site,
    batch: Option<BatchId>,
    number: u32,
) -> Result<Option<Event>, Memory>
    requires batch { IfSome batch (λ at. at < length (world_of site.now.setup site.now.history).batches) }
    requires number { 1 ≤ number }
    ensures is { IfOk result (λ event. listed event ≡ take 1 (drop (number - 1) (events_seen site.now.setup site.now.history batch))) }
    ensures proper { IfOk result (λ event. IfSome event IsProperEvent) }
{
    site.tell_kept();
    moves_have_events();
    events_are_proper();
    let moves = site.moves(batch, number, 1)?;
    if moves.len() == 0 {
        return Ok(None);
    }
    let event = event_of(alloc, moves.get(0), site.setup())?;
    Ok(Some(event))
}
