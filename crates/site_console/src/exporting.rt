//! The document of a batch's events, which is put event by event.
ghost use Rattle.std.specs.Prelude.{◌≡◌, ◌<◌, ◌-◌, ◌++◌, ◌∷◌, [], false, length, take, drop, Some};
ghost use Rattle.std.specs.List.{position};
ghost use Rattle.outside.specs.Causes.{HasCauseIf};
ghost use Rattle.outside.specs.Devices.{Puts};
ghost use Rattle.serde_json.specs.Written.{comma_if, compact_text};
ghost use Rattle.deed_words.specs.History.{last_stamp, world_of};
ghost use Rattle.deed_words.specs.Names.{Text};
ghost use Rattle.batch_book.specs.Batches.{is_called};
ghost use Rattle.epcis_events.specs.Documents.{document_back, document_front, event_data, events_text, IsProperEvent};
ghost use Rattle.site_console.specs.Endings.{is_write_ending};
ghost use Rattle.site_console.specs.Looks.{events_seen, export_text, exported, IsSaid, IsTold};
ghost use Rattle.site_console.specs.Newline.{newline};
ghost use Rattle.site_console.specs.Serving.{is_write_fault};

use crate::ending::{Ending, ending_of};
use crate::fault::Fault;
use crate::moves::event_at;
use crate::pieces::{count_entries, first_place, past_place, put_text};
use deed_words::BatchId;
use epcis_events::{
    Event, close_document, documents_have_parts, event_text, moves_have_events, open_document,
};
use gs1_keys::Text20;
use outside::Sink;
use site_core::Site;
use std::alloc::Global;

/// Puts the document of so many events of the batch of a name, from the one with a number on.
pub(crate) fn tell_events<O: Sink>(
    alloc: Global,
    site: &Site,
    name: &Text20,
    from: u32,
    count: u32,
    out: &mut O,
) -> Ending
    ensures told { Puts (O.held out.old) (O.held out.new) (λ put. IsTold (export_text site.now.setup site.now.history name.now from count) result put) }
    ensures write { HasCauseIf (is_write_ending result) (O.write_faults out.old) (O.write_faults out.new) }
{
    match site.batch(name) {
        Some(batch) => ending_of(put_document(alloc, site, batch, from, count, out)),
        None => Ending::UnknownBatch,
    }
}

/// Puts the document of so many events of a batch.
fn put_document<O: Sink>(
    alloc: Global,
    site: &Site,
    batch: BatchId,
    from: u32,
    count: u32,
    out: &mut O,
) -> Result<(), Fault>
    requires { batch < length (world_of site.now.setup site.now.history).batches }
    ensures said { (name : Text) → position (is_called name) (world_of site.now.setup site.now.history).batches ≡ Some batch
        → Puts (O.held out.old) (O.held out.new) (λ put. IsSaid (exported site.now.setup site.now.history name from count) result put) }
    ensures write { HasCauseIf (is_write_fault result) (O.write_faults out.old) (O.write_faults out.new) }
{
    documents_have_parts();
    put_front(alloc, site, out)?;
    put_events(alloc, site, batch, from, count, out)?;
    put_back(out)
}

/// Puts what stands in front of the events.
fn put_front<O: Sink>(alloc: Global, site: &Site, out: &mut O) -> Result<(), Fault>
    ensures said { Puts (O.held out.old) (O.held out.new) (λ put. IsSaid (document_front (last_stamp site.now.history)) result put) }
    ensures write { HasCauseIf (is_write_fault result) (O.write_faults out.old) (O.write_faults out.new) }
{
    site.tell_kept();
    match open_document(alloc, site.last_stamp()) {
        Ok(text) => put_text(out, &text),
        Err(_) => Err(Fault::Memory),
    }
}

/// Puts what stands behind the events, and a newline.
fn put_back<O: Sink>(out: &mut O) -> Result<(), Fault>
    ensures said { Puts (O.held out.old) (O.held out.new) (λ put. IsSaid (document_back ++ newline ∷ []) result put) }
    ensures write { HasCauseIf (is_write_fault result) (O.write_faults out.old) (O.write_faults out.new) }
{
    put_text(out, close_document())?;
    put_text(out, b"\n")
}

/// Puts so many events of a batch, from the one with a number on. It goes no further than the events do.
fn put_events<O: Sink>(
    alloc: Global,
    site: &Site,
    batch: BatchId,
    from: u32,
    count: u32,
    out: &mut O,
) -> Result<(), Fault>
    requires { batch < length (world_of site.now.setup site.now.history).batches }
    ensures said { Puts (O.held out.old) (O.held out.new) (λ put. IsSaid (events_text false (take count (drop (from - 1) (events_seen site.now.setup site.now.history (Some batch))))) result put) }
    ensures write { HasCauseIf (is_write_fault result) (O.write_faults out.old) (O.write_faults out.new) }
{
    moves_have_events();
    let Ok(entries) = count_entries(site) else {
        return Err(Fault::Memory);
    };
    let first = first_place(from, entries);
    let past = past_place(first, count, entries);
    let mut place = first;
    'events: while place < past {
        let Ok(event) = event_at(alloc, site, Some(batch), place + 1) else {
            return Err(Fault::Memory);
        };
        let Some(event) = event else {
            return Ok(());
        };
        put_event(alloc, &event, place > first, out)?;
        place += 1;
    }
    Ok(())
}

/// Puts an event, behind a comma where another one stands before it.
fn put_event<O: Sink>(alloc: Global, event: &Event, later: bool, out: &mut O) -> Result<(), Fault>
    requires { IsProperEvent event.now }
    ensures said { Puts (O.held out.old) (O.held out.new) (λ put. IsSaid (comma_if later ++ compact_text (event_data event.now)) result put) }
    ensures write { HasCauseIf (is_write_fault result) (O.write_faults out.old) (O.write_faults out.new) }
{
    match event_text(alloc, event, later) {
        Ok(text) => put_text(out, &text),
        Err(_) => Err(Fault::Memory),
    }
}
