//! The report of a batch.
ghost use Rattle.std.specs.Prelude.{◌≡◌, ◌<◌, length, IfOk, Some};
ghost use Rattle.std.specs.List.{position};
ghost use Rattle.outside.specs.Causes.{HasCauseIf};
ghost use Rattle.outside.specs.Devices.{Puts};
ghost use Rattle.deed_words.specs.History.{world_of};
ghost use Rattle.deed_words.specs.Names.{Text};
ghost use Rattle.batch_book.specs.Batches.{is_called};
ghost use Rattle.batch_report.specs.Views.{report_text};
ghost use Rattle.site_console.specs.Endings.{is_write_ending};
ghost use Rattle.site_console.specs.Looks.{IsSaid, IsTold};
ghost use Rattle.site_console.specs.Serving.{is_write_fault};

use crate::ending::{Ending, ending_of};
use crate::fault::Fault;
use crate::pieces::put_text;
use batch_report::report;
use deed_words::BatchId;
use gs1_keys::{Memory, Text20};
use outside::Sink;
use site_core::Site;
use std::alloc::Global;

/// Puts the report of the batch of a name.
pub(crate) fn tell_report<O: Sink>(alloc: Global, site: &Site, name: &Text20, out: &mut O) -> Ending
    ensures told { Puts (O.held out.old) (O.held out.new) (λ put. IsTold (report_text site.now.setup site.now.history name.now) result put) }
    ensures write { HasCauseIf (is_write_ending result) (O.write_faults out.old) (O.write_faults out.new) }
{
    match site.batch(name) {
        Some(batch) => ending_of(put_report(alloc, site, batch, out)),
        None => Ending::UnknownBatch,
    }
}

/// Puts the report of a batch.
fn put_report<O: Sink>(alloc: Global, site: &Site, batch: BatchId, out: &mut O) -> Result<(), Fault>
    requires { batch < length (world_of site.now.setup site.now.history).batches }
    ensures said { (name text : Text) → position (is_called name) (world_of site.now.setup site.now.history).batches ≡ Some batch → report_text site.now.setup site.now.history name ≡ Some text
        → Puts (O.held out.old) (O.held out.new) (λ put. IsSaid text result put) }
    ensures write { HasCauseIf (is_write_fault result) (O.write_faults out.old) (O.write_faults out.new) }
{
    match report_of(alloc, site, batch) {
        Ok(text) => put_text(out, &text),
        Err(_) => Err(Fault::Memory),
    }
}

/// The report of a batch.
fn report_of(alloc: Global, site: &Site, batch: BatchId) -> Result<Vec<u8>, Memory>
    requires { batch < length (world_of site.now.setup site.now.history).batches }
    ensures { IfOk result (λ text. (name : Text) → position (is_called name) (world_of site.now.setup site.now.history).batches ≡ Some batch → report_text site.now.setup site.now.history name ≡ Some text.items) }
{
    site.tell_kept();
    let view = site.batch_view(batch)?;
    report(alloc, &view)
}
