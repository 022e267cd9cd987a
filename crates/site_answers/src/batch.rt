//! Answers about one batch: its report and its events.
ghost use Rattle.std.specs.Prelude.{◌≡◌, ◌<◌, All, List, ℕ, IfOk, Some, length};
ghost use Rattle.std.specs.List.{position};
ghost use Rattle.deed_words.specs.History.{world_of};
ghost use Rattle.deed_words.specs.Names.{Text};
ghost use Rattle.batch_book.specs.Batches.{is_called};
ghost use Rattle.batch_report.specs.Views.{report_text};
ghost use Rattle.site_answers.specs.Batches.{report_answer};
ghost use Rattle.site_answers.specs.Saying.{IsSaid};

use crate::fault_name::FaultName;
use crate::response::Response;
use batch_report::report;
use deed_words::BatchId;
use gs1_keys::{Memory, Text20};
use site_core::Site;
use station_http::Kind;
use std::alloc::Global;

/// The report of a batch.
fn report_of(alloc: Global, site: &Site, batch: BatchId) -> Result<Vec<u8>, Memory>
    requires { batch < length (world_of site.now.setup site.now.history).batches }
    ensures { IfOk result (λ text. (name : Text) → position (is_called name) (world_of site.now.setup site.now.history).batches ≡ Some batch → report_text site.now.setup site.now.history name ≡ Some text.items) }
{
    site.tell_kept();
    let view = site.batch_view(batch)?;
    report(alloc, &view)
}

/// The answer about the batch of a name: its report, or that there is none.
pub fn report_response(alloc: Global, site: &Site, name: &Text20) -> Response
    ensures { IsSaid (report_answer site.now.setup site.now.history name.now) result }
{
    let Some(batch) = site.batch(name) else {
        return Response::fault(FaultName::UnknownBatch);
    };
    match report_of(alloc, site, batch) {
        Ok(text) => Response::made(200, Kind::Text, text),
        Err(_) => Response::fault(FaultName::Memory),
    }
}
