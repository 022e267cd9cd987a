//! The lines of a batch.
ghost use Rattle.std.specs.Prelude.{◌≡◌, ◌≤◌, ◌++◌, length, filter_map, IfOk, OnOk};
ghost use Rattle.deed_words.specs.Chain.{each_from};
ghost use Rattle.deed_words.specs.Happenings.{listed};
ghost use Rattle.site_views.specs.Own.{row_of_line};

use batch_report::{LineRow, Lines};
use deed_words::{BatchId, Station, StationId};
use gs1_keys::{Memory, Text20};
use item_store::Items;
use std::alloc::Global;

/// What the line made of the serials of the batch, where it was lent any.
#[tactic(auto, unfolding(crate::specs::Own::row_of_line, deed_words::specs::Chain::when))]
fn row_of(items: &Items, batch: BatchId, line: StationId, name: Text20) -> Option<LineRow>
    ensures { result ≡ row_of_line batch items.now.rows line name }
{
    if !items.was_lent(batch, line) {
        return None;
    }
    Some(LineRow {
        name,
        numbers: items.line_counts(batch, line),
    })
}

/// Puts a line last, where there is one.
#[tactic(auto, unfolding(deed_words::specs::Happenings::listed))]
fn push_row(lines: &mut Lines, row: Option<LineRow>) -> Result<(), Memory>
    ensures { OnOk result (lines.new ≡ lines.old ++ listed row) }
{
    match row {
        Some(row) => lines.push(row),
        None => Ok(()),
    }
}

/// The lines that were lent serials of the batch, in the order of the stations.
pub(crate) fn lines_of(
    alloc: Global,
    stations: &[Station],
    items: &Items,
    batch: BatchId,
) -> Result<Lines, Memory>
    requires { length stations.now ≤ 64 }
    ensures { IfOk result (λ lines. lines ≡ filter_map (λ row. row) (each_from 0 (λ line station. row_of_line batch items.now.rows line station.name) stations.now)) }
{
    let mut lines = Lines::new(alloc);
    for (line, station) in stations.iter().enumerate() {
        let row = row_of(items, batch, StationId(line as u8), station.name);
        push_row(&mut lines, row)?;
    }
    Ok(lines)
}
