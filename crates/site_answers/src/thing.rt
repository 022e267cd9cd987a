//! Answers about one item and one unit.
ghost use Rattle.std.specs.Prelude.{◌≡◌, IfOk, string_bytes};
ghost use Rattle.serde_json.specs.View.{view};
ghost use Rattle.serde_json.specs.Written.{compact_text};
ghost use Rattle.deed_words.specs.History.{world_of};
ghost use Rattle.site_core.specs.Seen.{item_seen, unit_seen};
ghost use Rattle.site_answers.specs.Saying.{IsSaid};
ghost use Rattle.site_answers.specs.Things.{item_answer, item_data, unit_answer, unit_data};

use crate::fault_name::FaultName;
use crate::response::Response;
use crate::told::json_response;
use crate::values::{line_value, parent_value, word_of_level, word_of_mark, word_of_state};
use deed_json::text_value;
use gs1_keys::{Gtin, Memory, Sscc, Text20};
use serde_json::{Value, json};
use site_core::{ItemView, Site, UnitView};
use std::alloc::{AllocError, Global};

/// An item as JSON.
#[tactic(auto, unfolding(crate::specs::Things::item_data))]
fn item_value(alloc: Global, item: &ItemView) -> Result<Value, AllocError>
    ensures { IfOk result (λ v. view v ≡ item_data item.now) }
{
    let batch = text_value(alloc, &item.batch)?;
    let line = line_value(alloc, &item.line)?;
    let parent = parent_value(alloc, &item.parent)?;
    let state = word_of_state(item.state);
    json!(in alloc; {"batch": batch, "line": line, "ok": true, "parent": parent, "state": state})
}

/// A unit as JSON.
#[tactic(auto, unfolding(crate::specs::Things::unit_data))]
fn unit_value(alloc: Global, unit: &UnitView) -> Result<Value, AllocError>
    ensures { IfOk result (λ v. view v ≡ unit_data unit.now) }
{
    let batch = text_value(alloc, &unit.batch)?;
    let level = word_of_level(unit.level);
    let mark = word_of_mark(unit.mark);
    let parent = parent_value(alloc, &unit.parent)?;
    json!(in alloc; {"batch": batch, "children": unit.children, "level": level, "mark": mark, "ok": true, "parent": parent})
}

/// The text of an item.
fn item_text(alloc: Global, item: &ItemView) -> Result<String, Memory>
    ensures { IfOk result (λ s. string_bytes s ≡ compact_text (item_data item.now)) }
{
    let Ok(value) = item_value(alloc, item) else {
        return Err(Memory);
    };
    match value.to_string(alloc) {
        Ok(text) => Ok(text),
        Err(_) => Err(Memory),
    }
}

/// The text of a unit.
fn unit_text(alloc: Global, unit: &UnitView) -> Result<String, Memory>
    ensures { IfOk result (λ s. string_bytes s ≡ compact_text (unit_data unit.now)) }
{
    let Ok(value) = unit_value(alloc, unit) else {
        return Err(Memory);
    };
    match value.to_string(alloc) {
        Ok(text) => Ok(text),
        Err(_) => Err(Memory),
    }
}

/// The answer about the item of a name: its batch, its line, its state and the case that it stands in; or that there is
/// none.
pub fn item_response(alloc: Global, site: &Site, gtin: &Gtin, serial: &Text20) -> Response
    ensures { IsSaid (item_answer (item_seen site.now.setup (world_of site.now.setup site.now.history) gtin.now serial.now)) result }
{
    match site.item_view(gtin, serial) {
        Some(item) => json_response(200, item_text(alloc, &item)),
        None => Response::fault(FaultName::UnknownItem),
    }
}

/// The answer about the unit of a code: its batch, what it is, how it stands, the pallet that it stands on, and how many
/// things stand in it; or that there is none.
pub fn unit_response(alloc: Global, site: &Site, sscc: &Sscc) -> Response
    ensures { IsSaid (unit_answer (unit_seen (world_of site.now.setup site.now.history) sscc.now)) result }
{
    match site.unit_view(sscc) {
        Some(unit) => json_response(200, unit_text(alloc, &unit)),
        None => Response::fault(FaultName::UnknownUnit),
    }
}
