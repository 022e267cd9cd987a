//! Events and documents as JSON.
ghost use Rattle.std.specs.Prelude.{◌≡◌, ◌++◌, ◌∷◌, true, false, length, IfOk, OnOk, All};
ghost use Rattle.std.specs.Option.{ForSome};
ghost use Rattle.serde_json.specs.Data.{string, object, no_members};
ghost use Rattle.serde_json.specs.View.{view, members_view};
ghost use Rattle.serde_json.specs.Written.{compact_text, items_text, comma_if, has_float};
ghost use Rattle.epc_urn.specs.Urns.{IsPrefixLength};
ghost use Rattle.gs1_element.specs.Dates.{is_expiry};
ghost use Rattle.deed_words.specs.Setups.{is_offset};
ghost use Rattle.epcis_events.specs.Moment.{moment_text};
ghost use Rattle.epcis_events.specs.Documents.{action_word, step_word, disposition_word, type_word, list_word, ilmd_data, ilmd_told, parent_told, doing_told, where_told, when_told, list_told, event_data, events_data, document_text, document_front, document_back, with_told, IsInTime, IsProperEvent};

use crate::date::date_text;
use crate::texts::{ascii_value, moment_value, place_value, text_value, urn_value, urns_value};
use crate::{Action, Disposition, Event, Step};
use epc_urn::Epc;
use gs1_keys::{Memory, Sscc, Text20};
use serde_json::{Map, Value, json, put};
use std::alloc::{AllocError, Global};

/// The word of an action.
#[tactic(auto, unfolding(crate::specs::Documents::action_word))]
fn action_word(action: Action) -> &'static str
    ensures { result.now ≡ action_word action }
{
    match action {
        Action::Add => "ADD",
        Action::Observe => "OBSERVE",
        Action::Delete => "DELETE",
    }
}

/// The word of a business step.
#[tactic(auto, unfolding(crate::specs::Documents::step_word))]
fn step_word(step: Step) -> &'static str
    ensures { result.now ≡ step_word step }
{
    match step {
        Step::Commissioning => "commissioning",
        Step::Packing => "packing",
        Step::Unpacking => "unpacking",
        Step::Inspecting => "inspecting",
        Step::Destroying => "destroying",
        Step::Decommissioning => "decommissioning",
        Step::Shipping => "shipping",
        Step::VoidShipping => "void_shipping",
    }
}

/// The word of a disposition.
#[tactic(auto, unfolding(crate::specs::Documents::disposition_word))]
fn disposition_word(disposition: Disposition) -> &'static str
    ensures { result.now ≡ disposition_word disposition }
{
    match disposition {
        Disposition::Active => "active",
        Disposition::InProgress => "in_progress",
        Disposition::NonSellableOther => "non_sellable_other",
        Disposition::Destroyed => "destroyed",
        Disposition::Inactive => "inactive",
        Disposition::InTransit => "in_transit",
    }
}

/// The word of a type of event.
#[tactic(auto, unfolding(crate::specs::Documents::type_word))]
fn type_word(aggregation: bool) -> &'static str
    ensures { result.now ≡ type_word aggregation }
{
    if aggregation {
        "AggregationEvent"
    } else {
        "ObjectEvent"
    }
}

/// The key of the list of an event.
#[tactic(auto, unfolding(crate::specs::Documents::list_word))]
fn list_word(aggregation: bool) -> &'static str
    ensures { result.now ≡ list_word aggregation }
{
    if aggregation { "childEPCs" } else { "epcList" }
}

/// Puts what an event did.
fn put_doing(
    alloc: Global,
    members: &mut Map<String, Value>,
    event: &Event,
) -> Result<(), AllocError>
    ensures { OnOk result (members_view members.new.entries ≡ with_told (members_view members.old.entries) (doing_told event.now)) }
{
    let action = Value::try_from_str(alloc, action_word(event.action))?;
    let step = Value::try_from_str(alloc, step_word(event.step))?;
    let disposition = Value::try_from_str(alloc, disposition_word(event.disposition))?;
    put(members, alloc, "action", action)?;
    put(members, alloc, "bizStep", step)?;
    put(members, alloc, "disposition", disposition)
}

/// Puts where it was.
fn put_where(
    alloc: Global,
    members: &mut Map<String, Value>,
    event: &Event,
) -> Result<(), AllocError>
    requires { IsPrefixLength event.now.place.1 }
    ensures { OnOk result (members_view members.new.entries ≡ with_told (members_view members.old.entries) (where_told event.now)) }
{
    let location = place_value(alloc, &event.place.0, event.place.1)?;
    let point = place_value(alloc, &event.place.0, event.place.1)?;
    put(members, alloc, "bizLocation", location)?;
    put(members, alloc, "readPoint", point)
}

/// The offset of the site's time.
#[tactic(auto, using(crate::proofs::Ascii::offset_is_ascii))]
fn offset_value(alloc: Global, offset: &[u8; 6]) -> Result<Value, AllocError>
    requires { is_offset offset.now ≡ true }
    ensures { IfOk result (λ v. view v ≡ string offset.now) }
{
    ascii_value(alloc, offset)
}

/// Puts when it was.
fn put_when(
    alloc: Global,
    members: &mut Map<String, Value>,
    event: &Event,
) -> Result<(), AllocError>
    requires time { IsInTime event.now.time }
    requires offset { is_offset event.now.offset ≡ true }
    ensures { OnOk result (members_view members.new.entries ≡ with_told (members_view members.old.entries) (when_told event.now)) }
{
    let time = moment_value(alloc, event.time)?;
    let offset = offset_value(alloc, &event.offset)?;
    put(members, alloc, "eventTime", time)?;
    put(members, alloc, "eventTimeZoneOffset", offset)
}

/// Puts its type, and what it lists.
fn put_list(
    alloc: Global,
    members: &mut Map<String, Value>,
    event: &Event,
) -> Result<(), AllocError>
    requires { All (λ one. IsPrefixLength one.1) event.now.epcs }
    ensures { OnOk result (members_view members.new.entries ≡ with_told (members_view members.old.entries) (list_told event.now)) }
{
    let kind = Value::try_from_str(alloc, type_word(event.aggregation))?;
    let list = urns_value(alloc, event.epcs.as_slice())?;
    put(members, alloc, "type", kind)?;
    put(members, alloc, list_word(event.aggregation), list)
}

/// Puts the parent, where there is one.
fn put_parent(
    alloc: Global,
    members: &mut Map<String, Value>,
    parent: &Option<(Sscc, u8)>,
) -> Result<(), AllocError>
    requires { ForSome parent.now (λ one. IsPrefixLength one.1) }
    ensures { OnOk result (members_view members.new.entries ≡ with_told (members_view members.old.entries) (parent_told parent.now)) }
{
    match parent {
        Some((sscc, prefix_length)) => {
            let urn = urn_value(alloc, &Epc::Unit(*sscc), *prefix_length)?;
            put(members, alloc, "parentID", urn)
        }
        None => Ok(()),
    }
}

/// Lot and expiry of commissioned items.
#[tactic(auto, using(crate::proofs::Ascii::date_ascii))]
fn ilmd_value(alloc: Global, lot: &Text20, expiry: &[u8; 6]) -> Result<Value, AllocError>
    requires { is_expiry expiry.now ≡ true }
    ensures { IfOk result (λ v. view v ≡ ilmd_data (lot.now, expiry.now)) }
{
    let text = date_text(expiry);
    let date = ascii_value(alloc, &text)?;
    let lot = text_value(alloc, lot)?;
    json!(in alloc; {"cbvmda:itemExpirationDate": date, "cbvmda:lotNumber": lot})
}

/// Puts lot and expiry, where they are told.
fn put_ilmd(
    alloc: Global,
    members: &mut Map<String, Value>,
    ilmd: &Option<(Text20, [u8; 6])>,
) -> Result<(), AllocError>
    requires { ForSome ilmd.now (λ told. is_expiry told.1 ≡ true) }
    ensures { OnOk result (members_view members.new.entries ≡ with_told (members_view members.old.entries) (ilmd_told ilmd.now)) }
{
    let Some(told) = ilmd else {
        return Ok(());
    };
    let lot = told.0;
    let expiry = told.1;
    let value = ilmd_value(alloc, &lot, &expiry)?;
    put(members, alloc, "ilmd", value)
}

/// The JSON of an event.
#[tactic(auto, unfolding(crate::specs::Documents::event_data))]
fn event_value(alloc: Global, event: &Event) -> Result<Value, AllocError>
    requires { IsProperEvent event.now }
    ensures { IfOk result (λ v. view v ≡ event_data event.now) }
{
    let mut members = Map::new(alloc);
    put_doing(alloc, &mut members, event)?;
    put_where(alloc, &mut members, event)?;
    put_when(alloc, &mut members, event)?;
    put_list(alloc, &mut members, event)?;
    put_parent(alloc, &mut members, &event.parent)?;
    put_ilmd(alloc, &mut members, &event.ilmd)?;
    Ok(Value::Object(members))
}

/// Writes a value that has no float.
fn push_value(alloc: Global, out: &mut Vec<u8>, value: &Value) -> Result<(), AllocError>
    requires { has_float (view value.now) ≡ false }
    ensures { OnOk result (out.new.items ≡ out.old.items ++ compact_text (view value.now)) }
{
    let text = value.to_vec(alloc)?;
    out.extend_from_slice(text.as_slice())
}

/// Writes an event.
#[tactic(auto, using(crate::proofs::Floats::event_has_no_float))]
fn push_event(alloc: Global, out: &mut Vec<u8>, event: &Event) -> Result<(), AllocError>
    requires { IsProperEvent event.now }
    ensures { OnOk result (out.new.items ≡ out.old.items ++ compact_text (event_data event.now)) }
{
    let value = event_value(alloc, event)?;
    push_value(alloc, out, &value)
}

/// Writes a moment.
fn push_moment(alloc: Global, out: &mut Vec<u8>, stamp: u64) -> Result<(), AllocError>
    requires { IsInTime stamp }
    ensures { OnOk result (out.new.items ≡ out.old.items ++ compact_text (string (moment_text stamp))) }
{
    let value = moment_value(alloc, stamp)?;
    push_value(alloc, out, &value)
}

/// Writes a comma, where something stands before.
fn push_comma_if(out: &mut Vec<u8>, later: bool) -> Result<(), AllocError>
    ensures { OnOk result (out.new.items ≡ out.old.items ++ comma_if later) }
{
    if later {
        out.push(b',')?;
    }
    Ok(())
}

/// Writes the events with their closing bracket.
fn push_events(alloc: Global, out: &mut Vec<u8>, events: &[Event]) -> Result<(), AllocError>
    requires { All IsProperEvent events.now }
    ensures { OnOk result (out.new.items ≡ out.old.items ++ items_text false (events_data events.now)) }
{
    for (i, event) in events.iter().enumerate() {
        push_comma_if(out, i > 0)?;
        push_event(alloc, out, event)?;
    }
    out.push(b']')?;
    Ok(())
}

/// What stands in front of the events of a document.
#[tactic(auto, unfolding(crate::specs::Documents::document_front))]
fn front_bytes(alloc: Global, created: u64) -> Result<Vec<u8>, AllocError>
    requires { IsInTime created }
    ensures { IfOk result (λ text. text.items ≡ document_front created) }
{
    let mut out = Vec::new(alloc);
    out.extend_from_slice(
        b"{\"@context\":[\"https://ref.gs1.org/standards/epcis/2.0.0/epcis-context.jsonld\"],\"creationDate\":",
    )?;
    push_moment(alloc, &mut out, created)?;
    out.extend_from_slice(b",\"epcisBody\":{\"eventList\":[")?;
    Ok(out)
}

/// An event, behind a comma where another one stands before it.
fn event_bytes(alloc: Global, event: &Event, later: bool) -> Result<Vec<u8>, AllocError>
    requires { IsProperEvent event.now }
    ensures { IfOk result (λ text. text.items ≡ comma_if later ++ compact_text (event_data event.now)) }
{
    let mut out = Vec::new(alloc);
    push_comma_if(&mut out, later)?;
    push_event(alloc, &mut out, event)?;
    Ok(out)
}

/// Opens a document that was created at that moment: its text up to the first event. A document may be put in parts,
/// so that its events needn't stand in memory together: this, each event, and what closes it.
///
/// # Errors
///
/// `Memory` where no memory was found.
pub fn open_document(alloc: Global, created: u64) -> Result<Vec<u8>, Memory>
    requires { IsInTime created }
    ensures { IfOk result (λ text. text.items ≡ document_front created) }
{
    match front_bytes(alloc, created) {
        Ok(text) => Ok(text),
        Err(_) => Err(Memory),
    }
}

/// The text of an event in a document, behind a comma where another event stands before it.
///
/// # Errors
///
/// `Memory` where no memory was found.
pub fn event_text(alloc: Global, event: &Event, later: bool) -> Result<Vec<u8>, Memory>
    requires { IsProperEvent event.now }
    ensures { IfOk result (λ text. text.items ≡ comma_if later ++ compact_text (event_data event.now)) }
{
    match event_bytes(alloc, event, later) {
        Ok(text) => Ok(text),
        Err(_) => Err(Memory),
    }
}

/// Closes a document: its text behind the last event.
pub fn close_document() -> &'static [u8]
    ensures { result.now ≡ document_back }
{
    b"]},\"schemaVersion\":\"2.0\",\"type\":\"EPCISDocument\"}"
}

/// The document of some events, which was created at that moment: its exact text.
pub fn document(alloc: Global, events: &[Event], created: u64) -> Result<Vec<u8>, Memory>
    requires events { All IsProperEvent events.now }
    requires created { IsInTime created }
    ensures { IfOk result (λ text. text.items ≡ document_text events.now created) }
{
    match document_bytes(alloc, events, created) {
        Ok(text) => Ok(text),
        Err(_) => Err(Memory),
    }
}

/// The same, piece by piece.
fn document_bytes(alloc: Global, events: &[Event], created: u64) -> Result<Vec<u8>, AllocError>
    requires events { All IsProperEvent events.now }
    requires created { IsInTime created }
    ensures { IfOk result (λ text. text.items ≡ document_text events.now created) }
{
    let mut out = front_bytes(alloc, created)?;
    push_events(alloc, &mut out, events)?;
    out.extend_from_slice(b"},\"schemaVersion\":\"2.0\",\"type\":\"EPCISDocument\"}")?;
    Ok(out)
}
