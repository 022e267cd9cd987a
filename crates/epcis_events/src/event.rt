//! Events (EPCIS 2.0): what happened to which names, when and where.
ghost use Rattle.std.specs.Prelude.{◌≡◌, ◌<◌, ◌↔◌, true, [], ◌∷◌, ◌++◌, length, slice_index_or, is_ok, if◌then◌else◌, All};
ghost use Rattle.std.specs.Option.{ForSome};
ghost use Rattle.epc_urn.specs.Urns.{IsPrefixLength};
ghost use Rattle.gs1_element.specs.Dates.{is_expiry};
ghost use Rattle.epcis_events.specs.Documents.{IsProperEvent};

use deed_words::is_time_offset;
use epc_urn::Epc;
use gs1_element::is_date;
use gs1_keys::{Gln, Memory, Sscc, Text20};
use std::alloc::Global;
use std::marker::Model;

/// What an event does with what it lists (EPCIS 2.0, section 7.3.2).
#[derive(Clone, Copy, Debug, PartialEq, Eq)]
pub enum Action {
    /// It brings it into being, or puts it into its parent.
    Add,
    /// It was seen.
    Observe,
    /// It ends it, or takes it out of its parent.
    Delete,
}

/// The business step of an event, by the words of CBV 2.0, section 7.1.
#[derive(Clone, Copy, Debug, PartialEq, Eq)]
pub enum Step {
    Commissioning,
    Packing,
    Unpacking,
    Inspecting,
    Destroying,
    Decommissioning,
    Shipping,
    VoidShipping,
}

/// How things stand after an event, by the words of CBV 2.0, section 7.2.
#[derive(Clone, Copy, Debug, PartialEq, Eq)]
pub enum Disposition {
    Active,
    InProgress,
    NonSellableOther,
    Destroyed,
    Inactive,
    InTransit,
}

/// What kind of event a deed has.
#[derive(Clone, Copy, Debug, PartialEq, Eq)]
pub struct Kind {
    /// Whether it is an AggregationEvent, else an ObjectEvent.
    pub aggregation: bool,
    /// Its action.
    pub action: Action,
    /// Its business step.
    pub step: Step,
    /// Its disposition.
    pub disposition: Disposition,
}

/// Names, each with the length of the company prefix with which its URN is written: 6 to 12.
#[derive(Debug, Drop)]
pub struct Named {
    items: Vec<(Epc, u8)>,
}

impl Model for Named {
    ghost use Rattle.std.specs.Prelude.{List, ℕ};
    ghost use Rattle.epc_urn.specs.declared.epc.Epc.{Epc};

    ghost Value = { List (Epc × ℕ) };

    ghost view = { λ s. s.items.items };
}

impl Named {
    /// No names.
    pub fn new(alloc: Global) -> Self
        ensures { result ≡ [] }
    {
        Named {
            items: Vec::new(alloc),
        }
    }

    /// Puts a name last, or changes nothing.
    pub fn push(&mut self, item: (Epc, u8)) -> Result<(), Memory>
        ensures { self.new ≡ (if is_ok result then self.old ++ item ∷ [] else self.old) }
    {
        match self.items.push(item) {
            Ok(()) => Ok(()),
            Err(_) => Err(Memory),
        }
    }

    /// These names.
    pub fn from_vec(items: Vec<(Epc, u8)>) -> Self
        ensures { result ≡ items.items }
    {
        Named { items }
    }

    /// How many there are.
    pub fn len(&self) -> usize
        ensures { result ≡ length self.now }
    {
        self.items.len()
    }

    /// The name at a place.
    pub fn get(&self, at: usize) -> &(Epc, u8)
        requires { at < length self.now }
        ensures { result.now ≡ slice_index_or self.now at result.now }
    {
        &self.items[at]
    }

    /// All of them.
    pub fn as_slice(&self) -> &[(Epc, u8)]
        ensures { result.now ≡ self.now }
    {
        self.items.as_slice()
    }
}

/// An event.
#[derive(Debug, Drop)]
pub struct Event {
    /// Whether it is an AggregationEvent, else an ObjectEvent.
    pub aggregation: bool,
    /// Its action.
    pub action: Action,
    /// Its business step.
    pub step: Step,
    /// Its disposition.
    pub disposition: Disposition,
    /// What it lists, each name with the length of its company prefix.
    pub epcs: Named,
    /// The parent of an aggregation, with the length of its company prefix.
    pub parent: Option<(Sscc, u8)>,
    /// When it happened: milliseconds since 1970, at most 253402300799999, the last of the year 9999.
    pub time: u64,
    /// Where it happened: the site's location, with the length of its company prefix.
    pub place: (Gln, u8),
    /// The offset of the site's time: a sign, two digits, a colon and two digits, from -14:00 to +14:00.
    pub offset: [u8; 6],
    /// Lot and expiry (YYMMDD, where 00 is the last day of its month) of commissioned items.
    pub ilmd: Option<(Text20, [u8; 6])>,
}

/// Whether a company prefix may have this length.
fn is_prefix_length(length: u8) -> bool
    ensures { (result ≡ true) ↔ IsPrefixLength length }
{
    (6..=12).contains(&length)
}

/// Whether the prefix lengths of all names are in range.
fn all_in_range(named: &[(Epc, u8)]) -> bool
    ensures { (result ≡ true) ↔ All (λ one. IsPrefixLength one.1) named.now }
{
    named.iter().all(|one| is_prefix_length(one.1))
}

/// Whether the prefix length of a parent is in range.
fn parent_in_range(parent: &Option<(Sscc, u8)>) -> bool
    ensures { (result ≡ true) ↔ ForSome parent.now (λ one. IsPrefixLength one.1) }
{
    match parent {
        Some((_, length)) => is_prefix_length(*length),
        None => true,
    }
}

/// Whether the expiry that is told is a date.
fn is_dated(ilmd: &Option<(Text20, [u8; 6])>) -> bool
    ensures { (result ≡ true) ↔ ForSome ilmd.now (λ told. is_expiry told.1 ≡ true) }
{
    match ilmd {
        Some(told) => is_date(&told.1),
        None => true,
    }
}

impl Event {
    /// Whether a document can have it: the prefix lengths, the time, the offset and the expiry are
    /// in their ranges, and exactly an aggregation has a parent.
    pub fn is_proper(&self) -> bool
        ensures { (result ≡ true) ↔ IsProperEvent self.now }
    {
        all_in_range(self.epcs.as_slice())
            && parent_in_range(&self.parent)
            && self.parent.is_some() == self.aggregation
            && is_prefix_length(self.place.1)
            && self.time <= 253_402_300_799_999
            && is_time_offset(&self.offset)
            && is_dated(&self.ilmd)
    }
}
