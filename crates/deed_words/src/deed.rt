//! Deeds.
ghost use Rattle.std.specs.Prelude.{◌≡◌, ◌↔◌, true, IfOk};
ghost use Rattle.std.specs.List.{list_all};
ghost use Rattle.gs1_keys.specs.Keys.{is_between};
ghost use Rattle.deed_words.specs.Proper.{is_order, is_dated, IsProperDeed};

use crate::{Codes, Epcs, Level, Rows};
use gs1_element::{Code, is_date};
use gs1_keys::{Gtin, Memory, Serials, Sscc, Text20};

/// The order of a batch.
#[derive(Clone, Copy, Debug, PartialEq, Eq)]
pub struct OrderRow {
    /// The name of the batch.
    pub batch: Text20,
    /// What is made.
    pub gtin: Gtin,
    /// The lot that is printed.
    pub lot: Text20,
    /// The expiry that is printed: six digits YYMMDD, the day 00 being the last of its month.
    pub expiry: [u8; 6],
    /// How many items are to be made: 1 to 1,000,000.
    pub quantity: u32,
    /// How many items a case takes: 1 to 1,000.
    pub case_size: u16,
    /// How many cases a pallet takes: up to 1,000, 0 where the batch has no pallets.
    pub pallet_size: u16,
}

impl OrderRow {
    /// Whether its date and its numbers are in their ranges. That the batch has a name its type keeps.
    #[tactic(auto, unfolding(crate::specs::Proper::is_order, crate::specs::Chain::is_empty))]
    pub fn is_proper(&self) -> bool
        ensures { result ≡ is_order self.now }
    {
        !self.batch.bytes().is_empty()
            && is_date(&self.expiry)
            && is_quantity(self.quantity)
            && (1..=1_000).contains(&self.case_size)
            && self.pallet_size <= 1_000
    }
}

/// Whether a batch may be of so many items.
fn is_quantity(quantity: u32) -> bool
    ensures { result ≡ is_between 1 1000000 quantity }
{
    (1..=1_000_000).contains(&quantity)
}

/// Whether the expiry of a code is a date.
#[tactic(auto, unfolding(crate::specs::Proper::is_dated))]
fn has_date(code: &Code) -> bool
    ensures { result ≡ is_dated code.now }
{
    is_date(&code.expiry)
}

/// Whether all orders are proper.
fn are_orders(rows: &[OrderRow]) -> bool
    ensures { result ≡ list_all is_order rows.now }
{
    rows.iter().all(|row| row.is_proper())
}

/// Whether the expiries of all codes are dates.
fn have_dates(codes: &[Code]) -> bool
    ensures { result ≡ list_all is_dated codes.now }
{
    codes.iter().all(|code| has_date(code))
}

/// What a station asks for. A first text is the name of the batch, and an SSCC is the container.
#[derive(Debug, Drop)]
pub enum Deed {
    /// A planner orders a batch.
    Order(OrderRow),
    /// A planner orders the batches of an order file.
    Orders(Rows),
    /// A planner starts a batch.
    Start(Text20),
    /// A planner draws so many serials for a batch.
    Draw(Text20, u32),
    /// A line borrows so many serials of a batch.
    Lend(Text20, u32),
    /// A line printed these codes.
    Commission(Text20, Codes),
    /// A line spoiled these serials.
    Spoil(Text20, Serials),
    /// A line gives these serials back unused.
    Giveback(Text20, Serials),
    /// These items are taken as samples.
    Sample(Text20, Epcs),
    /// These items are rejected.
    Reject(Text20, Epcs),
    /// These rejected items are good again.
    Reinstate(Text20, Epcs),
    /// These rejected items or samples are destroyed.
    Destroy(Text20, Epcs),
    /// These items leave the trade.
    Decommission(Text20, Epcs),
    /// A line makes an empty case or pallet.
    Container(Text20, Level),
    /// A line puts these into the container.
    Pack(Sscc, Epcs),
    /// These are taken out of the container.
    Unpack(Sscc, Epcs),
    /// All are taken out of the container.
    UnpackAll(Sscc),
    /// A line closes the container.
    Seal(Sscc),
    /// The container is opened again.
    Unseal(Sscc),
    /// The empty container is put out of use.
    Void(Sscc),
    /// A line declares how many serials of the batch were good, spoiled and returned.
    Declare(Text20, u32, u32, u32),
    /// A planner closes a batch.
    Close(Text20),
    /// A planner changes the quantity of a batch: 1 to 1,000,000.
    Amend(Text20, u32),
}

impl Deed {
    /// Whether each field is in its range: dates and numbers of orders, dates of codes, and at
    /// most 1,000 entries in a list.
    pub fn is_proper(&self) -> bool
        ensures { (result ≡ true) ↔ IsProperDeed self.now }
    {
        match self {
            Deed::Order(row) => row.is_proper(),
            Deed::Orders(rows) => rows.len() <= 1_000 && are_orders(rows.as_slice()),
            Deed::Commission(_, codes) => codes.len() <= 1_000 && have_dates(codes.as_slice()),
            Deed::Spoil(_, serials) | Deed::Giveback(_, serials) => serials.len() <= 1_000,
            Deed::Sample(_, items)
            | Deed::Reject(_, items)
            | Deed::Reinstate(_, items)
            | Deed::Destroy(_, items)
            | Deed::Decommission(_, items) => items.len() <= 1_000,
            Deed::Pack(_, children) | Deed::Unpack(_, children) => children.len() <= 1_000,
            Deed::Amend(_, quantity) => is_quantity(*quantity),
            _ => true,
        }
    }

    /// An equal deed.
    pub fn copy(&self) -> Result<Self, Memory>
        ensures { IfOk result (λ copy. copy ≡ self.now) }
    {
        Ok(match self {
            Deed::Order(row) => Deed::Order(*row),
            Deed::Orders(rows) => Deed::Orders(rows.copy()?),
            Deed::Start(batch) => Deed::Start(*batch),
            Deed::Draw(batch, count) => Deed::Draw(*batch, *count),
            Deed::Lend(batch, count) => Deed::Lend(*batch, *count),
            Deed::Commission(batch, codes) => Deed::Commission(*batch, codes.copy()?),
            Deed::Spoil(batch, serials) => Deed::Spoil(*batch, serials.copy()?),
            Deed::Giveback(batch, serials) => Deed::Giveback(*batch, serials.copy()?),
            Deed::Sample(batch, items) => Deed::Sample(*batch, items.copy()?),
            Deed::Reject(batch, items) => Deed::Reject(*batch, items.copy()?),
            Deed::Reinstate(batch, items) => Deed::Reinstate(*batch, items.copy()?),
            Deed::Destroy(batch, items) => Deed::Destroy(*batch, items.copy()?),
            Deed::Decommission(batch, items) => Deed::Decommission(*batch, items.copy()?),
            Deed::Container(batch, level) => Deed::Container(*batch, *level),
            Deed::Pack(unit, children) => Deed::Pack(*unit, children.copy()?),
            Deed::Unpack(unit, children) => Deed::Unpack(*unit, children.copy()?),
            Deed::UnpackAll(unit) => Deed::UnpackAll(*unit),
            Deed::Seal(unit) => Deed::Seal(*unit),
            Deed::Unseal(unit) => Deed::Unseal(*unit),
            Deed::Void(unit) => Deed::Void(*unit),
            Deed::Declare(batch, good, spoiled, returned) => {
                Deed::Declare(*batch, *good, *spoiled, *returned)
            }
            Deed::Close(batch) => Deed::Close(*batch),
            Deed::Amend(batch, quantity) => Deed::Amend(*batch, *quantity),
        })
    }
}
