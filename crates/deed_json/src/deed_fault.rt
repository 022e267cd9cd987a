//! What is wrong with a deed.
ghost use Rattle.std.specs.Prelude.{◌≡◌};
ghost use Rattle.deed_json.specs.DeedFaults.{name_of};

use epc_urn::UrnFault;
use gs1_element::ElementFault;

/// The members of deeds.
#[derive(Clone, Copy, Debug, PartialEq, Eq)]
pub enum Member {
    Do,
    Batch,
    Gtin,
    Lot,
    Expiry,
    Quantity,
    Case,
    Pallet,
    Csv,
    Count,
    Codes,
    Serials,
    Items,
    Level,
    Unit,
    Children,
    Good,
    Spoiled,
    Returned,
    Operator,
}

impl Member {
    /// The member's name in JSON.
    pub fn name(self) -> &'static str
        ensures { result.now ≡ name_of self }
    {
        match self {
            Member::Do => "do",
            Member::Batch => "batch",
            Member::Gtin => "gtin",
            Member::Lot => "lot",
            Member::Expiry => "expiry",
            Member::Quantity => "quantity",
            Member::Case => "case",
            Member::Pallet => "pallet",
            Member::Csv => "csv",
            Member::Count => "count",
            Member::Codes => "codes",
            Member::Serials => "serials",
            Member::Items => "items",
            Member::Level => "level",
            Member::Unit => "unit",
            Member::Children => "children",
            Member::Good => "good",
            Member::Spoiled => "spoiled",
            Member::Returned => "returned",
            Member::Operator => "operator",
        }
    }
}

/// The first fault of a deed. Places in lists count from 0.
#[derive(Clone, Copy, Debug, PartialEq, Eq)]
pub enum DeedFault {
    /// The value is no object.
    NotObject,
    /// The member is missing.
    NoMember(Member),
    /// The member isn't of its type or range.
    BadMember(Member),
    /// The scan at this place has this fault.
    BadCode(u64, ElementFault),
    /// The URN at this place has this fault.
    BadUrn(u64, UrnFault),
    /// The list has so many entries, which is more than 1,000.
    TooMany(u64),
    /// Memory is wanting.
    Memory,
    /// The order file has a fault in this record, from 1 with the header, and column, from 1; column 0 says that
    /// the record hasn't seven fields, or, of record 1, that it isn't the header.
    BadRow(u64, u64),
}

impl From<gs1_keys::Memory> for DeedFault {
    ghost use Rattle.deed_json.specs.declared.deed_fault.DeedFault.TheVariants.{Memory};

    ghost from_gives = { λ _ e. e ≡ Memory };

    fn from(_refused: gs1_keys::Memory) -> DeedFault {
        DeedFault::Memory
    }
}
