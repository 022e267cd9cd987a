//! What is named.
use gs1_keys::{Gtin, Sscc, Text20};

/// The name of an item, which is its GTIN with its serial, or of a logistic unit, which is its SSCC.
#[derive(Clone, Copy, Debug, PartialEq, Eq)]
pub enum Epc {
    Item(Gtin, Text20),
    Unit(Sscc),
}
