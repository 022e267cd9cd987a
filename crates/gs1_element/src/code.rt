//! Codes.
use gs1_keys::{Gtin, Text20};

/// What the barcode of one item says.
#[derive(Clone, Copy, Debug, PartialEq, Eq)]
pub struct Code {
    /// The trade item, from the unit 01.
    pub gtin: Gtin,
    /// The serial number of the item, from the unit 21.
    pub serial: Text20,
    /// The batch or lot, from the unit 10.
    pub lot: Text20,
    /// The expiry date, from the unit 17: YYMMDD in ASCII digits, the year being 20YY, and the day 00
    /// being the last of its month.
    pub expiry: [u8; 6],
}
