//! Scans of GS1 barcodes, read to codes and printed from them (GS1 General Specifications, element
//! strings).
//!
//! A scan is an optional scanner prefix and units. A unit is an identifier of two digits and a value;
//! its length is predefined by the identifier, or a separator (byte 29) or the end of the scan ends
//! it. No call takes memory.
#![tactic(auto)]

mod code;
mod code_parts;
mod code_text;
mod date;
mod fault;
mod found;
mod parts;
mod scan;

pub use code::Code;
pub use code_parts::CodeParts;
pub use code_text::{CodeText, print_code};
pub use date::is_date;
pub use fault::ElementFault;
pub use parts::Part;
pub use scan::read_code;
