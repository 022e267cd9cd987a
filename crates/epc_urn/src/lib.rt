//! Names of items and logistic units as URNs: SGTIN and SSCC both ways, SGLN to print (EPC Tag Data Standard).
//!
//! A value has one spelling for each length of its company prefix: of the standard's spellings of a serial only the one
//! is read that escapes seven characters, in upper-case hexadecimal digits.
#![tactic(auto)]

mod cursor;
mod epc;
mod fault;
mod fields;
mod key;
mod print;
mod read;
mod serial;
mod text;

pub use epc::Epc;
pub use fault::UrnFault;
pub use print::{print_sgln, print_urn};
pub use read::read_urn;
pub use text::UrnText;
