//! A journal of payloads on a disk. What is appended is all there or not there at all, at any moment.
#![tactic(auto)]

mod append;
mod fault;
mod frame;
mod gates;
mod init;
mod journal;
mod laws;
mod load;
mod loaded;
mod payload;
mod payloads;
mod read;
mod reader;
mod records;

pub use fault::JournalFault;
pub use frame::Frame;
pub use journal::{Journal, LIMIT};
pub use laws::{gate_place, one_reading, two_readings, with_or_without};
pub use loaded::Loaded;
pub use payload::Payload;
pub use payloads::Payloads;
