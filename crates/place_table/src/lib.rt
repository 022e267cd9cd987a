//! An index from hashes to rows: a table of hashed places over a list of rows that it never sees.
//!
//! Rows come last and go last. Room for them is made beforehand, so that no insert takes memory, and the last insert
//! can be taken back: its row stands on no other row's way, so its one place is free again, with no mark left.
#![tactic(auto)]

mod hashing;
mod places;
mod table;

pub use hashing::{pair_hash, text_hash};
pub use table::PlaceTable;
