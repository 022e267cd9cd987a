//! The serial rows of a site, in the order in which they were drawn.
//!
//! They are found by GTIN and serial through an index, and counted as they change. Room for rows is made beforehand, so
//! that no change takes memory, and each change can be taken back: afterwards the rows and the room are as they were.
#![tactic(auto)]

mod cursors;
mod items;
mod laws;
mod lines;
mod naming;
mod row;
mod tally;
mod walk;

pub use items::Items;
pub use laws::{add_is_taken_back, move_is_taken_back};
pub use row::{Counts, ItemRow};
