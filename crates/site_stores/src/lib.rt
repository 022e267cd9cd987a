//! The stores of a site as the world that they hold: the batches, the serial rows, the units and what is packed in them.
//!
//! A look-up by name gives what the definitions of the trade give over that world. What a deed changes is a value that
//! names places, old and new: it is applied without memory, and taken back without memory.
#![tactic(auto)]

mod change;
mod changing;
mod drawing;
mod effects;
mod laws;
mod parts;
mod planning;
mod stores;
mod told;

pub use change::{Change, Gone, Nodes, Turn, Turns};
pub use effects::{
    batches_change, children_change, names_come, rows_change, units_change, what_comes,
};
pub use laws::{applied_and_taken_back, changes_are_taken_back};
pub use stores::Stores;
