//! What is seen of a batch in the stores of a site: its order, how its serials stand, what is packed, and its lines.
//!
//! A look costs what the batch has: its own units, which are walked, and counts that are kept.
#![tactic(auto)]

mod batch;
mod lines;
mod units;

pub use batch::batch_view;
