//! Rows by groups, as the serials and the containers of each batch: the rows of a group linked in their order.
//!
//! Rows come last and go last. Room is made beforehand, so that no row takes memory, and the last row can be taken back.
#![tactic(auto)]

mod chains;

pub use chains::RowChains;
