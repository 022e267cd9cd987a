//! Rows by groups, as the events of each batch: the rows of a group by number, so that a part of them is had without a
//! walk over the others.
//!
//! Rows come last and go last. Room is made beforehand, so that no row takes memory, and the last row can be taken back.
#![tactic(auto)]

mod changing;
mod list;
mod lists;

pub use lists::RowLists;
