//! The batches of a site, what its lines declared of them, and whether a batch is accounted for.
//!
//! Batches are found by their names through an index, and the declarations of a batch by links. Room for both is made
//! beforehand, so that no change takes memory, and each change can be taken back: afterwards the book is as it was,
//! its room included.
#![tactic(auto)]

mod accounts;
mod book;
mod declarations;
mod laws;
mod lines;
mod orders;
mod packed;
mod row;

pub use book::Book;
pub use laws::{
    add_is_taken_back, amend_is_taken_back, declare_is_taken_back, last_declaration_counts,
    phase_is_taken_back,
};
pub use row::DeclarationRow;
