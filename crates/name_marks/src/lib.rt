//! The names of a list, found by their hashes: whether a name is among them, and which is the first that came before.
//! Each costs about as much as the names have characters.
#![tactic(auto)]

mod marks;
mod repeat;

pub use marks::Marks;
pub use repeat::first_repeat;
