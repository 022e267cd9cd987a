//! What each station asked and was told, by the numbers of its requests, and so what a number means.
//!
//! A request that comes again is told what it was told at first, and changes nothing. Room for a request is made
//! beforehand, so that keeping one takes no memory, and the last one that was kept can be taken back.
#![tactic(auto)]

mod equal;
mod laws;
mod memo;
mod page;

pub use equal::same_deed;
pub use laws::{kept_and_taken_back, taken_back_and_kept};
pub use memo::Memo;
pub use page::{Seen, Told};
