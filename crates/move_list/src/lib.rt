//! What a site keeps of its moves: of each accepted entry with an event its place in the history, its batch, and the
//! things that its deed doesn't name, so that a part of the moves, or of those of a batch, is had without a walk over the
//! history.
//!
//! Moves come last and go last. Room is made beforehand, so that no move takes memory, and the last one can be taken back.
#![tactic(auto)]

mod again;
mod list;
mod listed;
mod moved;

pub use again::move_again;
pub use list::MoveList;
pub use listed::Moves;
pub use moved::Moved;
