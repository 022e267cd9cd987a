//! A value that many workers have in turns.
//!
//! A [`Desk`] owns the value. Each worker has a [`Pass`], and may be a thread of its own: it waits for its
//! turn, its [`Job`] works on the value, and the next worker's turn comes. The value stands for a list of
//! notes, each of which names the worker that left it; a pass knows the list as its worker saw it last.
//! So a contract of one worker speaks of plain lists, and [`Desk::close`] ties the workers' lists together.
//!
//! Nothing is promised of waiting: not that a turn comes, nor in which order workers have theirs.
#![tactic(auto)]

mod desk;
mod ends;
mod hold;
mod pass;
mod plays;
mod stands;
mod view;

pub use desk::Desk;
pub use pass::Pass;
pub use stands::{Job, Stands};
pub use view::{Noted, Origin};
