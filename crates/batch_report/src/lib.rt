//! The report of a batch, which a planner reads and signs: what was ordered, how far it is, how its serials stand, what
//! is packed, how many events it has, and what each of its lines made of the serials that it was lent.
#![tactic(auto)]

mod columns;
mod date;
mod lines;
mod text;
mod view;

pub use lines::Lines;
pub use text::report;
pub use view::{BatchView, LineRow};
