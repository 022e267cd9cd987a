//! What comes of a deed: the reply that it gets, and what it changes in the stores of a site.
//!
//! The rule that a deed breaks first is asked for first: a deed that breaks one changes nothing. Any other deed is of
//! one of a few kinds, each in a module of its own, which has side by side what the deed is told and what it changes.
//! The change is a value by place, and room for it is made, so that making it can't be refused.
#![tactic(auto)]

mod batches;
mod decided;
mod deciding;
mod doing;
mod done;
mod drawing;
mod fault;
mod judging;
mod lending;
mod moving;
mod ordering;
mod packing;
mod units;

pub use decided::Decided;
pub use deciding::{decide, decide_known};
pub use fault::{KnownFault, PlanFault};
