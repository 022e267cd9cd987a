//! Draws serials for GTINs from random words: of a product's form, at random, and never twice for a GTIN.
//!
//! Serials are first planned, which looks for them and makes room, and then committed, which can't fail.
#![tactic(auto)]

mod candidate;
mod draw;
mod drawn;
mod fault;
mod known;
mod laws;
mod new_serials;
mod plan;
mod pool;
mod tally;

pub use drawn::DrawnSerial;
pub use fault::{DrawFault, KnownFault};
pub use laws::{commits_once, draws_new, takes_the_first};
pub use plan::{DrawDone, DrawPlan, copied};
pub use pool::Pool;
