//! Which rule of the trade a deed breaks first.
//!
//! The rules that a deed is under are data: a list of tests. Each test is a function of its own, over the stores, and
//! answers what the trade's own words say of the world that the stores hold. Names are looked up once, before the
//! first test, and no test takes memory.
#![tactic(auto)]

mod accounts;
mod asked;
mod asking;
mod batches;
mod checks;
mod counts;
mod found;
mod moves;
mod orders;
mod origins;
mod places;
mod subject;
mod table;
mod telling;
mod things;
mod units;

pub use asked::Asked;
pub use asking::{ask, make_names};
pub use found::Found;
pub use moves::moved;
pub use origins::Origin;
pub use subject::{Subject, find_subject};
pub use table::Test;
pub use telling::broken;
