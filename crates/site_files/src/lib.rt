//! The files that are handed to a site: its site file, in TOML, and order files, in CSV, with the
//! dates that they write.
#![tactic(auto)]

mod expiry;
mod fault;
mod number;
mod orders;
mod site;

pub use expiry::{last_day, read_expiry};
pub use fault::{FileFault, Word};
pub use orders::read_orders;
pub use site::read_site;
