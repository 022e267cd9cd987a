//! The store of a site: its journal, its history and what stands after it, and its devices, as one value.
//!
//! A numbered request is looked up first, then stamped, planned and written, and it is answered only once its entry is
//! in whatever a crash may leave. Requests come alone or in groups of up to 16, which are written in one record: after a
//! stop all of a group's entries are there, or none.
//!
//! Where a call of the disk fails, what may have reached the journal stays pending, and the next request settles it
//! before anything else is done. Each fault leaves a note, and so does each entry.
#![tactic(auto)]

mod adding;
mod attempt;
mod finish;
mod group;
mod init;
mod laws;
mod load;
mod log;
mod outcome;
mod settle;
mod showing;
mod single;
mod store;
mod submit;
mod undoing;

pub use laws::{one_history, stop_law};
pub use load::StoreFault;
pub use log::Row;
pub use outcome::Outcome;
pub use store::{Devices, Store};
