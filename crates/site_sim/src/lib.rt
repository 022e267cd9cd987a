//! The simulation: a whole batch of a small site, from its order to its close, sent to a new store request by request.
//!
//! Each tenth request is sent twice in a row, as by a station that missed its answer. What the batch came to is told in
//! one line.
#![tactic(auto)]

mod asking;
mod example;
mod fault;
mod figures;
mod known;
mod part;
mod replaying;
mod request;
mod sending;
mod simulation;
mod supplies;

pub use fault::SimFault;
pub use figures::Figures;
pub use part::Part;
pub use request::Request;
pub use simulation::simulate;
