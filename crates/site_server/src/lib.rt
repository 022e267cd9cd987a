//! A site's server: the requests of stations over HTTP, answered by workers in threads, who have the site's store in turns
//! at one desk.
//!
//! What a connection does is told from the bytes taken to the bytes put: each request that the bytes hold is answered, in
//! order, at a point of the list of notes that the worker's pass has seen, and the end says how the bytes end.
#![tactic(auto)]

mod answers;
mod connection;
mod door;
mod end;
mod laws;
mod talk;

pub use connection::serve_connection;
pub use door::serve_door;
pub use end::SessionEnd;
pub use laws::{complete, fronts, one_end, seen_lists};
