//! The paths that the site serves: routed by `matchit`, their segments percent-decoded and read as names, keys and
//! numbers.
#![tactic(auto)]

mod page;
mod routes;
mod segment;
mod target;

pub use routes::Routes;
pub use target::Target;
