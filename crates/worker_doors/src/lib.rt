//! The doors of a server's workers: all at one port of this machine, and each with its share of the connections.
#![tactic(auto)]

mod doors;
mod laws;

pub use doors::open_doors;
pub use laws::all_are_shared;

#[cfg(test)]
mod tests;
