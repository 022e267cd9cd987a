//! Units, and what is packed in them: what stands in what by links in rows, units by their SSCCs, and every change with
//! its way back.
//!
//! Items and units are named by their places, a pair by the number under which it was put. Room is made beforehand, so
//! that no change takes memory; what is taken back leaves the tree as it was, room included. Which packing is allowed
//! is no matter of this crate.
#![tactic(auto)]

mod chain;
mod laws;
mod link;
mod many;
mod node;
mod packing;
mod tree;
mod units;

pub use laws::changes_go_back;
pub use link::{Pair, Taken};
pub use many::{put_all, take_all, try_all, try_empty, unput_all, untake_all};
pub use node::{Node, UnitRow};
pub use packing::Children;
pub use tree::Tree;
pub use units::OwnUnits;
