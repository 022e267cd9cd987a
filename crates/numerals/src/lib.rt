//! Whole numbers in decimal digits, as paths, headers and files write them.
#![tactic(auto)]

mod digits;

pub use digits::number;
