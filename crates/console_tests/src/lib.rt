//! Tests of the program over devices in memory: each says what is asked, and all that is told.
#![tactic(auto)]

#[cfg(test)]
mod batch_tests;
#[cfg(test)]
mod closing_tests;
#[cfg(test)]
mod console_tests;
#[cfg(test)]
mod group_tests;
#[cfg(test)]
mod items_tests;
#[cfg(test)]
mod journal_tests;
#[cfg(test)]
mod limits_tests;
#[cfg(test)]
mod looks_tests;
#[cfg(test)]
mod program;
#[cfg(test)]
mod sim_tests;
#[cfg(test)]
mod small_pieces;
#[cfg(test)]
mod talk;
#[cfg(test)]
mod undo_tests;
#[cfg(test)]
mod units_tests;
