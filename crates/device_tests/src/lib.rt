//! Tests of devices and of the journal over them, through their public calls.
#![tactic(auto)]

#[cfg(test)]
mod door_tests;
#[cfg(test)]
mod gate_journal_tests;
#[cfg(test)]
mod outside_tests;
