//! Tests of the desk, through its public calls: workers in threads of their own.
#![tactic(auto)]

#[cfg(test)]
mod turn_desk_tests;
