//! Tests of marks of names and of events, through the public calls: documents with their whole texts, and replays.
#![tactic(auto)]

#[cfg(test)]
mod document_tests;
#[cfg(test)]
mod example;
#[cfg(test)]
mod name_marks_tests;
#[cfg(test)]
mod replay_tests;
