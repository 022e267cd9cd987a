//! Tests of the server: sessions at one desk, each told by the bytes that come on its link and all that are put on it, and
//! whole sites served by workers in threads.
#![tactic(auto)]

#[cfg(test)]
mod cut_link;
#[cfg(test)]
mod group_tests;
#[cfg(test)]
mod session_tests;
#[cfg(test)]
mod sessions;
#[cfg(test)]
mod side_link;
#[cfg(test)]
mod site_tests;
#[cfg(test)]
mod talk;
#[cfg(test)]
mod turn_tests;
