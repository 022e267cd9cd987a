//! Tests of what is seen of a site, and of the report, through their public calls.
#![tactic(auto)]

#[cfg(test)]
mod report_tests;
#[cfg(test)]
mod site_tests;
