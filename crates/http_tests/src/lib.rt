//! Tests of routes and of HTTP, through their public calls.
#![tactic(auto)]

#[cfg(test)]
mod http_routes_tests;
#[cfg(test)]
mod station_http_tests;
