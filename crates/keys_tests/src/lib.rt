//! Tests of keys, scans, names as URNs, numerals and the words of the trade, through their public calls.
#![tactic(auto)]

#[cfg(test)]
mod deed_words_tests;
#[cfg(test)]
mod epc_urn_tests;
#[cfg(test)]
mod gs1_element_tests;
#[cfg(test)]
mod gs1_keys_tests;
#[cfg(test)]
mod numerals_tests;
