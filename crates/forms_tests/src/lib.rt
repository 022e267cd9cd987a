//! Tests of what is written and read, through the public calls: bytes of entries, files and JSON.
#![tactic(auto)]

#[cfg(test)]
mod ask_tests;
#[cfg(test)]
mod deed_tests;
#[cfg(test)]
mod entry_bytes_tests;
#[cfg(test)]
mod example;
#[cfg(test)]
mod order_file_tests;
#[cfg(test)]
mod reply_tests;
#[cfg(test)]
mod site_file_tests;
