//! Single faults of what is read: deeds in JSON, site files and order files, each by one row of a table.
#![tactic(auto)]

#[cfg(test)]
mod deed_lists_tests;
#[cfg(test)]
mod deed_members_tests;
#[cfg(test)]
mod order_file_tests;
#[cfg(test)]
mod site_file_tests;
