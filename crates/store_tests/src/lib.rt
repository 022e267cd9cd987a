//! Tests of the stores, through their public calls.
#![tactic(auto)]

#[cfg(test)]
mod batch_accounts_tests;
#[cfg(test)]
mod batch_book_tests;
#[cfg(test)]
mod item_store_tests;
#[cfg(test)]
mod pack_tree_tests;
#[cfg(test)]
mod place_table_tests;
#[cfg(test)]
mod request_memo_tests;
#[cfg(test)]
mod row_chains_tests;
#[cfg(test)]
mod serial_pool_tests;
