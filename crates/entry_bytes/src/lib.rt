//! The bytes of entries and of the site: what the journal holds.
//!
//! There are two versions. Version 2 alone is written; groups and sites of version 1 are read for ever.
//! Numbers have the most significant byte first, a text is a length byte and its characters, and a list
//! is a count of 16 bits and its items. A reader trusts no count: room is taken for an item only once
//! its bytes were read.
#![tactic(auto)]

mod cursor;
mod fault;
mod fields;
mod kind;
mod laws;
mod lists;
mod reading;
mod site_fields;
mod site_reading;
mod site_writing;
mod version;
mod writing;

pub use fault::EntryFault;
pub use laws::{
    a_fault_is_the_first, each_version_has_one_spelling, groups_grow_at_the_end,
    no_bytes_are_shared, sizes_are_sums,
};
pub use reading::read_entries;
pub use site_reading::read_setup;
pub use site_writing::print_setup;
pub use writing::{print_entries, print_entry};
