//! The words of the trade: deeds, rules, replies, entries and the setup of a site.
#![tactic(auto)]

mod deed;
mod entry;
mod laws;
mod lists;
mod names;
mod reply;
mod rule;
mod setup;
mod stations;
mod words;
mod world;

pub use deed::{Deed, OrderRow};
pub use entry::{Ask, Entry, FaultKind, Move, Note, Said};
pub use laws::{
    closed_batches_stay, closes_where_accounted, codes_made_once, counts_sum_to_drawn,
    histories_grow_lawfully, issued_once, numbers_mean_one_thing, orders_again_change_nothing,
    replies_list_what_is_issued, soundness_is_kept, things_stand_two_deep, worlds_are_proper,
};
pub use lists::{Codes, Epcs, Ids, Moves, Notes, Products, Rows, Stations};
pub use names::{same_epc, same_gtin, same_sscc, same_text};
pub use reply::{Answer, Reply};
pub use rule::{Finding, Rule};
pub use setup::{
    Product, Setup, Station, has_gtin, has_name, is_of_prefix, is_time_offset, reference_end,
};
pub use stations::station_of;
pub use words::{
    BatchId, Condition, ItemId, Level, Mark, Phase, Role, State, StationId, UnitId, What,
};
pub use world::{Batch, Container, Declaration, Pair, Row};
