//! Deeds and replies as JSON.
#![tactic(auto)]

mod ask;
mod deed;
mod deed_fault;
mod deed_word;
mod laws;
mod list;
mod member;
mod object;
mod reply;
mod rule;
mod unkept;
mod value;
mod words;

pub use ask::{AskFault, read_ask, read_body};
pub use deed::read_deed;
pub use deed_fault::{DeedFault, Member};
pub use laws::{deeds_are_asked_by_word, replies_name_stations};
pub use reply::{reply_text, reply_value};
pub use unkept::{Unkept, unkept_text, unkept_value};
pub use value::{sscc_value, text_value};
