//! A whole site served by workers in threads. The journal is loaded, each worker serves a door of its own, all of them have
//! the store in turns at one desk, and at the end the doors and the devices are handed back with a status.
//!
//! What comes of it is told from what was handed in: each image of the disk holds the history that was loaded with what the
//! workers' notes add; and each door was served by one worker, whose notes are those of its sessions.
#![tactic(auto)]

mod serve;
mod site;
mod worker;

pub use serve::site_serve;
