//! The words of the command line: read with `clap` as one simple command of five optional texts, and then as one of the
//! program's commands.
#![tactic(auto)]

mod command;
mod reading;
mod serving;
mod texts;

pub use command::{Command, ServeWords};
pub use reading::read_command;
pub use serving::serve_words;

#[cfg(test)]
mod tests;
