//! What a console does with a site's store: it makes the journal of a site file, answers the lines of its input, each a
//! request of a station in JSON, with one line, and tells what a journal holds.
#![tactic(auto)]

mod answer;
mod checking;
mod ending;
mod exporting;
mod fault;
mod fault_line;
mod laws;
mod lines;
mod logging;
mod look;
mod moves;
mod newline;
mod pieces;
mod put;
mod reporting;
mod request;
mod script;
mod sessions;
mod simulating;
mod site_file;
mod top;
mod words;
mod words_of_logs;

pub use answer::{Answer, answer_line, print};
pub use ending::{Ending, ending_of_store, status_of};
pub use fault::Fault;
pub use fault_line::end_with;
pub use laws::logs_name_rules_as_replies_do;
pub use look::{Look, look_store};
pub use put::put_all;
pub use request::turn;
pub use script::run;
pub use sessions::{make_store, run_store};
pub use simulating::simulate_store;
pub use top::site_top;
pub use words::site_path;
