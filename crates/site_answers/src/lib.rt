//! What the site answers over HTTP, each answer made from the site as it stands: the reply to a numbered request, the
//! report and the events of a batch, an item and a unit as they stand, and each fault. An answer is whole before a byte
//! of it is put, and putting it takes no memory. The crate knows no connection, no store and no desk.
#![tactic(auto)]

mod batch;
mod events;
mod fault_name;
mod response;
mod thing;
mod told;
mod values;

pub use batch::report_response;
pub use events::events_response;
pub use fault_name::{FaultName, refusal};
pub use response::Response;
pub use thing::{item_response, unit_response};
pub use told::{reply_response, unasked_response, unkept_response};
