//! HTTP between a socket and the site (RFC 9112): however the bytes are cut, the requests are those of all the bytes
//! seen at once, and an answer is put whole or a front of it. It knows no store.
#![tactic(auto)]

mod answer;
mod asked;
mod conn;
mod fault;
mod fields;
mod head;
mod kind;
mod laws;
mod lines;
mod plan;
mod put;
mod session;
mod stage;
mod target;

pub use asked::Asked;
pub use conn::Conn;
pub use fault::HttpFault;
pub use http_routes::Target;
pub use kind::Kind;
pub use laws::{faults_stay, one_talk, requests_stay};
pub use put::put_answer;
pub use session::{Session, all_of};
