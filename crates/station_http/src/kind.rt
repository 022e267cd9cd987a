//! What a body is.

/// The type of an answer's body.
#[derive(Clone, Copy, Debug, PartialEq, Eq)]
pub enum Kind {
    /// `application/json`
    Json,
    /// `text/plain`
    Text,
}
