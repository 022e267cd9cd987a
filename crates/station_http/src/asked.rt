//! A whole request.
use http_routes::Target;
use outside::Bytes;

/// A request that came whole.
#[derive(Debug, Drop)]
pub struct Asked {
    /// What it is about.
    pub target: Target,
    /// Its body, as it came.
    pub body: Bytes,
    /// Whether its answer is the last: it has `connection: close`, or is of HTTP/1.0 (RFC 9112, section 9.3).
    pub close: bool,
}
