//! How a session with a link ends.

/// How a session with a link ends.
#[derive(Clone, Copy, Debug, PartialEq, Eq)]
pub enum SessionEnd {
    /// The source ended between two requests, or a request's answer was the last.
    Ended,
    /// The source ended inside a request.
    Cut,
    /// A fault was answered with this status.
    Refused(u16),
    /// The source failed.
    ReadFault,
    /// The sink failed.
    WriteFault,
    /// All bytes that a session may take were taken, and hold no further whole request.
    SessionLong,
    /// Want of memory was answered.
    Memory,
}
