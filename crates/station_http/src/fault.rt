//! Why no further request comes.

/// Why no further request comes, in the order in which the causes are tested; a want of memory may come at any place.
#[derive(Clone, Copy, Debug, PartialEq, Eq)]
pub enum HttpFault {
    /// An earlier `next` answered a fault.
    Spent,
    /// The source failed.
    ReadFault,
    /// 2^36 bytes were taken, and hold no further whole request.
    SessionLong,
    /// 8,192 bytes of a request came, and its head doesn't end within them.
    HeadTooLong,
    /// The head is none of HTTP/1.0 or 1.1 with at most 32 fields, or its `content-length` is no number of 1 to 10
    /// digits or stands there with two values.
    BadHead,
    /// A `transfer-encoding` field stands in the head.
    ChunkedBody,
    /// A POST says no `content-length`.
    NoLength,
    /// The body has more than 1,048,576 bytes.
    BodyTooLong,
    /// The source ended inside a request, of which so many bytes had come.
    Cut(u64),
    /// The path is none that is served.
    NoRoute,
    /// The path is one of another method.
    BadMethod,
    /// No memory was found.
    Memory,
}
