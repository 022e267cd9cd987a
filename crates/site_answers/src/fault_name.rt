//! Faults that are told by their names.
ghost use Rattle.std.specs.Prelude.{◌≡◌, true};
ghost use Rattle.station_http.specs.Answers.{is_answered};
ghost use Rattle.site_answers.specs.Saying.{fault_text, status_of, refusal_of};

use station_http::HttpFault;

/// A fault whose answer is one text, which takes no memory.
#[derive(Clone, Copy, Debug, PartialEq, Eq)]
pub enum FaultName {
    /// The site has no batch of the name.
    UnknownBatch,
    /// The site has no item of the name.
    UnknownItem,
    /// The site has no unit of the code.
    UnknownUnit,
    /// The head of a request doesn't end within 8,192 bytes.
    HeadTooLong,
    /// The head isn't one of HTTP/1.0 or 1.1 with at most 32 fields, or its length is none.
    BadHead,
    /// The body would come in chunks.
    ChunkedBody,
    /// A POST doesn't say how long its body is.
    NoLength,
    /// The body has more than 1,048,576 bytes.
    BodyTooLong,
    /// The path is none that is served.
    NoRoute,
    /// The path is one of another method.
    BadMethod,
    /// Memory is wanting.
    Memory,
}

impl FaultName {
    /// The status with which it is answered (RFC 9110).
    pub fn status(self) -> u16
        ensures is { result ≡ status_of self }
        ensures answered { is_answered result ≡ true }
    {
        match self {
            FaultName::UnknownBatch => 404,
            FaultName::UnknownItem => 404,
            FaultName::UnknownUnit => 404,
            FaultName::HeadTooLong => 431,
            FaultName::BadHead => 400,
            FaultName::ChunkedBody => 501,
            FaultName::NoLength => 411,
            FaultName::BodyTooLong => 413,
            FaultName::NoRoute => 404,
            FaultName::BadMethod => 405,
            FaultName::Memory => 507,
        }
    }

    /// The text of its answer.
    pub fn text(self) -> &'static [u8]
        ensures { result.now ≡ fault_text self }
    {
        match self {
            FaultName::UnknownBatch => b"{\"fault\":\"UnknownBatch\",\"ok\":false}",
            FaultName::UnknownItem => b"{\"fault\":\"UnknownItem\",\"ok\":false}",
            FaultName::UnknownUnit => b"{\"fault\":\"UnknownUnit\",\"ok\":false}",
            FaultName::HeadTooLong => b"{\"fault\":\"HeadTooLong\",\"ok\":false}",
            FaultName::BadHead => b"{\"fault\":\"BadHead\",\"ok\":false}",
            FaultName::ChunkedBody => b"{\"fault\":\"ChunkedBody\",\"ok\":false}",
            FaultName::NoLength => b"{\"fault\":\"NoLength\",\"ok\":false}",
            FaultName::BodyTooLong => b"{\"fault\":\"BodyTooLong\",\"ok\":false}",
            FaultName::NoRoute => b"{\"fault\":\"NoRoute\",\"ok\":false}",
            FaultName::BadMethod => b"{\"fault\":\"BadMethod\",\"ok\":false}",
            FaultName::Memory => b"{\"fault\":\"Memory\",\"ok\":false}",
        }
    }
}

/// The name under which a fault of a connection is answered; none for one that ends it without an answer.
pub fn refusal(fault: HttpFault) -> Option<FaultName>
    ensures { result ≡ refusal_of fault }
{
    match fault {
        HttpFault::Spent => None,
        HttpFault::ReadFault => None,
        HttpFault::SessionLong => None,
        HttpFault::HeadTooLong => Some(FaultName::HeadTooLong),
        HttpFault::BadHead => Some(FaultName::BadHead),
        HttpFault::ChunkedBody => Some(FaultName::ChunkedBody),
        HttpFault::NoLength => Some(FaultName::NoLength),
        HttpFault::BodyTooLong => Some(FaultName::BodyTooLong),
        HttpFault::Cut(_) => None,
        HttpFault::NoRoute => Some(FaultName::NoRoute),
        HttpFault::BadMethod => Some(FaultName::BadMethod),
        HttpFault::Memory => Some(FaultName::Memory),
    }
}
