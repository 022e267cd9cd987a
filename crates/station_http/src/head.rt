//! The head of a request, read by `httparse`.
ghost use Rattle.std.specs.Prelude.{◌≡◌, ◌≤◌, IfOk, OnErr, length};
ghost use Rattle.httparse.specs.Grammar.{RequestHead};
ghost use Rattle.httparse.specs.Spans.{IsRequestWithin};
ghost use Rattle.station_http.specs.Head.{IsWholeHead};
ghost use Rattle.station_http.specs.Heads.{IsHeadOf};

use httparse::Status;
use httparse::spans::{EMPTY_HEADER_SPAN, HeaderSpan, RequestSpans, parse_request};

/// How many fields a head may have.
const FIELDS: usize = 32;

/// The bytes aren't one whole head.
#[derive(Clone, Copy, Debug, PartialEq, Eq)]
pub struct NoHead;

/// Where the parts of a head are.
#[derive(Clone, Copy)]
pub struct Head {
    pub spans: RequestSpans,
    pub fields: [HeaderSpan; 32],
}

/// The parts of the bytes, which are to be one whole head.
pub fn head_of(bytes: &[u8]) -> Result<Head, NoHead>
    ensures whole { IfOk result (λ head. (h : RequestHead) × IsWholeHead bytes.now h × IsHeadOf bytes.now head h) }
    ensures within { IfOk result (λ head. IsRequestWithin bytes.now head.fields head.spans) }
    ensures bad { OnErr result ((h : RequestHead) → ¬ (IsWholeHead bytes.now h)) }
{
    let mut fields = [EMPTY_HEADER_SPAN; FIELDS];
    match parse_request(bytes, fields.as_mut_slice()) {
        Ok(Status::Complete(spans)) => {
            if spans.len != bytes.len() {
                return Err(NoHead);
            }
            Ok(Head { spans, fields })
        }
        Ok(Status::Partial) => Err(NoHead),
        Err(_) => Err(NoHead),
    }
}
