//! What a head asks for.
ghost use Rattle.std.specs.Prelude.{◌≡◌, Option, true, IfOk, IfErr, List, ℕ, length, map, take, All, codes, bytes_eq};
ghost use Rattle.std.specs.Str.{IsUtf8};
ghost use Rattle.httparse.specs.Grammar.{RequestHead};
ghost use Rattle.httparse.specs.Spans.{IsHeaderWithin, IsRequestWithin, header_bytes, span_bytes};
ghost use Rattle.station_http.specs.Head.{IsHead};
ghost use Rattle.station_http.specs.Refusals.{is_refusal};
ghost use Rattle.station_http.specs.Plans.{plan_of};
ghost use Rattle.station_http.specs.Plans.{planned, closes, body_of as body_by, is_bad as is_bad_length};

use crate::fault::HttpFault;
use crate::fields::{BodyLength, body_length, has_field, says_close};
use crate::head::{Head, head_of};
use crate::target::target_for;
use http::Method;
use http_routes::{Routes, Target};
use httparse::spans::HeaderSpan;

/// How many bytes a body may have.
const BODY_LIMIT: u64 = 1_048_576;

/// How long the body is, whether the answer is the last, and what the path names.
#[derive(Drop)]
pub struct Plan {
    pub body: usize,
    pub close: bool,
    pub target: Result<Target, HttpFault>,
}

/// What a head asks for, or the fault in it.
pub fn plan_for(routes: &Routes, head: &[u8]) -> Result<Plan, HttpFault>
    ensures plan { (h : Option RequestHead) × IsHead head.now h × (result ≡ plan_of h) }
    ensures refused { IfErr result (λ fault. is_refusal fault ≡ true) }
    ensures target { IfOk result (λ plan. IfErr plan.target (λ fault. is_refusal fault ≡ true)) }
{
    let Ok(parts) = head_of(head) else {
        return Err(HttpFault::BadHead);
    };
    plan_of_parts(routes, head, &parts)
}

/// What the parts of a head ask for.
fn plan_of_parts(routes: &Routes, head: &[u8], parts: &Head) -> Result<Plan, HttpFault>
    requires within { IsRequestWithin head.now parts.now.fields parts.now.spans }
    requires text { IsUtf8 (span_bytes head.now parts.now.spans.path) }
    ensures plan { result ≡ planned (span_bytes head.now parts.now.spans.method) (span_bytes head.now parts.now.spans.path) parts.now.spans.version (map (header_bytes head.now) (take parts.now.spans.headers parts.now.fields)) }
    ensures refused { IfErr result (λ fault. is_refusal fault ≡ true) }
    ensures target { IfOk result (λ plan. IfErr plan.target (λ fault. is_refusal fault ≡ true)) }
{
    let fields = &parts.fields[..parts.spans.headers];
    let length = body_length(head, fields);
    if is_bad(length) {
        return Err(HttpFault::BadHead);
    }
    if has_field(head, fields, b"transfer-encoding") {
        return Err(HttpFault::ChunkedBody);
    }
    let method = parts.spans.method.of(head);
    let body = match body_of(method, length) {
        Err(fault) => return Err(fault),
        Ok(body) => body,
    };
    Ok(Plan {
        body,
        close: is_last(parts.spans.version, head, fields),
        target: target_for(routes, method, parts.spans.path.of(head)),
    })
}

fn is_bad(length: BodyLength) -> bool
    ensures { result ≡ is_bad_length length }
{
    matches!(length, BodyLength::Bad)
}

/// How long the body is.
fn body_of(method: &[u8], length: BodyLength) -> Result<usize, HttpFault>
    ensures body { result ≡ body_by method.now length }
    ensures refused { IfErr result (λ fault. is_refusal fault ≡ true) }
{
    match length {
        BodyLength::Bad => Err(HttpFault::BadHead),
        BodyLength::Absent => {
            if method == Method::POST.as_str().as_bytes() {
                return Err(HttpFault::NoLength);
            }
            Ok(0)
        }
        BodyLength::Said(count) => {
            if count > BODY_LIMIT {
                return Err(HttpFault::BodyTooLong);
            }
            Ok(count as usize)
        }
    }
}

/// Whether the answer is the last.
fn is_last(minor: u8, head: &[u8], fields: &[HeaderSpan]) -> bool
    requires { All (IsHeaderWithin (length head.now)) fields.now }
    ensures { result ≡ closes minor (map (header_bytes head.now) fields.now) }
{
    if minor == 0 {
        return true;
    }
    says_close(head, fields)
}
