//! Answers to numbered requests.
ghost use Rattle.std.specs.Prelude.{◌≡◌, true, List, ℕ, IfOk, string_bytes};
ghost use Rattle.deed_json.specs.Replies.{NamesStationsOf};
ghost use Rattle.station_http.specs.Answers.{is_answered};
ghost use Rattle.site_answers.specs.Saying.{IsSaid, in_json};
ghost use Rattle.site_answers.specs.Told.{reply_answer, reply_status, unkept_answer, unasked_answer};

use crate::fault_name::FaultName;
use crate::response::Response;
use deed_json::{AskFault, Unkept, reply_text, unkept_text};
use deed_words::{Reply, Setup};
use gs1_keys::Memory;
use station_http::Kind;
use std::alloc::Global;

/// The status of a reply: a deed was accepted, or a rule refused it.
fn status_of(reply: &Reply) -> u16
    ensures is { result ≡ reply_status reply.now }
    ensures answered { is_answered result ≡ true }
{
    match reply {
        Reply::Accepted(_) => 200,
        Reply::Refused(_) => 409,
    }
}

/// An answer in JSON.
pub(crate) fn json_response(status: u16, text: Result<String, Memory>) -> Response
    requires { is_answered status ≡ true }
    ensures { (due : List ℕ) → IfOk text (λ s. string_bytes s ≡ due) → IsSaid (in_json status due) result }
{
    match text {
        Ok(text) => Response::made(status, Kind::Json, text.into_bytes()),
        Err(_) => Response::fault(FaultName::Memory),
    }
}

/// The answer of a reply, which names stations of the setup alone: 200 where the deed was accepted, 409 where a rule
/// refused it.
pub fn reply_response(alloc: Global, setup: &Setup, reply: &Reply) -> Response
    requires { NamesStationsOf setup.now reply.now }
    ensures { IsSaid (reply_answer setup.now reply.now) result }
{
    json_response(status_of(reply), reply_text(alloc, reply, setup))
}

/// The answer of what isn't kept, with this status.
pub fn unkept_response(alloc: Global, status: u16, unkept: Unkept) -> Response
    requires { is_answered status ≡ true }
    ensures { IsSaid (unkept_answer status unkept) result }
{
    json_response(status, unkept_text(alloc, unkept))
}

/// The answer to a body that asks for nothing, by the reason.
pub fn unasked_response(alloc: Global, fault: AskFault) -> Response
    ensures { IsSaid (unasked_answer fault) result }
{
    match fault {
        AskFault::BadLine => unkept_response(alloc, 400, Unkept::BadLine),
        AskFault::NoStation => unkept_response(alloc, 404, Unkept::NoStation),
        AskFault::BadDeed(broken) => unkept_response(alloc, 400, Unkept::BadDeed(broken)),
        AskFault::Memory => Response::fault(FaultName::Memory),
    }
}
