//! Outcomes as answers.
ghost use Rattle.std.specs.Prelude.{◌≡◌, ◌≤◌, [], length, vec_capacity};
ghost use Rattle.std.specs.List.{AllByRecursion as Every};
ghost use Rattle.site_answers.specs.Saying.{IsSaid};
ghost use Rattle.site_turns.specs.Outcomes.{AreSaid, IsPrintable, outcome_answer};

use deed_json::Unkept;
use deed_words::Setup;
use site_answers::{FaultName, Response, reply_response, unkept_response};
use site_store::Outcome;
use std::alloc::Global;

/// The answer of an outcome.
fn response_of(alloc: Global, setup: &Setup, outcome: &Outcome) -> Response
    requires { IsPrintable setup.now outcome.now }
    ensures { IsSaid (outcome_answer setup.now outcome.now) result }
{
    match outcome {
        Outcome::Replied(reply) => reply_response(alloc, setup, reply),
        Outcome::NumberReused => unkept_response(alloc, 422, Unkept::NumberReused),
        Outcome::NumberGap(last) => unkept_response(alloc, 409, Unkept::NumberGap(*last)),
        Outcome::DiskFault => unkept_response(alloc, 503, Unkept::DiskFault),
        Outcome::ClockFault => unkept_response(alloc, 503, Unkept::ClockFault),
        Outcome::ClockRange(ms) => unkept_response(alloc, 503, Unkept::ClockRange(*ms)),
        Outcome::WordsFault => unkept_response(alloc, 503, Unkept::WordsFault),
        Outcome::WordsSpent(found) => unkept_response(alloc, 503, Unkept::WordsSpent(*found)),
        Outcome::JournalFull(end, asked) => {
            let full = Unkept::JournalFull {
                end: *end,
                asked: *asked,
            };
            unkept_response(alloc, 500, full)
        }
        Outcome::Memory => Response::fault(FaultName::Memory),
    }
}

/// Puts the answer of each outcome into the list, which has the room.
pub(crate) fn respond(alloc: Global, setup: &Setup, outcomes: &[Outcome], said: &mut Vec<Response>)
    requires printable { Every (IsPrintable setup.now) outcomes.now }
    requires empty { said.old.items ≡ [] }
    requires spare { length outcomes.now ≤ vec_capacity said.old }
    ensures { AreSaid setup.now outcomes.now said.new.items }
{
    for outcome in outcomes {
        said.push_reserved(response_of(alloc, setup, outcome));
    }
}
