//! Replies as JSON.
ghost use Rattle.std.specs.Prelude.{◌≡◌, IfOk, string_bytes};
ghost use Rattle.serde_json.specs.View.{view};
ghost use Rattle.serde_json.specs.Written.{compact_text};
ghost use Rattle.deed_json.specs.Replies.{answer_data, reply_data, NamesStationsOf};

use crate::rule::rule_value;
use crate::value::{texts_value, urn_value};
use deed_words::{Answer, Reply, Setup};
use gs1_keys::Memory;
use serde_json::{Value, json};
use std::alloc::{AllocError, Global};

/// What an accepted deed is told.
#[tactic(auto, unfolding(crate::specs::Replies::answer_data))]
fn answer_value(alloc: Global, answer: &Answer, setup: &Setup) -> Result<Value, AllocError>
    ensures { IfOk result (λ v. view v ≡ answer_data setup.now answer.now) }
{
    match answer {
        Answer::Plain => json!(in alloc; {"ok": true}),
        Answer::Orders { added, already } => {
            json!(in alloc; {"already": *already, "new": *added, "ok": true})
        }
        Answer::Listed(serials) => {
            let list = texts_value(alloc, serials.as_slice())?;
            json!(in alloc; {"ok": true, "serials": list})
        }
        Answer::Made(sscc) => {
            let urn = urn_value(alloc, sscc, setup)?;
            json!(in alloc; {"ok": true, "unit": urn})
        }
        Answer::Taken(count) => json!(in alloc; {"ok": true, "taken": *count}),
    }
}

/// The JSON of a reply: `ok`, and what the answer or the rule tells. Numbers are in decimal, keys
/// and serials are texts, and a line goes by its station's name.
#[tactic(auto, unfolding(crate::specs::Replies::reply_data))]
pub fn reply_value(alloc: Global, reply: &Reply, setup: &Setup) -> Result<Value, Memory>
    requires { NamesStationsOf setup.now reply.now }
    ensures { IfOk result (λ v. view v ≡ reply_data setup.now reply.now) }
{
    let value = match reply {
        Reply::Accepted(answer) => answer_value(alloc, answer, setup),
        Reply::Refused(rule) => rule_value(alloc, rule, setup),
    };
    value.map_err(|_| Memory)
}

/// The text of that JSON, compact: with no space, and the keys in order of their bytes.
pub fn reply_text(alloc: Global, reply: &Reply, setup: &Setup) -> Result<String, Memory>
    requires { NamesStationsOf setup.now reply.now }
    ensures { IfOk result (λ s. string_bytes s ≡ compact_text (reply_data setup.now reply.now)) }
{
    match reply_value(alloc, reply, setup)?.to_string(alloc) {
        Ok(text) => Ok(text),
        Err(_) => Err(Memory),
    }
}
