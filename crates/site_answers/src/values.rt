//! What an item and a unit tell as JSON values.
ghost use Rattle.std.specs.Prelude.{◌≡◌, IfOk};
ghost use Rattle.serde_json.specs.View.{view};
ghost use Rattle.site_answers.specs.Things.{or_null, state_word, mark_word, level_word};

use deed_json::{sscc_value, text_value};
use deed_words::{Level, Mark, State};
use gs1_keys::{Sscc, Text20};
use serde_json::Value;
use std::alloc::{AllocError, Global};

/// The word of a state.
#[tactic(auto, unfolding(crate::specs::Things::state_word))]
pub(crate) fn word_of_state(state: State) -> &'static str
    ensures { result.now ≡ state_word state }
{
    match state {
        State::Fresh => "fresh",
        State::Lent => "lent",
        State::Returned => "returned",
        State::Spoiled => "spoiled",
        State::Active => "active",
        State::Sampled => "sampled",
        State::Rejected => "rejected",
        State::Gone => "gone",
    }
}

/// The word of a mark.
#[tactic(auto, unfolding(crate::specs::Things::mark_word))]
pub(crate) fn word_of_mark(mark: Mark) -> &'static str
    ensures { result.now ≡ mark_word mark }
{
    match mark {
        Mark::Filling => "filling",
        Mark::Sealed => "sealed",
        Mark::Void => "void",
    }
}

/// The word of a level.
#[tactic(auto, unfolding(crate::specs::Things::level_word))]
pub(crate) fn word_of_level(level: Level) -> &'static str
    ensures { result.now ≡ level_word level }
{
    match level {
        Level::Case => "case",
        Level::Pallet => "pallet",
    }
}

/// The name of a line, or null.
pub(crate) fn line_value(alloc: Global, line: &Option<Text20>) -> Result<Value, AllocError>
    ensures { IfOk result (λ v. view v ≡ or_null line.now) }
{
    match line {
        Some(name) => text_value(alloc, name),
        None => Ok(Value::Null),
    }
}

/// The code of a parent, or null.
pub(crate) fn parent_value(alloc: Global, parent: &Option<Sscc>) -> Result<Value, AllocError>
    ensures { IfOk result (λ v. view v ≡ or_null parent.now) }
{
    match parent {
        Some(sscc) => sscc_value(alloc, sscc),
        None => Ok(Value::Null),
    }
}
