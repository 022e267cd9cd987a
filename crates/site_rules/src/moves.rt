//! The lawful moves of a serial row, and the words in which a refusal tells a state or a mark.
ghost use Rattle.std.specs.Prelude.{◌≡◌};
ghost use Rattle.deed_words.specs.Moves.{moved, told_state, told_mark};

use deed_words::{Condition, Deed, Mark, State};

/// The state to which the deed moves a row of this state.
#[tactic(auto, unfolding(deed_words::specs::Moves::moved))]
pub fn moved(deed: &Deed, from: State) -> Option<State>
    ensures { result ≡ moved deed.now from }
{
    match (deed, from) {
        (Deed::Commission(_, _), State::Lent) => Some(State::Active),
        (Deed::Spoil(_, _), State::Lent) => Some(State::Spoiled),
        (Deed::Giveback(_, _), State::Lent) => Some(State::Returned),
        (Deed::Sample(_, _), State::Active) => Some(State::Sampled),
        (Deed::Reject(_, _), State::Active) => Some(State::Rejected),
        (Deed::Reinstate(_, _), State::Rejected) => Some(State::Active),
        (Deed::Destroy(_, _), State::Rejected) => Some(State::Gone),
        (Deed::Destroy(_, _), State::Sampled) => Some(State::Gone),
        (Deed::Decommission(_, _), State::Active) => Some(State::Gone),
        _ => None,
    }
}

/// The words in which a refusal tells a state.
#[tactic(auto, unfolding(deed_words::specs::Moves::told_state))]
pub(crate) fn told_state(state: State) -> Condition
    ensures { result ≡ told_state state }
{
    match state {
        State::Fresh => Condition::Fresh,
        State::Lent => Condition::Lent,
        State::Returned => Condition::Returned,
        State::Spoiled => Condition::Spoiled,
        State::Active => Condition::Active,
        State::Sampled => Condition::Sampled,
        State::Rejected => Condition::Rejected,
        State::Gone => Condition::Gone,
    }
}

/// The words in which a refusal tells a mark.
#[tactic(auto, unfolding(deed_words::specs::Moves::told_mark))]
pub(crate) fn told_mark(mark: Mark) -> Condition
    ensures { result ≡ told_mark mark }
{
    match mark {
        Mark::Filling => Condition::Filling,
        Mark::Sealed => Condition::Sealed,
        Mark::Void => Condition::Void,
    }
}
