//! What an accepted deed is told, and what it changes.
ghost use Rattle.std.specs.Prelude.{◌≡◌};
ghost use Rattle.deed_words.specs.declared.reply.Answer.TheVariants.{Plain};

use deed_words::Answer;
use site_stores::Change;

/// The answer to an accepted deed, and the change that it makes.
#[derive(Drop)]
pub(crate) struct Done {
    pub(crate) answer: Answer,
    pub(crate) change: Change,
}

/// A deed that is told no more than that it is done.
pub(crate) fn plain(change: Change) -> Done
    ensures answer { result.answer ≡ Plain }
    ensures change { result.change ≡ change }
{
    Done {
        answer: Answer::Plain,
        change,
    }
}
