//! What is kept of a move.
ghost use Rattle.std.specs.Prelude.{◌≡◌};

use deed_words::{BatchId, Epcs};

/// What is kept of a move beside its entry, which stands in the history.
#[derive(Debug, Drop)]
pub struct Moved {
    /// The entry's place in the history, from 0.
    pub place: u32,
    /// The batch that it changed.
    pub batch: BatchId,
    /// The things that it is about where its deed doesn't name them: the container that was made, or all that was taken
    /// out of one.
    pub unnamed: Epcs,
}

/// The number of the batch that it changed.
pub(crate) fn batch_of(moved: &Moved) -> u16
    ensures { result ≡ moved.now.batch }
{
    moved.batch.0
}
