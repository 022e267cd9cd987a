//! A worker's pass.
ghost use Rattle.std.specs.Prelude.{◌≡◌};

use crate::view::View;
use atomic_table::Badge;
use std::marker::Model;

/// A worker's right to turns at one desk, which knows what the worker has seen. A contract sees it as a
/// token: the desk, the worker's number, how many turns it had, and the notes that it has seen.
///
/// Without all its passes a desk can't be closed, so keep them.
#[derive(Drop)]
pub struct Pass {
    pub(crate) badge: Badge<View>,
    pub(crate) worker: u8,
    pub(crate) turns: u64,
}

impl Model for Pass {
    ghost use Rattle.turn_desk.specs.Tokens.{Token};

    ghost Value = { Token };

    ghost use Rattle.turn_desk.specs.Passes.{token_of, IsSound};

    ghost view = { token_of };

    ghost invariant = { IsSound };
}

impl Pass {
    /// How many turns it had.
    pub fn turns(&self) -> u64
        ensures { result ≡ self.now.turns }
    {
        self.turns
    }

    /// The worker's number, from 0.
    pub fn worker(&self) -> u8
        ensures { result ≡ self.now.worker }
    {
        self.worker
    }
}
