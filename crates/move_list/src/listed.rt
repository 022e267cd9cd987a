//! Lists of moves.
ghost use Rattle.std.specs.Prelude.{◌≡◌, ◌<◌, [], ◌∷◌, ◌++◌, length, slice_index_or, is_ok, if◌then◌else◌};

use deed_words::Move;
use gs1_keys::Memory;
use std::alloc::Global;
use std::marker::Model;

/// Some moves, in the order of their entries.
#[derive(Debug, Drop)]
pub struct Moves {
    items: Vec<Move>,
}

impl Model for Moves {
    ghost use Rattle.std.specs.Prelude.{List};
    ghost use Rattle.deed_words.specs.declared.entry.Move.{Move as TheMove};

    ghost Value = { List TheMove };

    ghost view = { λ s. s.items.items };
}

impl Moves {
    /// No moves.
    pub fn new(alloc: Global) -> Self
        ensures { result ≡ [] }
    {
        Moves {
            items: Vec::new(alloc),
        }
    }

    /// Puts a move last, or changes nothing.
    pub fn push(&mut self, item: Move) -> Result<(), Memory>
        ensures { self.new ≡ (if is_ok result then self.old ++ item ∷ [] else self.old) }
    {
        match self.items.push(item) {
            Ok(()) => Ok(()),
            Err(_) => Err(Memory),
        }
    }

    /// How many there are.
    pub fn len(&self) -> usize
        ensures { result ≡ length self.now }
    {
        self.items.len()
    }

    /// The move at a place.
    pub fn get(&self, at: usize) -> &Move
        requires { at < length self.now }
        ensures { result.now ≡ slice_index_or self.now at result.now }
    {
        &self.items[at]
    }

    /// All of them.
    pub fn as_slice(&self) -> &[Move]
        ensures { result.now ≡ self.now }
    {
        self.items.as_slice()
    }
}
