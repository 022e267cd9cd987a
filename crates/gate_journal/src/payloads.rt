//! Lists of payloads.
ghost use Rattle.std.specs.Prelude.{◌≡◌, ◌<◌, [], ◌∷◌, ◌++◌, length, slice_index_or, is_ok, if◌then◌else◌};

use crate::payload::Payload;
use gs1_keys::Memory;
use std::alloc::Global;
use std::marker::Model;

/// A list of payloads, in the order of the journal.
#[derive(Debug, Drop)]
pub struct Payloads {
    items: Vec<Payload>,
}

impl Model for Payloads {
    ghost use Rattle.std.specs.Prelude.{List};
    ghost use Rattle.gate_journal.specs.declared.payload.Payload.{Payload};

    ghost Value = { List Payload };

    ghost view = { λ s. s.items.items };
}

impl Payloads {
    /// No payloads.
    pub fn new(alloc: Global) -> Self
        ensures { result ≡ [] }
    {
        Payloads {
            items: Vec::new(alloc),
        }
    }

    /// Puts a payload last, or changes nothing.
    pub fn push(&mut self, item: Payload) -> Result<(), Memory>
        ensures { self.new ≡ (if is_ok result then self.old ++ item ∷ [] else self.old) }
    {
        match self.items.push(item) {
            Ok(()) => Ok(()),
            Err(_) => Err(Memory),
        }
    }

    /// How many there are.
    pub fn len(&self) -> usize
        ensures { result ≡ length self.now }
    {
        self.items.len()
    }

    /// The payload at a place.
    pub fn get(&self, at: usize) -> &Payload
        requires { at < length self.now }
        ensures { result.now ≡ slice_index_or self.now at result.now }
    {
        &self.items[at]
    }
}
