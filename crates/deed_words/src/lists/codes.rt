//! The codes of a request.
ghost use Rattle.std.specs.Prelude.{◌≡◌, ◌<◌, [], ◌∷◌, ◌++◌, length, slice_index_or, is_ok, if◌then◌else◌, IfOk};

use gs1_element::Code;
use gs1_keys::Memory;
use std::alloc::Global;
use std::marker::Model;

/// The codes of a request, in order.
#[derive(Debug, Drop)]
pub struct Codes {
    items: Vec<Code>,
}

impl Model for Codes {
    ghost use Rattle.std.specs.Prelude.{List};
    ghost use Rattle.gs1_element.specs.declared.code.Code.{Code};

    ghost Value = { List Code };

    ghost view = { λ s. s.items.items };
}

impl Codes {
    /// No codes.
    pub fn new(alloc: Global) -> Self
        ensures { result ≡ [] }
    {
        Codes {
            items: Vec::new(alloc),
        }
    }

    /// Puts a code last, or changes nothing.
    pub fn push(&mut self, item: Code) -> Result<(), Memory>
        ensures { self.new ≡ (if is_ok result then self.old ++ item ∷ [] else self.old) }
    {
        match self.items.push(item) {
            Ok(()) => Ok(()),
            Err(_) => Err(Memory),
        }
    }

    /// How many there are.
    pub fn len(&self) -> usize
        ensures { result ≡ length self.now }
    {
        self.items.len()
    }

    /// The code at a place.
    pub fn get(&self, at: usize) -> &Code
        requires { at < length self.now }
        ensures { result.now ≡ slice_index_or self.now at result.now }
    {
        &self.items[at]
    }

    /// All of them.
    pub fn as_slice(&self) -> &[Code]
        ensures { result.now ≡ self.now }
    {
        self.items.as_slice()
    }

    /// An equal list.
    pub fn copy(&self) -> Result<Self, Memory>
        ensures { IfOk result (λ copy. copy ≡ self.now) }
    {
        match self.items.clone() {
            Ok(items) => Ok(Codes { items }),
            Err(_) => Err(Memory),
        }
    }
}
