//! Lists of names.
ghost use Rattle.std.specs.Prelude.{◌≡◌, ◌<◌, [], ◌∷◌, ◌++◌, length, slice_index_or, is_ok, if◌then◌else◌, IfOk};

use epc_urn::Epc;
use gs1_keys::Memory;
use std::alloc::Global;
use std::marker::Model;

/// The items and containers that something names, in order.
#[derive(Debug, Drop)]
pub struct Epcs {
    items: Vec<Epc>,
}

impl Model for Epcs {
    ghost use Rattle.std.specs.Prelude.{List};
    ghost use Rattle.epc_urn.specs.declared.epc.Epc.{Epc};

    ghost Value = { List Epc };

    ghost view = { λ s. s.items.items };
}

impl Epcs {
    /// No names.
    pub fn new(alloc: Global) -> Self
        ensures { result ≡ [] }
    {
        Epcs {
            items: Vec::new(alloc),
        }
    }

    /// Puts a name last, or changes nothing.
    pub fn push(&mut self, item: Epc) -> Result<(), Memory>
        ensures { self.new ≡ (if is_ok result then self.old ++ item ∷ [] else self.old) }
    {
        match self.items.push(item) {
            Ok(()) => Ok(()),
            Err(_) => Err(Memory),
        }
    }

    /// How many there are.
    pub fn len(&self) -> usize
        ensures { result ≡ length self.now }
    {
        self.items.len()
    }

    /// The name at a place.
    pub fn get(&self, at: usize) -> &Epc
        requires { at < length self.now }
        ensures { result.now ≡ slice_index_or self.now at result.now }
    {
        &self.items[at]
    }

    /// All of them.
    pub fn as_slice(&self) -> &[Epc]
        ensures { result.now ≡ self.now }
    {
        self.items.as_slice()
    }

    /// Puts these names last, or changes nothing.
    pub fn extend(&mut self, names: &[Epc]) -> Result<(), Memory>
        ensures { self.new ≡ (if is_ok result then self.old ++ names.now else self.old) }
    {
        self.items.extend_from_slice(names).map_err(|_| Memory)
    }

    /// The list of these names, which takes no memory.
    pub fn from_vec(items: Vec<Epc>) -> Self
        ensures { result ≡ items.items }
    {
        Epcs { items }
    }

    /// The names, which takes no memory.
    pub fn into_vec(self) -> Vec<Epc>
        ensures { result.items ≡ self }
    {
        self.items
    }

    /// An equal list.
    pub fn copy(&self) -> Result<Self, Memory>
        ensures { IfOk result (λ copy. copy ≡ self.now) }
    {
        match self.items.clone() {
            Ok(items) => Ok(Epcs { items }),
            Err(_) => Err(Memory),
        }
    }
}
