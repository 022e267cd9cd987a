//! The stations of a site.
ghost use Rattle.std.specs.Prelude.{◌≡◌, ◌<◌, [], ◌∷◌, ◌++◌, length, slice_index_or, is_ok, if◌then◌else◌};

use crate::Station;
use gs1_keys::Memory;
use std::alloc::Global;
use std::marker::Model;

/// The stations of a site, in order.
#[derive(Debug, Drop)]
pub struct Stations {
    items: Vec<Station>,
}

impl Model for Stations {
    ghost use Rattle.std.specs.Prelude.{List};
    ghost use Rattle.deed_words.specs.declared.setup.Station.{Station};

    ghost Value = { List Station };

    ghost view = { λ s. s.items.items };
}

impl Stations {
    /// No stations.
    pub fn new(alloc: Global) -> Self
        ensures { result ≡ [] }
    {
        Stations {
            items: Vec::new(alloc),
        }
    }

    /// Puts a station last, or changes nothing.
    pub fn push(&mut self, item: Station) -> Result<(), Memory>
        ensures { self.new ≡ (if is_ok result then self.old ++ item ∷ [] else self.old) }
    {
        match self.items.push(item) {
            Ok(()) => Ok(()),
            Err(_) => Err(Memory),
        }
    }

    /// How many there are.
    pub fn len(&self) -> usize
        ensures { result ≡ length self.now }
    {
        self.items.len()
    }

    /// The station at a place.
    pub fn get(&self, at: usize) -> &Station
        requires { at < length self.now }
        ensures { result.now ≡ slice_index_or self.now at result.now }
    {
        &self.items[at]
    }

    /// All of them.
    pub fn as_slice(&self) -> &[Station]
        ensures { result.now ≡ self.now }
    {
        self.items.as_slice()
    }
}
