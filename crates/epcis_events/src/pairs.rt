//! Lists of children with their parents.
ghost use Rattle.std.specs.Prelude.{◌≡◌, ◌<◌, [], ◌∷◌, ◌++◌, not, ◌&&◌, map, filter, length, slice_index_or, is_ok, IfOk, if◌then◌else◌};
ghost use Rattle.deed_words.specs.Names.{same, is_among};
ghost use Rattle.epcis_events.specs.Replaying.{into};

use deed_words::same_sscc;
use epc_urn::Epc;
use gs1_keys::{Memory, Sscc};
use name_marks::Marks;
use std::alloc::{AllocError, Global};
use std::marker::Model;

/// Children, each with its parent, in the order in which they were put.
#[derive(Debug, Drop)]
pub struct Pairs {
    items: Vec<(Epc, Sscc)>,
}

impl Model for Pairs {
    ghost use Rattle.std.specs.Prelude.{List, ℕ};
    ghost use Rattle.epc_urn.specs.declared.epc.Epc.{Epc};

    ghost Value = { List (Epc × List ℕ) };

    ghost view = { λ s. s.items.items };
}

/// Children, each with this parent.
fn pairs_with(alloc: Global, parent: Sscc, children: &[Epc]) -> Result<Vec<(Epc, Sscc)>, AllocError>
    ensures { IfOk result (λ pairs. pairs.items ≡ map (into parent) children.now) }
{
    children.iter().map(|child| (*child, parent)).collect(alloc)
}

/// Puts children into a parent, or changes nothing.
fn put_all(
    alloc: Global,
    pairs: &mut Vec<(Epc, Sscc)>,
    parent: Sscc,
    children: &[Epc],
) -> Result<(), AllocError>
    ensures { pairs.new.items ≡ (if is_ok result then pairs.old.items ++ map (into parent) children.now else pairs.old.items) }
{
    let more = pairs_with(alloc, parent, children)?;
    pairs.extend_from_slice(more.as_slice())
}

/// Takes all out of a parent.
fn empty(pairs: &mut Vec<(Epc, Sscc)>, parent: &Sscc)
    ensures { pairs.new.items ≡ filter (λ pair. not (same pair.1 parent.now)) pairs.old.items }
{
    pairs.retain(|pair| !same_sscc(&pair.1, parent));
}

/// Takes these out of a parent.
fn take_all(pairs: &mut Vec<(Epc, Sscc)>, parent: &Sscc, children: &Marks)
    ensures { pairs.new.items ≡ filter (λ pair. not (same pair.1 parent.now && is_among children.now pair.0)) pairs.old.items }
{
    pairs.retain(|pair| !(same_sscc(&pair.1, parent) && children.has(&pair.0)));
}

impl Pairs {
    /// No pairs.
    pub fn new(alloc: Global) -> Self
        ensures { result ≡ [] }
    {
        Pairs {
            items: Vec::new(alloc),
        }
    }

    /// Puts a pair last, or changes nothing.
    pub fn push(&mut self, item: (Epc, Sscc)) -> Result<(), Memory>
        ensures { self.new ≡ (if is_ok result then self.old ++ item ∷ [] else self.old) }
    {
        match self.items.push(item) {
            Ok(()) => Ok(()),
            Err(_) => Err(Memory),
        }
    }

    /// Puts children into a parent, or changes nothing.
    pub fn put_into(&mut self, alloc: Global, parent: Sscc, children: &[Epc]) -> Result<(), Memory>
        ensures { self.new ≡ (if is_ok result then self.old ++ map (into parent) children.now else self.old) }
    {
        put_all(alloc, &mut self.items, parent, children).map_err(|_| Memory)
    }

    /// Takes all out of a parent.
    pub fn empty(&mut self, parent: &Sscc)
        ensures { self.new ≡ filter (λ pair. not (same pair.1 parent.now)) self.old }
    {
        empty(&mut self.items, parent);
    }

    /// Takes these out of a parent.
    pub fn take_out(&mut self, parent: &Sscc, children: &Marks)
        ensures { self.new ≡ filter (λ pair. not (same pair.1 parent.now && is_among children.now pair.0)) self.old }
    {
        take_all(&mut self.items, parent, children);
    }

    /// How many there are.
    pub fn len(&self) -> usize
        ensures { result ≡ length self.now }
    {
        self.items.len()
    }

    /// The pair at a place.
    pub fn get(&self, at: usize) -> &(Epc, Sscc)
        requires { at < length self.now }
        ensures { result.now ≡ slice_index_or self.now at result.now }
    {
        &self.items[at]
    }

    /// All of them.
    pub fn as_slice(&self) -> &[(Epc, Sscc)]
        ensures { result.now ≡ self.now }
    {
        self.items.as_slice()
    }
}
