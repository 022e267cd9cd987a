//! The lines of a batch.
ghost use Rattle.std.specs.Prelude.{◌≡◌, ◌<◌, [], ◌∷◌, ◌++◌, length, slice_index_or, is_ok, if◌then◌else◌, IfOk};

use crate::LineRow;
use gs1_keys::Memory;
use std::alloc::Global;
use std::marker::Model;

/// The lines of a batch, in the order of the site's stations.
#[derive(Debug, Drop)]
pub struct Lines {
    items: Vec<LineRow>,
}

impl Model for Lines {
    ghost use Rattle.std.specs.Prelude.{List};
    ghost use Rattle.batch_report.specs.declared.view.LineRow.{LineRow};

    ghost Value = { List LineRow };

    ghost view = { λ s. s.items.items };
}

impl Lines {
    /// No lines.
    pub fn new(alloc: Global) -> Self
        ensures { result ≡ [] }
    {
        Lines {
            items: Vec::new(alloc),
        }
    }

    /// Puts a line last, or changes nothing.
    pub fn push(&mut self, item: LineRow) -> Result<(), Memory>
        ensures { self.new ≡ (if is_ok result then self.old ++ item ∷ [] else self.old) }
    {
        match self.items.push(item) {
            Ok(()) => Ok(()),
            Err(_) => Err(Memory),
        }
    }

    /// How many there are.
    pub fn len(&self) -> usize
        ensures { result ≡ length self.now }
    {
        self.items.len()
    }

    /// The line at a place.
    pub fn get(&self, at: usize) -> &LineRow
        requires { at < length self.now }
        ensures { result.now ≡ slice_index_or self.now at result.now }
    {
        &self.items[at]
    }

    /// All of them.
    pub fn as_slice(&self) -> &[LineRow]
        ensures { result.now ≡ self.now }
    {
        self.items.as_slice()
    }

    /// An equal list.
    pub fn copy(&self) -> Result<Self, Memory>
        ensures { IfOk result (λ copy. copy ≡ self.now) }
    {
        match self.items.clone() {
            Ok(items) => Ok(Lines { items }),
            Err(_) => Err(Memory),
        }
    }
}
