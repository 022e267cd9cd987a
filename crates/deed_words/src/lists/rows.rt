//! The rows of an order file.
ghost use Rattle.std.specs.Prelude.{◌≡◌, ◌<◌, [], ◌∷◌, ◌++◌, length, slice_index_or, is_ok, if◌then◌else◌, IfOk};

use crate::OrderRow;
use gs1_keys::Memory;
use std::alloc::Global;
use std::marker::Model;

/// The rows of an order file, in order.
#[derive(Debug, Drop)]
pub struct Rows {
    items: Vec<OrderRow>,
}

impl Model for Rows {
    ghost use Rattle.std.specs.Prelude.{List};
    ghost use Rattle.deed_words.specs.declared.deed.OrderRow.{OrderRow};

    ghost Value = { List OrderRow };

    ghost view = { λ s. s.items.items };
}

impl Rows {
    /// No order rows.
    pub fn new(alloc: Global) -> Self
        ensures { result ≡ [] }
    {
        Rows {
            items: Vec::new(alloc),
        }
    }

    /// Puts an order row last, or changes nothing.
    pub fn push(&mut self, item: OrderRow) -> Result<(), Memory>
        ensures { self.new ≡ (if is_ok result then self.old ++ item ∷ [] else self.old) }
    {
        match self.items.push(item) {
            Ok(()) => Ok(()),
            Err(_) => Err(Memory),
        }
    }

    /// How many there are.
    pub fn len(&self) -> usize
        ensures { result ≡ length self.now }
    {
        self.items.len()
    }

    /// The order row at a place.
    pub fn get(&self, at: usize) -> &OrderRow
        requires { at < length self.now }
        ensures { result.now ≡ slice_index_or self.now at result.now }
    {
        &self.items[at]
    }

    /// All of them.
    pub fn as_slice(&self) -> &[OrderRow]
        ensures { result.now ≡ self.now }
    {
        self.items.as_slice()
    }

    /// An equal list.
    pub fn copy(&self) -> Result<Self, Memory>
        ensures { IfOk result (λ copy. copy ≡ self.now) }
    {
        match self.items.clone() {
            Ok(items) => Ok(Rows { items }),
            Err(_) => Err(Memory),
        }
    }
}
