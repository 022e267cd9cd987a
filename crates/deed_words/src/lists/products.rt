//! The products of a site.
ghost use Rattle.std.specs.Prelude.{◌≡◌, ◌<◌, [], ◌∷◌, ◌++◌, length, slice_index_or, is_ok, if◌then◌else◌};

use crate::Product;
use gs1_keys::Memory;
use std::alloc::Global;
use std::marker::Model;

/// The products of a site, in order.
#[derive(Debug, Drop)]
pub struct Products {
    items: Vec<Product>,
}

impl Model for Products {
    ghost use Rattle.std.specs.Prelude.{List};
    ghost use Rattle.deed_words.specs.declared.setup.Product.{Product};

    ghost Value = { List Product };

    ghost view = { λ s. s.items.items };
}

impl Products {
    /// No products.
    pub fn new(alloc: Global) -> Self
        ensures { result ≡ [] }
    {
        Products {
            items: Vec::new(alloc),
        }
    }

    /// Puts a product last, or changes nothing.
    pub fn push(&mut self, item: Product) -> Result<(), Memory>
        ensures { self.new ≡ (if is_ok result then self.old ++ item ∷ [] else self.old) }
    {
        match self.items.push(item) {
            Ok(()) => Ok(()),
            Err(_) => Err(Memory),
        }
    }

    /// How many there are.
    pub fn len(&self) -> usize
        ensures { result ≡ length self.now }
    {
        self.items.len()
    }

    /// The product at a place.
    pub fn get(&self, at: usize) -> &Product
        requires { at < length self.now }
        ensures { result.now ≡ slice_index_or self.now at result.now }
    {
        &self.items[at]
    }

    /// All of them.
    pub fn as_slice(&self) -> &[Product]
        ensures { result.now ≡ self.now }
    {
        self.items.as_slice()
    }
}
