//! Bytes that are read from the left.
ghost use Rattle.std.specs.Prelude.{◌≡◌, ◌≤◌, length, take, drop};

use std::marker::Model;

/// The bytes that are left to read.
#[derive(Drop)]
pub(crate) struct Cursor<'a> {
    left: &'a [u8],
}

impl<'a> Model for Cursor<'a> {
    ghost use Rattle.std.specs.Prelude.{List, ℕ};

    ghost Value = { List ℕ };

    ghost view = { λ c. c.left.now };
}

impl<'a> Cursor<'a> {
    pub(crate) fn new(bytes: &'a [u8]) -> Self
        ensures { result ≡ bytes.now }
    {
        Cursor { left: bytes }
    }

    /// The bytes that are left.
    pub(crate) fn bytes(&self) -> &'a [u8]
        ensures { result.now ≡ self.now }
    {
        self.left
    }

    /// Takes the next bytes.
    pub(crate) fn front(&mut self, n: usize) -> &'a [u8]
        requires { n ≤ length self.old }
        ensures taken { result.now ≡ take n self.old }
        ensures left { self.new ≡ drop n self.old }
    {
        let (front, rest) = self.left.split_at(n);
        self.left = rest;
        front
    }
}
