//! Bytes that are read from the left.
ghost use Rattle.std.specs.Prelude.{◌≡◌, ◌≤◌, length, take, drop};
ghost use Rattle.std.specs.Int.{w16, w32, w64};
ghost use Rattle.entry_bytes.specs.Reading.{IsExactly, byte_at, number_at};
ghost use Rattle.entry_bytes.specs.SiteFields.{version_at};

use crate::fault::Stop;
use crate::version::Version;
use std::marker::Model;

/// The bytes that are left to read.
#[derive(Drop)]
pub(crate) struct Cursor<'a> {
    left: &'a [u8],
}

impl<'a> Model for Cursor<'a> {
    ghost use Rattle.std.specs.Prelude.{List, ℕ};

    ghost Value = { List ℕ };

    ghost view = { λ c. c.left.now };
}

impl<'a> Cursor<'a> {
    pub(crate) fn new(bytes: &'a [u8]) -> Self
        ensures { result ≡ bytes.now }
    {
        Cursor { left: bytes }
    }

    /// How many bytes are left.
    pub(crate) fn len(&self) -> usize
        ensures { result ≡ length self.now }
    {
        self.left.len()
    }

    /// Takes the next bytes.
    pub(crate) fn front(&mut self, n: usize) -> &'a [u8]
        requires { n ≤ length self.old }
        ensures taken { result.now ≡ take n self.old }
        ensures left { self.new ≡ drop n self.old }
    {
        let (front, rest) = self.left.split_at(n);
        self.left = rest;
        front
    }

    /// Takes the byte 2 with which the bytes of a site of version 2 begin.
    pub(crate) fn version(&mut self) -> Version
        ensures { (result, self.new) ≡ version_at self.old }
    {
        match self.left {
            [2, rest @ ..] => {
                self.left = rest;
                Version::Second
            }
            _ => Version::First,
        }
    }

    /// Takes the next byte.
    pub(crate) fn byte(&mut self) -> Result<u8, Stop>
        ensures { IsExactly (λ x. (x, self.new)) result (byte_at self.old) }
    {
        match self.left {
            [] => Err(Stop::Short(0)),
            [byte, rest @ ..] => {
                self.left = rest;
                Ok(*byte)
            }
        }
    }

    /// Takes a number of 16 bits.
    pub(crate) fn u16(&mut self) -> Result<u16, Stop>
        ensures { IsExactly (λ x. (x, self.new)) result (number_at w16 self.old) }
    {
        if self.len() < 2 {
            return Err(Stop::Short(self.len()));
        }
        let front = self.front(2);
        Ok(u16::from_be_bytes([front[0], front[1]]))
    }

    /// Takes a number of 32 bits.
    pub(crate) fn u32(&mut self) -> Result<u32, Stop>
        ensures { IsExactly (λ x. (x, self.new)) result (number_at w32 self.old) }
    {
        if self.len() < 4 {
            return Err(Stop::Short(self.len()));
        }
        let front = self.front(4);
        Ok(u32::from_be_bytes([front[0], front[1], front[2], front[3]]))
    }

    /// Takes a number of 64 bits.
    pub(crate) fn u64(&mut self) -> Result<u64, Stop>
        ensures { IsExactly (λ x. (x, self.new)) result (number_at w64 self.old) }
    {
        if self.len() < 8 {
            return Err(Stop::Short(self.len()));
        }
        let front = self.front(8);
        Ok(u64::from_be_bytes([
            front[0], front[1], front[2], front[3], front[4], front[5], front[6], front[7],
        ]))
    }
}
