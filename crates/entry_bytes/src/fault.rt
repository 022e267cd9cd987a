//! Why bytes are no group of entries, or no site.
ghost use Rattle.std.specs.Prelude.{◌≡◌};
ghost use Rattle.entry_bytes.specs.declared.fault.Stop.TheVariants.{Memory};

use std::alloc::{AllocError, AllocFailed};
use std::error::Error;
use std::fmt;

/// The first fault from the left, with the place at which the field begins that has it. Places count
/// from 0. A text begins at its length byte, and a list at its count.
#[derive(Clone, Copy, Debug, PartialEq, Eq)]
pub enum EntryFault {
    /// The bytes end before the field does.
    Short(u64),
    /// The tag byte isn't 1 to 23.
    BadTag(u64),
    /// The field isn't in its range, or doesn't fit an earlier one.
    BadField(u64),
    /// Bytes follow the last field; this is the first of them.
    Extra(u64),
    /// No memory was found.
    Memory,
}

impl fmt::Display for EntryFault {
    fn fmt<W: fmt::Write>(&self, f: &mut fmt::Formatter<W>) -> fmt::Result {
        match self {
            EntryFault::Short(at) => write!(f, "the bytes end in the field at {at}"),
            EntryFault::BadTag(at) => write!(f, "no deed has the tag at {at}"),
            EntryFault::BadField(at) => write!(f, "the field at {at} is out of its range"),
            EntryFault::Extra(at) => write!(f, "bytes too many from {at} on"),
            EntryFault::Memory => write!(f, "out of memory"),
        }
    }
}

impl Error for EntryFault {}

/// Where reading stopped: how many bytes were left where the field begins.
#[derive(Clone, Copy)]
pub(crate) enum Stop {
    Short(usize),
    BadTag(usize),
    BadField(usize),
    Memory,
}

impl From<AllocError> for Stop {
    ghost from_gives = { λ _ e. e ≡ Memory };

    fn from(_e: AllocError) -> Stop {
        Stop::Memory
    }
}

impl<T: Drop> From<AllocFailed<T>> for Stop {
    ghost from_gives = { λ _ e. e ≡ Memory };

    fn from(_e: AllocFailed<T>) -> Stop {
        Stop::Memory
    }
}

impl From<gs1_keys::Memory> for Stop {
    ghost from_gives = { λ _ e. e ≡ Memory };

    fn from(_e: gs1_keys::Memory) -> Stop {
        Stop::Memory
    }
}
