//! Why a run stops.
ghost use Rattle.std.specs.Prelude.{◌≡◌};
ghost use Rattle.site_console.specs.declared.fault.Fault.TheVariants.{Memory};

use gs1_keys::Memory as NoMemory;
use std::alloc::AllocError;

/// Why a run stops.
#[derive(Clone, Copy, Debug, PartialEq, Eq)]
pub enum Fault {
    /// The input couldn't be read.
    Read,
    /// An answer couldn't be put.
    Write,
    /// Memory was wanting.
    Memory,
    /// As many bytes were taken as a run may take.
    InputTooLong,
}

impl From<AllocError> for Fault {
    ghost from_gives = { λ _ e. e ≡ Memory };

    fn from(_: AllocError) -> Self {
        Fault::Memory
    }
}

impl From<NoMemory> for Fault {
    ghost from_gives = { λ _ e. e ≡ Memory };

    fn from(_: NoMemory) -> Self {
        Fault::Memory
    }
}
