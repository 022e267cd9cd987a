//! Why there is no plan.
ghost use Rattle.std.specs.Prelude.{◌≡◌};
ghost use Rattle.serial_pool.specs.declared.fault.DrawFault.TheVariants.{Memory};
ghost use Rattle.serial_pool.specs.declared.fault.KnownFault.TheVariants.{Memory as NoMemory};

/// Why a draw can't be planned.
#[derive(Clone, Copy, Debug, PartialEq, Eq)]
pub enum DrawFault {
    /// More than half of the serials would be drawn: how many the GTIN has, how many were asked, and the half.
    PoolThin(u64, u64, u64),
    /// All the words that a draw may take held only so many new serials.
    WordsSpent(u64),
    /// A word couldn't be had.
    WordsFault,
    /// No memory was found.
    Memory,
}

/// Why known serials can't be planned.
#[derive(Clone, Copy, Debug, PartialEq, Eq)]
pub enum KnownFault {
    /// The serial at this place, the first such, isn't of the form, was drawn already, or came earlier.
    NotNew(u64),
    /// No memory was found.
    Memory,
}

impl From<gs1_keys::Memory> for DrawFault {
    ghost from_gives = { λ _ e. e ≡ Memory };

    fn from(_: gs1_keys::Memory) -> Self {
        DrawFault::Memory
    }
}

impl From<gs1_keys::Memory> for KnownFault {
    ghost from_gives = { λ _ e. e ≡ NoMemory };

    fn from(_: gs1_keys::Memory) -> Self {
        KnownFault::Memory
    }
}
