//! Why nothing was decided.
ghost use Rattle.std.specs.Prelude.{◌≡◌};
ghost use Rattle.site_deeds.specs.declared.fault.PlanFault.TheVariants.{Memory};
ghost use Rattle.site_deeds.specs.declared.fault.KnownFault.TheVariants as known;

use gs1_keys::Memory as NoMemory;

/// Why nothing was decided.
#[derive(Clone, Copy, Debug, PartialEq, Eq)]
pub enum PlanFault {
    /// Memory was wanting.
    Memory,
    /// A random word couldn't be had.
    WordsFault,
    /// All the words that the draw may take held only so many new serials.
    WordsSpent(u64),
}

impl From<NoMemory> for PlanFault {
    ghost from_gives = { λ _ e. e ≡ Memory };

    fn from(_: NoMemory) -> Self {
        PlanFault::Memory
    }
}

/// Why serials that were read back can't be a deed's.
#[derive(Clone, Copy, Debug, PartialEq, Eq)]
pub enum KnownFault {
    /// The deed can't have drawn them.
    NotDrawn,
    /// Memory was wanting.
    Memory,
}

impl From<NoMemory> for KnownFault {
    ghost from_gives = { λ _ e. e ≡ known.Memory };

    fn from(_: NoMemory) -> Self {
        KnownFault::Memory
    }
}
