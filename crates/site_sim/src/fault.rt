//! Why there is no line.
ghost use Rattle.std.specs.Prelude.{◌≡◌};
ghost use Rattle.site_sim.specs.Simulated.{fault_of};

use site_store::StoreFault;

/// Why a simulation has no line.
#[derive(Clone, Copy, Debug, PartialEq, Eq)]
pub enum SimFault {
    /// A journal is there already.
    JournalThere,
    /// A call of the disk failed.
    Disk,
    /// Memory was wanting.
    Memory,
}

/// Why no journal was made. Nothing is read for it, so two of the store's faults don't come.
pub(crate) fn fault_of(fault: StoreFault) -> SimFault
    ensures { result ≡ fault_of fault }
{
    match fault {
        StoreFault::Disk => SimFault::Disk,
        StoreFault::JournalThere => SimFault::JournalThere,
        StoreFault::NoJournal => SimFault::Memory,
        StoreFault::Bad(_) => SimFault::Memory,
        StoreFault::Memory => SimFault::Memory,
    }
}
