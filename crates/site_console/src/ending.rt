//! How the program ends.
ghost use Rattle.std.specs.Prelude.{◌≡◌};
ghost use Rattle.site_console.specs.Endings.{status_of, ending_of, ending_of_store};

use crate::fault::Fault;
use site_store::StoreFault;

/// How the program ends.
#[derive(Clone, Copy, Debug, PartialEq, Eq)]
pub enum Ending {
    /// All was done.
    Done,
    /// The words of the command line are no command's.
    BadWords,
    /// The site file has a fault with this number, 1 to 5.
    Unreadable(u8),
    /// A journal is there already.
    JournalThere,
    /// No journal is there.
    NoJournal,
    /// The journal is bad from the gate at this offset on.
    JournalBad(u64),
    /// The site file or the input couldn't be read.
    ReadFault,
    /// An answer couldn't be put.
    WriteFault,
    /// A call of the disk failed.
    DiskFault,
    /// The site has no batch of that name.
    UnknownBatch,
    /// Memory was wanting.
    NoMemory,
    /// A call of a door failed.
    DoorFault,
    /// As many bytes were taken as a run may take.
    TooLong,
}

/// The status of an ending.
pub fn status_of(ending: Ending) -> u8
    ensures { result ≡ status_of ending }
{
    match ending {
        Ending::Done => 0,
        Ending::BadWords => 2,
        Ending::Unreadable(_) => 3,
        Ending::JournalThere => 4,
        Ending::NoJournal => 5,
        Ending::JournalBad(_) => 6,
        Ending::ReadFault => 7,
        Ending::WriteFault => 8,
        Ending::DiskFault => 9,
        Ending::UnknownBatch => 10,
        Ending::NoMemory => 11,
        Ending::DoorFault => 12,
        Ending::TooLong => 13,
    }
}

/// How a run ends.
pub(crate) fn ending_of(run: Result<(), Fault>) -> Ending
    ensures { result ≡ ending_of run }
{
    match run {
        Ok(()) => Ending::Done,
        Err(Fault::Read) => Ending::ReadFault,
        Err(Fault::Write) => Ending::WriteFault,
        Err(Fault::Memory) => Ending::NoMemory,
        Err(Fault::InputTooLong) => Ending::TooLong,
    }
}

/// How a command ends whose journal couldn't be made or loaded.
pub fn ending_of_store(fault: StoreFault) -> Ending
    ensures { result ≡ ending_of_store fault }
{
    match fault {
        StoreFault::Disk => Ending::DiskFault,
        StoreFault::JournalThere => Ending::JournalThere,
        StoreFault::NoJournal => Ending::NoJournal,
        StoreFault::Bad(place) => Ending::JournalBad(place),
        StoreFault::Memory => Ending::NoMemory,
    }
}
