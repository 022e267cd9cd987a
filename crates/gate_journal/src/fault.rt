//! Why a call of a journal was refused.

/// Why a call of a journal was refused.
#[derive(Clone, Copy, Debug, PartialEq, Eq)]
pub enum JournalFault {
    /// A call of the disk failed, and its count of faults rose.
    Disk,
    /// A journal is there already: two bytes or more, and byte 0 is 1.
    AlreadyThere,
    /// No journal is there: fewer than two bytes, or byte 0 isn't 1.
    NoJournal,
    /// The bytes from this offset on, that of a gate, are not those of a journal.
    BadRecord(u64),
    /// The journal would grow past its limit: its end, the payload's length, and the limit, in bytes.
    Full(u64, u64, u64),
    /// No memory was found.
    Memory,
}
