//! What a worker knows. These types are for contracts: no value of them is made.
use deed_words::{Entry, Note, Setup};
use std::collections::LinkedList;

/// A note with its group: the entries that it is about.
pub struct Noted {
    /// The note.
    pub note: Note,
    /// The one entry that a `Done` settled; the entries that a fault of the disk left pending; else none.
    pub group: LinkedList<Entry>,
}

/// What no turn changes: the site, its history when the value was made, and what its devices told then.
pub struct Origin {
    /// The setup of the site.
    pub setup: Setup,
    /// The history at the opening.
    pub opening: LinkedList<Entry>,
    /// How often a call of the disk had failed at the opening,
    pub disk_faults: u64,
    /// one of the clock,
    pub clock_faults: u64,
    /// and one of the random words.
    pub word_faults: u64,
    /// The moments that the clock had left, where it tells them, in milliseconds since 1970.
    pub moments: Option<LinkedList<u64>>,
    /// The random words that were left, where they are told.
    pub words: Option<LinkedList<u64>>,
}

/// Where a worker is in its turn, with the number of its ticket.
pub enum Stage {
    /// Between two turns.
    Idle,
    /// It has a ticket.
    Waits(u64),
    /// Its turn has come.
    First(u64),
    /// It has the value.
    Works(u64),
    /// It has the value, and its notes are counted.
    Counted(u64),
    /// It has put the value back.
    Back(u64),
}

/// What a worker knows.
pub struct View {
    /// Whether it is still a worker: not so once its pass was given back.
    pub live: bool,
    /// Whether it is the first seat, from which the others are cut. It has the last worker's number.
    pub first: bool,
    /// The worker's number.
    pub worker: u64,
    /// What no turn changes.
    pub origin: Origin,
    /// The notes that it has seen.
    pub seen: LinkedList<Noted>,
    /// How many tickets it may still take.
    pub left: u64,
    /// Where it is in its turn.
    pub stage: Stage,
    /// The first seat has taken in the workers from this one on, up to its own,
    pub low: u64,
    /// and this is what they had seen.
    pub known: LinkedList<LinkedList<Noted>>,
}
