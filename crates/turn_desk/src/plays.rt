//! The rule of a desk, and its eight kinds of step: what each tells the worker that takes it.
ghost use Rattle.turn_desk.specs.Rule.{ticketed, watched, taken, added, given, passed, parted, part, gathered, spent};

use crate::stands::Stands;
use crate::view::View;
use atomic_table::{Join, Play, Split, TableRule};
use std::snapshot::Snapshot;

/// The rule of a desk's table.
pub struct Turns;

impl<V: Stands> TableRule<V, View, Snapshot<V>> for Turns {
    ghost use Rattle.turn_desk.specs.Rule.{Kept, first_view};

    ghost holds = { λ key. Kept V.noted V.origin V.sound (V.origin key.value) };

    ghost first = { λ key. first_view (V.origin key.value) };
}

/// A worker takes a ticket.
pub struct Ticket;

impl<V> Play<V, View> for Ticket {
    ghost then = { ticketed };
}

/// It looks at how many turns are over.
pub struct Watch;

impl<V> Play<V, View> for Watch {
    ghost then = { watched };
}

/// Its turn has come, and it takes the value.
pub struct TakeValue;

impl<V: Stands> Play<V, View> for TakeValue {
    ghost then = { taken V.noted V.origin V.sound };
}

/// Its notes are added to the count.
pub struct AddNotes;

impl<V: Stands> Play<V, View> for AddNotes {
    ghost then = { added V.noted };
}

/// It puts the value back.
pub struct PutBack;

impl<V> Play<V, View> for PutBack {
    ghost then = { given };
}

/// The next turn may begin.
pub struct PassOn;

impl<V> Play<V, View> for PassOn {
    ghost then = { passed };
}

/// A worker is cut from the first seat.
pub struct Cut;

impl Split<View> for Cut {
    ghost left = { parted };

    ghost right = { part };
}

/// The first seat takes a worker in.
pub struct Gather;

impl Join<View> for Gather {
    ghost both = { gathered };

    ghost spent = { spent };
}
