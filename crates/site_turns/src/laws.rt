//! Laws of turns.
ghost use Rattle.site_turns.specs.Laws.{AnsweredAreKept, KeptStays};

use deed_words::{histories_grow_lawfully, numbers_mean_one_thing};

/// Each request that a step answered with a reply stands under its number, with that reply, in the history of every
/// later list of notes; and what stands so in one list stands so in every later one.
pub fn answered_are_kept()
    ensures kept { AnsweredAreKept }
    ensures stays { KeptStays }
{
    histories_grow_lawfully();
    numbers_mean_one_thing();
}
