//! One request of the program to its store.
ghost use Rattle.std.specs.Prelude.{◌≡◌, ◌<◌, length};
ghost use Rattle.outside.specs.Causes.{HasCauseIf};
ghost use Rattle.deed_words.specs.Proper.{IsProperAsk};
ghost use Rattle.site_store.specs.Causes.{is_disk_fault, is_clock_fault, is_words_fault};
ghost use Rattle.site_store.specs.Moved.{TakesBoth};
ghost use Rattle.site_store.specs.Open.{store_state};
ghost use Rattle.site_console.specs.Open.{Stands};
ghost use Rattle.site_console.specs.Turns.{TurnsTo};

use deed_words::Ask;
use outside::{Clock, Disk, Words};
use site_store::{Outcome, Store};

/// One request, as worker 0: one step of the store.
pub fn turn<D: Disk, C: Clock, W: Words>(store: &mut Store<D, C, W>, ask: Ask) -> Outcome
    requires station { ask.station < length store.old.site.setup.stations }
    requires proper { IsProperAsk ask }
    requires stands { Stands D.Disk C.Clock W.Words store.old }
    ensures turns { TakesBoth (C.moments_left store.old.clock) (C.moments_left store.new.clock) (W.words_left store.old.words) (W.words_left store.new.words) (λ taken. TurnsTo store.old.site.setup (store_state store.old) ask taken result (store_state store.new)) }
    ensures disk { HasCauseIf (is_disk_fault result (store_state store.new).pending) (D.disk_faults store.old.journal.disk) (D.disk_faults store.new.journal.disk) }
    ensures clock { HasCauseIf (is_clock_fault result) (C.clock_faults store.old.clock) (C.clock_faults store.new.clock) }
    ensures words { HasCauseIf (is_words_fault result) (W.word_faults store.old.words) (W.word_faults store.new.words) }
    ensures setup { store.new.site.setup ≡ store.old.site.setup }
    ensures opened { (store.new.opening ≡ store.old.opening) × (store.new.opened ≡ store.old.opened) }
    ensures stands { Stands D.Disk C.Clock W.Words store.new }
{
    store.submit(0, ask)
}
