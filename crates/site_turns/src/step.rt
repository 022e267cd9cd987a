//! One step of the store.
ghost use Rattle.std.specs.Prelude.{◌≡◌, ◌≢◌, ◌≤◌, [], length, vec_capacity};
ghost use Rattle.std.specs.List.{AllByRecursion as Every};
ghost use Rattle.turn_desk.specs.Notes.{Appends};
ghost use Rattle.site_store.specs.Asked.{AreOf};
ghost use Rattle.site_turns.specs.Answering.{Submits};
ghost use Rattle.site_turns.specs.Origins.{IsServing, desk_notes, origin_of};
ghost use Rattle.site_turns.specs.Outcomes.{IsPrintable};

use deed_json::replies_name_stations;
use deed_words::{Ask, numbers_mean_one_thing};
use outside::{Clock, Disk, Words};
use site_store::{Outcome, Store};

/// Answers 1 to 16 numbered requests by one step of the store. Their replies name stations of the site alone.
pub(crate) fn step<D: Disk, C: Clock, W: Words>(
    store: &mut Store<D, C, W>,
    worker: u8,
    asks: Vec<Ask>,
    outcomes: &mut Vec<Outcome>,
)
    requires serving { IsServing D.Disk C.Clock W.Words store.old }
    requires stations { AreOf store.old.site.setup asks.items }
    requires some { asks.items ≢ [] }
    requires few { length asks.items ≤ 16 }
    requires empty { outcomes.old.items ≡ [] }
    requires spare { length asks.items ≤ vec_capacity outcomes.old }
    ensures submits { Submits (origin_of D.Disk C.Clock W.Words store.old) worker asks.items (desk_notes store.old) (desk_notes store.new) outcomes.new.items }
    ensures appends { Appends worker (desk_notes store.old) (desk_notes store.new) }
    ensures printable { Every (IsPrintable store.new.site.setup) outcomes.new.items }
    ensures origin { origin_of D.Disk C.Clock W.Words store.new ≡ origin_of D.Disk C.Clock W.Words store.old }
    ensures serving { IsServing D.Disk C.Clock W.Words store.new }
{
    replies_name_stations();
    numbers_mean_one_thing();
    store.submit_all(worker, asks, outcomes);
    store.site().tell_kept();
}
