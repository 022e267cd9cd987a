//! Laws of the definitions.
ghost use Rattle.std.specs.Prelude.{◌≡◌, ◌+◌, ℕ, Some, List};
ghost use Rattle.std.specs.List.{slice_get};
ghost use Rattle.deed_words.specs.Setups.{Setup};
ghost use Rattle.deed_words.specs.declared.entry.Entry.{Entry};
ghost use Rattle.deed_words.specs.History.{IsLawful, own};
ghost use Rattle.site_store.specs.Readings.{Reading, ReadsAs};
ghost use Rattle.site_store.specs.Images.{Extends};
ghost use Rattle.site_store.specs.States.{State, all_of};
ghost use Rattle.site_store.specs.Stops.{Event, Runs, AllKept, handed_out};

/// Bytes are no journal, or bad at one place, or they hold one setup and one history, and only one of these: what `load`
/// answers, where no device call fails and memory is found, is exactly what the bytes are.
pub fn one_history()
    ensures once { (c : List ℕ) (a b : Reading) → ReadsAs a c → ReadsAs b c → a ≡ b }
{}

/// Over every list of group steps and stops, each answered request is kept in every later history, with the reply that
/// was handed out; a station's numbers run 1, 2, 3, so no request stands there twice; and histories only grow behind what
/// was there before.
pub fn stop_law()
    ensures kept { (site : Setup) (old new : State) (events : List Event) → IsLawful site (all_of old) → Runs site old events new → AllKept site new.history (handed_out events) }
    ensures extends { (site : Setup) (old new : State) (events : List Event) → IsLawful site (all_of old) → Runs site old events new → Extends old.history new.history }
    ensures lawful { (site : Setup) (old new : State) (events : List Event) → IsLawful site (all_of old) → Runs site old events new → IsLawful site (all_of new) }
    ensures once { (site : Setup) (history : List Entry) (station i : ℕ) (entry : Entry) → IsLawful site history → slice_get (own station history) i ≡ Some entry → entry.number ≡ i + 1 }
{}
