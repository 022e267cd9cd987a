//! Laws of the definitions: each is the contract of a function that does nothing.
ghost use Rattle.std.specs.Prelude.{◌≡◌, ◌+◌, ℕ, true, false, None, List, [], ◌∷◌, ◌++◌, map, length, take, drop, filter_map, codes, All};
ghost use Rattle.std.specs.List.{IsDistinct, AllByRecursion as Every};
ghost use Rattle.epc_urn.specs.declared.epc.Epc.{Epc};
ghost use Rattle.deed_words.specs.Names.{Text, same_name, is_among};
ghost use Rattle.deed_words.specs.Setups.{Setup, IsProper};
ghost use Rattle.deed_words.specs.declared.entry.Entry.{Entry};
ghost use Rattle.epc_urn.specs.declared.epc.Epc.TheVariants.{Unit as Box};
ghost use Rattle.deed_words.specs.declared.entry.Move.{Move};
ghost use Rattle.deed_words.specs.Rules.{broken};
ghost use Rattle.deed_words.specs.Proper.{IsProperEntry};
ghost use Rattle.deed_words.specs.World.{World};
ghost use Rattle.json.specs.Print.{quoted};
ghost use Rattle.serde_json.specs.Written.{compact_text};
ghost use Rattle.epcis_events.specs.declared.event.Event.{Event};
ghost use Rattle.epcis_events.specs.declared.event.Action.TheVariants.{Add};
ghost use Rattle.epcis_events.specs.declared.event.Step.TheVariants.{Commissioning};
ghost use Rattle.epcis_events.specs.declared.event.Disposition.TheVariants.{Active};
ghost use Rattle.epcis_events.specs.Moment.{moment_text};
ghost use Rattle.epcis_events.specs.Documents.{event_data, ilmd_data, document_text, document_front, events_text, document_back, IsProperEvent};
ghost use Rattle.deed_words.specs.Happenings.{has_event, moves, moves_of, moved_by};
ghost use Rattle.deed_words.specs.Kept.{pairs_in};
ghost use Rattle.deed_words.specs.History.{IsLawful, world_of};
ghost use Rattle.epcis_events.specs.Events.{event_of, events, events_of};
ghost use Rattle.epcis_events.specs.Replaying.{replay};
ghost use Rattle.epcis_events.specs.There.{is_there, is_there_of, live_rows, units_in_use, pair_up};

/// Replaying the events of a lawful history gives the packing of its world, in order, and the
/// names of what is there, each once; and the same of a batch.
pub fn replay_gives_the_world()
    ensures packing { (site : Setup) (history : List Entry) → IsProper site → IsLawful site history → (replay (events site history)).pairs ≡ map pair_up (world_of site history).pairs }
    ensures live { (site : Setup) (history : List Entry) (name : Epc) → IsProper site → IsLawful site history → is_among (replay (events site history)).live name ≡ is_there (world_of site history) name }
    ensures once { (site : Setup) (history : List Entry) → IsProper site → IsLawful site history → IsDistinct same_name (replay (events site history)).live }
    ensures batch_packing { (site : Setup) (history : List Entry) (name : Text) → IsProper site → IsLawful site history → (replay (events_of site history name)).pairs ≡ map pair_up (pairs_in (world_of site history) name) }
    ensures batch_live { (site : Setup) (history : List Entry) (batch : Text) (name : Epc) → IsProper site → IsLawful site history → is_among (replay (events_of site history batch)).live name ≡ is_there_of (world_of site history) batch name }
    ensures batch_once { (site : Setup) (history : List Entry) (name : Text) → IsProper site → IsLawful site history → IsDistinct same_name (replay (events_of site history name)).live }
    ensures numbers { (site : Setup) (history : List Entry) → IsProper site → IsLawful site history → length (replay (events site history)).live ≡ length (live_rows (world_of site history).rows) + length (units_in_use (world_of site history).units) }
{}

/// A history's moves are those of its front and that of its last entry.
pub fn moves_grow()
    ensures { (site : Setup) (history : List Entry) (entry : Entry) → let w : World = world_of site history in
        moves site (history ++ entry ∷ []) ≡ moves site history ++ moved_by site w (length history) entry (broken site w entry.station entry.deed) }
{}

/// Each move has an event, so the events are numbered as the moves are.
pub fn moves_have_events()
    ensures each { (site : Setup) (history : List Entry) → Every (λ moved. has_event moved.kept.deed ≡ true) (moves site history) }
    ensures batch { (site : Setup) (history : List Entry) (name : Text) → Every (λ moved. has_event moved.kept.deed ≡ true) (moves_of site history name) }
    ensures part { (site : Setup) (some : List Move) (first count : ℕ) → Every (λ moved. has_event moved.kept.deed ≡ true) some
        → filter_map (event_of site) (take count (drop first some)) ≡ take count (drop first (filter_map (event_of site) some)) }
    ensures count { (site : Setup) (some : List Move) → Every (λ moved. has_event moved.kept.deed ≡ true) some → length (filter_map (event_of site) some) ≡ length some }
{}

/// The events of a lawful history of proper entries, and those of a batch, are such as a document takes.
pub fn events_are_proper()
    ensures all { (site : Setup) (history : List Entry) → IsProper site → IsLawful site history → All IsProperEntry history → All IsProperEvent (events site history) }
    ensures batch { (site : Setup) (history : List Entry) (name : Text) → IsProper site → IsLawful site history → All IsProperEntry history → All IsProperEvent (events_of site history name) }
{}

/// A document is what stands in front of its events, their texts one behind the other, and what stands behind them.
pub fn documents_have_parts()
    ensures { (events : List Event) (created : ℕ) → document_text events created ≡ document_front created ++ events_text false events ++ document_back }
{}

/// The text of an event, byte for byte: the making of a case.
pub fn events_are_spelled()
    ensures made { (time : ℕ) → compact_text (event_data (record {
      aggregation = false;
      action = Add;
      step = Commissioning;
      disposition = Active;
      epcs = (Box (codes "106141410000000019"), 7) ∷ [];
      parent = None;
      time = time;
      place = (codes "0614141000012", 7);
      offset = codes "+00:00";
      ilmd = None;
    }))
        ≡ codes "{\"action\":\"ADD\",\"bizLocation\":{\"id\":\"urn:epc:id:sgln:0614141.00001.0\"},\"bizStep\":\"commissioning\",\"disposition\":\"active\",\"epcList\":[\"urn:epc:id:sscc:0614141.1000000001\"],\"eventTime\":"
        ++ (quoted (moment_text time) ++ codes ",\"eventTimeZoneOffset\":\"+00:00\",\"readPoint\":{\"id\":\"urn:epc:id:sgln:0614141.00001.0\"},\"type\":\"ObjectEvent\"}") }
    ensures ilmd { compact_text (ilmd_data (codes "LOT7A", codes "271200")) ≡ codes "{\"cbvmda:itemExpirationDate\":\"2027-12-31\",\"cbvmda:lotNumber\":\"LOT7A\"}" }
{}
