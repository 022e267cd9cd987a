//! Laws of what bytes hold.
ghost use Rattle.std.specs.Prelude.{◌≡◌, ◌⊎◌, ◌+◌, [], ◌∷◌, ◌++◌, List, ℕ, length};
ghost use Rattle.gate_journal.specs.Gates.{HalfOpen};
ghost use Rattle.gate_journal.specs.Grammar.{block, front, placed, IsShort, AreShort, Holds, IsNone, IsThere, IsBad};
ghost use Rattle.gate_journal.specs.Journals.{HoldsWithOrWithout};
ghost use Rattle.gate_journal.specs.Readings.{bytes_of, places_of};
ghost use Rattle.gate_journal.specs.declared.payload.Payload.{Payload};

/// Bytes are no journal, or bad at one place, or they hold one site and one list of payloads, and only one of these.
/// So what `load` answers where no device call fails and memory is found is exactly what the bytes are.
pub fn one_reading()
    ensures holds { (c site other : List ℕ) (ps qs : List (List ℕ)) → Holds site ps c → Holds other qs c → (site ≡ other) × (ps ≡ qs) }
    ensures bad { (c : List ℕ) (place other : ℕ) → IsBad c place → IsBad c other → place ≡ other }
    ensures one_of_three { (c : List ℕ) → IsNone c ⊎ ((place : ℕ) × IsBad c place) ⊎ ((site : List ℕ) × (payloads : List (List ℕ)) × Holds site payloads c) }
    ensures holds_not_none { (c site : List ℕ) (ps : List (List ℕ)) → Holds site ps c → IsNone c → ⊥ }
    ensures holds_not_bad { (c site : List ℕ) (ps : List (List ℕ)) (place : ℕ) → Holds site ps c → IsBad c place → ⊥ }
    ensures bad_not_none { (c : List ℕ) (place : ℕ) → IsBad c place → IsNone c → ⊥ }
    ensures there_not_none { (c : List ℕ) → IsThere c → IsNone c → ⊥ }
{}

/// A record that stands whole behind its gate, whether that is open or closed, counts or doesn't.
pub fn with_or_without()
    ensures either { (site payload c : List ℕ) (ps : List (List ℕ)) → IsShort site → AreShort ps → IsShort payload → HalfOpen (front site ps) (block payload) c → HoldsWithOrWithout site ps payload c }
{}

/// The gate of a payload that was loaded stands at the length of its front: the header and the records before it.
pub fn gate_place()
    ensures place { (site : List ℕ) (all before after : List Payload) (payload : Payload) → places_of all ≡ placed (13 + length site) (bytes_of all) → all ≡ before ++ payload ∷ after → payload.at ≡ length (front site (bytes_of before)) }
{}

/// What two crashes leave of one disk on which one payload is pending is read alike, or differs by that payload.
pub fn two_readings()
    ensures readings { (site payload c d one other : List ℕ) (payloads ps qs : List (List ℕ)) → HoldsWithOrWithout site payloads payload c → HoldsWithOrWithout site payloads payload d → Holds one ps c → Holds other qs d → (one ≡ other) × ((ps ≡ qs) ⊎ (ps ≡ qs ++ payload ∷ []) ⊎ (qs ≡ ps ++ payload ∷ [])) }
{}
