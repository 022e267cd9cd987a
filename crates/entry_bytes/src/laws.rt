//! Laws of the bytes. Each function states one, and does nothing.
ghost use Rattle.std.specs.Prelude.{◌≡◌, ◌⊎◌, ◌≤◌, ◌+◌, ◌++◌, ◌∷◌, [], ℕ, List, Err, length, take, drop};
ghost use Rattle.deed_words.specs.Setups.{Setup};
ghost use Rattle.deed_words.specs.declared.entry.Entry.{Entry};
ghost use Rattle.entry_bytes.specs.declared.fault.EntryFault.{EntryFault};
ghost use Rattle.entry_bytes.specs.declared.fault.EntryFault.TheVariants.{Short};
ghost use Rattle.entry_bytes.specs.Deeds.{entries_of};
ghost use Rattle.entry_bytes.specs.SiteFields.{setup_of};
ghost use Rattle.entry_bytes.specs.Faults.{AreBytes, IsStop};
ghost use Rattle.entry_bytes.specs.Spelling.{entry_bytes, group_bytes};
ghost use Rattle.entry_bytes.specs.Groups.{IsOlder, SpellsGroup, entry_size, group_size};
ghost use Rattle.entry_bytes.specs.Sites.{setup_bytes, IsOlderSetup, SpellsSetup};

/// Bytes spell one group at most and one site at most, in whatever versions.
pub fn no_bytes_are_shared()
    ensures groups { (bytes : List ℕ) (one other : List Entry) → SpellsGroup one bytes → SpellsGroup other bytes → one ≡ other }
    ensures sites { (bytes : List ℕ) (one other : Setup) → SpellsSetup one bytes → SpellsSetup other bytes → one ≡ other }
{}

/// Two spellings of one group or of one site are the same, or they are those of the two versions.
pub fn each_version_has_one_spelling()
    ensures groups { (group : List Entry) (one other : List ℕ) → SpellsGroup group one → SpellsGroup group other → (one ≡ other) ⊎ (((one ≡ group_bytes group) × IsOlder group other) ⊎ (IsOlder group one × (other ≡ group_bytes group))) }
    ensures sites { (site : Setup) (one other : List ℕ) → SpellsSetup site one → SpellsSetup site other → (one ≡ other) ⊎ (((one ≡ setup_bytes site) × IsOlderSetup site other) ⊎ (IsOlderSetup site one × (other ≡ setup_bytes site))) }
{}

/// A fault is the first one from the left: the bytes in front of its place are fields that were read,
/// and the next one begins at that place. So bytes that are cut off there are short at that very field.
pub fn a_fault_is_the_first()
    ensures groups { (bytes : List ℕ) (fault : EntryFault) (at : ℕ) → AreBytes bytes → entries_of bytes ≡ Err fault → IsStop fault at → (at ≤ length bytes) × (entries_of (take at bytes) ≡ Err (Short at)) }
    ensures sites { (bytes : List ℕ) (fault : EntryFault) (at : ℕ) → AreBytes bytes → setup_of bytes ≡ Err fault → IsStop fault at → (at ≤ length bytes) × (setup_of (take at bytes) ≡ Err (Short at)) }
{}

/// The bytes of a group are as long as its entries together, and a byte more; those of version 1 are at
/// most that. No entry takes no bytes. A site takes at most 5,805.
pub fn sizes_are_sums()
    ensures written { (group : List Entry) → length (group_bytes group) ≡ group_size group }
    ensures longest { (group : List Entry) (bytes : List ℕ) → SpellsGroup group bytes → length bytes ≤ group_size group }
    ensures counted { (group : List Entry) (bytes : List ℕ) → SpellsGroup group bytes → length group ≤ length bytes }
    ensures some { (entry : Entry) → 1 ≤ entry_size entry }
    ensures site { (site : Setup) (bytes : List ℕ) → SpellsSetup site bytes → length bytes ≤ 5805 }
{}

/// A group that gets one entry more has a count byte one higher, and the bytes of that entry last.
pub fn groups_grow_at_the_end()
    ensures { (group : List Entry) (entry : Entry) → group_bytes (group ++ entry ∷ []) ≡ (129 + length group) ∷ (drop 1 (group_bytes group) ++ entry_bytes entry) }
{}
