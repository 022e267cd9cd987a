//! Laws of deeds and replies.
ghost use Rattle.std.specs.Prelude.{◌≡◌, All, List, ℕ, Ok};
ghost use Rattle.serde_json.specs.Data.{Data};
ghost use Rattle.deed_words.specs.Setups.{Setup};
ghost use Rattle.deed_words.specs.World.{World, nothing_yet};
ghost use Rattle.deed_words.specs.ProperWorlds.{IsProperWorld};
ghost use Rattle.deed_words.specs.History.{IsLawful, told_from};
ghost use Rattle.deed_words.specs.Numbers.{Means, Kept};
ghost use Rattle.deed_words.specs.Proper.{IsProperEntry};
ghost use Rattle.deed_words.specs.Replies.{reply_to};
ghost use Rattle.deed_words.specs.declared.deed.Deed.{Deed};
ghost use Rattle.deed_words.specs.declared.entry.Entry.{Entry};
ghost use Rattle.deed_words.specs.declared.entry.Said.{Said};
ghost use Rattle.deed_words.specs.declared.reply.Reply.{Reply};
ghost use Rattle.deed_json.specs.Deeds.{deed_word, said_of, text_at};
ghost use Rattle.deed_json.specs.Replies.{NamesStationsOf};
ghost use Rattle.deed_json.specs.declared.deed_fault.Member.TheVariants.{Do};

use deed_words::worlds_are_proper;

/// Each reply names stations of the setup alone, so it can be told by their names: the reply to an
/// entry in a proper world, each reply that a lawful history of proper entries told, and the one
/// that it keeps for a number of a station.
pub fn replies_name_stations()
    ensures entry { (site : Setup) (w : World) (entry : Entry) → IsProperWorld site w → NamesStationsOf site (reply_to site w entry) }
    ensures history { (site : Setup) (history : List Entry) → IsLawful site history → All IsProperEntry history → All (λ told. NamesStationsOf site told.1) (told_from site nothing_yet history) }
    ensures kept { (site : Setup) (history : List Entry) (station number : ℕ) (deed : Deed) (reply : Reply) → IsLawful site history → All IsProperEntry history
        → Means site history station number deed (Kept reply) → NamesStationsOf site reply }
{
    worlds_are_proper();
}

/// Whatever JSON reads as a deed has the deed's word at `do`.
pub fn deeds_are_asked_by_word()
    ensures { (d : Data) (said : Said) → said_of d ≡ Ok said → text_at Do d ≡ Ok (deed_word said.deed) }
{}
