//! Laws of the definitions: each is the contract of a function that does nothing.
ghost use Rattle.std.specs.Prelude.{◌++◌, ◌∷◌, ◌≡◌, ◌<◌, true, All, List, [], ℕ, length, Option, Some, None, option_map, map, flat_map, sum_by, Bool};
ghost use Rattle.std.specs.List.{IsDistinct, AllByRecursion as Every};
ghost use Rattle.deed_words.specs.Setups.{Setup, IsForPlanner, IsProper};
ghost use Rattle.deed_words.specs.declared.entry.Entry.{Entry};
ghost use Rattle.deed_words.specs.World.{World, nothing_yet, batch_of, parent, rows_in};
ghost use Rattle.deed_words.specs.declared.world.Batch.{Batch};
ghost use Rattle.deed_words.specs.declared.words.Phase.TheVariants.{Started, Closed};
ghost use Rattle.deed_words.specs.Accounts.{finding, how_many};
ghost use Rattle.deed_words.specs.Accounted.{IsAccounted};
ghost use Rattle.deed_words.specs.Rules.{broken};
ghost use Rattle.deed_words.specs.declared.rule.Rule.TheVariants.{NotAccounted};
ghost use Rattle.deed_words.specs.Kept.{KeepsBatch};
ghost use Rattle.deed_words.specs.Proper.{IsProperEntry};
ghost use Rattle.deed_words.specs.ProperWorlds.{IsProperWorld};
ghost use Rattle.deed_words.specs.Names.{Text, same, same_name};
ghost use Rattle.deed_words.specs.Replies.{after, reply_to};
ghost use Rattle.deed_words.specs.History.{IsLawful, MayFollow, AllFollow, world_of, world_from, told_from};
ghost use Rattle.deed_words.specs.declared.deed.OrderRow.{OrderRow};
ghost use Rattle.deed_words.specs.declared.deed.Deed.{Deed};
ghost use Rattle.deed_words.specs.declared.deed.Deed.TheVariants.{Orders, Close, Draw, Lend};
ghost use Rattle.deed_words.specs.declared.reply.Reply.{Reply};
ghost use Rattle.deed_words.specs.declared.reply.Reply.TheVariants.{Accepted};
ghost use Rattle.deed_words.specs.Numbers.{Means, Meaning, Kept, Reused};
ghost use Rattle.deed_words.specs.declared.reply.Answer.TheVariants.{Orders as orders_told, Plain};
ghost use Rattle.deed_words.specs.Counts.{total, counts_of, drawn_of, counts_of_gtin, drawn_of_gtin, batches_of_gtin};
ghost use Rattle.deed_words.specs.Sound.{IsSound};
ghost use Rattle.deed_words.specs.Once.{all_drawn, all_lent, all_commissioned, all_codes_made, drawn_by, lent_by, issued_by, serial_of, listed, made_told, WasOrdered};
ghost use Rattle.deed_words.specs.Tests.{rows_of_gtin};
ghost use Rattle.deed_words.specs.declared.words.State.{State};
ghost use Rattle.epc_urn.specs.declared.epc.Epc.{Epc};
ghost use Rattle.epc_urn.specs.declared.epc.Epc.TheVariants.{Item, Unit as Box};

/// The world of a lawful history is sound, since each lawful entry keeps a world sound.
pub fn soundness_is_kept()
    ensures entry { (site : Setup) (history : List Entry) (w : World) (entry : Entry) → MayFollow site history w entry → IsSound site w → IsSound site (after site w entry) }
    ensures history { (site : Setup) (history : List Entry) → IsProper site → IsLawful site history → IsSound site (world_of site history) }
{}

/// The world of proper entries is proper: its batches have names, products, proper orders and
/// quantities, and its serials and declarations are of lines of the site.
pub fn worlds_are_proper()
    ensures entry { (site : Setup) (history : List Entry) (w : World) (entry : Entry) → MayFollow site history w entry → IsProperEntry entry → IsProperWorld site w → IsProperWorld site (after site w entry) }
    ensures history { (site : Setup) (history : List Entry) → IsLawful site history → All IsProperEntry history → IsProperWorld site (world_of site history) }
    ensures nameless { (site : Setup) (w : World) → IsProperWorld site w → batch_of w [] ≡ None }
{}

/// The six counts of a batch, and those of a GTIN, sum to the serials that were drawn for it. What
/// was drawn for a GTIN is the sum of what was drawn for its batches, and how the rows of a GTIN
/// stand is the sum of how those of its batches stand.
pub fn counts_sum_to_drawn()
    ensures batch { (site : Setup) (history : List Entry) (name : Text) → IsLawful site history → total (counts_of (world_of site history) name) ≡ drawn_of history name }
    ensures gtin { (site : Setup) (history : List Entry) (gtin : Text) → IsLawful site history → total (counts_of_gtin (world_of site history) gtin) ≡ drawn_of_gtin site history gtin }
    ensures drawn { (site : Setup) (history : List Entry) (gtin : Text) → IsProper site → IsLawful site history
        → drawn_of_gtin site history gtin ≡ sum_by (λ batch. drawn_of history batch.order.batch) (batches_of_gtin (world_of site history) gtin) }
    ensures batches { (site : Setup) (w : World) (gtin : Text) (test : State → Bool) → IsSound site w
        → how_many test (rows_of_gtin w gtin) ≡ sum_by (λ batch. how_many test (rows_in w batch.order.batch)) (batches_of_gtin w gtin) }
{}

/// No serial of a product is drawn twice, lent twice or commissioned twice.
pub fn issued_once()
    ensures drawn { (site : Setup) (history : List Entry) → IsProper site → IsLawful site history → IsDistinct same_name (all_drawn site history) }
    ensures lent { (site : Setup) (history : List Entry) → IsProper site → IsLawful site history → IsDistinct same_name (all_lent site history) }
    ensures commissioned { (site : Setup) (history : List Entry) → IsProper site → IsLawful site history → IsDistinct same_name (all_commissioned site history) }
{}

/// The reply to a draw lists the serials that it drew, and that to a lend those that it lent.
pub fn replies_list_what_is_issued()
    ensures drawn { (site : Setup) (w : World) (entry : Entry) (name : Text) (count : ℕ) → entry.deed ≡ Draw name count → listed (reply_to site w entry) ≡ map serial_of (issued_by drawn_by site w entry) }
    ensures lent { (site : Setup) (w : World) (entry : Entry) (name : Text) (count : ℕ) → entry.deed ≡ Lend name count → listed (reply_to site w entry) ≡ map serial_of (issued_by lent_by site w entry) }
{}

/// What stands in a unit that stands in another is an item, and the other stands in nothing: so
/// nothing stands in itself, however deep.
pub fn things_stand_two_deep()
    ensures { (site : Setup) (w : World) (name : Epc) (case pallet : Text) → IsSound site w → parent w name ≡ Some case → parent w (Box case) ≡ Some pallet
        → ((gtin : Text) × (serial : Text) × (name ≡ Item gtin serial)) × (parent w (Box pallet) ≡ None) }
{}

/// No container code is made twice; the codes made are those of the units in the world, and those
/// that the replies told.
pub fn codes_made_once()
    ensures units { (site : Setup) (history : List Entry) → map (λ unit. unit.sscc) (world_of site history).units ≡ all_codes_made site history }
    ensures told { (site : Setup) (history : List Entry) → flat_map (λ told. made_told told.1) (told_from site nothing_yet history) ≡ all_codes_made site history }
    ensures once { (site : Setup) (history : List Entry) → IsProper site → IsLawful site history → IsDistinct same (all_codes_made site history) }
{}

/// Order rows that were all accepted before change nothing, whatever became of their batches since.
pub fn orders_again_change_nothing()
    ensures { (site : Setup) (history : List Entry) (station number worker stamp : ℕ) (operator : Option Text) (rows : List OrderRow) → IsProper site → IsLawful site history
        → IsForPlanner site station → 0 < length rows → Every (WasOrdered site history) rows
        → let entry : Entry = record { station = station; number = number; worker = worker; stamp = stamp; operator = operator; deed = Orders rows; drawn = [] } in
        (after site (world_of site history) entry ≡ world_of site history) × (reply_to site (world_of site history) entry ≡ Accepted (orders_told 0 (length rows))) }
{}

/// After a batch was closed nothing of it changes, whatever lawful entries follow.
pub fn closed_batches_stay()
    ensures closed { (site : Setup) (history : List Entry) (w : World) (entries : List Entry) (name : Text) (batch : Batch) → AllFollow site history w entries → IsSound site w
        → batch_of w name ≡ Some batch → batch.phase ≡ Closed → KeepsBatch w (world_from site w entries) name }
    ensures history { (site : Setup) (front more : List Entry) (entry : Entry) (name : Text) → IsProper site → IsLawful site (front ++ entry ∷ more)
        → entry.deed ≡ Close name → reply_to site (world_of site front) entry ≡ Accepted Plain
        → KeepsBatch (world_of site (front ++ entry ∷ [])) (world_of site (front ++ entry ∷ more)) name }
{}

/// A planner's close on a Started batch is accepted exactly where the batch is accounted for, and else refused with the finding.
pub fn closes_where_accounted()
    ensures account { (site : Setup) (w : World) (name : Text) → (finding site w name ≡ None → IsAccounted site w name) × (IsAccounted site w name → finding site w name ≡ None) }
    ensures closes { (site : Setup) (w : World) (station : ℕ) (name : Text) (batch : Batch) → IsForPlanner site station → batch_of w name ≡ Some batch → batch.phase ≡ Started
        → broken site w station (Close name) ≡ option_map NotAccounted (finding site w name) }
{}

/// A number of a station means one thing: it was kept with this deed, it was kept with another, it
/// comes next, or it leaves a gap. What was kept stays kept in every longer history, with its reply:
/// each entry of a lawful history is kept with the reply that it got, whoever operated.
pub fn numbers_mean_one_thing()
    ensures one { (site : Setup) (history : List Entry) (station number : ℕ) (deed : Deed) → (meaning : Meaning) × Means site history station number deed meaning × ((other : Meaning) → Means site history station number deed other → other ≡ meaning) }
    ensures answered { (site : Setup) (front more : List Entry) (entry : Entry) → IsLawful site (front ++ entry ∷ more)
        → Means site (front ++ entry ∷ more) entry.station entry.number entry.deed (Kept (reply_to site (world_of site front) entry)) }
    ensures kept { (site : Setup) (history more : List Entry) (station number : ℕ) (deed : Deed) (reply : Reply) → Means site history station number deed (Kept reply) → Means site (history ++ more) station number deed (Kept reply) }
    ensures reused { (site : Setup) (history more : List Entry) (station number : ℕ) (deed kept : Deed) → Means site history station number deed (Reused kept) → Means site (history ++ more) station number deed (Reused kept) }
    ensures repeated { (site : Setup) (history : List Entry) (station number : ℕ) (deed kept : Deed) → Means site history station number deed (Reused kept) → (reply : Reply) × Means site history station number kept (Kept reply) }
{}

/// A history is lawful exactly where each entry may follow those in front of it.
pub fn histories_grow_lawfully()
    ensures front { (site : Setup) (history more : List Entry) → IsLawful site (history ++ more) → IsLawful site history }
    ensures more { (site : Setup) (history : List Entry) (entry : Entry) → IsLawful site history → MayFollow site history (world_of site history) entry → IsLawful site (history ++ entry ∷ []) }
    ensures last { (site : Setup) (history : List Entry) (entry : Entry) → IsLawful site (history ++ entry ∷ []) → MayFollow site history (world_of site history) entry }
{}
