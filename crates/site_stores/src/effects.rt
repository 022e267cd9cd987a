//! What each kind of change does to the world, in the words of the trade.
ghost use Rattle.std.specs.Prelude.{◌≡◌, ◌<◌, ◌+◌, ◌^◌, ◌++◌, ℕ, List, [], Some, None, IsSome, length, map, slice_index, slice_index_or};
ghost use Rattle.std.specs.List.{slice_get, IsDistinct, AllByRecursion};
ghost use Rattle.epc_urn.specs.declared.epc.Epc.{Epc};
ghost use Rattle.gs1_keys.specs.Forms.{AreNew};
ghost use Rattle.gs1_keys.specs.declared.form.SerialForm.{SerialForm as TheForm};
ghost use Rattle.deed_words.specs.Effects.{with_phase, with_quantity, with_mark, with_declaration, with_children, without_children, emptied, with_orders, with_unit, with_drawn, with_rows};
ghost use Rattle.deed_words.specs.History.{serials_of};
ghost use Rattle.deed_words.specs.Names.{Text, same_name};
ghost use Rattle.deed_words.specs.Orders.{new_orders, orders_in};
ghost use Rattle.deed_words.specs.Setups.{Setup, code_of};
ghost use Rattle.deed_words.specs.World.{name_of, parent};
ghost use Rattle.deed_words.specs.declared.deed.OrderRow.{OrderRow as TheOrder};
ghost use Rattle.deed_words.specs.declared.words.Level.{Level};
ghost use Rattle.deed_words.specs.declared.words.Mark.{Mark};
ghost use Rattle.deed_words.specs.declared.words.Phase.{Phase};
ghost use Rattle.deed_words.specs.declared.world.Batch.{Batch};
ghost use Rattle.deed_words.specs.declared.world.Row.{Row};
ghost use Rattle.item_store.specs.declared.row.ItemRow.{ItemRow as TheItem};
ghost use Rattle.pack_tree.specs.declared.link.Taken.{Taken as TheTaken};
ghost use Rattle.pack_tree.specs.declared.node.Node.{Node as TheNode};
ghost use Rattle.pack_tree.specs.declared.node.UnitRow.{UnitRow as TheUnit};
ghost use Rattle.pack_tree.specs.Many.{CanTake};
ghost use Rattle.pack_tree.specs.Pairs.{inside};
ghost use Rattle.batch_book.specs.Content.{Content, world_in, batch_names, row_names, unit_codes, node_name};
ghost use Rattle.site_stores.specs.declared.change.Change.{Change as TheChange};
ghost use Rattle.site_stores.specs.declared.change.Change.TheVariants.{Turned, Put, Taken, Phased, Amended, Marked, Said, Made, Ordered, Drawn};
ghost use Rattle.site_stores.specs.declared.change.Turn.{Turn as TheTurn};
ghost use Rattle.site_stores.specs.Changes.{applied, names_drawn, MayTurn, MayApply};
ghost use Rattle.site_stores.specs.Holding.{IsWhole};
ghost use Rattle.site_stores.specs.Moving.{AreMoves};
ghost use Rattle.site_stores.specs.Places.{AreAt};

/// A batch in another phase or with another quantity, and what a line declares of one.
pub fn batches_change()
    ensures phased { (c : Content) (batch : ℕ) (old new : Phase) (kept : Batch) → IsWhole c → slice_get c.batches batch ≡ Some kept
        → world_in (applied c (Phased batch old new)) ≡ with_phase (world_in c) new kept.order.batch }
    ensures amended { (c : Content) (batch old new : ℕ) (kept : Batch) → IsWhole c → slice_get c.batches batch ≡ Some kept
        → world_in (applied c (Amended batch old new)) ≡ with_quantity (world_in c) new kept.order.batch }
    ensures said { (c : Content) (batch line : ℕ) (numbers : List ℕ) (kept : Batch) → slice_get c.batches batch ≡ Some kept
        → world_in (applied c (Said batch line numbers))
        ≡ with_declaration (world_in c) (record { batch = kept.order.batch; line = line; good = slice_index numbers 0; spoiled = slice_index numbers 1; returned = slice_index numbers 2 }) }
{}

/// A unit with another mark, things that are put into a unit, and all that stands in one taken out of it.
pub fn units_change()
    ensures marked { (c : Content) (unit : ℕ) (old new : Mark) (kept : TheUnit) → IsWhole c → slice_get c.units unit ≡ Some kept
        → world_in (applied c (Marked unit old new)) ≡ with_mark (world_in c) new kept.sscc }
    ensures put { (c : Content) (unit : ℕ) (nodes : List TheNode)
        → world_in (applied c (Put unit nodes)) ≡ with_children (world_in c) (slice_index_or (unit_codes c) unit []) (map (node_name (row_names c) (unit_codes c)) nodes) }
    ensures emptied { (c : Content) (gone : List TheTaken) (unit : ℕ) → IsWhole c → unit < length c.units → map (λ taken. taken.child) gone ≡ inside unit c.links
        → world_in (applied c (Taken gone)) ≡ emptied (world_in c) (slice_index_or (unit_codes c) unit []) }
{}

/// Things that are put into a unit, and things that are taken out of theirs, by their names, which differ: those that
/// stand in nothing may be put where the numbers last, and those that stand in units may be taken.
pub fn children_change()
    ensures may_put { (c : Content) (unit : ℕ) (names : List Epc) (nodes : List TheNode) → IsWhole c → unit < length c.units → IsDistinct same_name names → AreAt c names nodes
        → AllByRecursion (λ name. parent (world_in c) name ≡ None) names → c.last + length names < 2 ^ 64 → MayApply c (Put unit nodes) }
    ensures put { (c : Content) (unit : ℕ) (kept : TheUnit) (names : List Epc) (nodes : List TheNode) → slice_get c.units unit ≡ Some kept → AreAt c names nodes
        → world_in (applied c (Put unit nodes)) ≡ with_children (world_in c) kept.sscc names }
    ensures can_take { (c : Content) (names : List Epc) (nodes : List TheNode) → IsWhole c → IsDistinct same_name names → AreAt c names nodes
        → AllByRecursion (λ name. IsSome (parent (world_in c) name)) names → CanTake c.links nodes }
    ensures taken { (c : Content) (gone : List TheTaken) (names : List Epc) → IsWhole c → AreAt c names (map (λ taken. taken.child) gone)
        → world_in (applied c (Taken gone)) ≡ without_children (world_in c) names }
{}

/// Serials that are drawn for a batch, and that no other change brings names: new serials of the batch's GTIN may be
/// drawn, and are those of the trade's own draw.
pub fn names_come()
    ensures may_draw { (c : Content) (batch : ℕ) (gtin : Text) (form : TheForm) (serials : List Text) → IsWhole c → batch < length c.batches → AreNew (serials_of (world_in c) gtin) form serials
        → MayApply c (Drawn batch gtin serials) }
    ensures drawn { (c : Content) (batch : ℕ) (gtin : Text) (serials : List Text) (kept : Batch) → IsWhole c → slice_get c.batches batch ≡ Some kept → gtin ≡ kept.order.gtin
        → world_in (applied c (Drawn batch gtin serials)) ≡ with_drawn (world_in c) kept.order.batch serials }
    ensures names { (c : Content) (change : TheChange) → map name_of (world_in (applied c change)).rows ≡ map name_of (world_in c).rows ++ names_drawn change }
{}

/// Batches that are ordered, and a unit that is made.
pub fn what_comes()
    ensures ordered { (c : Content) (orders rows : List TheOrder) → IsWhole c → orders ≡ new_orders (orders_in (world_in c)) rows
        → world_in (applied c (Ordered orders)) ≡ with_orders (world_in c) rows }
    ensures made { (site : Setup) (c : Content) (sscc : Text) (batch : ℕ) (level : Level) (kept : Batch) → IsWhole c → slice_get c.batches batch ≡ Some kept → sscc ≡ code_of site (length c.units)
        → world_in (applied c (Made sscc batch level)) ≡ with_unit site (world_in c) kept.order.batch level }
{}

/// Rows that are turned: where each turn makes of the row of its name what a change makes of it, and the names differ, the
/// turns may be made, and the rows of the names are rewritten.
pub fn rows_change()
    ensures may { (change : Row → Row) (batches : List Text) (rows : List TheItem) (names : List Epc) (turns : List TheTurn) → IsDistinct same_name names
        → AreMoves change batches rows names turns → MayTurn rows turns }
    ensures turned { (c : Content) (change : Row → Row) (names : List Epc) (turns : List TheTurn) → ((row : Row) → name_of (change row) ≡ name_of row) → IsWhole c → IsDistinct same_name names
        → AreMoves change (batch_names c) c.rows names turns → world_in (applied c (Turned turns)) ≡ with_rows (world_in c) change names }
{}
