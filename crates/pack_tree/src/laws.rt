//! Laws of the definitions: each is the contract of a function that does nothing.
ghost use Rattle.std.specs.Prelude.{◌≡◌, ℕ, Some, List};
ghost use Rattle.std.specs.List.{slice_get};
ghost use Rattle.deed_words.specs.declared.words.Mark.{Mark};
ghost use Rattle.pack_tree.specs.declared.link.Taken.{Taken as TheTaken};
ghost use Rattle.pack_tree.specs.declared.node.Node.{Node as TheNode};
ghost use Rattle.pack_tree.specs.declared.node.UnitRow.{UnitRow as TheUnit};
ghost use Rattle.pack_tree.specs.Many.{with_all_put, but_all_put, MayPut, without_all, with_all_back, MayTake};
ghost use Rattle.pack_tree.specs.Packing.{Packed};
ghost use Rattle.pack_tree.specs.Units.{marked};

/// What was put and is taken back, what was taken out and is put back, and a mark that is given back, leave all as it
/// was, the numbers included.
pub fn changes_go_back()
    ensures put { (p : Packed) (unit : ℕ) (nodes : List TheNode) → MayPut p unit nodes → but_all_put (with_all_put p unit nodes) nodes ≡ p }
    ensures taken { (p : Packed) (gone : List TheTaken) → MayTake p gone → with_all_back (without_all p gone) gone ≡ p }
    ensures marked { (units : List TheUnit) (at : ℕ) (unit : TheUnit) (mark : Mark) → slice_get units at ≡ Some unit → marked (marked units at mark) at unit.mark ≡ units }
{}
