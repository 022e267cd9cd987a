//! Many children at once.
ghost use Rattle.std.specs.Prelude.{◌≡◌, ◌++◌, ◌∷◌, [], map, IfOk, length, vec_capacity, ◌≤◌, ◌<◌};
ghost use Rattle.pack_tree.specs.Pairs.{inside};
ghost use Rattle.pack_tree.specs.Trees.{packed_of};
ghost use Rattle.pack_tree.specs.Many.{with_all_put, MayPut, but_all_put, WerePut, without_all, MayTake, with_all_back, WereTaken, CanTake};

use crate::link::Taken;
use crate::node::Node;
use crate::tree::Tree;
use deed_words::UnitId;
use gs1_keys::Memory;
use std::alloc::Global;

/// Puts the nodes into the unit, one after the other.
pub fn put_all(tree: &mut Tree, unit: UnitId, nodes: &[Node])
    requires may { MayPut (packed_of tree.old) unit nodes.now }
    ensures packed { packed_of tree.new ≡ with_all_put (packed_of tree.old) unit nodes.now }
    ensures units { tree.new.units ≡ tree.old.units }
    ensures rooms { (tree.new.item_room ≡ tree.old.item_room) × (tree.new.unit_room ≡ tree.old.unit_room) }
{
    for node in nodes {
        tree.put(*node, unit);
    }
}

/// Takes the nodes out that were put last, the last one first.
pub fn unput_all(tree: &mut Tree, unit: UnitId, nodes: &[Node])
    requires put { WerePut (packed_of tree.old) unit nodes.now }
    ensures packed { packed_of tree.new ≡ but_all_put (packed_of tree.old) nodes.now }
    ensures units { tree.new.units ≡ tree.old.units }
    ensures rooms { (tree.new.item_room ≡ tree.old.item_room) × (tree.new.unit_room ≡ tree.old.unit_room) }
{
    let mut left = nodes;
    while let Some((node, first)) = left.split_last() {
        tree.unput(*node);
        left = first;
    }
}

/// Takes out what was found by `try_all`, one after the other.
pub fn take_all(tree: &mut Tree, gone: &[Taken])
    requires may { MayTake (packed_of tree.old) gone.now }
    ensures packed { packed_of tree.new ≡ without_all (packed_of tree.old) gone.now }
    ensures units { tree.new.units ≡ tree.old.units }
    ensures rooms { (tree.new.item_room ≡ tree.old.item_room) × (tree.new.unit_room ≡ tree.old.unit_room) }
{
    for taken in gone {
        let _taken = tree.take(taken.child);
    }
}

/// Puts back what was taken, the last one first.
pub fn untake_all(tree: &mut Tree, gone: &[Taken])
    requires taken { WereTaken (packed_of tree.old) gone.now }
    ensures packed { packed_of tree.new ≡ with_all_back (packed_of tree.old) gone.now }
    ensures units { tree.new.units ≡ tree.old.units }
    ensures rooms { (tree.new.item_room ≡ tree.old.item_room) × (tree.new.unit_room ≡ tree.old.unit_room) }
{
    let mut left = gone;
    while let Some((taken, first)) = left.split_last() {
        tree.untake(*taken);
        left = first;
    }
}

/// Tells how these nodes would be taken out, one after the other. The tree stays as it is.
///
/// # Errors
///
/// `Memory` where no memory was found for the answer.
pub fn try_all(tree: &mut Tree, alloc: Global, nodes: &[Node]) -> Result<Vec<Taken>, Memory>
    requires can { CanTake tree.old.pairs nodes.now }
    ensures same { tree.new ≡ tree.old }
    ensures may { IfOk result (λ gone. MayTake (packed_of tree.old) gone.items) }
    ensures nodes { IfOk result (λ gone. map (λ taken. taken.child) gone.items ≡ nodes.now) }
{
    let mut gone = Vec::new(alloc);
    gone.reserve(nodes.len())?;
    take_each(tree, nodes, &mut gone);
    untake_all(tree, gone.as_slice());
    Ok(gone)
}

/// Takes the nodes out one after the other, and tells where each one stood.
fn take_each(tree: &mut Tree, nodes: &[Node], gone: &mut Vec<Taken>)
    requires can { CanTake tree.old.pairs nodes.now }
    requires none { gone.old.items ≡ [] }
    requires room { length nodes.now ≤ vec_capacity gone.old }
    ensures may { MayTake (packed_of tree.old) gone.new.items }
    ensures is { packed_of tree.new ≡ without_all (packed_of tree.old) gone.new.items }
    ensures nodes { map (λ taken. taken.child) gone.new.items ≡ nodes.now }
    ensures units { tree.new.units ≡ tree.old.units }
    ensures rooms { (tree.new.item_room ≡ tree.old.item_room) × (tree.new.unit_room ≡ tree.old.unit_room) }
{
    for node in nodes {
        let taken = tree.take(*node);
        let previous: Option<Node> = taken.previous();
        let next: Option<Node> = taken.next();
        gone.push_reserved(Taken {
            child: taken.child,
            parent: taken.parent,
            previous,
            next,
            number: taken.number,
        });
    }
}

/// What stands in the unit, the longest inside first.
fn children_of(tree: &Tree, alloc: Global, unit: UnitId) -> Result<Vec<Node>, Memory>
    requires range { unit < length tree.now.units }
    ensures { IfOk result (λ nodes. nodes.items ≡ inside unit tree.now.pairs) }
{
    let mut nodes = Vec::new(alloc);
    for node in tree.children(unit) {
        nodes.push(node)?;
    }
    Ok(nodes)
}

/// Tells how all that stands in the unit would be taken out, one after the other. The tree stays as it is.
///
/// # Errors
///
/// `Memory` where no memory was found for the answer.
pub fn try_empty(tree: &mut Tree, alloc: Global, unit: UnitId) -> Result<Vec<Taken>, Memory>
    requires range { unit < length tree.old.units }
    ensures same { tree.new ≡ tree.old }
    ensures may { IfOk result (λ gone. MayTake (packed_of tree.old) gone.items) }
    ensures nodes { IfOk result (λ gone. map (λ taken. taken.child) gone.items ≡ inside unit tree.old.pairs) }
{
    tree.tell_once();
    let nodes = children_of(tree, alloc, unit)?;
    try_all(tree, alloc, nodes.as_slice())
}
