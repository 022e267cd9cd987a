//! Items and units: what stands in what, and each change with its way back.
use deed_words::{BatchId, Level, Mark, UnitId};
use gs1_keys::Sscc;
use pack_tree::{Node, Tree, take_all, try_empty, untake_all};
use std::alloc::Global;
use std::process::Abort;

/// The SSCCs of the units: company prefix 0614141, extension 1, references 1 to 3.
pub(crate) fn sscc(rt: &impl Abort, at: u32) -> Sscc {
    let code = match at {
        0 => b"106141410000000019",
        1 => b"106141410000000026",
        _ => b"106141410000000033",
    };
    Sscc::read(code).expect(rt, "an SSCC")
}

/// Makes an item's place in the tree.
pub(crate) fn add_item(rt: &impl Abort, tree: &mut Tree) {
    let count = tree.items();
    assert!(rt; count < 100);
    if count < 100 {
        tree.ready(count + 1, 0).expect(rt, "memory is ample");
        tree.add_item();
    }
}

/// Makes a unit for a batch.
pub(crate) fn make(rt: &impl Abort, tree: &mut Tree, at: u32, batch: u16, level: Level) {
    let code = sscc(rt, at);
    let count = tree.len();
    let free = count < 100 && tree.find(&code).is_none();
    assert!(rt; free);
    if free {
        tree.ready(0, count + 1).expect(rt, "memory is ample");
        let _unit = tree.add_unit(code, BatchId(batch), level);
    }
}

/// Puts an item that stands in nothing.
pub(crate) fn put_item(rt: &impl Abort, tree: &mut Tree, at: u32, unit: u32) {
    let free = at < tree.items()
        && unit < tree.len()
        && tree.parent_of(Node::Item(at)).is_none()
        && tree.last() < 100;
    assert!(rt; free);
    if free {
        tree.put(Node::Item(at), UnitId(unit));
    }
}

/// Puts a unit that stands in nothing.
pub(crate) fn put_unit(rt: &impl Abort, tree: &mut Tree, at: u32, unit: u32) {
    let free = at < tree.len()
        && unit < tree.len()
        && tree.parent_of(Node::Unit(at)).is_none()
        && tree.last() < 100;
    assert!(rt; free);
    if free {
        tree.put(Node::Unit(at), UnitId(unit));
    }
}

/// Seals a unit.
pub(crate) fn seal(rt: &impl Abort, tree: &mut Tree, unit: u32) {
    let there = unit < tree.len();
    assert!(rt; there);
    if there {
        tree.seal(UnitId(unit));
    }
}

/// Three items, and three units: a case of batch 4, a pallet of batch 7, a case of batch 4.
fn tree_of(rt: &impl Abort, alloc: Global) -> Tree {
    let mut tree = Tree::new(alloc);
    add_item(rt, &mut tree);
    add_item(rt, &mut tree);
    add_item(rt, &mut tree);
    make(rt, &mut tree, 0, 4, Level::Case);
    make(rt, &mut tree, 1, 7, Level::Pallet);
    make(rt, &mut tree, 2, 4, Level::Case);
    tree
}

/// Puts an item that stands in nothing, and takes that back.
fn put_and_back(rt: &impl Abort, tree: &mut Tree, at: u32, unit: u32) {
    let free = at < tree.items()
        && unit < tree.len()
        && tree.parent_of(Node::Item(at)).is_none()
        && tree.last() < 100;
    assert!(rt; free);
    if free {
        tree.put(Node::Item(at), UnitId(unit));
        tree.unput(Node::Item(at));
    }
}

/// Takes an item out of its unit.
fn take(rt: &impl Abort, tree: &mut Tree, at: u32) {
    let inside = tree.parent_of(Node::Item(at)).is_some();
    assert!(rt; inside);
    if inside {
        let _taken = tree.take(Node::Item(at));
    }
}

/// Takes an item out of its unit, and takes that back.
fn take_and_back(rt: &impl Abort, tree: &mut Tree, at: u32) {
    let inside = tree.parent_of(Node::Item(at)).is_some();
    assert!(rt; inside);
    if inside {
        let taken = tree.take(Node::Item(at));
        tree.untake(taken);
    }
}

/// Empties a unit and fills it again.
fn empty_and_back(rt: &impl Abort, tree: &mut Tree, alloc: Global, unit: u32) {
    let there = unit < tree.len();
    assert!(rt; there);
    if there {
        let gone = try_empty(tree, alloc, UnitId(unit)).expect(rt, "memory is ample");
        take_all(tree, gone.as_slice());
        untake_all(tree, gone.as_slice());
    }
}

/// Compares the children of a unit.
fn expect_children(rt: &impl Abort, alloc: Global, tree: &Tree, unit: u32, nodes: &[Node]) {
    let there = unit < tree.len();
    assert!(rt; there);
    if !there {
        return;
    }
    let mut found = Vec::new(alloc);
    for node in tree.children(UnitId(unit)) {
        found.push(node).expect(rt, "memory is ample");
    }
    assert!(rt; found.as_slice() == nodes);
}

#[test]
fn the_child_longest_inside_comes_first(rt: HostRuntime) {
    let mut tree = tree_of(&rt, rt.alloc());
    put_item(&rt, &mut tree, 1, 0);
    put_item(&rt, &mut tree, 0, 0);
    put_unit(&rt, &mut tree, 0, 1);
    let nodes = [Node::Item(1), Node::Item(0)];
    expect_children(&rt, rt.alloc(), &tree, 0, &nodes);
    expect_children(&rt, rt.alloc(), &tree, 1, &[Node::Unit(0)]);
    assert!(rt; tree.parent_of(Node::Unit(0)) == Some(UnitId(1)));
}

#[test]
fn what_is_put_again_is_the_newest(rt: HostRuntime) {
    let mut tree = tree_of(&rt, rt.alloc());
    put_item(&rt, &mut tree, 1, 0);
    put_item(&rt, &mut tree, 0, 0);
    take(&rt, &mut tree, 1);
    assert!(rt; tree.parent_of(Node::Item(1)).is_none());
    put_item(&rt, &mut tree, 1, 0);
    let nodes = [Node::Item(0), Node::Item(1)];
    expect_children(&rt, rt.alloc(), &tree, 0, &nodes);
    assert_eq!(rt; tree.last(), 3);
}

#[test]
fn what_is_taken_back_stands_where_it_stood(rt: HostRuntime) {
    let mut tree = tree_of(&rt, rt.alloc());
    put_item(&rt, &mut tree, 1, 0);
    put_item(&rt, &mut tree, 0, 0);
    put_and_back(&rt, &mut tree, 2, 0);
    put_item(&rt, &mut tree, 2, 0);
    take_and_back(&rt, &mut tree, 0);
    empty_and_back(&rt, &mut tree, rt.alloc(), 0);
    let nodes = [Node::Item(1), Node::Item(0), Node::Item(2)];
    expect_children(&rt, rt.alloc(), &tree, 0, &nodes);
    assert_eq!(rt; tree.last(), 3);
}

/// Compares the units of a batch, of which there are two, the newest first.
fn expect_units(rt: &impl Abort, tree: &Tree, batch: u16, first: UnitId, second: Option<UnitId>) {
    let mut own = tree.units_of(BatchId(batch));
    assert!(rt; own.next() == Some(first));
    assert!(rt; own.next() == second);
}

#[test]
fn units_are_found(rt: HostRuntime) {
    let tree = tree_of(&rt, rt.alloc());
    assert!(rt; tree.find(&sscc(&rt, 2)) == Some(UnitId(2)));
    expect_units(&rt, &tree, 4, UnitId(2), Some(UnitId(0)));
    expect_units(&rt, &tree, 7, UnitId(1), None);
}

/// Opens a unit, or makes it void, and compares its mark.
fn change(rt: &impl Abort, tree: &mut Tree, unit: u32, void: bool, mark: Mark) {
    let there = unit < tree.len();
    assert!(rt; there);
    if there {
        if void {
            tree.void(UnitId(unit));
        } else {
            tree.unseal(UnitId(unit));
        }
    }
    expect_mark(rt, tree, unit, mark);
}

/// Compares the mark of a unit.
fn expect_mark(rt: &impl Abort, tree: &Tree, unit: u32, mark: Mark) {
    let there = unit < tree.len();
    assert!(rt; there);
    if there {
        assert!(rt; tree.unit(UnitId(unit)).mark == mark);
    }
}

#[test]
fn units_are_marked(rt: HostRuntime) {
    let mut tree = tree_of(&rt, rt.alloc());
    seal(&rt, &mut tree, 1);
    expect_mark(&rt, &tree, 1, Mark::Sealed);
    change(&rt, &mut tree, 1, false, Mark::Filling);
    change(&rt, &mut tree, 1, true, Mark::Void);
    expect_mark(&rt, &tree, 2, Mark::Filling);
}

/// Takes the last unit back, where it is free and empty.
fn remove_unit(rt: &impl Abort, tree: &mut Tree) {
    let units = tree.len();
    let free = units > 0
        && tree.parent_of(Node::Unit(units - 1)).is_none()
        && tree.count(UnitId(units - 1)) == 0;
    assert!(rt; free);
    if free {
        tree.remove_last_unit();
    }
}

/// Takes the last item back, where it is free.
fn remove_item(rt: &impl Abort, tree: &mut Tree) {
    let items = tree.items();
    let free = items > 0 && tree.parent_of(Node::Item(items - 1)).is_none();
    assert!(rt; free);
    if free {
        tree.remove_last_item();
    }
}

#[test]
fn the_last_unit_and_item_are_taken_back(rt: HostRuntime) {
    let mut tree = tree_of(&rt, rt.alloc());
    remove_unit(&rt, &mut tree);
    remove_item(&rt, &mut tree);
    assert!(rt; (tree.len(), tree.items()) == (2, 2));
    assert!(rt; tree.find(&sscc(&rt, 2)).is_none());
    make(&rt, &mut tree, 2, 7, Level::Case);
    expect_units(&rt, &tree, 7, UnitId(2), Some(UnitId(1)));
}
