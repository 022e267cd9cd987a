//! What stands in what, by links in rows: a change writes the node, its neighbours and its unit, and nothing else.
ghost use Rattle.std.specs.Prelude.{◌≡◌, ℕ, ◌+◌, ◌-◌, ◌*◌, ◌^◌, ◌<◌, ◌≤◌, ◌∷◌, ◌++◌, [], None, Some, length, replicate, IfSome, IsSome, OnOk};
ghost use Rattle.pack_tree.specs.declared.node.Node.{Node as TheNode};
ghost use Rattle.pack_tree.specs.declared.link.Pair.{Pair};
ghost use Rattle.pack_tree.specs.Pairs.{parent_in, inside, without, IsOnce};
ghost use Rattle.pack_tree.specs.Links.{free_link, empty_head, link_of, with_link, with_next, with_previous, where_none as the_where_none};
ghost use Rattle.std.specs.Iterator.{YieldsFirst, item_count};
ghost use Rattle.pack_tree.specs.Children.{In, from_node, after_node, IsWithin};
ghost use Rattle.pack_tree.specs.Numbers.{all_pairs, pair_of, insert_pair};
ghost use Rattle.std.specs.Prelude.{set};
ghost use Rattle.pack_tree.specs.Many.{front};
ghost use Rattle.pack_tree.specs.Links.{head_of};
ghost use Rattle.pack_tree.specs.Packing.{HasRoom, items_with, units_with, ChangesPairs, put_pair};
ghost use Rattle.pack_tree.specs.Taking.{IsGone, WasPut, taken_pair};

use crate::link::{Head, Link, Taken};
use crate::node::Node;
use std::alloc::{AllocError, Global};
use std::marker::Model;

/// What is packed in what. A node's link stands at its place; a unit's children hang on its head.
#[derive(Drop)]
pub(crate) struct Packing {
    items: Vec<Link>,
    units: Vec<Link>,
    heads: Vec<Head>,
    last: u64,
}

impl Model for Packing {
    ghost use Rattle.std.specs.Prelude.{length};
    ghost use Rattle.pack_tree.specs.Packing.{Packed};

    ghost Value = { Packed };

    ghost use Rattle.pack_tree.specs.Packing.{IsPacking};
    ghost use Rattle.pack_tree.specs.Numbers.{pairs_of};

    ghost view = { λ p. record {
      pairs = pairs_of p.items.items p.units.items;
      last = p.last;
      items = length p.items.items;
      units = length p.heads.items;
    } };

    ghost invariant = { λ p. IsPacking p.items.items p.units.items p.heads.items p.last };
}

/// The link of what stands in nothing.
const FREE: Link = Link {
    parent: None,
    previous: None,
    next: None,
    number: 0,
};

/// The head of a unit without children.
const EMPTY: Head = Head {
    first: None,
    last: None,
    count: 0,
};

/// Links up to so many, the new ones free.
fn grow_links(links: &mut Vec<Link>, count: usize) -> Result<(), AllocError>
    ensures links { (k : ℕ) × (links.new.items ≡ links.old.items ++ replicate k free_link) }
    ensures ok { OnOk result (count ≤ length links.new.items) }
{
    if count <= links.len() {
        return Ok(());
    }
    links.resize(count, FREE)?;
    Ok(())
}

/// So many units more, each without children.
fn grow_units(units: &mut Vec<Link>, heads: &mut Vec<Head>, count: usize) -> Result<(), AllocError>
    requires { length units.old.items ≡ length heads.old.items }
    ensures grown { (k : ℕ) × (units.new.items ≡ units.old.items ++ replicate k free_link) × (heads.new.items ≡ heads.old.items ++ replicate k empty_head) }
    ensures ok { OnOk result (count ≤ length heads.new.items) }
{
    if count <= heads.len() {
        return Ok(());
    }
    let more = count - heads.len();
    units.reserve(more)?;
    heads.reserve(more)?;
    units.resize(count, FREE).unwrap();
    heads.resize(count, EMPTY).unwrap();
    Ok(())
}

/// The link of a node.
fn read_link(items: &[Link], units: &[Link], node: Node) -> Link
    ensures { result ≡ link_of items.now units.now node }
{
    match node {
        Node::Item(item) => items.get(item as usize).copied().unwrap_or(FREE),
        Node::Unit(unit) => units.get(unit as usize).copied().unwrap_or(FREE),
    }
}

/// A node has another link from now on.
fn write_link(items: &mut Vec<Link>, units: &mut Vec<Link>, node: Node, link: Link)
    requires { HasRoom (length items.old.items) (length units.old.items) node }
    ensures items { items.new.items ≡ items_with items.old.items node link }
    ensures units { units.new.items ≡ units_with units.old.items node link }
{
    match node {
        Node::Item(item) => items[item as usize] = link,
        Node::Unit(unit) => units[unit as usize] = link,
    }
}

/// One node has another link, next or previous: what it says of all links, and of the pairs.
fn set_link(items: &mut Vec<Link>, units: &mut Vec<Link>, node: Node, link: Link)
    requires { HasRoom (length items.old.items) (length units.old.items) node }
    ensures links { (n : TheNode) → link_of items.new.items units.new.items n ≡ with_link (link_of items.old.items units.old.items) node link n }
    ensures pairs { ChangesPairs (all_pairs items.old.items units.old.items) (all_pairs items.new.items units.new.items) (pair_of node (link_of items.old.items units.old.items node).parent (link_of items.old.items units.old.items node).number) (pair_of node link.parent link.number) }
    ensures sizes { (length items.new.items ≡ length items.old.items) × (length units.new.items ≡ length units.old.items) }
{
    write_link(items, units, node, link);
}

/// A node has another next one: no pair changes.
fn set_next_of(items: &mut Vec<Link>, units: &mut Vec<Link>, node: Node, next: Option<Node>)
    requires { HasRoom (length items.old.items) (length units.old.items) node }
    ensures links { (n : TheNode) → link_of items.new.items units.new.items n ≡ with_next (link_of items.old.items units.old.items) (Some node) next n }
    ensures pairs { all_pairs items.new.items units.new.items ≡ all_pairs items.old.items units.old.items }
    ensures sizes { (length items.new.items ≡ length items.old.items) × (length units.new.items ≡ length units.old.items) }
{
    let link = read_link(items.as_slice(), units.as_slice(), node);
    write_link(items, units, node, link.with_next(next));
}

/// A node has another previous one: no pair changes.
fn set_previous_of(items: &mut Vec<Link>, units: &mut Vec<Link>, node: Node, previous: Option<Node>)
    requires { HasRoom (length items.old.items) (length units.old.items) node }
    ensures links { (n : TheNode) → link_of items.new.items units.new.items n ≡ with_previous (link_of items.old.items units.old.items) (Some node) previous n }
    ensures pairs { all_pairs items.new.items units.new.items ≡ all_pairs items.old.items units.old.items }
    ensures sizes { (length items.new.items ≡ length items.old.items) × (length units.new.items ≡ length units.old.items) }
{
    let link = read_link(items.as_slice(), units.as_slice(), node);
    write_link(items, units, node, link.with_previous(previous));
}

/// The head of a unit.
fn read_head(heads: &[Head], unit: u32) -> Head
    requires { unit < length heads.now }
    ensures { result ≡ head_of heads.now unit }
{
    heads[unit as usize]
}

/// A unit has another head from now on.
fn write_head(heads: &mut Vec<Head>, unit: u32, first: Option<Node>, last: Option<Node>, count: u64)
    requires { unit < length heads.old.items }
    ensures { heads.new.items ≡ set heads.old.items unit (record { first = first; last = last; count = count }) }
{
    heads[unit as usize] = Head { first, last, count };
}

/// The link of a child between its neighbours.
fn new_link(parent: u32, previous: Option<Node>, next: Option<Node>, number: u64) -> Link
    ensures { result ≡ record { parent = Some parent; previous = previous; next = next; number = number } }
{
    Link {
        parent: Some(parent),
        previous,
        next,
        number,
    }
}

/// The same of a neighbour, if there is one.
fn set_next(items: &mut Vec<Link>, units: &mut Vec<Link>, node: Option<Node>, next: Option<Node>)
    requires { IfSome node (HasRoom (length items.old.items) (length units.old.items)) }
    ensures links { (n : TheNode) → link_of items.new.items units.new.items n ≡ with_next (link_of items.old.items units.old.items) node next n }
    ensures pairs { all_pairs items.new.items units.new.items ≡ all_pairs items.old.items units.old.items }
    ensures sizes { (length items.new.items ≡ length items.old.items) × (length units.new.items ≡ length units.old.items) }
{
    match node {
        None => (),
        Some(node) => set_next_of(items, units, node, next),
    }
}

/// The same of a neighbour, if there is one.
fn set_previous(
    items: &mut Vec<Link>,
    units: &mut Vec<Link>,
    node: Option<Node>,
    previous: Option<Node>,
)
    requires { IfSome node (HasRoom (length items.old.items) (length units.old.items)) }
    ensures links { (n : TheNode) → link_of items.new.items units.new.items n ≡ with_previous (link_of items.old.items units.old.items) node previous n }
    ensures pairs { all_pairs items.new.items units.new.items ≡ all_pairs items.old.items units.old.items }
    ensures sizes { (length items.new.items ≡ length items.old.items) × (length units.new.items ≡ length units.old.items) }
{
    match node {
        None => (),
        Some(node) => set_previous_of(items, units, node, previous),
    }
}

/// The one where there is none, and else the other.
fn where_none(test: Option<Node>, none: Option<Node>, some: Option<Node>) -> Option<Node>
    ensures { result ≡ the_where_none test none some }
{
    match test {
        None => none,
        Some(_) => some,
    }
}

impl Packing {
    /// No nodes, and no memory.
    pub(crate) fn new(alloc: Global) -> Packing
        ensures pairs { result.pairs ≡ [] }
        ensures last { result.last ≡ 0 }
        ensures items { result.items ≡ 0 }
        ensures units { result.units ≡ 0 }
    {
        Packing {
            items: Vec::new(alloc),
            units: Vec::new(alloc),
            heads: Vec::new(alloc),
            last: 0,
        }
    }

    /// Makes room for items below a number, and units up to a number, each without children.
    pub(crate) fn ready(&mut self, items: u32, units: u32) -> Result<(), AllocError>
        ensures pairs { self.new.pairs ≡ self.old.pairs }
        ensures last { self.new.last ≡ self.old.last }
        ensures rooms { (self.old.items ≤ self.new.items) × (self.old.units ≤ self.new.units) }
        ensures ok { OnOk result ((items ≤ self.new.items) × (units ≤ self.new.units)) }
    {
        grow_links(&mut self.items, items as usize)?;
        grow_units(&mut self.units, &mut self.heads, units as usize)?;
        Ok(())
    }

    /// The last number given.
    pub(crate) fn last(&self) -> u64
        ensures { result ≡ self.now.last }
    {
        self.last
    }

    /// Tells that nothing is in two units, or twice in one.
    pub(crate) fn tell_once(&self)
        ensures { IsOnce self.now.pairs }
    {
        let _last = self.last;
    }

    /// The unit that a node is in.
    pub(crate) fn parent_of(&self, child: Node) -> Option<u32>
        ensures { result ≡ parent_in self.now.pairs child }
    {
        read_link(self.items.as_slice(), self.units.as_slice(), child).parent()
    }

    /// How many children a unit has.
    pub(crate) fn count(&self, parent: u32) -> u64
        requires { parent < self.now.units }
        ensures { result ≡ length (inside parent self.now.pairs) }
    {
        read_head(&self.heads, parent).count()
    }

    /// Puts a child into a unit, under the next number.
    pub(crate) fn put(&mut self, child: Node, parent: u32)
        requires room { HasRoom self.old.items self.old.units child }
        requires range { parent < self.old.units }
        requires alone { parent_in self.old.pairs child ≡ None }
        requires last { self.old.last + 1 < 2 ^ 64 }
        ensures pairs { self.new.pairs ≡ self.old.pairs ++ put_pair child parent (self.old.last + 1) ∷ [] }
        ensures last { self.new.last ≡ self.old.last + 1 }
        ensures rooms { (self.new.items ≡ self.old.items) × (self.new.units ≡ self.old.units) }
    {
        let number = self.last + 1;
        let head = read_head(&self.heads, parent);
        set_next(&mut self.items, &mut self.units, head.last(), Some(child));
        let link = new_link(parent, head.last(), None, number);
        set_link(&mut self.items, &mut self.units, child, link);
        let first = where_none(head.last(), Some(child), head.first());
        let count = head.count() + 1;
        write_head(&mut self.heads, parent, first, Some(child), count);
        self.last = number;
    }

    /// Takes a child out of its unit.
    pub(crate) fn take(&mut self, child: Node) -> Taken
        requires inside { IsSome (parent_in self.old.pairs child) }
        ensures child { result.child ≡ child }
        ensures pairs { self.new.pairs ≡ without child self.old.pairs }
        ensures was { self.old.pairs ≡ insert_pair (taken_pair result) self.new.pairs }
        ensures gone { IsGone self.new result }
        ensures last { self.new.last ≡ self.old.last }
        ensures rooms { (self.new.items ≡ self.old.items) × (self.new.units ≡ self.old.units) }
    {
        let link = read_link(self.items.as_slice(), self.units.as_slice(), child);
        let Some(parent) = link.parent() else {
            unreachable!();
        };
        let previous = link.previous();
        let next = link.next();
        let head = read_head(&self.heads, parent);
        set_next(&mut self.items, &mut self.units, previous, next);
        set_previous(&mut self.items, &mut self.units, next, previous);
        set_link(&mut self.items, &mut self.units, child, FREE);
        let first = where_none(previous, next, head.first());
        let last = where_none(next, previous, head.last());
        let count = head.count() - 1;
        write_head(&mut self.heads, parent, first, last, count);
        Taken {
            child,
            parent,
            previous,
            next,
            number: link.number(),
        }
    }

    /// Puts back what was taken, where it stood.
    pub(crate) fn untake(&mut self, taken: Taken)
        requires gone { IsGone self.old taken }
        ensures pairs { self.new.pairs ≡ insert_pair (taken_pair taken) self.old.pairs }
        ensures last { self.new.last ≡ self.old.last }
        ensures rooms { (self.new.items ≡ self.old.items) × (self.new.units ≡ self.old.units) }
    {
        let previous = taken.previous();
        let next = taken.next();
        let child = taken.child;
        let parent = taken.parent;
        let head = read_head(&self.heads, parent);
        set_next(&mut self.items, &mut self.units, previous, Some(child));
        set_previous(&mut self.items, &mut self.units, next, Some(child));
        let link = new_link(parent, previous, next, taken.number);
        set_link(&mut self.items, &mut self.units, child, link);
        let first = where_none(previous, Some(child), head.first());
        let last = where_none(next, Some(child), head.last());
        let count = head.count() + 1;
        write_head(&mut self.heads, parent, first, last, count);
    }

    /// Takes the child out that was put last, with its number.
    pub(crate) fn unput(&mut self, child: Node)
        requires put { WasPut self.old child }
        ensures pairs { self.new.pairs ≡ front self.old.pairs }
        ensures last { self.old.last ≡ self.new.last + 1 }
        ensures rooms { (self.new.items ≡ self.old.items) × (self.new.units ≡ self.old.units) }
    {
        let _taken = self.take(child);
        self.last -= 1;
    }

    /// The children of a unit, the one longest inside first.
    pub(crate) fn children(&self, parent: u32) -> Children<'_>
        requires { parent < self.now.units }
        ensures { result ≡ inside parent self.now.pairs }
    {
        Children {
            packing: self,
            parent,
            at: self.first_of(parent),
        }
    }

    /// The child longest inside a unit.
    fn first_of(&self, parent: u32) -> Option<Node>
        requires { parent < self.now.units }
        ensures all { from_node result (inside parent self.now.pairs) ≡ inside parent self.now.pairs }
        ensures within { IsWithin result (inside parent self.now.pairs) }
    {
        read_head(&self.heads, parent).first()
    }

    /// The child after a child.
    fn next_of(&self, child: Node, parent: u32) -> Option<Node>
        requires { In child (inside parent self.now.pairs) }
        ensures rest { from_node result (inside parent self.now.pairs) ≡ after_node child (inside parent self.now.pairs) }
        ensures within { IsWithin result (inside parent self.now.pairs) }
    {
        read_link(self.items.as_slice(), self.units.as_slice(), child).next()
    }
}

/// What is left of a unit's children.
#[derive(Drop)]
pub struct Children<'a> {
    packing: &'a Packing,
    parent: u32,
    at: Option<Node>,
}

impl<'a> Model for Children<'a> {
    ghost use Rattle.std.specs.Prelude.{List};
    ghost use Rattle.pack_tree.specs.declared.node.Node.{Node as TheNode};
    ghost use Rattle.pack_tree.specs.Children.{from_node, IsWithin};
    ghost use Rattle.pack_tree.specs.Pairs.{inside};

    ghost Value = { List TheNode };

    ghost view = { λ s. from_node s.at (inside s.parent s.packing.now.pairs) };

    ghost invariant = { λ s. IsWithin s.at (inside s.parent s.packing.now.pairs) };
}

impl<'a> Iterator for Children<'a> {
    type Item = Node;

    ghost next_gives = { YieldsFirst (λ s. s) };

    ghost remaining = { item_count (λ s. s) };

    fn next(&mut self) -> Option<Node> {
        let node = self.at?;
        self.at = self.packing.next_of(node, self.parent);
        Some(node)
    }
}
