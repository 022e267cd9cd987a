//! The chains.
ghost use Rattle.std.specs.Prelude.{◌≡◌, ℕ, ◌+◌, ◌-◌, ◌*◌, ◌^◌, ◌<◌, ◌≤◌, ◌∷◌, ◌++◌, [], None, IfSome, length, take, slice_index, slice_set, vec_capacity, OnOk};
ghost use Rattle.row_chains.specs.Chains.{IsAfter, IsFollowed, first_with, next_with};

use std::alloc::{AllocError, Global};
use std::marker::Model;

/// How many groups there are.
const GROUPS: usize = 65536;

/// The rows of each group, in their order. A link is 0, or one more than a row.
#[derive(Drop)]
pub struct RowChains {
    /// The rows' groups.
    groups: Vec<u16>,
    /// The link of each row to the one of its group before it.
    previous: Vec<u32>,
    /// The link of each row to the one of its group after it.
    next: Vec<u32>,
    /// The link of each group to its first row.
    first: Vec<u32>,
    /// The link of each group to its last row.
    last: Vec<u32>,
    /// How many more rows can come without memory.
    room: usize,
}

impl Model for RowChains {
    ghost use Rattle.row_chains.specs.Chains.{Grouped};

    ghost Value = { Grouped };

    ghost use Rattle.std.specs.Prelude.{vec_capacity};
    ghost use Rattle.row_chains.specs.Chains.{AreChains};

    ghost view = { λ c. record { groups = c.groups.items; room = c.room } };

    ghost invariant = { λ c. AreChains c.groups.items c.previous.items c.next.items c.first.items c.last.items (vec_capacity c.groups) (vec_capacity c.previous) (vec_capacity c.next) c.room };
}

/// Makes the ends of all groups: 0 where there were none.
fn ready_ends(ends: &mut Vec<u32>) -> Result<(), AllocError>
    ensures same { (group : ℕ) → slice_index ends.new.items group ≡ slice_index ends.old.items group }
    ensures longer { length ends.old.items ≤ length ends.new.items }
    ensures ok { OnOk result (65536 ≤ length ends.new.items) }
{
    if ends.len() < GROUPS {
        ends.resize(GROUPS, 0)?;
    }
    Ok(())
}

/// The link at a place.
fn link_at(links: &[u32], at: usize) -> u32
    ensures { result ≡ slice_index links.now at }
{
    if at < links.len() { links[at] } else { 0 }
}

/// Writes the link at a place.
fn set_link(links: &mut Vec<u32>, at: usize, link: u32)
    ensures items { links.new.items ≡ slice_set links.old.items at link }
    ensures room { vec_capacity links.new ≡ vec_capacity links.old }
{
    if at < links.len() {
        links[at] = link;
    }
}

/// What follows the row before, or begins the group where there is none.
fn follow(first: &mut Vec<u32>, next: &mut Vec<u32>, group: usize, before: u32, link: u32)
    ensures first { first.new.items ≡ first_with before first.old.items group link }
    ensures next { next.new.items ≡ next_with before next.old.items link }
    ensures room { vec_capacity next.new ≡ vec_capacity next.old }
{
    if before == 0 {
        set_link(first, group, link);
    } else {
        set_link(next, before as usize - 1, link);
    }
}

/// The row of a link.
fn row_of(link: u32) -> Option<usize>
    ensures none { result ≡ None → link ≡ 0 }
    ensures some { IfSome result (λ row. link ≡ row + 1) }
{
    if link == 0 {
        None
    } else {
        Some(link as usize - 1)
    }
}

impl RowChains {
    /// No rows, and no room.
    pub fn new(alloc: Global) -> RowChains
        ensures groups { result.groups ≡ [] }
        ensures room { result.room ≡ 0 }
    {
        RowChains {
            groups: Vec::new(alloc),
            previous: Vec::new(alloc),
            next: Vec::new(alloc),
            first: Vec::new(alloc),
            last: Vec::new(alloc),
            room: 0,
        }
    }

    /// Makes room for so many more rows. No other call takes memory.
    ///
    /// # Errors
    ///
    /// `AllocError` where no memory was found. The rows, and the room that there was, stay.
    pub fn ready(&mut self, more: usize) -> Result<(), AllocError>
        requires { length self.old.groups + more < 2 ^ 31 }
        ensures groups { self.new.groups ≡ self.old.groups }
        ensures ok { OnOk result (more ≤ self.new.room) }
        ensures room { self.old.room ≤ self.new.room }
    {
        ready_ends(&mut self.first)?;
        ready_ends(&mut self.last)?;
        self.groups.reserve(more)?;
        self.previous.reserve(more)?;
        self.next.reserve(more)?;
        self.room = self.room.max(more);
        Ok(())
    }

    /// Puts a row of the group last.
    pub fn push(&mut self, group: u16)
        requires { 0 < self.old.room }
        ensures groups { self.new.groups ≡ self.old.groups ++ group ∷ [] }
        ensures room { self.new.room + 1 ≡ self.old.room }
    {
        let link = self.groups.len() as u32 + 1;
        let before = link_at(self.last.as_slice(), group as usize);
        follow(
            &mut self.first,
            &mut self.next,
            group as usize,
            before,
            link,
        );
        set_link(&mut self.last, group as usize, link);
        self.groups.push_reserved(group);
        self.previous.push_reserved(before);
        self.next.push_reserved(0);
        self.room -= 1;
    }

    /// Takes the last row back.
    pub fn remove_last(&mut self)
        requires { 0 < length self.old.groups }
        ensures groups { self.new.groups ≡ take (length self.old.groups - 1) self.old.groups }
        ensures room { self.new.room ≡ self.old.room + 1 }
    {
        let group = self.groups.take_last();
        let before = self.previous.take_last();
        let _after = self.next.take_last();
        follow(&mut self.first, &mut self.next, group as usize, before, 0);
        set_link(&mut self.last, group as usize, before);
        self.room += 1;
    }

    /// The first row of a group.
    pub fn first(&self, group: u16) -> Option<usize>
        ensures { IsFollowed self.now.groups 0 group result }
    {
        row_of(link_at(self.first.as_slice(), group as usize))
    }

    /// The row after this one of the same group.
    pub fn next(&self, row: usize) -> Option<usize>
        requires { row < length self.now.groups }
        ensures { IsFollowed self.now.groups (row + 1) (slice_index self.now.groups row) result }
    {
        row_of(link_at(self.next.as_slice(), row))
    }
}
