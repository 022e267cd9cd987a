//! The units of a site, and what is packed in them.
ghost use Rattle.std.specs.Prelude.{◌≡◌, ℕ, ◌+◌, ◌-◌, ◌^◌, ◌<◌, ◌≤◌, ◌∷◌, ◌++◌, [], None, Some, All, IsSome, OnOk, length, map, take};
ghost use Rattle.std.specs.List.{position, slice_get};
ghost use Rattle.deed_words.specs.declared.words.Mark.TheVariants.{Filling, Sealed, Void};
ghost use Rattle.pack_tree.specs.declared.node.Node.TheVariants.{Item as AnItem, Unit as AUnit};
ghost use Rattle.pack_tree.specs.Chains.{newest_below};
ghost use Rattle.pack_tree.specs.Many.{front};
ghost use Rattle.pack_tree.specs.Numbers.{insert_pair};
ghost use Rattle.pack_tree.specs.Packing.{HasRoom, IsThereIn, put_pair};
ghost use Rattle.pack_tree.specs.Pairs.{parent_in, inside, without, IsOnce};
ghost use Rattle.pack_tree.specs.Taking.{IsGone, WasPut, taken_pair};
ghost use Rattle.pack_tree.specs.Trees.{packed_of};
ghost use Rattle.pack_tree.specs.Units.{AreApart, batch_in, is_coded, marked, new_unit};

use crate::link::Taken;
use crate::node::{Node, UnitRow};
use crate::packing::{Children, Packing};
use crate::units::{OwnUnits, Units};
use deed_words::{BatchId, Level, Mark, UnitId};
use gs1_keys::{Memory, Sscc};
use std::alloc::Global;
use std::marker::Model;

/// From how many units on no room is made.
const MOST_UNITS: u32 = 1 << 31;

/// The units, and what stands in what. Items and units are named by their places; each place is below their number.
#[derive(Drop)]
pub struct Tree {
    packing: Packing,
    /// How many items there are.
    items: u32,
    /// How many items have room in all.
    item_room: u32,
    units: Units,
}

impl Model for Tree {
    ghost use Rattle.std.specs.Prelude.{length};
    ghost use Rattle.pack_tree.specs.Trees.{Forest, IsTree};

    ghost Value = { Forest };

    ghost view = { λ t. record {
      pairs = t.packing.pairs;
      last = t.packing.last;
      items = t.items;
      units = t.units.rows;
      item_room = t.item_room;
      unit_room = t.units.room;
    } };

    ghost invariant = { λ t. IsTree t.packing t.items t.item_room t.units };
}

impl Tree {
    /// No items, no units, and no memory.
    pub fn new(alloc: Global) -> Tree
        ensures pairs { result.pairs ≡ [] }
        ensures last { result.last ≡ 0 }
        ensures items { result.items ≡ 0 }
        ensures units { result.units ≡ [] }
        ensures rooms { (result.item_room ≡ 0) × (result.unit_room ≡ 0) }
    {
        Tree {
            packing: Packing::new(alloc),
            items: 0,
            item_room: 0,
            units: Units::new(alloc),
        }
    }

    /// How many units there are.
    pub fn len(&self) -> u32
        ensures { result ≡ length self.now.units }
    {
        self.units.len() as u32
    }

    /// How many items there are.
    pub fn items(&self) -> u32
        ensures { result ≡ self.now.items }
    {
        self.items
    }

    /// Makes room for so many items and so many units in all. Beside `try_all` and `try_empty` no other call takes
    /// memory.
    ///
    /// # Errors
    ///
    /// `Memory` where no memory was found, or for 2^31 units and more. What is there, and the room that there was, stay.
    pub fn ready(&mut self, items: u32, units: u32) -> Result<(), Memory>
        ensures pairs { self.new.pairs ≡ self.old.pairs }
        ensures last { self.new.last ≡ self.old.last }
        ensures items { self.new.items ≡ self.old.items }
        ensures units { self.new.units ≡ self.old.units }
        ensures item_room { self.old.item_room ≤ self.new.item_room }
        ensures unit_room { self.old.unit_room ≤ self.new.unit_room }
        ensures ok { OnOk result ((items ≤ self.new.item_room) × (units ≤ self.new.unit_room)) }
    {
        if units >= MOST_UNITS {
            return Err(Memory);
        }
        self.packing.ready(items, units)?;
        self.units.ready(units as usize)?;
        self.item_room = self.item_room.max(items);
        Ok(())
    }

    /// One item more: the serial row that was drawn last.
    pub fn add_item(&mut self)
        requires room { self.old.items < self.old.item_room }
        ensures pairs { self.new.pairs ≡ self.old.pairs }
        ensures last { self.new.last ≡ self.old.last }
        ensures items { self.new.items ≡ self.old.items + 1 }
        ensures units { self.new.units ≡ self.old.units }
        ensures rooms { (self.new.item_room ≡ self.old.item_room) × (self.new.unit_room ≡ self.old.unit_room) }
    {
        self.items += 1;
    }

    /// Takes the last item back, which stands in no unit.
    pub fn remove_last_item(&mut self)
        requires there { 0 < self.old.items }
        requires alone { parent_in self.old.pairs (AnItem (self.old.items - 1)) ≡ None }
        ensures pairs { self.new.pairs ≡ self.old.pairs }
        ensures last { self.new.last ≡ self.old.last }
        ensures items { self.old.items ≡ self.new.items + 1 }
        ensures units { self.new.units ≡ self.old.units }
        ensures rooms { (self.new.item_room ≡ self.old.item_room) × (self.new.unit_room ≡ self.old.unit_room) }
    {
        self.items -= 1;
    }

    /// Puts a unit last, open and empty.
    pub fn add_unit(&mut self, sscc: Sscc, batch: BatchId, level: Level) -> UnitId
        requires room { length self.old.units < self.old.unit_room }
        requires new { position (is_coded sscc) self.old.units ≡ None }
        ensures unit { result ≡ length self.old.units }
        ensures pairs { self.new.pairs ≡ self.old.pairs }
        ensures last { self.new.last ≡ self.old.last }
        ensures items { self.new.items ≡ self.old.items }
        ensures units { self.new.units ≡ self.old.units ++ new_unit sscc batch level ∷ [] }
        ensures rooms { (self.new.item_room ≡ self.old.item_room) × (self.new.unit_room ≡ self.old.unit_room) }
    {
        let at = self.units.len();
        self.units.add(UnitRow {
            sscc,
            batch,
            level,
            mark: Mark::Filling,
        });
        UnitId(at as u32)
    }

    /// Takes the last unit back, which is empty and stands in no other.
    pub fn remove_last_unit(&mut self)
        requires there { 0 < length self.old.units }
        requires alone { parent_in self.old.pairs (AUnit (length self.old.units - 1)) ≡ None }
        requires empty { inside (length self.old.units - 1) self.old.pairs ≡ [] }
        ensures pairs { self.new.pairs ≡ self.old.pairs }
        ensures last { self.new.last ≡ self.old.last }
        ensures items { self.new.items ≡ self.old.items }
        ensures units { self.new.units ≡ take (length self.old.units - 1) self.old.units }
        ensures rooms { (self.new.item_room ≡ self.old.item_room) × (self.new.unit_room ≡ self.old.unit_room) }
    {
        self.units.remove_last();
    }

    /// The unit of the SSCC.
    pub fn find(&self, sscc: &Sscc) -> Option<UnitId>
        ensures { result ≡ position (is_coded sscc.now) self.now.units }
    {
        match self.units.find(sscc) {
            Some(at) => Some(UnitId(at)),
            None => None,
        }
    }

    /// A unit.
    pub fn unit(&self, unit: UnitId) -> UnitRow
        requires { unit < length self.now.units }
        ensures { slice_get self.now.units unit ≡ Some result }
    {
        self.units.row(unit.0)
    }

    /// Gives a unit another mark.
    pub fn set_mark(&mut self, unit: UnitId, mark: Mark)
        requires { unit < length self.old.units }
        ensures pairs { self.new.pairs ≡ self.old.pairs }
        ensures last { self.new.last ≡ self.old.last }
        ensures items { self.new.items ≡ self.old.items }
        ensures units { self.new.units ≡ marked self.old.units unit mark }
        ensures rooms { (self.new.item_room ≡ self.old.item_room) × (self.new.unit_room ≡ self.old.unit_room) }
    {
        self.units.set_mark(unit.0, mark);
    }

    /// Closes a unit.
    pub fn seal(&mut self, unit: UnitId)
        requires { unit < length self.old.units }
        ensures pairs { self.new.pairs ≡ self.old.pairs }
        ensures last { self.new.last ≡ self.old.last }
        ensures items { self.new.items ≡ self.old.items }
        ensures units { self.new.units ≡ marked self.old.units unit Sealed }
        ensures rooms { (self.new.item_room ≡ self.old.item_room) × (self.new.unit_room ≡ self.old.unit_room) }
    {
        self.set_mark(unit, Mark::Sealed);
    }

    /// Opens a unit again.
    pub fn unseal(&mut self, unit: UnitId)
        requires { unit < length self.old.units }
        ensures pairs { self.new.pairs ≡ self.old.pairs }
        ensures last { self.new.last ≡ self.old.last }
        ensures items { self.new.items ≡ self.old.items }
        ensures units { self.new.units ≡ marked self.old.units unit Filling }
        ensures rooms { (self.new.item_room ≡ self.old.item_room) × (self.new.unit_room ≡ self.old.unit_room) }
    {
        self.set_mark(unit, Mark::Filling);
    }

    /// Puts a unit out of use.
    pub fn void(&mut self, unit: UnitId)
        requires { unit < length self.old.units }
        ensures pairs { self.new.pairs ≡ self.old.pairs }
        ensures last { self.new.last ≡ self.old.last }
        ensures items { self.new.items ≡ self.old.items }
        ensures units { self.new.units ≡ marked self.old.units unit Void }
        ensures rooms { (self.new.item_room ≡ self.old.item_room) × (self.new.unit_room ≡ self.old.unit_room) }
    {
        self.set_mark(unit, Mark::Void);
    }

    /// Tells that no two units have one SSCC.
    pub fn tell_apart(&self)
        ensures { AreApart self.now.units }
    {
        self.units.tell_apart();
    }

    /// Tells that each pair's child and unit are there.
    pub fn tell_there(&self)
        ensures { All (IsThereIn self.now.items (length self.now.units)) self.now.pairs }
    {
        let _items = self.items;
    }

    /// Tells that nothing is in two units, or twice in one.
    pub fn tell_once(&self)
        ensures { IsOnce self.now.pairs }
    {
        self.packing.tell_once();
    }

    /// The last number given to something that was put.
    pub fn last(&self) -> u64
        ensures { result ≡ self.now.last }
    {
        self.packing.last()
    }

    /// The unit that a thing is in.
    pub fn parent_of(&self, child: Node) -> Option<UnitId>
        ensures { result ≡ parent_in self.now.pairs child }
    {
        match self.packing.parent_of(child) {
            Some(parent) => Some(UnitId(parent)),
            None => None,
        }
    }

    /// How many children a unit has.
    pub fn count(&self, parent: UnitId) -> u64
        requires { parent < length self.now.units }
        ensures { result ≡ length (inside parent self.now.pairs) }
    {
        self.packing.count(parent.0)
    }

    /// The children of a unit, the one longest inside first.
    pub fn children(&self, parent: UnitId) -> Children<'_>
        requires { parent < length self.now.units }
        ensures { result ≡ inside parent self.now.pairs }
    {
        self.packing.children(parent.0)
    }

    /// The units of a batch, the newest first.
    pub fn units_of(&self, batch: BatchId) -> OwnUnits<'_>
        ensures { result ≡ newest_below batch (map batch_in self.now.units) (length self.now.units) }
    {
        self.units.of_batch(batch)
    }

    /// Puts a child into a unit, under the next number.
    pub fn put(&mut self, child: Node, parent: UnitId)
        requires room { HasRoom self.old.items (length self.old.units) child }
        requires range { parent < length self.old.units }
        requires alone { parent_in self.old.pairs child ≡ None }
        requires last { self.old.last + 1 < 2 ^ 64 }
        ensures pairs { self.new.pairs ≡ self.old.pairs ++ put_pair child parent (self.old.last + 1) ∷ [] }
        ensures last { self.new.last ≡ self.old.last + 1 }
        ensures items { self.new.items ≡ self.old.items }
        ensures units { self.new.units ≡ self.old.units }
        ensures rooms { (self.new.item_room ≡ self.old.item_room) × (self.new.unit_room ≡ self.old.unit_room) }
    {
        self.packing.put(child, parent.0);
    }

    /// Takes the child out that was put last, with its number.
    pub fn unput(&mut self, child: Node)
        requires put { WasPut (packed_of self.old) child }
        ensures pairs { self.new.pairs ≡ front self.old.pairs }
        ensures last { self.old.last ≡ self.new.last + 1 }
        ensures items { self.new.items ≡ self.old.items }
        ensures units { self.new.units ≡ self.old.units }
        ensures rooms { (self.new.item_room ≡ self.old.item_room) × (self.new.unit_room ≡ self.old.unit_room) }
    {
        self.packing.unput(child);
    }

    /// Takes a child out of its unit, and tells where it stood.
    pub fn take(&mut self, child: Node) -> Taken
        requires inside { IsSome (parent_in self.old.pairs child) }
        ensures child { result.child ≡ child }
        ensures pairs { self.new.pairs ≡ without child self.old.pairs }
        ensures was { self.old.pairs ≡ insert_pair (taken_pair result) self.new.pairs }
        ensures gone { IsGone (packed_of self.new) result }
        ensures last { self.new.last ≡ self.old.last }
        ensures items { self.new.items ≡ self.old.items }
        ensures units { self.new.units ≡ self.old.units }
        ensures rooms { (self.new.item_room ≡ self.old.item_room) × (self.new.unit_room ≡ self.old.unit_room) }
    {
        self.packing.take(child)
    }

    /// Puts back what was taken, where it stood: the pairs are those that this taking left.
    pub fn untake(&mut self, taken: Taken)
        requires gone { IsGone (packed_of self.old) taken }
        ensures pairs { self.new.pairs ≡ insert_pair (taken_pair taken) self.old.pairs }
        ensures last { self.new.last ≡ self.old.last }
        ensures items { self.new.items ≡ self.old.items }
        ensures units { self.new.units ≡ self.old.units }
        ensures rooms { (self.new.item_room ≡ self.old.item_room) × (self.new.unit_room ≡ self.old.unit_room) }
    {
        self.packing.untake(taken);
    }
}
