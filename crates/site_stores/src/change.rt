//! What a deed changes in the stores, with what it takes to change it back.
ghost use Rattle.std.specs.Prelude.{◌≡◌, [], ◌∷◌, ◌++◌, is_ok, if◌then◌else◌};

use deed_words::{BatchId, Level, Mark, Phase, Rows, State, StationId, UnitId};
use gs1_keys::{Gtin, Memory, Serials, Sscc};
use pack_tree::{Node, Taken};
use std::alloc::Global;
use std::marker::Model;

/// A row that stands otherwise.
#[derive(Clone, Copy, Debug, PartialEq, Eq)]
pub struct Turn {
    /// The row's place.
    pub item: u32,
    /// The line before.
    pub old_line: Option<StationId>,
    /// The state before.
    pub old_state: State,
    /// The line after.
    pub new_line: Option<StationId>,
    /// The state after.
    pub new_state: State,
}

impl Turn {
    /// The line before.
    pub(crate) fn old_line(&self) -> Option<StationId>
        ensures { result ≡ self.now.old_line }
    {
        self.old_line
    }

    /// The line after.
    pub(crate) fn new_line(&self) -> Option<StationId>
        ensures { result ≡ self.now.new_line }
    {
        self.new_line
    }
}

/// Rows that stand otherwise, in the order in which they are turned.
#[derive(Debug, Drop)]
pub struct Turns {
    items: Vec<Turn>,
}

impl Model for Turns {
    ghost use Rattle.std.specs.Prelude.{List};
    ghost use Rattle.site_stores.specs.declared.change.Turn.{Turn};

    ghost Value = { List Turn };

    ghost view = { λ s. s.items.items };
}

/// Puts a turn last, or changes nothing.
fn put_last(turns: &mut Vec<Turn>, turn: Turn) -> Result<(), Memory>
    ensures { turns.new.items ≡ (if is_ok result then turns.old.items ++ turn ∷ [] else turns.old.items) }
{
    let Ok(()) = turns.reserve(1) else {
        return Err(Memory);
    };
    let new_line: Option<StationId> = turn.new_line;
    let old_line: Option<StationId> = turn.old_line;
    turns.push_reserved(Turn {
        item: turn.item,
        old_line,
        old_state: turn.old_state,
        new_line,
        new_state: turn.new_state,
    });
    Ok(())
}

impl Turns {
    /// None.
    pub fn new(alloc: Global) -> Self
        ensures { result ≡ [] }
    {
        Turns {
            items: Vec::new(alloc),
        }
    }

    /// Puts a turn last, or changes nothing.
    pub fn push(&mut self, turn: Turn) -> Result<(), Memory>
        ensures { self.new ≡ (if is_ok result then self.old ++ turn ∷ [] else self.old) }
    {
        put_last(&mut self.items, turn)
    }

    /// All of them.
    pub fn as_slice(&self) -> &[Turn]
        ensures { result.now ≡ self.now }
    {
        self.items.as_slice()
    }
}

/// Things by place, in their order.
#[derive(Debug, Drop)]
pub struct Nodes {
    items: Vec<Node>,
}

impl Model for Nodes {
    ghost use Rattle.std.specs.Prelude.{List};
    ghost use Rattle.pack_tree.specs.declared.node.Node.{Node as TheNode};

    ghost Value = { List TheNode };

    ghost view = { λ s. s.items.items };
}

impl Nodes {
    /// None.
    pub fn new(alloc: Global) -> Self
        ensures { result ≡ [] }
    {
        Nodes {
            items: Vec::new(alloc),
        }
    }

    /// Puts one last, or changes nothing.
    pub fn push(&mut self, node: Node) -> Result<(), Memory>
        ensures { self.new ≡ (if is_ok result then self.old ++ node ∷ [] else self.old) }
    {
        match self.items.push(node) {
            Ok(()) => Ok(()),
            Err(_) => Err(Memory),
        }
    }

    /// All of them.
    pub fn as_slice(&self) -> &[Node]
        ensures { result.now ≡ self.now }
    {
        self.items.as_slice()
    }
}

/// Things taken out of their units, in the order in which they are taken, each with where it stood.
#[derive(Debug, Drop)]
pub struct Gone {
    items: Vec<Taken>,
}

impl Model for Gone {
    ghost use Rattle.std.specs.Prelude.{List};
    ghost use Rattle.pack_tree.specs.declared.link.Taken.{Taken as TheTaken};

    ghost Value = { List TheTaken };

    ghost view = { λ s. s.items.items };
}

impl Gone {
    /// These.
    pub fn of(items: Vec<Taken>) -> Self
        ensures { result ≡ items.items }
    {
        Gone { items }
    }

    /// All of them.
    pub fn as_slice(&self) -> &[Taken]
        ensures { result.now ≡ self.now }
    {
        self.items.as_slice()
    }
}

/// What an accepted deed changes, by place, with what was there before. A refused deed changes nothing.
#[derive(Debug, Drop)]
pub enum Change {
    Nothing,
    /// These rows stand otherwise.
    Turned(Turns),
    /// These things are put into a unit.
    Put(UnitId, Nodes),
    /// These things are taken out of their units.
    Taken(Gone),
    /// A batch is in another phase: the one before, and the one after.
    Phased(BatchId, Phase, Phase),
    /// A batch has another quantity: the one before, and the one after.
    Amended(BatchId, u32, u32),
    /// A unit has another mark: the one before, and the one after.
    Marked(UnitId, Mark, Mark),
    /// A line declares good, spoiled and returned serials of a batch.
    Said(BatchId, StationId, [u32; 3]),
    /// A unit of this code is made for a batch.
    Made(Sscc, BatchId, Level),
    /// These batches are new.
    Ordered(Rows),
    /// These serials of the GTIN are drawn for a batch.
    Drawn(BatchId, Gtin, Serials),
}
