//! Pairs, and the links that they are kept in.
ghost use Rattle.std.specs.Prelude.{◌≡◌};

use crate::node::Node;

/// A child and the unit that it stands in, with the number under which it was put: numbers rise in the order of putting.
#[derive(Clone, Copy)]
pub struct Pair {
    /// What was put.
    pub child: Node,
    /// The unit that it was put into.
    pub parent: u32,
    /// Its number, from 1.
    pub number: u64,
}

/// Where a node stands among the children of its unit.
#[derive(Clone, Copy)]
pub(crate) struct Link {
    /// Its unit, if it stands in one.
    pub parent: Option<u32>,
    /// The child before it.
    pub previous: Option<Node>,
    /// The child after it.
    pub next: Option<Node>,
    /// Its number, or 0 where it stands in none.
    pub number: u64,
}

/// A unit's children.
#[derive(Clone, Copy)]
pub(crate) struct Head {
    /// The one longest inside.
    pub first: Option<Node>,
    /// The one put last.
    pub last: Option<Node>,
    /// How many there are.
    pub count: u64,
}

/// A child that was taken out, with where it stood: all that is needed to put it back there.
#[derive(Clone, Copy, Debug, PartialEq, Eq)]
pub struct Taken {
    /// The child.
    pub child: Node,
    /// The unit.
    pub parent: u32,
    /// The child before it.
    pub previous: Option<Node>,
    /// The child after it.
    pub next: Option<Node>,
    /// The number under which it was put.
    pub number: u64,
}

impl Taken {
    pub(crate) fn previous(&self) -> Option<Node>
        ensures { result ≡ self.now.previous }
    {
        self.previous
    }

    pub(crate) fn next(&self) -> Option<Node>
        ensures { result ≡ self.now.next }
    {
        self.next
    }
}

impl Link {
    pub(crate) fn parent(&self) -> Option<u32>
        ensures { result ≡ self.now.parent }
    {
        self.parent
    }

    pub(crate) fn previous(&self) -> Option<Node>
        ensures { result ≡ self.now.previous }
    {
        self.previous
    }

    pub(crate) fn next(&self) -> Option<Node>
        ensures { result ≡ self.now.next }
    {
        self.next
    }

    pub(crate) fn number(&self) -> u64
        ensures { result ≡ self.now.number }
    {
        self.number
    }

    pub(crate) fn with_next(&self, next: Option<Node>) -> Link
        ensures { result ≡ record self.now { next = next } }
    {
        let parent: Option<u32> = self.parent;
        let previous: Option<Node> = self.previous;
        Link {
            parent,
            previous,
            next,
            number: self.number,
        }
    }

    pub(crate) fn with_previous(&self, previous: Option<Node>) -> Link
        ensures { result ≡ record self.now { previous = previous } }
    {
        let parent: Option<u32> = self.parent;
        let next: Option<Node> = self.next;
        Link {
            parent,
            previous,
            next,
            number: self.number,
        }
    }
}

impl Head {
    pub(crate) fn first(&self) -> Option<Node>
        ensures { result ≡ self.now.first }
    {
        self.first
    }

    pub(crate) fn last(&self) -> Option<Node>
        ensures { result ≡ self.now.last }
    {
        self.last
    }

    pub(crate) fn count(&self) -> u64
        ensures { result ≡ self.now.count }
    {
        self.count
    }
}
