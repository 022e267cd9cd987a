//! What comes next, and what came last.
ghost use Rattle.std.specs.Prelude.{◌≡◌};

use deed_words::{Entry, Reply};
use gs1_keys::Serials;
use move_list::Moved;
use serial_pool::{DrawDone, DrawPlan};
use site_stores::Change;
use std::marker::Model;
use std::snapshot::Snapshot;

/// An entry that may come next in the history of the site that planned it, the reply that it gets, and what it changes.
#[derive(Drop)]
pub struct Planned {
    pub(crate) entry: Entry,
    pub(crate) reply: Reply,
    /// What it changes in the stores.
    pub(crate) change: Change,
    /// What the pool draws for it.
    pub(crate) draw: Option<DrawPlan>,
    /// What is kept of its move, if it has one.
    pub(crate) moved: Option<Moved>,
}

impl Planned {
    /// The entry.
    pub fn entry(&self) -> &Entry
        ensures { result.now ≡ self.now.entry }
    {
        &self.entry
    }

    /// The reply that the entry gets once it is committed. A rule that it breaks is a reply too.
    pub fn reply(&self) -> &Reply
        ensures { result.now ≡ self.now.reply }
    {
        &self.reply
    }
}

/// What was committed, and what it takes to take it back: all of the planned value that the site doesn't keep itself.
/// Contracts see it as the planned value that it came from.
#[derive(Drop)]
pub struct Committed {
    pub(crate) drawn: Serials,
    pub(crate) change: Change,
    pub(crate) draw: Option<DrawDone>,
    /// Whether it has a move.
    pub(crate) has_moved: bool,
    pub(crate) planned: Snapshot<Planned>,
}

impl Model for Committed {
    ghost use Rattle.std.specs.Prelude.{◌≡◌, is_some};
    ghost use Rattle.site_core.specs.declared.planned.Planned.{Planned as ThePlanned};

    ghost Value = { ThePlanned };

    ghost view = { λ c. c.planned.value };

    ghost invariant = { λ c. (c.drawn ≡ c.planned.value.entry.drawn) × (c.change ≡ c.planned.value.change) × (c.draw ≡ c.planned.value.draw) × (c.has_moved ≡ is_some c.planned.value.moved) };
}
