//! The small words of the trade, and the numbers that stand for things.
use std::marker::Model;

/// A station of the site: its place in the setup, from 0.
#[derive(Clone, Copy, Debug, PartialEq, Eq)]
pub struct StationId(pub u8);

impl Model for StationId {
    ghost use Rattle.std.specs.Prelude.{ℕ};

    ghost Value = { ℕ };

    ghost view = { λ s. s.0 };

    ghost inverse = { λ n. record { 0 = n } };
}

/// A serial row: its place in drawn order, from 0.
#[derive(Clone, Copy, Debug, PartialEq, Eq)]
pub struct ItemId(pub u32);

impl Model for ItemId {
    ghost use Rattle.std.specs.Prelude.{ℕ};

    ghost Value = { ℕ };

    ghost view = { λ s. s.0 };

    ghost inverse = { λ n. record { 0 = n } };
}

/// A container: its place in order of making, from 0.
#[derive(Clone, Copy, Debug, PartialEq, Eq)]
pub struct UnitId(pub u32);

impl Model for UnitId {
    ghost use Rattle.std.specs.Prelude.{ℕ};

    ghost Value = { ℕ };

    ghost view = { λ s. s.0 };

    ghost inverse = { λ n. record { 0 = n } };
}

/// A batch: its place in the order in which batches were accepted, from 0.
#[derive(Clone, Copy, Debug, PartialEq, Eq)]
pub struct BatchId(pub u16);

impl Model for BatchId {
    ghost use Rattle.std.specs.Prelude.{ℕ};

    ghost Value = { ℕ };

    ghost view = { λ s. s.0 };

    ghost inverse = { λ n. record { 0 = n } };
}

/// The state of a serial.
#[derive(Clone, Copy, Debug, PartialEq, Eq)]
pub enum State {
    /// Drawn, and lent to nobody yet.
    Fresh,
    /// Lent to a line, which hasn't told of it yet.
    Lent,
    /// Given back unused. It is never lent again.
    Returned,
    /// Spoiled in printing.
    Spoiled,
    /// Printed on a pack.
    Active,
    /// Taken as a sample.
    Sampled,
    /// Rejected by the line or by quality.
    Rejected,
    /// Destroyed or decommissioned.
    Gone,
}

/// The mark of a container.
#[derive(Clone, Copy, Debug, PartialEq, Eq)]
pub enum Mark {
    /// Open: things may be put in and taken out.
    Filling,
    /// Closed, with something inside.
    Sealed,
    /// Out of use for good.
    Void,
}

/// What a container is.
#[derive(Clone, Copy, Debug, PartialEq, Eq)]
pub enum Level {
    /// A case, which takes items.
    Case,
    /// A pallet, which takes sealed cases.
    Pallet,
}

/// What a station is for.
#[derive(Clone, Copy, Debug, PartialEq, Eq)]
pub enum Role {
    /// Orders, starts, draws for, amends and closes batches.
    Planner,
    /// Prints and packs.
    Line,
    /// Takes samples, rejects, reinstates and destroys.
    Quality,
}

/// How far a batch is.
#[derive(Clone, Copy, Debug, PartialEq, Eq)]
pub enum Phase {
    /// Ordered: serials may be drawn for it, and none is lent.
    Planned,
    /// In work.
    Started,
    /// Accounted for. Nothing of it changes any more.
    Closed,
}

/// What a site may be full of.
#[derive(Clone, Copy, Debug, PartialEq, Eq)]
pub enum What {
    /// Batches, of which a site holds 4,096.
    Batches,
    /// Serials, of which a site holds 1,000,000.
    Serials,
    /// Containers, of which a site holds 65,536.
    Units,
}

/// The state of a serial or the mark of a container, as a refusal tells it: the words of `State`
/// and of `Mark`.
#[derive(Clone, Copy, Debug, PartialEq, Eq)]
pub enum Condition {
    Fresh,
    Lent,
    Returned,
    Spoiled,
    Active,
    Sampled,
    Rejected,
    Gone,
    Filling,
    Sealed,
    Void,
}
