//! The replay of events: what is live, and what stands in what.
ghost use Rattle.std.specs.Prelude.{◌≡◌, not, filter, is_ok, IfOk, if◌then◌else◌};
ghost use Rattle.deed_words.specs.Names.{is_among};
ghost use Rattle.epcis_events.specs.Replaying.{nothing_live, applied, names_of, fed, replay};

use crate::{Action, Event, Pairs};
use deed_words::Epcs;
use epc_urn::Epc;
use gs1_keys::{Memory, Sscc};
use name_marks::Marks;
use std::alloc::Global;
use std::marker::Model;
use std::mem;

/// What events lead to. It knows no rule, no state and no journal.
#[derive(Debug, Drop)]
pub struct Replay {
    alloc: Global,
    live: Epcs,
    packing: Pairs,
}

impl Model for Replay {
    ghost use Rattle.epcis_events.specs.Replaying.{Replayed};

    ghost Value = { Replayed };

    ghost view = { λ s. record { live = s.live; pairs = s.packing } };
}

/// The names of an event.
fn names_of(alloc: Global, named: &[(Epc, u8)]) -> Result<Epcs, Memory>
    ensures { IfOk result (λ names. names ≡ names_of named.now) }
{
    let mut names = Epcs::new(alloc);
    for one in named {
        names.push(one.0)?;
    }
    Ok(names)
}

/// Leaves names out of a list, which is passed over once.
fn leave_out(names: &mut Vec<Epc>, gone: &Marks)
    ensures { names.new.items ≡ filter (λ name. not (is_among gone.now name)) names.old.items }
{
    names.retain(|name| !gone.has(name));
}

/// The list without these names.
fn without(live: Epcs, gone: &Marks) -> Epcs
    ensures { result ≡ filter (λ name. not (is_among gone.now name)) live }
{
    let mut names = live.into_vec();
    leave_out(&mut names, gone);
    Epcs::from_vec(names)
}

impl Replay {
    /// Nothing is live.
    pub fn new(alloc: Global) -> Self
        ensures { result ≡ nothing_live }
    {
        Replay {
            alloc,
            live: Epcs::new(alloc),
            packing: Pairs::new(alloc),
        }
    }

    /// One step on the parts of an event, or nothing changes.
    #[tactic(auto, unfolding(crate::specs::Replaying::applied))]
    pub fn apply(
        &mut self,
        aggregation: bool,
        action: Action,
        epcs: &Epcs,
        parent: Option<Sscc>,
    ) -> Result<(), Memory>
        ensures { self.new ≡ (if is_ok result then applied self.old aggregation action epcs.now parent else self.old) }
    {
        match (aggregation, action, parent) {
            (false, Action::Add, _) => self.live.extend(epcs.as_slice()),
            (false, Action::Delete, _) => {
                let gone = Marks::of(self.alloc, epcs.as_slice())?;
                let live = mem::replace(&mut self.live, Epcs::new(self.alloc));
                self.live = without(live, &gone);
                Ok(())
            }
            (true, Action::Add, Some(parent)) => {
                self.packing.put_into(self.alloc, parent, epcs.as_slice())
            }
            (true, Action::Delete, Some(parent)) => {
                if epcs.len() == 0 {
                    self.packing.empty(&parent);
                } else {
                    let gone = Marks::of(self.alloc, epcs.as_slice())?;
                    self.packing.take_out(&parent, &gone);
                }
                Ok(())
            }
            _ => Ok(()),
        }
    }

    /// What the event does, or nothing changes.
    #[tactic(auto, unfolding(crate::specs::Replaying::fed))]
    pub fn feed(&mut self, event: &Event) -> Result<(), Memory>
        ensures { self.new ≡ (if is_ok result then fed self.old event.now else self.old) }
    {
        let names = names_of(self.alloc, event.epcs.as_slice())?;
        self.apply(
            event.aggregation,
            event.action,
            &names,
            event.parent.map(|(sscc, _)| sscc),
        )
    }

    /// What is live.
    pub fn live(&self) -> &Epcs
        ensures { result.now ≡ self.now.live }
    {
        &self.live
    }

    /// What stands in what.
    pub fn packing(&self) -> &Pairs
        ensures { result.now ≡ self.now.pairs }
    {
        &self.packing
    }
}

/// The replay of a list of events.
pub fn replay_all(alloc: Global, events: &[Event]) -> Result<Replay, Memory>
    ensures { IfOk result (λ replayed. replayed ≡ replay events.now) }
{
    let mut replay = Replay::new(alloc);
    for event in events {
        replay.feed(event)?;
    }
    Ok(replay)
}
