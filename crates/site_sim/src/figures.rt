//! What the simulation tells.
ghost use Rattle.std.specs.Prelude.{◌≡◌, ◌++◌, decimal, filter, length, IfOk, OnOk};
ghost use Rattle.deed_words.specs.History.{world_of};
ghost use Rattle.site_sim.specs.Example as example;
ghost use Rattle.site_sim.specs.Knowing.{AreNamed, Knows, one_if};
ghost use Rattle.site_sim.specs.Results.{figures_of, is_closed, line_of};

use crate::example::batch_name;
use crate::known::Known;
use crate::replaying::replay_site;
use deed_words::Phase;
use gs1_keys::Memory;
use itoa::Buffer;
use site_core::Site;
use std::alloc::Global;

/// What a simulation came to.
#[derive(Clone, Copy, Debug)]
pub struct Figures {
    /// How many requests were sent, repeats with them.
    pub sent: u64,
    /// How many entries there are.
    pub kept: u64,
    /// How many of them were accepted.
    pub accepted: u64,
    /// How many serials were drawn.
    pub serials: u64,
    /// How many units were made.
    pub units: u64,
    /// How many events there are.
    pub events: u64,
    /// How many things are live by the replay of the events.
    pub live: u64,
    /// How many things stand in another by it.
    pub pairs: u64,
    /// How many batches are closed.
    pub closed: u64,
}

/// What the history of the simulation's site came to.
#[tactic(auto, unfolding(crate::specs::Results::figures_of))]
pub(crate) fn figures_of(alloc: Global, site: &Site, known: &Known) -> Result<Figures, Memory>
    requires setup { site.now.setup ≡ example.site }
    requires knows { Knows site.now.history known.now }
    requires named { AreNamed (world_of example.site site.now.history).batches }
    ensures { IfOk result (λ figures. figures ≡ figures_of known.now.sent site.now.history) }
{
    let (replay, events) = replay_site(alloc, site)?;
    let closed = count_closed(site)?;
    Ok(Figures {
        sent: known.sent,
        kept: site.entries() as u64,
        accepted: known.accepted,
        serials: known.serials,
        units: known.units,
        events: u64::from(events),
        live: replay.live().len() as u64,
        pairs: replay.packing().len() as u64,
        closed,
    })
}

/// How many batches of the site are closed, where all have the name of the simulation's.
fn count_closed(site: &Site) -> Result<u64, Memory>
    requires setup { site.now.setup ≡ example.site }
    requires named { AreNamed (world_of example.site site.now.history).batches }
    ensures { IfOk result (λ count. count ≡ length (filter (λ batch. is_closed batch.phase) (world_of example.site site.now.history).batches)) }
{
    site.tell_kept();
    let Some(batch) = site.batch(&batch_name()) else {
        return Ok(0);
    };
    let view = site.batch_view(batch)?;
    Ok(one_if_closed(view.phase))
}

/// 1 for the phase of a closed batch, else 0.
fn one_if_closed(phase: Phase) -> u64
    ensures { result ≡ one_if (is_closed phase) }
{
    match phase {
        Phase::Planned => 0,
        Phase::Started => 0,
        Phase::Closed => 1,
    }
}

/// The line of these figures.
#[tactic(auto, unfolding(crate::specs::Results::line_of))]
pub(crate) fn line_of(
    alloc: Global,
    seed: u32,
    count: u32,
    figures: &Figures,
) -> Result<Vec<u8>, Memory>
    ensures { IfOk result (λ line. line.items ≡ line_of seed count figures.now) }
{
    let mut line = Vec::new(alloc);
    push(&mut line, b"sim ", u64::from(seed))?;
    push(&mut line, b" ", u64::from(count))?;
    push(&mut line, b": sent ", figures.sent)?;
    push(&mut line, b", kept ", figures.kept)?;
    push(&mut line, b", accepted ", figures.accepted)?;
    push(&mut line, b", serials ", figures.serials)?;
    push(&mut line, b", units ", figures.units)?;
    push(&mut line, b", events ", figures.events)?;
    push(&mut line, b", live ", figures.live)?;
    push(&mut line, b", pairs ", figures.pairs)?;
    push(&mut line, b", closed ", figures.closed)?;
    line.push(b'\n')?;
    Ok(line)
}

/// Puts words and a number behind them.
fn push(line: &mut Vec<u8>, words: &[u8], number: u64) -> Result<(), Memory>
    ensures { OnOk result (line.new.items ≡ line.old.items ++ words.now ++ decimal number) }
{
    line.extend_from_slice(words)?;
    let mut digits = Buffer::new();
    line.extend_from_slice(digits.format(number).as_bytes())?;
    Ok(())
}
