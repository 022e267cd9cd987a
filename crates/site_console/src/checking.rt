//! The check of a site: the replay of all its events, and what it comes to.
ghost use Rattle.std.specs.Prelude.{◌≡◌, length, IfOk, Some};
ghost use Rattle.outside.specs.Causes.{HasCauseIf};
ghost use Rattle.outside.specs.Devices.{Puts};
ghost use Rattle.epcis_events.specs.Events.{events};
ghost use Rattle.epcis_events.specs.Replaying.{replay};
ghost use Rattle.site_console.specs.Endings.{is_write_ending};
ghost use Rattle.site_console.specs.Looks.{check_line, check_text, IsSaid, IsTold};
ghost use Rattle.site_console.specs.Serving.{is_write_fault};

use crate::ending::{Ending, ending_of};
use crate::fault::Fault;
use crate::moves::event_at;
use crate::pieces::{count_entries, push_count, put_text};
use epcis_events::{Replay, moves_have_events};
use gs1_keys::Memory;
use outside::Sink;
use site_core::Site;
use std::alloc::Global;

/// Puts how many entries and events there are, and what the replay of all events comes to.
pub(crate) fn tell_check<O: Sink>(alloc: Global, site: &Site, out: &mut O) -> Ending
    ensures told { Puts (O.held out.old) (O.held out.new) (λ put. IsTold (Some (check_text site.now.setup site.now.history)) result put) }
    ensures write { HasCauseIf (is_write_ending result) (O.write_faults out.old) (O.write_faults out.new) }
{
    ending_of(put_check(alloc, site, out))
}

fn put_check<O: Sink>(alloc: Global, site: &Site, out: &mut O) -> Result<(), Fault>
    ensures said { Puts (O.held out.old) (O.held out.new) (λ put. IsSaid (check_text site.now.setup site.now.history) result put) }
    ensures write { HasCauseIf (is_write_fault result) (O.write_faults out.old) (O.write_faults out.new) }
{
    match check_of(alloc, site) {
        Ok(line) => put_text(out, &line),
        Err(_) => Err(Fault::Memory),
    }
}

/// The line of a check.
#[tactic(auto, unfolding(crate::specs::Looks::check_text))]
fn check_of(alloc: Global, site: &Site) -> Result<Vec<u8>, Memory>
    ensures { IfOk result (λ line. line.items ≡ check_text site.now.setup site.now.history) }
{
    let (replay, events) = replay_site(alloc, site)?;
    let live = replay.live().len();
    let pairs = replay.packing().len();
    line_of(
        alloc,
        site.entries() as u64,
        events as u64,
        live as u64,
        pairs as u64,
    )
}

/// The line of a check, by its numbers.
#[tactic(auto, unfolding(crate::specs::Looks::check_line))]
fn line_of(
    alloc: Global,
    entries: u64,
    events: u64,
    live: u64,
    pairs: u64,
) -> Result<Vec<u8>, Memory>
    ensures { IfOk result (λ line. line.items ≡ check_line entries events live pairs) }
{
    let mut line = Vec::new(alloc);
    push_count(&mut line, b"check: entries ", entries)?;
    push_count(&mut line, b", events ", events)?;
    push_count(&mut line, b", live ", live)?;
    push_count(&mut line, b", pairs ", pairs)?;
    line.push(b'\n')?;
    Ok(line)
}

/// The replay of all events, which are read one by one, and how many they are.
fn replay_site(alloc: Global, site: &Site) -> Result<(Replay, u32), Memory>
    ensures replayed { IfOk result (λ done. done.0 ≡ replay (events site.now.setup site.now.history)) }
    ensures count { IfOk result (λ done. done.1 ≡ length (events site.now.setup site.now.history)) }
{
    moves_have_events();
    let entries = count_entries(site)?;
    let mut replay = Replay::new(alloc);
    let mut place = 0;
    'events: while place < entries {
        let Some(event) = event_at(alloc, site, None, place + 1)? else {
            return Ok((replay, place));
        };
        replay.feed(&event)?;
        place += 1;
    }
    Ok((replay, place))
}
