//! The replay of a site's events.
ghost use Rattle.std.specs.Prelude.{◌≡◌, All, filter_map, length, true, IfOk, OnOk};
ghost use Rattle.deed_words.specs.Happenings.{has_event};
ghost use Rattle.epcis_events.specs.Events.{event_of, events};
ghost use Rattle.epcis_events.specs.Replaying.{replay, replay_from};

use deed_words::{Move, Setup};
use epcis_events::{Replay, event_of, moves_have_events};
use gs1_keys::Memory;
use site_core::Site;
use std::alloc::Global;

/// So many moves are looked at together.
const BLOCK: u32 = 64;

/// The replay of all events of a site, and how many there are.
///
/// # Errors
///
/// `Memory` where no memory was found, or where there are more events than 4,294,967,231.
pub(crate) fn replay_site(alloc: Global, site: &Site) -> Result<(Replay, u32), Memory>
    ensures replay { IfOk result (λ found. found.0 ≡ replay (events site.now.setup site.now.history)) }
    ensures count { IfOk result (λ found. found.1 ≡ length (events site.now.setup site.now.history)) }
{
    moves_have_events();
    let mut replay = Replay::new(alloc);
    let mut at: u32 = 0;
    'rounds: while at < u32::MAX - BLOCK {
        let block = site.moves(None, at + 1, BLOCK)?;
        let count = block.len();
        if count == 0 {
            return Ok((replay, at));
        }
        feed_all(alloc, &mut replay, block.as_slice(), site.setup())?;
        at += count as u32;
    }
    Err(Memory)
}

/// Feeds the events of moves.
fn feed_all(alloc: Global, replay: &mut Replay, moves: &[Move], setup: &Setup) -> Result<(), Memory>
    requires { All (λ moved. has_event moved.kept.deed ≡ true) moves.now }
    ensures { OnOk result (replay.new ≡ replay_from replay.old (filter_map (event_of setup.now) moves.now)) }
{
    for moved in moves {
        let event = event_of(alloc, moved, setup)?;
        replay.feed(&event)?;
    }
    Ok(())
}
