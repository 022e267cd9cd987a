//! The log of a site: a line for each entry.
ghost use Rattle.std.specs.Prelude.{◌≡◌, ◌+◌, ◌<◌, ◌∷◌, [], length, slice_index_or, IfOk, Some};
ghost use Rattle.outside.specs.Causes.{HasCauseIf};
ghost use Rattle.outside.specs.Devices.{Puts};
ghost use Rattle.deed_json.specs.Replies.{station_name};
ghost use Rattle.site_console.specs.Endings.{is_write_ending};
ghost use Rattle.deed_json.specs.Deeds.{deed_word};
ghost use Rattle.site_console.specs.Logs.{line_of, log_lines, log_text, operator_word, verdict_word};
ghost use Rattle.site_console.specs.Looks.{IsSaid, IsTold};
ghost use Rattle.site_console.specs.Serving.{is_write_fault};

use crate::ending::{Ending, ending_of};
use crate::fault::Fault;
use crate::pieces::{count_entries, first_place, past_place, push_number, push_spaced, put_text};
use crate::words_of_logs::{deed_word, operator_word, verdict_word};
use deed_words::{Setup, StationId};
use gs1_keys::Memory;
use itoa::Buffer;
use outside::Sink;
use site_core::{Logged, Site};
use std::alloc::Global;

/// Puts a line for each of so many entries, from the one with a number on.
pub(crate) fn tell_log<O: Sink>(
    alloc: Global,
    site: &Site,
    from: u32,
    count: u32,
    out: &mut O,
) -> Ending
    ensures told { Puts (O.held out.old) (O.held out.new) (λ put. IsTold (Some (log_text site.now.setup site.now.history from count)) result put) }
    ensures write { HasCauseIf (is_write_ending result) (O.write_faults out.old) (O.write_faults out.new) }
{
    ending_of(put_log(alloc, site, from, count, out))
}

fn put_log<O: Sink>(
    alloc: Global,
    site: &Site,
    from: u32,
    count: u32,
    out: &mut O,
) -> Result<(), Fault>
    ensures said { Puts (O.held out.old) (O.held out.new) (λ put. IsSaid (log_text site.now.setup site.now.history from count) result put) }
    ensures write { HasCauseIf (is_write_fault result) (O.write_faults out.old) (O.write_faults out.new) }
{
    let Ok(entries) = count_entries(site) else {
        return Err(Fault::Memory);
    };
    let first = first_place(from, entries);
    let past = past_place(first, count, entries);
    let mut place = first;
    'entries: while place < past {
        put_line(alloc, site, place, out)?;
        place += 1;
    }
    Ok(())
}

/// Puts the line of the entry at a place, from 0.
fn put_line<O: Sink>(alloc: Global, site: &Site, place: u32, out: &mut O) -> Result<(), Fault>
    requires { place < length site.now.history }
    ensures said { Puts (O.held out.old) (O.held out.new) (λ put. IsSaid (slice_index_or (log_lines site.now.setup site.now.history) place []) result put) }
    ensures write { HasCauseIf (is_write_fault result) (O.write_faults out.old) (O.write_faults out.new) }
{
    match line_at(alloc, site, place) {
        Ok(line) => put_text(out, &line),
        Err(_) => Err(Fault::Memory),
    }
}

/// The line of the entry at a place, from 0.
fn line_at(alloc: Global, site: &Site, place: u32) -> Result<Vec<u8>, Memory>
    requires { place < length site.now.history }
    ensures { IfOk result (λ line. line.items ≡ slice_index_or (log_lines site.now.setup site.now.history) place []) }
{
    line_told(alloc, site.setup(), place as u64 + 1, &site.logged(place))
}

/// The line of an entry, which has this number in the history, as it is told.
#[tactic(auto, unfolding(crate::specs::Logs::line_of))]
fn line_told(
    alloc: Global,
    setup: &Setup,
    number: u64,
    logged: &Logged<'_>,
) -> Result<Vec<u8>, Memory>
    ensures { IfOk result (λ line. line.items
        ≡ line_of number (station_name setup.now logged.now.station) logged.now.number (deed_word logged.now.deed.now) (operator_word logged.now.operator) (verdict_word logged.now.rule)) }
{
    let mut own = Buffer::new();
    let mut line = Vec::new(alloc);
    push_number(&mut line, number)?;
    push_spaced(&mut line, station_name(setup, logged.station))?;
    push_spaced(&mut line, own.format(logged.number).as_bytes())?;
    push_spaced(&mut line, deed_word(logged.deed))?;
    push_spaced(&mut line, operator_word(&logged.operator))?;
    push_spaced(&mut line, verdict_word(&logged.rule))?;
    line.push(b'\n')?;
    Ok(line)
}

/// The name of a station; nothing where the site has no such station.
#[tactic(auto, unfolding(deed_json::specs::Replies::station_name))]
fn station_name(setup: &Setup, station: StationId) -> &[u8]
    ensures { result.now ≡ station_name setup.now station }
{
    let at = usize::from(station.0);
    if at < setup.stations.len() {
        setup.stations.get(at).name.bytes()
    } else {
        b""
    }
}
