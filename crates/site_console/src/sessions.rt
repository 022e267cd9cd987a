//! The commands, from their devices and back.
ghost use Rattle.std.specs.Prelude.{◌≡◌};
ghost use Rattle.std.specs.Io.KnownBytes.{Appends};
ghost use Rattle.outside.specs.Causes.{HasCauseIf};
ghost use Rattle.outside.specs.Devices.{Puts};
ghost use Rattle.site_console.specs.Endings.{is_write_ending};
ghost use Rattle.site_console.specs.Inits.{IsTextPut, InitSession, Makes};
ghost use Rattle.site_console.specs.Sessions.{RunSession};

use crate::ending::{Ending, ending_of, ending_of_store};
use crate::put::put_all;
use crate::script::run;
use crate::site_file::{ending_of_file, read_setup};
use deed_words::{
    Setup, closes_where_accounted, codes_made_once, counts_sum_to_drawn, histories_grow_lawfully,
    issued_once, soundness_is_kept,
};
use epcis_events::replay_gives_the_world;
use outside::{Clock, Disk, Sink, Source, Words};
use site_store::{Devices, Store};
use std::alloc::Global;

/// Loads the journal, and answers each line of the input.
pub fn run_store<I: Source, O: Sink, D: Disk, C: Clock, W: Words>(
    alloc: Global,
    input: &mut I,
    out: &mut O,
    devices: Devices<D, C, W>,
) -> (Ending, Devices<D, C, W>)
    ensures session { RunSession D.Disk C.Clock W.Words devices result.1
        (record { bytes = I.left input.old; faults = I.read_faults input.old }) (record { bytes = I.left input.new; faults = I.read_faults input.new })
        (record { bytes = O.held out.old; faults = O.write_faults out.old }) (record { bytes = O.held out.new; faults = O.write_faults out.new }) result.0 }
{
    issued_once();
    codes_made_once();
    soundness_is_kept();
    counts_sum_to_drawn();
    closes_where_accounted();
    replay_gives_the_world();
    histories_grow_lawfully();
    match Store::load(alloc, devices) {
        Ok(store) => {
            let mut store = store;
            let ended = run(alloc, &mut store, input, out);
            store.site().tell_kept();
            (ending_of(ended), store.into_devices())
        }
        Err((fault, devices)) => (ending_of_store(fault), devices),
    }
}

/// Makes the journal of a site file, and puts `ready`.
pub fn make_store<S: Source, O: Sink, D: Disk, C: Clock, W: Words>(
    alloc: Global,
    site: &mut S,
    out: &mut O,
    devices: Devices<D, C, W>,
) -> (Ending, Devices<D, C, W>)
    ensures session { InitSession D.Disk devices result.1
        (record { bytes = S.left site.old; faults = S.read_faults site.old }) (record { bytes = S.left site.new; faults = S.read_faults site.new })
        (record { bytes = O.held out.old; faults = O.write_faults out.old }) (record { bytes = O.held out.new; faults = O.write_faults out.new }) result.0 }
{
    match read_setup(alloc, site) {
        Ok(setup) => make_journal(alloc, setup, out, devices),
        Err(fault) => (ending_of_file(fault), devices),
    }
}

/// Makes the journal of a setup, and puts `ready`.
fn make_journal<O: Sink, D: Disk, C: Clock, W: Words>(
    alloc: Global,
    setup: Setup,
    out: &mut O,
    devices: Devices<D, C, W>,
) -> (Ending, Devices<D, C, W>)
    ensures makes { Makes D.Disk setup devices result.1 (O.held out.old) (O.held out.new) result.0 }
    ensures write { HasCauseIf (is_write_ending result.0) (O.write_faults out.old) (O.write_faults out.new) }
{
    match Store::init(alloc, devices, setup) {
        Ok(store) => (tell_text(out, b"ready\n"), store.into_devices()),
        Err((fault, devices)) => (ending_of_store(fault), devices),
    }
}

/// Puts a text whole.
pub(crate) fn tell_text<O: Sink>(out: &mut O, text: &[u8]) -> Ending
    ensures put { Puts (O.held out.old) (O.held out.new) (IsTextPut text.now result) }
    ensures write { HasCauseIf (is_write_ending result) (O.write_faults out.old) (O.write_faults out.new) }
{
    match put_all(out, text) {
        Ok(()) => Ending::Done,
        Err(_) => Ending::WriteFault,
    }
}
