//! The commands that read: what each tells of the history of a journal, which it leaves as it was.
ghost use Rattle.outside.specs.Causes.{HasCauseIf};
ghost use Rattle.outside.specs.Devices.{Puts};
ghost use Rattle.site_console.specs.Endings.{is_write_ending};
ghost use Rattle.site_console.specs.Looks.{look_text, IsTold, LookSession};
ghost use Rattle.site_console.specs.Told.{Stream};

use crate::checking::tell_check;
use crate::ending::{Ending, ending_of_store};
use crate::exporting::tell_events;
use crate::logging::tell_log;
use crate::reporting::tell_report;
use gs1_keys::Text20;
use outside::{Clock, Disk, Sink, Words};
use site_core::Site;
use site_store::{Devices, Store};
use std::alloc::Global;

/// What is looked at.
#[derive(Clone, Copy)]
pub enum Look {
    /// The report of the batch of a name.
    Report(Text20),
    /// The document of events of the batch of a name: the number of the first event, from 1, and how many.
    Export(Text20, u32, u32),
    /// What the replay of all events comes to.
    Check,
    /// Entries of the history: the number of the first entry, from 1, and how many.
    Log(u32, u32),
}

/// Loads the journal, and puts what the look tells of its history. Nothing is written.
pub fn look_store<O: Sink, D: Disk, C: Clock, W: Words>(
    alloc: Global,
    look: Look,
    out: &mut O,
    devices: Devices<D, C, W>,
) -> (Ending, Devices<D, C, W>)
    ensures session { (input : Stream) → LookSession D.Disk look devices result.1 input
        (record { bytes = O.held out.old; faults = O.write_faults out.old }) (record { bytes = O.held out.new; faults = O.write_faults out.new }) result.0 }
{
    match Store::load(alloc, devices) {
        Ok(store) => (tell(alloc, store.site(), look, out), store.into_devices()),
        Err((fault, devices)) => (ending_of_store(fault), devices),
    }
}

/// Puts what the look tells of a site.
fn tell<O: Sink>(alloc: Global, site: &Site, look: Look, out: &mut O) -> Ending
    ensures told { Puts (O.held out.old) (O.held out.new) (λ put. IsTold (look_text site.now.setup site.now.history look) result put) }
    ensures write { HasCauseIf (is_write_ending result) (O.write_faults out.old) (O.write_faults out.new) }
{
    match look {
        Look::Report(name) => tell_report(alloc, site, &name, out),
        Look::Export(name, from, count) => tell_events(alloc, site, &name, from, count, out),
        Look::Check => tell_check(alloc, site, out),
        Look::Log(from, count) => tell_log(alloc, site, from, count, out),
    }
}
