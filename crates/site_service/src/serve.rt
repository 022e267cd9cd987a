//! The server's one call.
ghost use Rattle.std.specs.Prelude.{◌≡◌, ◌≤◌, ◌<◌, ℕ, List, Some, IsSomeAnd, vec_len};
ghost use Rattle.outside.specs.Causes.{Rose};
ghost use Rattle.site_console.specs.Top.{IsDone, IsLoadable};
ghost use Rattle.site_store.specs.Readings.{Reading, ReadsAs};
ghost use Rattle.site_service.specs.Doors.{AreUnopened, OneRose, NoneRose};
ghost use Rattle.site_service.specs.Serves.{SiteServes, IsDue};

use crate::site::serve_site;
use outside::{Clock, Disk, Door, Sink, Words};
use site_console::end_with;
use site_store::{Devices, one_history};
use std::alloc::Global;
use std::sync::Wait;
use std::thread::Threads;

/// Serves a site: loads the journal, and serves 1 to 64 doors, each by a worker in a thread of its own, until the quota of
/// each is used up. Then it puts the line of its fault, if it has one, and gives its status, the doors and the devices back.
/// Each door has a quota of at most 1,000,000 and has given no link yet.
///
/// The status is 5, 6 or 9 where the journal couldn't be loaded, 11 where memory was wanting before any link was taken, 12
/// where a door has failed, though serving went on to its end, and else 0.
pub fn site_serve<
    G: Door + Send,
    O: Sink,
    D: Disk + Send,
    C: Clock + Send,
    W: Words + Send,
    R: Threads + Wait + Sync,
>(
    rt: &R,
    alloc: Global,
    doors: Vec<G>,
    out: &mut O,
    devices: Devices<D, C, W>,
) -> (u8, Vec<G>, Devices<D, C, W>)
where
    G::Link: Send,
    requires count { (0 < vec_len doors) × (vec_len doors ≤ 64) }
    requires unopened { AreUnopened G.state doors.items }
    ensures serves { SiteServes G.state D.Disk C.Clock W.Words doors.items result.1.items devices result.2
        (record { bytes = O.held out.old; faults = O.write_faults out.old }) (record { bytes = O.held out.new; faults = O.write_faults out.new }) result.0 }

    // What the disk's content is read as says the status, but for a fault of the disk in loading and want of memory.
    ensures due { (c : List ℕ) (reading : Reading) → D.content devices.disk ≡ Some c → ReadsAs reading c → IsDue reading result.0 }

    // Where the status is 12 a door's count rose, and where it is another none did.
    ensures door_fault { result.0 ≡ 12 → OneRose G.state doors.items result.1.items }
    ensures no_door_fault { ¬ (result.0 ≡ 12) → NoneRose G.state doors.items result.1.items }

    // Where neither the disk nor a door fails, a loadable journal is served to its end; or memory is wanting.
    ensures completes { ¬ (Rose (D.disk_faults devices.disk) (D.disk_faults result.2.disk)) → ¬ (OneRose G.state doors.items result.1.items)
        → IsSomeAnd (D.content devices.disk) IsLoadable → IsDone result.0 }
{
    one_history();
    let (ending, doors, devices) = serve_site(rt, alloc, doors, devices);
    (end_with(out, ending), doors, devices)
}
