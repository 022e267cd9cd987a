//! A site's store, served by workers at its doors.
ghost use Rattle.std.specs.Prelude.{◌≡◌, ◌<◌, ◌≤◌, vec_len};
ghost use Rattle.site_service.specs.Doors.{AreUnopened};
ghost use Rattle.site_service.specs.Sites.{IsSiteServed, served_end};

use crate::worker::{one_failed, pair, part, serve_each};
use outside::{Clock, Disk, Door, Words};
use site_console::{Ending, ending_of_store};
use site_store::{Devices, Store};
use site_turns::DeskStore;
use std::alloc::Global;
use std::sync::Wait;
use std::thread::Threads;
use turn_desk::Desk;

/// Loads the store, and serves each door by a worker in a thread of its own: the workers have the store in turns. Each
/// door is served until its quota is used up, and each link is given back. All memory for this is found before the first
/// link is taken.
pub(crate) fn serve_site<
    G: Door + Send,
    D: Disk + Send,
    C: Clock + Send,
    W: Words + Send,
    R: Threads + Wait + Sync,
>(
    rt: &R,
    alloc: Global,
    doors: Vec<G>,
    devices: Devices<D, C, W>,
) -> (Ending, Vec<G>, Devices<D, C, W>)
where
    G::Link: Send,
    requires count { (0 < vec_len doors) × (vec_len doors ≤ 64) }
    requires unopened { AreUnopened G.state doors.items }
    ensures served { IsSiteServed G.state D.Disk C.Clock W.Words doors.items result.1.items devices result.2 result.0 }
{
    let store = match Store::load(alloc, devices) {
        Ok(store) => store,
        Err((fault, devices)) => return (ending_of_store(fault), doors, devices),
    };
    let Ok(workers) = Vec::with_capacity(alloc, doors.len()) else {
        return (Ending::NoMemory, doors, store.into_devices());
    };
    let (desk, passes) = match Desk::start(alloc, DeskStore { store }, doors.len() as u8) {
        Ok(started) => started,
        Err(DeskStore { store: left }) => {
            workers.destroy_empty();
            return (Ending::NoMemory, doors, left.into_devices());
        }
    };
    let (passes, doors, mut workers) = pair(passes, doors, workers);
    serve_each(rt, alloc, &desk, &mut workers);
    let end = served_end(one_failed(&workers));
    let (passes, doors) = part(passes, doors, workers);
    let DeskStore { store } = desk.close(passes);
    (end, doors, store.into_devices())
}

/// How it ends once every door was served.
fn served_end(failed: bool) -> Ending
    ensures { result ≡ served_end failed }
{
    if failed {
        Ending::DoorFault
    } else {
        Ending::Done
    }
}
