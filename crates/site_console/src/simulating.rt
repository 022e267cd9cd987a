//! `sim`: the simulation, in a new journal.
ghost use Rattle.std.specs.Prelude.{◌≡◌, ◌≤◌};
ghost use Rattle.site_console.specs.Endings.{ending_of_sim};
ghost use Rattle.site_console.specs.Sims.{SimSession};

use crate::ending::Ending;
use crate::sessions::tell_text;
use outside::{Clock, Disk, Sink, Words};
use site_sim::{SimFault, simulate};
use site_store::Devices;
use std::alloc::Global;

/// Runs the simulation on the disk, which has no journal yet, and puts its line. Clock and random words aren't used.
///
/// `count` is 1 to 200,000.
pub fn simulate_store<O: Sink, D: Disk, C: Clock, W: Words>(
    alloc: Global,
    seed: u32,
    count: u32,
    out: &mut O,
    devices: Devices<D, C, W>,
) -> (Ending, Devices<D, C, W>)
    requires some { 1 ≤ count }
    requires few { count ≤ 200000 }
    ensures session { SimSession D.Disk seed count devices result.1
        (record { bytes = O.held out.old; faults = O.write_faults out.old }) (record { bytes = O.held out.new; faults = O.write_faults out.new }) result.0 }
{
    let Devices { disk, clock, words } = devices;
    let (line, disk) = simulate(alloc, seed, count, disk);
    match line {
        Ok(line) => (tell_text(out, &line), Devices { disk, clock, words }),
        Err(fault) => (ending_of_sim(fault), Devices { disk, clock, words }),
    }
}

/// How a simulation ends that has no line.
fn ending_of_sim(fault: SimFault) -> Ending
    ensures { result ≡ ending_of_sim fault }
{
    match fault {
        SimFault::JournalThere => Ending::JournalThere,
        SimFault::Disk => Ending::DiskFault,
        SimFault::Memory => Ending::NoMemory,
    }
}
