//! A whole simulation.
ghost use Rattle.std.specs.Prelude.{◌≡◌, ◌≤◌, [], Bool, Err, List, Some, ℕ, false, length, IfErr, IfOk, OnOk};
ghost use Rattle.outside.specs.Causes.{HasCauseIf};
ghost use Rattle.outside.specs.Disks.{Tells};
ghost use Rattle.deed_words.specs.History.{world_of};
ghost use Rattle.gate_journal.specs.Grammar.{IsThere};
ghost use Rattle.gate_journal.specs.Readings.{Untouched};
ghost use Rattle.site_store.specs.Held.{Held};
ghost use Rattle.site_store.specs.Open.{IsOpen, store_state};
ghost use Rattle.site_store.specs.States.{settled};
ghost use Rattle.site_sim.specs.Example as example;
ghost use Rattle.site_sim.specs.Knowing.{AreNamed, Knows};
ghost use Rattle.site_sim.specs.Requests.{sends};
ghost use Rattle.site_sim.specs.Results.{figures_of, line_of};
ghost use Rattle.site_sim.specs.Sends.{Sent, Went};
ghost use Rattle.site_sim.specs.Simulated.{Simulated, SimulatedFrom, is_disk, is_there};
ghost use Rattle.site_sim.specs.Supplies.{moments, words};
ghost use Rattle.site_sim.specs.declared.fault.SimFault.TheVariants.{JournalThere, Memory as NoMemory};

use crate::example::site;
use crate::fault::{SimFault, fault_of};
use crate::figures::{figures_of, line_of};
use crate::known::Known;
use crate::sending::send_all;
use crate::supplies::{moments, words};
use deed_words::Setup;
use gs1_keys::Memory;
use outside::{Clock, Disk, MemoryClock, MemoryWords, Words};
use site_core::Site;
use site_store::{Devices, Store};
use std::alloc::Global;

/// Makes the journal of the simulation's site on a disk that has none, sends the requests for a batch of so many items to
/// its store, and gives the line of what came of them, with its newline. Clock and random words are its own; the words
/// begin with the seed.
///
/// `count` is 1 to 200,000.
///
/// # Errors
///
/// The disk comes back with each of them. `JournalThere` where a journal is there already: then the disk was only read.
/// `Disk` where a call of the disk failed, and its count of faults rose. `Memory` where no memory was found.
pub fn simulate<D: Disk>(
    alloc: Global,
    seed: u32,
    count: u32,
    disk: D,
) -> (Result<Vec<u8>, SimFault>, D)
    requires some { 1 ≤ count }
    requires few { count ≤ 200000 }
    ensures done { IfOk result.0 (λ line. Simulated D.Disk seed count disk result.1 line.items) }
    ensures there { result.0 ≡ Err JournalThere → Tells (D.content disk) IsThere }
    ensures untouched { result.0 ≡ Err JournalThere → Untouched D.content D.image D.moment D.image_since disk result.1 }
    ensures cause { HasCauseIf (is_disk result.0) (D.disk_faults disk) (D.disk_faults result.1) }
{
    let Ok((setup, clock, words)) = supplies(alloc, seed) else {
        return (Err(SimFault::Memory), disk);
    };
    let (line, devices) = simulate_from(alloc, setup, Devices { disk, clock, words }, seed, count);
    (line, devices.disk)
}

/// .. with this clock and these random words, and with the site at hand.
fn simulate_from<D: Disk, C: Clock, W: Words>(
    alloc: Global,
    setup: Setup,
    devices: Devices<D, C, W>,
    seed: u32,
    count: u32,
) -> (Result<Vec<u8>, SimFault>, Devices<D, C, W>)
    requires some { 1 ≤ count }
    requires few { count ≤ 200000 }
    requires setup { setup ≡ example.site }
    ensures done { IfOk result.0 (λ line. SimulatedFrom D.Disk (C.moments_left devices.clock) (W.words_left devices.words) seed count devices.disk result.1.disk line.items) }
    ensures there { result.0 ≡ Err JournalThere → Tells (D.content devices.disk) IsThere }
    ensures untouched { result.0 ≡ Err JournalThere → Untouched D.content D.image D.moment D.image_since devices.disk result.1.disk }
    ensures cause { HasCauseIf (is_disk result.0) (D.disk_faults devices.disk) (D.disk_faults result.1.disk) }
{
    match Store::init(alloc, devices, setup) {
        Ok(store) => {
            let mut store = store;
            let line = run(alloc, &mut store, seed, count);
            (line, store.into_devices())
        }
        Err((fault, devices)) => (Err(fault_of(fault)), devices),
    }
}

/// The site, its clock and its random words.
fn supplies(alloc: Global, seed: u32) -> Result<(Setup, MemoryClock, MemoryWords), Memory>
    ensures setup { IfOk result (λ made. made.0 ≡ example.site) }
    ensures clock { IfOk result (λ made. ⟦<MemoryClock as Clock>⟧.moments_left made.1 ≡ Some (moments 100000)) }
    ensures words { IfOk result (λ made. ⟦<MemoryWords as Words>⟧.words_left made.2 ≡ Some (words seed 1000000)) }
{
    let setup = site(alloc)?;
    let clock = MemoryClock::new(moments(alloc, 100_000)?, Vec::new(alloc));
    let words = MemoryWords::new(words(alloc, seed, 1_000_000)?, Vec::new(alloc));
    Ok((setup, clock, words))
}

/// Sends the requests to a store that was just made, and gives the line.
fn run<D: Disk, C: Clock, W: Words>(
    alloc: Global,
    store: &mut Store<D, C, W>,
    seed: u32,
    count: u32,
) -> Result<Vec<u8>, SimFault>
    requires some { 1 ≤ count }
    requires few { count ≤ 200000 }
    requires opens { IsOpen D.Disk C.Clock W.Words store.old }
    requires setup { store.old.site.setup ≡ example.site }
    requires made { store_state store.old ≡ settled [] }
    ensures line { IfOk result (λ line. (all : Bool) × (done : List Sent)
        × Went (settled []) (sends count) (C.moments_left store.old.clock) (C.moments_left store.new.clock) (W.words_left store.old.words) (W.words_left store.new.words) all done (settled store.new.site.history)
        × (line.items ≡ line_of seed count (figures_of (length done) store.new.site.history))) }
    ensures images { OnOk result ((c : List ℕ) → D.image store.new.journal.disk c → Held example.site store.new.site.history c) }
    ensures cause { HasCauseIf (is_disk result) (D.disk_faults store.old.journal.disk) (D.disk_faults store.new.journal.disk) }
    ensures fault { is_there result ≡ false }
{
    let mut known = Known::new(alloc);
    match send_all(alloc, store, &mut known, count) {
        Ok(()) => line_for(alloc, store.site(), &known, seed, count),
        Err(fault) => Err(fault),
    }
}

/// The line of the simulation's site.
fn line_for(
    alloc: Global,
    site: &Site,
    known: &Known,
    seed: u32,
    count: u32,
) -> Result<Vec<u8>, SimFault>
    requires setup { site.now.setup ≡ example.site }
    requires knows { Knows site.now.history known.now }
    requires named { AreNamed (world_of example.site site.now.history).batches }
    ensures line { IfOk result (λ line. line.items ≡ line_of seed count (figures_of known.now.sent site.now.history)) }
    ensures fault { IfErr result (λ e. e ≡ NoMemory) }
{
    let Ok(figures) = figures_of(alloc, site, known) else {
        return Err(SimFault::Memory);
    };
    match line_of(alloc, seed, count, &figures) {
        Ok(line) => Ok(line),
        Err(_) => Err(SimFault::Memory),
    }
}
