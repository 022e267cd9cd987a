//! Making a store.
ghost use Rattle.std.specs.Prelude.{◌≡◌, ◌≢◌, ◌⊎◌, ◌≤◌, [], List, ℕ, IfOk, IfErr, IfSome, length};
ghost use Rattle.outside.specs.Causes.{HasCauseIf};
ghost use Rattle.outside.specs.Disks.{Tells};
ghost use Rattle.gate_journal.specs.Grammar.{IsNone, IsThere};
ghost use Rattle.gate_journal.specs.Readings.{Untouched, UntouchedUntil};
ghost use Rattle.entry_bytes.specs.Sites.{SpellsSetup};
ghost use Rattle.site_store.specs.declared.load.StoreFault.TheVariants.{Disk, JournalThere, Memory};
ghost use Rattle.site_store.specs.Held.{IsFreshFor};
ghost use Rattle.site_store.specs.Loads.{is_disk};
ghost use Rattle.site_store.specs.Open.{IsOpen, HasBegun, store_state, notes_of};
ghost use Rattle.site_store.specs.States.{settled};

use crate::load::{StoreFault, fault_of};
use crate::store::{Devices, Store};
use deed_words::Setup;
use entry_bytes::{print_setup, sizes_are_sums};
use gate_journal::Journal;
use outside::{Clock, Disk, Words};
use site_core::Site;
use std::alloc::Global;
use std::snapshot::Snapshot;

/// The bytes of a setup.
fn bytes_of(alloc: Global, setup: &Setup) -> Option<Vec<u8>>
    ensures spelled { IfSome result (λ bytes. SpellsSetup setup.now bytes.items) }
    ensures short { IfSome result (λ bytes. length bytes.items ≤ 65535) }
{
    sizes_are_sums();
    let mut bytes = Vec::new(alloc);
    print_setup(alloc, setup, &mut bytes).ok()?;
    Some(bytes)
}

/// The bytes of a setup and its site, in which nothing has happened.
fn site_of(alloc: Global, setup: Setup) -> Option<(Vec<u8>, Site)>
    ensures spelled { IfSome result (λ made. SpellsSetup setup made.0.items) }
    ensures short { IfSome result (λ made. length made.0.items ≤ 65535) }
    ensures site { IfSome result (λ made. (made.1.setup ≡ setup) × (made.1.history ≡ [])) }
{
    let bytes = bytes_of(alloc, &setup)?;
    let site = Site::new(alloc, setup).ok()?;
    Some((bytes, site))
}

impl<D: Disk, C: Clock, W: Words> Store<D, C, W> {
    /// Makes the journal of a setup, where none is there, and a store with an empty history.
    ///
    /// # Errors
    ///
    /// The devices come back with each of them. `JournalThere` where a journal is there already, whatever it holds.
    /// `Disk` where a call of the disk failed. `Memory` where no memory was found, which comes only before the first
    /// write.
    pub fn init(
        alloc: Global,
        devices: Devices<D, C, W>,
        setup: Setup,
    ) -> Result<Store<D, C, W>, (StoreFault, Devices<D, C, W>)>
        ensures made { IfOk result (λ s. store_state s ≡ settled []) }
        ensures setup { IfOk result (λ s. s.site.setup ≡ setup) }
        ensures open { IfOk result (λ s. IsOpen D.Disk C.Clock W.Words s) }
        ensures begun { IfOk result (λ s. HasBegun D.Disk (λ c. D.image devices.disk c ⊎ IsFreshFor setup c) s) }
        ensures noted { IfOk result (λ s. notes_of s ≡ []) }
        ensures opened { IfOk result (λ s. (s.opened.value ≡ devices) × (s.opening.value ≡ s.site)) }
        ensures devices { IfOk result (λ s. (s.clock ≡ devices.clock) × (s.words ≡ devices.words)) }
        ensures devices_err { IfErr result (λ e. (e.1.clock ≡ devices.clock) × (e.1.words ≡ devices.words)) }
        ensures none { IfOk result (λ _. Tells (D.content devices.disk) IsNone) }
        ensures there { IfErr result (λ e. e.0 ≡ JournalThere → Tells (D.content devices.disk) IsThere) }
        ensures fault { IfErr result (λ e. (e.0 ≡ Disk) ⊎ (e.0 ≡ Memory) ⊎ (e.0 ≡ JournalThere)) }
        ensures kept { IfOk result (λ s. D.disk_faults s.journal.disk ≡ D.disk_faults devices.disk) }
        ensures cause { IfErr result (λ e. HasCauseIf (is_disk e.0) (D.disk_faults devices.disk) (D.disk_faults e.1.disk)) }
        ensures untouched { IfErr result (λ e. e.0 ≢ Disk → Untouched D.content D.image D.moment D.image_since devices.disk e.1.disk) }
        ensures first_write { IfOk result (λ s. UntouchedUntil D.content D.image D.moment D.image_since (IsFreshFor setup) devices.disk s.journal.disk) }
        ensures first_write_err { IfErr result (λ e. Untouched D.content D.image D.moment D.image_since devices.disk e.1.disk ⊎ UntouchedUntil D.content D.image D.moment D.image_since (IsFreshFor setup) devices.disk e.1.disk) }
    {
        let opened = Snapshot::of(&devices);
        let Devices { disk, clock, words } = devices;
        let Some((bytes, site)) = site_of(alloc, setup) else {
            return Err((StoreFault::Memory, Devices { disk, clock, words }));
        };
        match Journal::init(alloc, disk, &bytes) {
            Ok(journal) => {
                let opening = Snapshot::of(&site);
                Ok(Store {
                    alloc,
                    journal,
                    site,
                    clock,
                    words,
                    pending: Vec::new(alloc),
                    log: Vec::new(alloc),
                    opening,
                    opened,
                })
            }
            Err((fault, disk)) => Err((fault_of(fault), Devices { disk, clock, words })),
        }
    }
}
