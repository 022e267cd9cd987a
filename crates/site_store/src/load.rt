//! Loading a store.
ghost use Rattle.std.specs.Prelude.{◌≡◌, ◌≢◌, ◌⊎◌, ◌++◌, ◌∷◌, [], All, List, ℕ, IfOk, IfErr, OnOk, IsErrOf};
ghost use Rattle.outside.specs.Causes.{HasCauseIf};
ghost use Rattle.outside.specs.Disks.{Tells};
ghost use Rattle.deed_words.specs.History.{IsLawful, MayFollow, world_of};
ghost use Rattle.deed_words.specs.Proper.{IsProperEntry};
ghost use Rattle.deed_words.specs.Setups.{Setup as TheSetup};
ghost use Rattle.deed_words.specs.declared.entry.Entry.{Entry as TheEntry};
ghost use Rattle.gate_journal.specs.Readings.{Untouched, bytes_of};
ghost use Rattle.entry_bytes.specs.Groups.{SpellsGroup};
ghost use Rattle.entry_bytes.specs.Sites.{SpellsSetup};
ghost use Rattle.entry_bytes.specs.declared.fault.EntryFault.TheVariants as entry_fault;
ghost use Rattle.site_core.specs.declared.unlawful.Unlawful.TheVariants as unlawful;
ghost use Rattle.site_store.specs.declared.load.StoreFault.TheVariants.{Disk, NoJournal, Bad, Memory};
ghost use Rattle.site_store.specs.declared.load.Spoilt.TheVariants as spoiling;
ghost use Rattle.site_store.specs.Held.{Held, Spoils};
ghost use Rattle.site_store.specs.Readings as reading;
ghost use Rattle.site_store.specs.Readings.{ReadsAs};
ghost use Rattle.site_store.specs.Loads.{IsReplayed, IsSpoiltAt, fault_of, is_disk};
ghost use Rattle.site_store.specs.Open.{IsOpen, HasBegun};
ghost use Rattle.site_store.specs.Standing.{noted_in};

use crate::store::{Devices, Store};
use deed_words::Entry;
use entry_bytes::{EntryFault, read_entries, read_setup};
use gate_journal::{Journal, JournalFault, Loaded, Payloads};
use outside::{Clock, Disk, Words};
use site_core::{Site, Unlawful};
use std::alloc::Global;
use std::snapshot::Snapshot;

/// Why no store was made or loaded.
#[derive(Clone, Copy, Debug, PartialEq, Eq)]
pub enum StoreFault {
    /// A call of the disk failed, and its count of faults rose.
    Disk,
    /// A journal is there already.
    JournalThere,
    /// No journal is there.
    NoJournal,
    /// The bytes from this offset on hold no lawful history: it is that of the first gate with no record behind it, or
    /// with one whose payload is no group of entries or doesn't follow lawfully. It is 0 where the site's bytes are of
    /// no setup.
    Bad(u64),
    /// No memory was found.
    Memory,
}

/// Why a payload wasn't put into the history.
#[derive(Clone, Copy)]
enum Spoilt {
    /// It is of no group, or of one that doesn't follow lawfully.
    Payload,
    /// No memory was found.
    Memory,
}

/// The fault of the journal as one of the store.
pub(crate) fn fault_of(fault: JournalFault) -> StoreFault
    ensures { result ≡ fault_of fault }
{
    match fault {
        JournalFault::Disk => StoreFault::Disk,
        JournalFault::AlreadyThere => StoreFault::JournalThere,
        JournalFault::NoJournal => StoreFault::NoJournal,
        JournalFault::BadRecord(place) => StoreFault::Bad(place),
        JournalFault::Full(_, _, _) => StoreFault::Memory,
        JournalFault::Memory => StoreFault::Memory,
    }
}

/// What an entry that may not come next means for its payload.
fn refused(fault: Unlawful) -> Spoilt
    ensures { result ≡ spoiling.Payload → fault ≢ unlawful.Memory }
{
    match fault {
        Unlawful::BadStation | Unlawful::BadNumber(_) | Unlawful::StampFell | Unlawful::BadDrawn =>
            Spoilt::Payload,
        Unlawful::Memory => Spoilt::Memory,
    }
}

/// What bytes that don't read mean for their payload.
fn unread(fault: EntryFault) -> Spoilt
    ensures { result ≡ spoiling.Payload → fault ≢ entry_fault.Memory }
{
    match fault {
        EntryFault::Short(_)
        | EntryFault::BadTag(_)
        | EntryFault::BadField(_)
        | EntryFault::Extra(_) => Spoilt::Payload,
        EntryFault::Memory => Spoilt::Memory,
    }
}

/// A payload behind this gate wasn't put into the history.
fn spoilt_at(spoilt: Spoilt, gate: u64) -> StoreFault
    ensures bad { (place : ℕ) → result ≡ Bad place → (spoilt ≡ spoiling.Payload) × (place ≡ gate) }
    ensures fault { (result ≡ Memory) ⊎ (result ≡ Bad gate) }
{
    match spoilt {
        Spoilt::Payload => StoreFault::Bad(gate),
        Spoilt::Memory => StoreFault::Memory,
    }
}

/// Puts an entry that was read back into the history, if it may come next.
fn adopt_one(site: &mut Site, entry: Entry) -> Result<(), Spoilt>
    requires proper { IsProperEntry entry }
    ensures setup { site.new.setup ≡ site.old.setup }
    ensures history { OnOk result (site.new.history ≡ site.old.history ++ entry ∷ []) }
    ensures follows { OnOk result (MayFollow site.old.setup site.old.history (world_of site.old.setup site.old.history) entry) }
    ensures spoils { IsErrOf result spoiling.Payload → MayFollow site.old.setup site.old.history (world_of site.old.setup site.old.history) entry → ⊥ }
{
    match site.adopt(entry) {
        Ok(planned) => {
            let _committed = site.commit(planned);
            Ok(())
        }
        Err(fault) => Err(refused(fault)),
    }
}

/// Puts a group that was read back into the history, up to the first entry that may not come next.
fn adopt_all(site: &mut Site, entries: Vec<Entry>) -> Result<(), Spoilt>
    requires lawful { IsLawful site.old.setup site.old.history }
    requires proper { All IsProperEntry entries.items }
    ensures setup { site.new.setup ≡ site.old.setup }
    ensures history { OnOk result (site.new.history ≡ site.old.history ++ entries.items) }
    ensures lawful { OnOk result (IsLawful site.old.setup (site.old.history ++ entries.items)) }
    ensures spoils { IsErrOf result spoiling.Payload → IsLawful site.old.setup (site.old.history ++ entries.items) → ⊥ }
{
    let mut rest = entries.into_iter();
    'entries: while let Some(entry) = rest.next() {
        match adopt_one(site, entry) {
            Ok(()) => {}
            Err(spoilt) => return Err(spoilt),
        }
    }
    Ok(())
}

/// Puts a payload into the history, if it is that of a group which follows lawfully.
fn adopt_payload(alloc: Global, site: &mut Site, payload: &[u8]) -> Result<(), Spoilt>
    requires lawful { IsLawful site.old.setup site.old.history }
    ensures setup { site.new.setup ≡ site.old.setup }
    ensures adopts { OnOk result ((group : List TheEntry) × SpellsGroup group payload.now × (site.new.history ≡ site.old.history ++ group) × IsLawful site.old.setup (site.old.history ++ group)) }
    ensures spoils { IsErrOf result spoiling.Payload → Spoils site.old.setup site.old.history payload.now }
{
    match read_entries(alloc, payload) {
        Ok(entries) => adopt_all(site, entries),
        Err(fault) => Err(unread(fault)),
    }
}

/// Puts all payloads into an empty history.
fn replay(alloc: Global, site: &mut Site, payloads: &Payloads) -> Result<(), StoreFault>
    requires none { site.old.history ≡ [] }
    ensures setup { site.new.setup ≡ site.old.setup }
    ensures replayed { OnOk result (IsReplayed site.old.setup (bytes_of payloads.now) site.new.history) }
    ensures bad { (place : ℕ) → IsErrOf result (Bad place) → IsSpoiltAt site.old.setup payloads.now place }
    ensures fault { IfErr result (λ e. (e ≡ Memory) ⊎ ((place : ℕ) × (e ≡ Bad place))) }
{
    let mut at = 0;
    'payloads: while at < payloads.len() {
        let payload = payloads.get(at);
        match adopt_payload(alloc, site, payload.bytes.bytes()) {
            Ok(()) => at += 1,
            Err(spoilt) => return Err(spoilt_at(spoilt, payload.at)),
        }
    }
    Ok(())
}

/// The site that a journal holds.
fn site_of(alloc: Global, loaded: &Loaded) -> Result<Site, StoreFault>
    ensures replayed { IfOk result (λ site. SpellsSetup site.setup loaded.now.site × IsReplayed site.setup (bytes_of loaded.now.payloads) site.history) }
    ensures bad { (place : ℕ) → IsErrOf result (Bad place) → ((place ≡ 0) × ((setup : TheSetup) → SpellsSetup setup loaded.now.site → ⊥)) ⊎ ((setup : TheSetup) × SpellsSetup setup loaded.now.site × IsSpoiltAt setup loaded.now.payloads place) }
    ensures fault { IfErr result (λ e. (e ≡ Memory) ⊎ ((place : ℕ) × (e ≡ Bad place))) }
{
    let setup = match read_setup(alloc, loaded.site.bytes()) {
        Ok(setup) => setup,
        Err(fault) => return Err(spoilt_at(unread(fault), 0)),
    };
    let Ok(mut site) = Site::new(alloc, setup) else {
        return Err(StoreFault::Memory);
    };
    match replay(alloc, &mut site, &loaded.payloads) {
        Ok(()) => Ok(site),
        Err(fault) => Err(fault),
    }
}

impl<D: Disk, C: Clock, W: Words> Store<D, C, W> {
    /// Loads the store that a disk holds. It begins with a sync, and reads only. Nothing is pending in it, and it has no
    /// notes.
    ///
    /// # Errors
    ///
    /// The devices come back with each of them. `NoJournal` and `Bad` say what the bytes are: no journal, or one that is
    /// bad at that offset. `Disk` where a call of the disk failed. `Memory` where no memory was found.
    pub fn load(
        alloc: Global,
        devices: Devices<D, C, W>,
    ) -> Result<Store<D, C, W>, (StoreFault, Devices<D, C, W>)>
        ensures reads { IfOk result (λ s. Tells (D.content devices.disk) (ReadsAs (reading.Kept s.site.setup s.site.history))) }
        ensures images { IfOk result (λ s. (c : List ℕ) → D.image s.journal.disk c → Held s.site.setup s.site.history c) }
        ensures settled { IfOk result (λ s. s.pending.items ≡ []) }
        ensures open { IfOk result (λ s. IsOpen D.Disk C.Clock W.Words s) }
        ensures begun { IfOk result (λ s. HasBegun D.Disk (D.image devices.disk) s) }
        ensures noted { IfOk result (λ s. noted_in s.log.items ≡ []) }
        ensures opened { IfOk result (λ s. (s.opened.value ≡ devices) × (s.opening.value ≡ s.site)) }
        ensures devices { IfOk result (λ s. (s.clock ≡ devices.clock) × (s.words ≡ devices.words)) }
        ensures devices_err { IfErr result (λ e. (e.1.clock ≡ devices.clock) × (e.1.words ≡ devices.words)) }
        ensures none { IfErr result (λ e. e.0 ≡ NoJournal → Tells (D.content devices.disk) (ReadsAs reading.Nothing)) }
        ensures bad { IfErr result (λ e. (place : ℕ) → e.0 ≡ Bad place → Tells (D.content devices.disk) (ReadsAs (reading.Bad place))) }
        ensures fault { IfErr result (λ e. (e.0 ≡ Disk) ⊎ (e.0 ≡ Memory) ⊎ (e.0 ≡ NoJournal) ⊎ ((place : ℕ) × (e.0 ≡ Bad place))) }
        ensures kept { IfOk result (λ s. D.disk_faults s.journal.disk ≡ D.disk_faults devices.disk) }
        ensures cause { IfErr result (λ e. HasCauseIf (is_disk e.0) (D.disk_faults devices.disk) (D.disk_faults e.1.disk)) }
        ensures untouched { IfOk result (λ s. Untouched D.content D.image D.moment D.image_since devices.disk s.journal.disk) }
        ensures untouched_err { IfErr result (λ e. Untouched D.content D.image D.moment D.image_since devices.disk e.1.disk) }
    {
        let opened = Snapshot::of(&devices);
        let Devices { disk, clock, words } = devices;
        let (journal, loaded) = match Journal::load(alloc, disk) {
            Ok(found) => found,
            Err((fault, disk)) => return Err((fault_of(fault), Devices { disk, clock, words })),
        };
        match site_of(alloc, &loaded) {
            Ok(site) => {
                let opening = Snapshot::of(&site);
                Ok(Store {
                    alloc,
                    journal,
                    site,
                    clock,
                    words,
                    pending: Vec::new(alloc),
                    log: Vec::new(alloc),
                    opening,
                    opened,
                })
            }
            Err(fault) => {
                let disk = journal.into_disk();
                Err((fault, Devices { disk, clock, words }))
            }
        }
    }
}
