//! Loading a journal.
ghost use Rattle.std.specs.Prelude.{◌≡◌, ◌⊎◌, ◌+◌, ◌<◌, ◌≤◌, List, ℕ, None, length, IfOk, IfErr, OnOk, IsErrOf};
ghost use Rattle.outside.specs.Causes.{HasCauseIf};
ghost use Rattle.outside.specs.Disks.{Tells, Only};
ghost use Rattle.gate_journal.specs.Grammar.{IsNone, IsBad, Holds};
ghost use Rattle.gate_journal.specs.Journals.{IsSettled};
ghost use Rattle.gate_journal.specs.Readings.{Untouched, is_disk_fault, is_fault_of_disk, LoadedFrom, bytes_of};
ghost use Rattle.gate_journal.specs.declared.fault.JournalFault.TheVariants.{Disk, Memory, NoJournal, BadRecord};

use crate::fault::JournalFault;
use crate::journal::Journal;
use crate::loaded::Loaded;
use crate::reader::Reader;
use outside::Disk;
use std::alloc::Global;

/// Syncs, and asks for the size.
pub(crate) fn measure<D: Disk>(disk: &mut D) -> Result<u64, JournalFault>
    ensures size { IfOk result (λ n. Tells (D.content disk.old) (λ c. n ≡ length c)) }
    ensures synced { OnOk result (Only (D.content disk.old) (D.image disk.new)) }
    ensures fault { IfErr result (λ e. e ≡ Disk) }
    ensures untouched { Untouched D.content D.image D.moment D.image_since disk.old disk.new }
    ensures cause { HasCauseIf (is_disk_fault result) (D.disk_faults disk.old) (D.disk_faults disk.new) }
{
    let Ok(()) = disk.sync() else {
        return Err(JournalFault::Disk);
    };
    match disk.size() {
        Ok(size) => Ok(size),
        Err(_) => Err(JournalFault::Disk),
    }
}

impl<D: Disk> Reader<D> {
    // What the content holds, and the place of the closed gate.
    fn journal(&mut self, alloc: Global) -> Result<(Loaded, u64), JournalFault>
        ensures found { IfOk result (λ r. LoadedFrom (D.content self.old.disk) r.0 r.1) }
        ensures none { IsErrOf result NoJournal → Tells (D.content self.old.disk) IsNone }
        ensures bad { (place : ℕ) → IsErrOf result (BadRecord place) → Tells (D.content self.old.disk) (λ c. IsBad c place) }
        ensures fault { IfErr result (λ e. (e ≡ Disk) ⊎ (e ≡ Memory) ⊎ (e ≡ NoJournal) ⊎ ((place : ℕ) × (e ≡ BadRecord place))) }
        ensures untouched { Untouched D.content D.image D.moment D.image_since self.old.disk self.new.disk }
        ensures cause { HasCauseIf (is_disk_fault result) (D.disk_faults self.old.disk) (D.disk_faults self.new.disk) }
    {
        if self.size < 2 {
            return Err(JournalFault::NoJournal);
        }
        let gate = match self.byte(0) {
            Ok(gate) => gate,
            Err(fault) => return Err(fault),
        };
        if gate != 1 {
            return Err(JournalFault::NoJournal);
        }
        let site = match self.header(alloc) {
            Ok(Some(site)) => site,
            Ok(None) => return Err(JournalFault::BadRecord(0)),
            Err(fault) => return Err(fault),
        };
        let start = 13 + site.len() as u64;
        match self.records(alloc, start) {
            Ok((payloads, end)) => Ok((Loaded { site, payloads }, end)),
            Err(fault) => Err(fault),
        }
    }
}

impl<D: Disk> Journal<D> {
    /// Loads what the disk holds. It begins with a sync, and reads only, in pieces of at most 65,536 bytes. The disk
    /// comes back with each fault: `NoJournal` and `BadRecord` say what the bytes are, `Disk` that a call of it failed.
    pub fn load(alloc: Global, disk: D) -> Result<(Journal<D>, Loaded), (JournalFault, D)>
        ensures found { IfOk result (λ r. LoadedFrom (D.content disk) r.1 r.0.end) }
        ensures settled { IfOk result (λ r. IsSettled (D.image r.0.disk) r.0.end r.0.pending r.1.site (bytes_of r.1.payloads)) }
        ensures none { IfErr result (λ e. e.0 ≡ NoJournal → Tells (D.content disk) IsNone) }
        ensures bad { IfErr result (λ e. (place : ℕ) → e.0 ≡ BadRecord place → Tells (D.content disk) (λ c. IsBad c place)) }
        ensures fault { IfErr result (λ e. (e.0 ≡ Disk) ⊎ (e.0 ≡ Memory) ⊎ (e.0 ≡ NoJournal) ⊎ ((place : ℕ) × (e.0 ≡ BadRecord place))) }
        ensures untouched { IfOk result (λ r. Untouched D.content D.image D.moment D.image_since disk r.0.disk) }
        ensures untouched_err { IfErr result (λ e. Untouched D.content D.image D.moment D.image_since disk e.1) }
        ensures kept { IfOk result (λ r. D.disk_faults r.0.disk ≡ D.disk_faults disk) }
        ensures cause { IfErr result (λ e. HasCauseIf (is_fault_of_disk e.0) (D.disk_faults disk) (D.disk_faults e.1)) }
    {
        let mut disk = disk;
        let size = match measure(&mut disk) {
            Ok(size) => size,
            Err(fault) => return Err((fault, disk)),
        };
        let mut reader = Reader::new(alloc, disk, size);
        match reader.journal(alloc) {
            Ok((loaded, end)) => {
                let journal = Journal {
                    disk: reader.into_disk(),
                    end,
                    pending: None,
                };
                Ok((journal, loaded))
            }
            Err(fault) => Err((fault, reader.into_disk())),
        }
    }
}
