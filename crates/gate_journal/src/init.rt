//! Making a journal.
ghost use Rattle.std.specs.Prelude.{◌≡◌, ◌≢◌, ◌⊎◌, ◌+◌, ◌<◌, ◌≤◌, ◌++◌, ◌∷◌, [], ◌↔◌, List, ℕ, None, length, drop, IfOk, IfErr, OnOk, OnErr, IsErrOf, IsSome};
ghost use Rattle.outside.specs.Causes.{HasCause, HasCauseIf};
ghost use Rattle.outside.specs.Disks.{Tells, Only, LeavesOnly};
ghost use Rattle.gate_journal.specs.Gates.{IsShut, EndsAt, EachImage, Reaches};
ghost use Rattle.gate_journal.specs.Grammar.{header, IsShort, IsNone, IsThere, IsFresh};
ghost use Rattle.gate_journal.specs.Journals.{IsSettled, Writes, shut_header};
ghost use Rattle.gate_journal.specs.Readings.{Untouched, UntouchedUntil, is_disk_fault, is_fault_of_disk};
ghost use Rattle.gate_journal.specs.declared.fault.JournalFault.TheVariants.{Disk, Memory, AlreadyThere};

use crate::fault::JournalFault;
use crate::gates::{open_gate, stage};
use crate::journal::Journal;
use crate::load::measure;
use crate::records::NAME;
use outside::Disk;
use std::alloc::{AllocError, Global};

// The header behind its gate, and a closed gate.
fn header_bytes(alloc: Global, site: &[u8]) -> Result<Vec<u8>, JournalFault>
    requires { length site.now ≤ 65535 }
    ensures bytes { IfOk result (λ v. v.items ≡ header site.now ++ 0 ∷ []) }
    ensures fault { IfErr result (λ e. e ≡ Memory) }
{
    match spelled(alloc, site) {
        Ok(bytes) => Ok(bytes),
        Err(_) => Err(JournalFault::Memory),
    }
}

fn spelled(alloc: Global, site: &[u8]) -> Result<Vec<u8>, AllocError>
    requires { length site.now ≤ 65535 }
    ensures { IfOk result (λ v. v.items ≡ header site.now ++ 0 ∷ []) }
{
    let mut bytes = Vec::new(alloc);
    bytes.extend_from_slice(&NAME)?;
    bytes.extend_from_slice(&(site.len() as u32).to_be_bytes())?;
    bytes.extend_from_slice(site)?;
    bytes.push(0)?;
    Ok(bytes)
}

// A closed gate on a disk of at most one byte.
fn first_gate<D: Disk>(disk: &mut D) -> Result<(), JournalFault>
    requires short { Tells (D.content disk.old) (λ c. length c < 2) }
    requires only { Only (D.content disk.old) (D.image disk.old) }
    ensures none { (c : List ℕ) → D.image disk.new c → IsNone c }
    ensures wrote { OnOk result (Writes 0 (0 ∷ []) (D.content disk.old) (D.content disk.new)) }
    ensures told { IsSome (D.content disk.old) ↔ IsSome (D.content disk.new) }
    ensures shut { OnOk result (EachImage (D.image disk.new) 0 [] (EndsAt [])) }
    ensures fault { IfErr result (λ e. e ≡ Disk) }
    ensures any_moment { LeavesOnly D.moment D.image_since disk.old disk.new IsNone }
    ensures cause { HasCauseIf (is_disk_fault result) (D.disk_faults disk.old) (D.disk_faults disk.new) }
{
    let Ok(()) = disk.write_at(0, &[0]) else {
        return Err(JournalFault::Disk);
    };
    match disk.sync() {
        Ok(()) => Ok(()),
        Err(_) => Err(JournalFault::Disk),
    }
}

// The byte at the front of a disk that isn't empty.
fn front_byte<D: Disk>(disk: &mut D) -> Result<u8, JournalFault>
    requires { Tells (D.content disk.old) (λ c. 0 < length c) }
    ensures read { IfOk result (λ n. Tells (D.content disk.old) (λ c. c ≡ n ∷ drop 1 c)) }
    ensures fault { IfErr result (λ e. e ≡ Disk) }
    ensures untouched { Untouched D.content D.image D.moment D.image_since disk.old disk.new }
    ensures cause { HasCauseIf (is_disk_fault result) (D.disk_faults disk.old) (D.disk_faults disk.new) }
{
    let mut byte = [0; 1];
    match disk.read_at(0, &mut byte) {
        Ok(()) => Ok(byte[0]),
        Err(_) => Err(JournalFault::Disk),
    }
}

// Leaves a closed gate at the front, unless a journal is there.
fn shut_front<D: Disk>(disk: &mut D) -> Result<(), JournalFault>
    ensures shut { OnOk result (EachImage (D.image disk.new) 0 [] (EndsAt [])) }
    ensures none { OnOk result (Tells (D.content disk.old) IsNone) }
    ensures there { IsErrOf result AlreadyThere → Tells (D.content disk.old) IsThere }
    ensures wrote { OnOk result ((D.content disk.new ≡ D.content disk.old) ⊎ Writes 0 (0 ∷ []) (D.content disk.old) (D.content disk.new)) }
    ensures told { IsSome (D.content disk.old) ↔ IsSome (D.content disk.new) }
    ensures spared { OnErr result (Untouched D.content D.image D.moment D.image_since disk.old disk.new ⊎ Tells (D.content disk.old) IsNone) }
    ensures fault { IfErr result (λ e. (e ≡ Disk) ⊎ (e ≡ AlreadyThere)) }
    ensures untouched { IsErrOf result AlreadyThere → Untouched D.content D.image D.moment D.image_since disk.old disk.new }
    ensures failed { OnErr result (Untouched D.content D.image D.moment D.image_since disk.old disk.new ⊎ ((c : List ℕ) → D.image disk.new c → IsNone c)) }
    ensures any_moment { LeavesOnly D.moment D.image_since disk.old disk.new (λ c. D.image disk.old c ⊎ IsNone c) }
    ensures first_write { OnOk result (UntouchedUntil D.content D.image D.moment D.image_since IsNone disk.old disk.new) }
    ensures first_write_err { OnErr result (Untouched D.content D.image D.moment D.image_since disk.old disk.new ⊎ UntouchedUntil D.content D.image D.moment D.image_since IsNone disk.old disk.new) }
    ensures cause { HasCauseIf (is_disk_fault result) (D.disk_faults disk.old) (D.disk_faults disk.new) }
{
    let size = match measure(disk) {
        Ok(size) => size,
        Err(_) => return Err(JournalFault::Disk),
    };
    if size < 2 {
        return match first_gate(disk) {
            Ok(()) => Ok(()),
            Err(_) => Err(JournalFault::Disk),
        };
    }
    let gate = match front_byte(disk) {
        Ok(gate) => gate,
        Err(_) => return Err(JournalFault::Disk),
    };
    if gate == 1 {
        return Err(JournalFault::AlreadyThere);
    }
    Ok(())
}

// Writes the header behind the closed gate at the front, and opens it.
fn write_header<D: Disk>(disk: &mut D, body: &[u8]) -> Result<(), JournalFault>
    requires { Reaches (D.image disk.old) 0 }
    ensures reach { OnOk result (Reaches (D.image disk.new) (length body.now)) }
    ensures wrote { OnOk result (Writes 0 (1 ∷ body.now) (D.content disk.old) (D.content disk.new)) }
    ensures told { IsSome (D.content disk.old) ↔ IsSome (D.content disk.new) }
    ensures made { OnOk result ((site : List ℕ) → IsShort site → body.now ≡ header site ++ 0 ∷ [] → EachImage (D.image disk.old) 0 [] (EndsAt []) → IsSettled (D.image disk.new) (length body.now) None site []) }
    ensures fresh { (site : List ℕ) → IsShort site → body.now ≡ header site ++ 0 ∷ [] → EachImage (D.image disk.old) 0 [] (EndsAt []) → (c : List ℕ) → D.image disk.new c → IsFresh site c }
    ensures any_moment { (site : List ℕ) → IsShort site → body.now ≡ header site ++ 0 ∷ [] → EachImage (D.image disk.old) 0 [] (EndsAt []) → LeavesOnly D.moment D.image_since disk.old disk.new (IsFresh site) }
    ensures fault { IfErr result (λ e. e ≡ Disk) }
    ensures cause { HasCauseIf (is_disk_fault result) (D.disk_faults disk.old) (D.disk_faults disk.new) }
{
    let Ok(()) = stage(disk, 0, body) else {
        return Err(JournalFault::Disk);
    };
    match open_gate(disk, 0) {
        Ok(()) => Ok(()),
        Err(_) => Err(JournalFault::Disk),
    }
}

impl<D: Disk> Journal<D> {
    /// Makes a journal of a site of at most 65,535 bytes, without payloads, where none is there: `AlreadyThere` comes
    /// exactly where the disk has two bytes or more and byte 0 is 1. Before its first write it changes nothing, and
    /// `Memory` comes only before that. After a `Disk` in that write or later, whatever a crash leaves is no journal,
    /// or the journal of this site without payloads. A disk on which anything but no journal was is left as it was.
    /// What is written is the header behind its open gate, and one closed gate. The disk comes back with each fault.
    pub fn init(alloc: Global, disk: D, site: &[u8]) -> Result<Journal<D>, (JournalFault, D)>
        requires { length site.now ≤ 65535 }
        ensures made { IfOk result (λ j. IsSettled (D.image j.disk) j.end j.pending site.now []) }
        ensures end { IfOk result (λ j. j.end ≡ 13 + length site.now) }
        ensures settled { IfOk result (λ j. j.pending ≡ None) }
        ensures wrote { IfOk result (λ j. Writes 0 (shut_header site.now) (D.content disk) (D.content j.disk)) }
        ensures told { IfOk result (λ j. IsSome (D.content disk) ↔ IsSome (D.content j.disk)) }
        ensures told_err { IfErr result (λ e. IsSome (D.content disk) ↔ IsSome (D.content e.1)) }
        ensures spared { IfErr result (λ e. Untouched D.content D.image D.moment D.image_since disk e.1 ⊎ Tells (D.content disk) IsNone) }
        ensures none { IfOk result (λ _. Tells (D.content disk) IsNone) }
        ensures there { IfErr result (λ e. e.0 ≡ AlreadyThere → Tells (D.content disk) IsThere) }
        ensures fault { IfErr result (λ e. (e.0 ≡ Disk) ⊎ (e.0 ≡ Memory) ⊎ (e.0 ≡ AlreadyThere)) }
        ensures untouched { IfErr result (λ e. e.0 ≢ Disk → Untouched D.content D.image D.moment D.image_since disk e.1) }
        ensures failed { IfErr result (λ e. Untouched D.content D.image D.moment D.image_since disk e.1 ⊎ ((c : List ℕ) → D.image e.1 c → IsFresh site.now c)) }
        ensures any_moment { IfOk result (λ j. LeavesOnly D.moment D.image_since disk j.disk (λ c. D.image disk c ⊎ IsFresh site.now c)) }
        ensures any_moment_err { IfErr result (λ e. LeavesOnly D.moment D.image_since disk e.1 (λ c. D.image disk c ⊎ IsFresh site.now c)) }
        ensures first_write { IfOk result (λ j. UntouchedUntil D.content D.image D.moment D.image_since (IsFresh site.now) disk j.disk) }
        ensures first_write_err { IfErr result (λ e. Untouched D.content D.image D.moment D.image_since disk e.1 ⊎ UntouchedUntil D.content D.image D.moment D.image_since (IsFresh site.now) disk e.1) }
        ensures kept { IfOk result (λ j. D.disk_faults j.disk ≡ D.disk_faults disk) }
        ensures cause { IfErr result (λ e. HasCauseIf (is_fault_of_disk e.0) (D.disk_faults disk) (D.disk_faults e.1)) }
    {
        let mut disk = disk;
        let body = match header_bytes(alloc, site) {
            Ok(body) => body,
            Err(_) => return Err((JournalFault::Memory, disk)),
        };
        if let Err(fault) = shut_front(&mut disk) {
            return Err((fault, disk));
        }
        match write_header(&mut disk, &body) {
            Ok(()) => Ok(Journal {
                disk,
                end: body.len() as u64,
                pending: None,
            }),
            Err(fault) => Err((fault, disk)),
        }
    }
}
