//! Reading the header and the records, one after the other.
ghost use Rattle.std.specs.Prelude.{◌≡◌, ◌⊎◌, ◌+◌, ◌<◌, ◌≤◌, ◌↔◌, ◌∷◌, List, ℕ, None, length, take, drop, codes, IfOk, IfErr, IfSome, IsErrOf, IsTrue};
ghost use Rattle.outside.specs.Causes.{HasCauseIf};
ghost use Rattle.outside.specs.Disks.{Tells};
ghost use Rattle.gate_journal.specs.Gates.{IsShut};
ghost use Rattle.gate_journal.specs.Grammar.{block, header, IsShort, IsBroken};
ghost use Rattle.gate_journal.specs.Readings.{Untouched, is_disk_fault, BeginsWith, FoundRecords, BrokenAt, NoHeader};
ghost use Rattle.gate_journal.specs.declared.fault.JournalFault.TheVariants.{Disk, Memory, BadRecord};

use crate::fault::JournalFault;
use crate::payload::Payload;
use crate::payloads::Payloads;
use crate::reader::Reader;
use outside::{Bytes, Disk};
use std::alloc::Global;

/// What stands behind the header's gate.
pub(crate) const NAME: [u8; 8] = *b"PACKSITE";

fn is_name(word: &[u8]) -> bool
    ensures { IsTrue result ↔ (word.now ≡ codes "PACKSITE") }
{
    word == NAME.as_slice()
}

impl<D: Disk> Reader<D> {
    /// The site of the header that stands behind its gate, or nothing where none stands there.
    pub(crate) fn header(&mut self, alloc: Global) -> Result<Option<Bytes>, JournalFault>
        requires { 0 < self.old.size }
        ensures some { IfOk result (λ o. IfSome o (λ v. IsShort v × (13 + length v ≤ self.old.size) × Tells (D.content self.old.disk) (λ c. BeginsWith (header v) (drop 1 c)))) }
        ensures none { IfOk result (λ o. o ≡ None → Tells (D.content self.old.disk) (λ c. NoHeader (drop 1 c))) }
        ensures size { self.new.size ≡ self.old.size }
        ensures fault { IfErr result (λ e. (e ≡ Disk) ⊎ (e ≡ Memory)) }
        ensures untouched { Untouched D.content D.image D.moment D.image_since self.old.disk self.new.disk }
        ensures cause { HasCauseIf (is_disk_fault result) (D.disk_faults self.old.disk) (D.disk_faults self.new.disk) }
    {
        if self.size < 9 {
            return Ok(None);
        }
        match self.name() {
            Ok(true) => {}
            Ok(false) => return Ok(None),
            Err(fault) => return Err(fault),
        }
        match self.block(alloc, 9) {
            Ok(Some(site)) => Ok(Some(site)),
            Ok(None) => Ok(None),
            Err(fault) => Err(fault),
        }
    }

    // Whether the name stands behind the first gate.
    fn name(&mut self) -> Result<bool, JournalFault>
        requires { 9 ≤ self.old.size }
        ensures name { IfOk result (λ is. Tells (D.content self.old.disk) (λ c. IsTrue is ↔ (take 8 (drop 1 c) ≡ codes "PACKSITE"))) }
        ensures size { self.new.size ≡ self.old.size }
        ensures fault { IfErr result (λ e. (e ≡ Disk) ⊎ (e ≡ Memory)) }
        ensures untouched { Untouched D.content D.image D.moment D.image_since self.old.disk self.new.disk }
        ensures cause { HasCauseIf (is_disk_fault result) (D.disk_faults self.old.disk) (D.disk_faults self.new.disk) }
    {
        if let Err(fault) = self.reach(1, 8) {
            return Err(fault);
        }
        Ok(is_name(self.part(1, 8)))
    }

    // The payload behind an open gate at a place, or nothing where the gate is closed.
    fn record(&mut self, alloc: Global, at: u64) -> Result<Option<Bytes>, JournalFault>
        requires { at ≤ self.old.size }
        ensures some { IfOk result (λ o. IfSome o (λ v. IsShort v × (at + 5 + length v ≤ self.old.size) × Tells (D.content self.old.disk) (λ c. BeginsWith (1 ∷ block v) (drop at c)))) }
        ensures none { IfOk result (λ o. o ≡ None → (at < self.old.size) × Tells (D.content self.old.disk) (λ c. IsShut (drop at c))) }
        ensures bad { (place : ℕ) → IsErrOf result (BadRecord place) → (place ≡ at) × Tells (D.content self.old.disk) (λ c. IsBroken (drop at c)) }
        ensures size { self.new.size ≡ self.old.size }
        ensures fault { IfErr result (λ e. (e ≡ Disk) ⊎ (e ≡ Memory) ⊎ (e ≡ BadRecord at)) }
        ensures untouched { Untouched D.content D.image D.moment D.image_since self.old.disk self.new.disk }
        ensures cause { HasCauseIf (is_disk_fault result) (D.disk_faults self.old.disk) (D.disk_faults self.new.disk) }
    {
        if at >= self.size {
            return Err(JournalFault::BadRecord(at));
        }
        let gate = match self.byte(at) {
            Ok(gate) => gate,
            Err(fault) => return Err(fault),
        };
        if gate != 1 {
            return Ok(None);
        }
        match self.block(alloc, at + 1) {
            Ok(Some(bytes)) => Ok(Some(bytes)),
            Ok(None) => Err(JournalFault::BadRecord(at)),
            Err(fault) => Err(fault),
        }
    }

    /// The records from one place on, and the place of the closed gate behind them.
    pub(crate) fn records(
        &mut self,
        alloc: Global,
        start: u64,
    ) -> Result<(Payloads, u64), JournalFault>
        requires { start ≤ self.old.size }
        ensures found { IfOk result (λ r. FoundRecords (D.content self.old.disk) start r.1 self.old.size r.0) }
        ensures bad { (place : ℕ) → IsErrOf result (BadRecord place) → Tells (D.content self.old.disk) (BrokenAt start place) }
        ensures size { self.new.size ≡ self.old.size }
        ensures fault { IfErr result (λ e. (e ≡ Disk) ⊎ (e ≡ Memory) ⊎ ((place : ℕ) × (e ≡ BadRecord place))) }
        ensures untouched { Untouched D.content D.image D.moment D.image_since self.old.disk self.new.disk }
        ensures cause { HasCauseIf (is_disk_fault result) (D.disk_faults self.old.disk) (D.disk_faults self.new.disk) }
    {
        let mut payloads = Payloads::new(alloc);
        let mut at = start;
        'records: loop {
            match self.record(alloc, at) {
                Ok(Some(bytes)) => {
                    let next = at + 5 + bytes.len() as u64;
                    let Ok(()) = payloads.push(Payload { at, bytes }) else {
                        return Err(JournalFault::Memory);
                    };
                    at = next;
                }
                Ok(None) => return Ok((payloads, at)),
                Err(fault) => return Err(fault),
            }
        }
    }
}
