//! Reading what stands at a place of the disk, in pieces of at most 65,536 bytes.
ghost use Rattle.std.specs.Prelude.{◌≡◌, ◌⊎◌, ◌+◌, ◌-◌, ◌<◌, ◌≤◌, ◌^◌, ◌∷◌, ◌++◌, [], List, ℕ, length, take, drop, IfOk, IfErr, IfSome, OnOk, OnErr, None};
ghost use Rattle.std.specs.Int.{to_be_bytes, w32};
ghost use Rattle.outside.specs.Causes.{HasCauseIf};
ghost use Rattle.outside.specs.Disks.{Tells};
ghost use Rattle.gate_journal.specs.Grammar.{block, IsShort};
ghost use Rattle.gate_journal.specs.Readings.{Untouched, is_disk_fault, NoBlock, BeginsWith};
ghost use Rattle.gate_journal.specs.declared.fault.JournalFault.TheVariants.{Disk, Memory};

use crate::fault::JournalFault;
use crate::reader::Reader;
use outside::{Bytes, Disk};
use std::alloc::Global;

/// No more bytes are read at once.
const PIECE: u64 = 65_536;

// Reads the bytes at a place in place of those that were there.
fn refill<D: Disk>(
    disk: &mut D,
    at: u64,
    bytes: &mut Vec<u8>,
    count: usize,
) -> Result<(), JournalFault>
    requires there { Tells (D.content disk.old) (λ c. at + count ≤ length c) }
    requires short { count ≤ 65536 }
    ensures read { OnOk result (Tells (D.content disk.old) (λ c. bytes.new.items ≡ take count (drop at c))) }
    ensures length { OnOk result (length bytes.new.items ≡ count) }
    ensures empty { OnErr result (bytes.new.items ≡ []) }
    ensures fault { IfErr result (λ e. (e ≡ Disk) ⊎ (e ≡ Memory)) }
    ensures untouched { Untouched D.content D.image D.moment D.image_since disk.old disk.new }
    ensures cause { HasCauseIf (is_disk_fault result) (D.disk_faults disk.old) (D.disk_faults disk.new) }
{
    bytes.clear();
    let Ok(()) = bytes.resize(count, 0) else {
        bytes.clear();
        return Err(JournalFault::Memory);
    };
    match disk.read_at(at, bytes) {
        Ok(()) => Ok(()),
        Err(_) => {
            bytes.clear();
            Err(JournalFault::Disk)
        }
    }
}

// The number that four bytes spell.
fn word_of(word: &[u8]) -> u32
    requires { length word.now ≡ 4 }
    ensures { to_be_bytes w32 result ≡ word.now }
{
    u32::from_be_bytes([word[0], word[1], word[2], word[3]])
}

impl<D: Disk> Reader<D> {
    /// A disk of this size, of which nothing was read.
    pub(crate) fn new(alloc: Global, disk: D, size: u64) -> Self
        requires { Tells (D.content disk) (λ c. size ≡ length c) }
        ensures disk { result.disk ≡ disk }
        ensures size { result.size ≡ size }
    {
        Reader {
            disk,
            size,
            at: 0,
            bytes: Vec::new(alloc),
        }
    }

    /// The disk.
    pub(crate) fn into_disk(self) -> D
        ensures { result ≡ self.disk }
    {
        self.disk
    }

    // Has so many bytes at a place in the window: where they aren't in it, it is read anew from that place on.
    pub(crate) fn reach(&mut self, at: u64, count: u64) -> Result<(), JournalFault>
        requires there { at + count ≤ self.old.size }
        requires short { count ≤ 65536 }
        ensures reached { OnOk result ((self.new.at ≤ at) × (at + count ≤ self.new.at + length self.new.bytes.items)) }
        ensures size { self.new.size ≡ self.old.size }
        ensures fault { IfErr result (λ e. (e ≡ Disk) ⊎ (e ≡ Memory)) }
        ensures untouched { Untouched D.content D.image D.moment D.image_since self.old.disk self.new.disk }
        ensures cause { HasCauseIf (is_disk_fault result) (D.disk_faults self.old.disk) (D.disk_faults self.new.disk) }
    {
        if self.at <= at && at + count <= self.at + self.bytes.len() as u64 {
            return Ok(());
        }
        let count = PIECE.min(self.size - at) as usize;
        self.at = at;
        refill(&mut self.disk, at, &mut self.bytes, count)
    }

    // So many bytes at a place, which are in the window.
    pub(crate) fn part(&self, at: u64, count: u64) -> &[u8]
        requires begun { self.now.at ≤ at }
        requires reached { at + count ≤ self.now.at + length self.now.bytes.items }
        ensures part { Tells (D.content self.now.disk) (λ c. result.now ≡ take count (drop at c)) }
        ensures length { length result.now ≡ count }
    {
        let from = (at - self.at) as usize;
        &self.bytes[from..from + count as usize]
    }

    /// The byte at a place.
    pub(crate) fn byte(&mut self, at: u64) -> Result<u8, JournalFault>
        requires { at < self.old.size }
        ensures read { IfOk result (λ n. Tells (D.content self.old.disk) (λ c. drop at c ≡ n ∷ drop (at + 1) c)) }
        ensures size { self.new.size ≡ self.old.size }
        ensures fault { IfErr result (λ e. (e ≡ Disk) ⊎ (e ≡ Memory)) }
        ensures untouched { Untouched D.content D.image D.moment D.image_since self.old.disk self.new.disk }
        ensures cause { HasCauseIf (is_disk_fault result) (D.disk_faults self.old.disk) (D.disk_faults self.new.disk) }
    {
        if let Err(fault) = self.reach(at, 1) {
            return Err(fault);
        }
        Ok(self.part(at, 1)[0])
    }

    /// The number that four bytes at a place spell.
    fn word(&mut self, at: u64) -> Result<u32, JournalFault>
        requires { at + 4 ≤ self.old.size }
        ensures read { IfOk result (λ n. Tells (D.content self.old.disk) (λ c. to_be_bytes w32 n ≡ take 4 (drop at c))) }
        ensures bound { IfOk result (λ n. n < 2 ^ 32) }
        ensures size { self.new.size ≡ self.old.size }
        ensures fault { IfErr result (λ e. (e ≡ Disk) ⊎ (e ≡ Memory)) }
        ensures untouched { Untouched D.content D.image D.moment D.image_since self.old.disk self.new.disk }
        ensures cause { HasCauseIf (is_disk_fault result) (D.disk_faults self.old.disk) (D.disk_faults self.new.disk) }
    {
        if let Err(fault) = self.reach(at, 4) {
            return Err(fault);
        }
        Ok(word_of(self.part(at, 4)))
    }

    // Adds so many bytes at a place to those that were read.
    fn more(&mut self, at: u64, count: u64, bytes: &mut Vec<u8>) -> Result<(), JournalFault>
        requires there { at + count ≤ self.old.size }
        requires short { count ≤ 65536 }
        ensures read { OnOk result (Tells (D.content self.old.disk) (λ c. bytes.new.items ≡ bytes.old.items ++ take count (drop at c))) }
        ensures length { OnOk result (length bytes.new.items ≡ length bytes.old.items + count) }
        ensures size { self.new.size ≡ self.old.size }
        ensures fault { IfErr result (λ e. (e ≡ Disk) ⊎ (e ≡ Memory)) }
        ensures untouched { Untouched D.content D.image D.moment D.image_since self.old.disk self.new.disk }
        ensures cause { HasCauseIf (is_disk_fault result) (D.disk_faults self.old.disk) (D.disk_faults self.new.disk) }
    {
        if let Err(fault) = self.reach(at, count) {
            return Err(fault);
        }
        match bytes.extend_from_slice(self.part(at, count)) {
            Ok(()) => Ok(()),
            Err(_) => Err(JournalFault::Memory),
        }
    }

    // So many bytes at a place, which are there.
    fn bytes(&mut self, alloc: Global, at: u64, count: u32) -> Result<Vec<u8>, JournalFault>
        requires { at + count ≤ self.old.size }
        ensures read { IfOk result (λ v. Tells (D.content self.old.disk) (λ c. v.items ≡ take count (drop at c))) }
        ensures length { IfOk result (λ v. length v.items ≡ count) }
        ensures size { self.new.size ≡ self.old.size }
        ensures fault { IfErr result (λ e. (e ≡ Disk) ⊎ (e ≡ Memory)) }
        ensures untouched { Untouched D.content D.image D.moment D.image_since self.old.disk self.new.disk }
        ensures cause { HasCauseIf (is_disk_fault result) (D.disk_faults self.old.disk) (D.disk_faults self.new.disk) }
    {
        let Ok(mut bytes) = Vec::with_capacity(alloc, count as usize) else {
            return Err(JournalFault::Memory);
        };
        while bytes.len() < count as usize {
            let done = bytes.len() as u64;
            let piece = PIECE.min(count as u64 - done);
            if let Err(fault) = self.more(at + done, piece, &mut bytes) {
                return Err(fault);
            }
        }
        Ok(bytes)
    }

    /// The bytes behind their length at a place, or nothing where no length with so many bytes stands there. A length
    /// is compared with the size before room is asked for.
    pub(crate) fn block(&mut self, alloc: Global, at: u64) -> Result<Option<Bytes>, JournalFault>
        requires { at ≤ self.old.size }
        ensures some { IfOk result (λ o. IfSome o (λ v. IsShort v × (at + 4 + length v ≤ self.old.size) × Tells (D.content self.old.disk) (λ c. BeginsWith (block v) (drop at c)))) }
        ensures none { IfOk result (λ o. o ≡ None → Tells (D.content self.old.disk) (λ c. NoBlock (drop at c))) }
        ensures size { self.new.size ≡ self.old.size }
        ensures fault { IfErr result (λ e. (e ≡ Disk) ⊎ (e ≡ Memory)) }
        ensures untouched { Untouched D.content D.image D.moment D.image_since self.old.disk self.new.disk }
        ensures cause { HasCauseIf (is_disk_fault result) (D.disk_faults self.old.disk) (D.disk_faults self.new.disk) }
    {
        if self.size - at < 4 {
            return Ok(None);
        }
        let count = match self.word(at) {
            Ok(count) => count,
            Err(fault) => return Err(fault),
        };
        if self.size - at - 4 < count as u64 {
            return Ok(None);
        }
        match self.bytes(alloc, at + 4, count) {
            Ok(bytes) => Ok(Some(Bytes::from(bytes))),
            Err(fault) => Err(fault),
        }
    }
}
