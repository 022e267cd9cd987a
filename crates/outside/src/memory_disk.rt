//! A disk in memory, which tells its content and fails at the calls that it is told.
ghost use Rattle.std.specs.Prelude.{◌≡◌, ◌⊎◌, ◌+◌, ◌≤◌, ◌↔◌, ℕ, List, length, take, drop, Some, IfOk, OnOk, OnErr, IsErr};
ghost use Rattle.std.proofs.Common.{inl};
ghost use Rattle.std.specs.Bool.{OnTrue, OnFalse};
ghost use Rattle.outside.specs.Causes.{HasCause, RoseBy};
ghost use Rattle.outside.specs.Disks.{Tells, Together, overwritten, Torn, Follows, LeadsTo, Only, SameImages, NoMoreImages, Elapses, one_call_more};
ghost use Rattle.outside.specs.Failing.{told, IsListed, IsCalled};
ghost use Rattle.outside.specs.MemoryDisks.{IsImage, SinceThen, at_last_sync, only_image, content_image};

use crate::failures::Failures;
use crate::kept::Kept;
use crate::{Disk, Failed};
use std::alloc::Global;

/// Bytes in memory as a disk. Beside the content it keeps the ranges that writes named since the last sync, each with
/// the bytes that the write covered, and remembers each moment before.
#[derive(Drop)]
pub struct MemoryDisk {
    kept: Kept,
    failures: Failures,
}

impl MemoryDisk {
    /// A disk with these bytes, all of them synced, whose calls of these numbers, from 1, fail.
    pub fn new(alloc: Global, bytes: Vec<u8>, failing: Vec<u64>) -> Self
        ensures content { ⟦<MemoryDisk as Disk>⟧.content result ≡ Some bytes.items }
        ensures synced { (c : List ℕ) → ⟦<MemoryDisk as Disk>⟧.image result c → c ≡ bytes.items }
        ensures faults { ⟦<MemoryDisk as Disk>⟧.disk_faults result ≡ 0 }
        ensures at_last_sync { at_last_sync result.kept.bytes.items result.kept.unsynced ≡ bytes.items }
        ensures calls { ⟦<MemoryDisk as Disk>⟧.disk_calls result ≡ Some 0 }
        ensures failing { result.failures ≡ told failing.items }
    {
        MemoryDisk {
            kept: Kept::new(alloc, bytes),
            failures: Failures::new(failing),
        }
    }

    /// The content, or with `synced` the content as it was at the last sync that succeeded, at the start where there
    /// was none. A crash may leave either. It takes no memory.
    pub fn image(self, synced: bool) -> Vec<u8>
        ensures image { ⟦<MemoryDisk as Disk>⟧.image self result.items }
        ensures content { OnFalse synced (⟦<MemoryDisk as Disk>⟧.content self ≡ Some result.items) }
        ensures synced { OnTrue synced (result.items ≡ at_last_sync self.kept.bytes.items self.kept.unsynced) }
    {
        let MemoryDisk { kept, failures: _ } = self;
        kept.image(synced)
    }
}

impl Disk for MemoryDisk {
    ghost content = { λ d. Some d.kept.bytes.items };

    ghost image = { λ d. IsImage d.kept.bytes.items d.kept.unsynced };

    ghost moment = { λ d. length d.kept.past.items };

    ghost image_since = { λ d. SinceThen d.kept.past.items d.kept.bytes.items d.kept.unsynced };

    ghost disk_faults = { λ d. d.failures.failed };

    ghost disk_calls = { λ d. Some d.failures.made };

    ghost as_read = { λ d c told. content_image d.kept.bytes.items d.kept.unsynced c told };

    ghost counts_now = { λ d t c le now. inl now };

    ghost only_now = { λ d c since. only_image d.kept.past.items d.kept.bytes.items d.kept.unsynced c since };

    /// It fails exactly where the number of the call is listed.
    fn size(&mut self) -> Result<u64, Failed>
        ensures size { IfOk result (λ n. Tells (⟦<MemoryDisk as Disk>⟧.content self.old) (λ c. n ≡ length c)) }
        ensures content { ⟦<MemoryDisk as Disk>⟧.content self.new ≡ ⟦<MemoryDisk as Disk>⟧.content self.old }
        ensures images { SameImages (⟦<MemoryDisk as Disk>⟧.image self.old) (⟦<MemoryDisk as Disk>⟧.image self.new) }
        ensures time { Elapses (⟦<MemoryDisk as Disk>⟧.moment self.old) (⟦<MemoryDisk as Disk>⟧.moment self.new) (⟦<MemoryDisk as Disk>⟧.image_since self.old) (⟦<MemoryDisk as Disk>⟧.image_since self.new) (⟦<MemoryDisk as Disk>⟧.image self.new) }
        ensures cause { HasCause (⟦<MemoryDisk as Disk>⟧.disk_faults self.old) (⟦<MemoryDisk as Disk>⟧.disk_faults self.new) result }
        ensures counted { ⟦<MemoryDisk as Disk>⟧.disk_calls self.new ≡ one_call_more (⟦<MemoryDisk as Disk>⟧.disk_calls self.old) }
        ensures called { IsCalled self.old.failures self.new.failures }
        ensures failing { IsErr result ↔ IsListed self.old.failures }
    {
        if self.failures.next_fails() {
            return Err(Failed);
        }
        Ok(self.kept.bytes.len() as u64)
    }

    /// It fails exactly where the number of the call is listed.
    fn read_at(&mut self, at: u64, piece: &mut [u8]) -> Result<(), Failed>
        requires { Tells (⟦<MemoryDisk as Disk>⟧.content self.old) (λ c. at + length piece.old ≤ length c) }
        ensures read { OnOk result (Tells (⟦<MemoryDisk as Disk>⟧.content self.old) (λ c. piece.new ≡ take (length piece.old) (drop at c))) }
        ensures content { ⟦<MemoryDisk as Disk>⟧.content self.new ≡ ⟦<MemoryDisk as Disk>⟧.content self.old }
        ensures images { SameImages (⟦<MemoryDisk as Disk>⟧.image self.old) (⟦<MemoryDisk as Disk>⟧.image self.new) }
        ensures time { Elapses (⟦<MemoryDisk as Disk>⟧.moment self.old) (⟦<MemoryDisk as Disk>⟧.moment self.new) (⟦<MemoryDisk as Disk>⟧.image_since self.old) (⟦<MemoryDisk as Disk>⟧.image_since self.new) (⟦<MemoryDisk as Disk>⟧.image self.new) }
        ensures cause { HasCause (⟦<MemoryDisk as Disk>⟧.disk_faults self.old) (⟦<MemoryDisk as Disk>⟧.disk_faults self.new) result }
        ensures counted { ⟦<MemoryDisk as Disk>⟧.disk_calls self.new ≡ one_call_more (⟦<MemoryDisk as Disk>⟧.disk_calls self.old) }
        ensures called { IsCalled self.old.failures self.new.failures }
        ensures failing { IsErr result ↔ IsListed self.old.failures }
    {
        if self.failures.next_fails() {
            return Err(Failed);
        }
        let at = at as usize;
        piece.copy_from_slice(&self.kept.bytes[at..at + piece.len()]);
        Ok(())
    }

    /// It fails where the number of the call is listed, and for want of memory. Then the content is as before. A call
    /// that is listed names its range, or counts a second fault where it finds no memory for that.
    fn write_at(&mut self, at: u64, piece: &[u8]) -> Result<(), Failed>
        requires { Tells (⟦<MemoryDisk as Disk>⟧.content self.old) (λ c. at ≤ length c) }
        ensures written { OnOk result (Together (λ old new. new ≡ overwritten at piece.now old) (⟦<MemoryDisk as Disk>⟧.content self.old) (⟦<MemoryDisk as Disk>⟧.content self.new)) }
        ensures torn { OnErr result (Together (Torn at (length piece.now)) (⟦<MemoryDisk as Disk>⟧.content self.old) (⟦<MemoryDisk as Disk>⟧.content self.new)) }
        ensures images { Follows (Torn at (length piece.now)) (⟦<MemoryDisk as Disk>⟧.image self.old) (⟦<MemoryDisk as Disk>⟧.image self.new) }
        ensures any_bytes { OnOk result (LeadsTo (Torn at (length piece.now)) (⟦<MemoryDisk as Disk>⟧.image self.old) (⟦<MemoryDisk as Disk>⟧.image self.new)) }
        ensures any_bytes_or_none { OnErr result (LeadsTo (Torn at (length piece.now)) (⟦<MemoryDisk as Disk>⟧.image self.old) (⟦<MemoryDisk as Disk>⟧.image self.new) ⊎ SameImages (⟦<MemoryDisk as Disk>⟧.image self.old) (⟦<MemoryDisk as Disk>⟧.image self.new)) }
        ensures time { Elapses (⟦<MemoryDisk as Disk>⟧.moment self.old) (⟦<MemoryDisk as Disk>⟧.moment self.new) (⟦<MemoryDisk as Disk>⟧.image_since self.old) (⟦<MemoryDisk as Disk>⟧.image_since self.new) (⟦<MemoryDisk as Disk>⟧.image self.new) }
        ensures cause { HasCause (⟦<MemoryDisk as Disk>⟧.disk_faults self.old) (⟦<MemoryDisk as Disk>⟧.disk_faults self.new) result }
        ensures counted { ⟦<MemoryDisk as Disk>⟧.disk_calls self.new ≡ one_call_more (⟦<MemoryDisk as Disk>⟧.disk_calls self.old) }
        ensures called { IsCalled self.old.failures self.new.failures }
        ensures failing { IsListed self.old.failures → IsErr result }
        ensures named { IsListed self.old.failures → LeadsTo (Torn at (length piece.now)) (⟦<MemoryDisk as Disk>⟧.image self.old) (⟦<MemoryDisk as Disk>⟧.image self.new) ⊎ RoseBy 2 (⟦<MemoryDisk as Disk>⟧.disk_faults self.old) (⟦<MemoryDisk as Disk>⟧.disk_faults self.new) }
        ensures same_sync { at_last_sync self.new.kept.bytes.items self.new.kept.unsynced ≡ at_last_sync self.old.kept.bytes.items self.old.kept.unsynced }
    {
        if self.failures.next_fails() {
            if self.kept.name(at, piece.len()).is_err() {
                self.failures.fail();
            }
            return Err(Failed);
        }
        match self.kept.write(at, piece) {
            Ok(()) => Ok(()),
            Err(_) => {
                self.failures.fail();
                Err(Failed)
            }
        }
    }

    /// It fails where the number of the call is listed, and for want of memory.
    fn sync(&mut self) -> Result<(), Failed>
        ensures synced { OnOk result (Only (⟦<MemoryDisk as Disk>⟧.content self.old) (⟦<MemoryDisk as Disk>⟧.image self.new)) }
        ensures content { ⟦<MemoryDisk as Disk>⟧.content self.new ≡ ⟦<MemoryDisk as Disk>⟧.content self.old }
        ensures no_more { NoMoreImages (⟦<MemoryDisk as Disk>⟧.image self.old) (⟦<MemoryDisk as Disk>⟧.image self.new) }
        ensures images { OnErr result (SameImages (⟦<MemoryDisk as Disk>⟧.image self.old) (⟦<MemoryDisk as Disk>⟧.image self.new)) }
        ensures time { Elapses (⟦<MemoryDisk as Disk>⟧.moment self.old) (⟦<MemoryDisk as Disk>⟧.moment self.new) (⟦<MemoryDisk as Disk>⟧.image_since self.old) (⟦<MemoryDisk as Disk>⟧.image_since self.new) (⟦<MemoryDisk as Disk>⟧.image self.new) }
        ensures cause { HasCause (⟦<MemoryDisk as Disk>⟧.disk_faults self.old) (⟦<MemoryDisk as Disk>⟧.disk_faults self.new) result }
        ensures counted { ⟦<MemoryDisk as Disk>⟧.disk_calls self.new ≡ one_call_more (⟦<MemoryDisk as Disk>⟧.disk_calls self.old) }
        ensures called { IsCalled self.old.failures self.new.failures }
        ensures failing { IsListed self.old.failures → IsErr result }
        ensures synced_content { OnOk result (⟦<MemoryDisk as Disk>⟧.content self.new ≡ Some (at_last_sync self.new.kept.bytes.items self.new.kept.unsynced)) }
        ensures same_sync { OnErr result (at_last_sync self.new.kept.bytes.items self.new.kept.unsynced ≡ at_last_sync self.old.kept.bytes.items self.old.kept.unsynced) }
    {
        if self.failures.next_fails() {
            return Err(Failed);
        }
        match self.kept.sync() {
            Ok(()) => Ok(()),
            Err(_) => {
                self.failures.fail();
                Err(Failed)
            }
        }
    }
}
