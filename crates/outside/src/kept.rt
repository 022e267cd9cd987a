//! The bytes of a disk in memory, with its images now and before.
ghost use Rattle.std.specs.Prelude.{◌≡◌, ◌⊎◌, ◌+◌, ◌≤◌, [], ◌∷◌, length, take, drop, Some, None, IfOk, OnOk, OnErr};
ghost use Rattle.std.specs.Bool.{OnTrue, OnFalse};
ghost use Rattle.outside.specs.Disks.{overwritten, Torn, Follows, LeadsTo, SameImages};
ghost use Rattle.outside.specs.MemoryDisks.{IsImage, SameUnsynced, Names, Remembers, GoesOn, LeadsBack, KeepsSync, undone, all_undone, at_last_sync};

use crate::named::{Named, Past, Unsynced};
use std::alloc::{AllocError, Global};
use std::snapshot::Snapshot;

/// The bytes of a disk in memory, the writes since the last sync with what each covered, and each moment before.
#[derive(Drop)]
pub(crate) struct Kept {
    pub(crate) alloc: Global,
    pub(crate) bytes: Vec<u8>,
    pub(crate) unsynced: Option<Unsynced>,
    pub(crate) past: Vec<Past>,
    ghost leads_back: { LeadsBack bytes.items unsynced },
}

// Keeps this moment.
fn remember(
    past: &mut Vec<Past>,
    bytes: &Vec<u8>,
    unsynced: &Option<Unsynced>,
) -> Result<(), AllocError>
    ensures ok { OnOk result (Remembers past.old.items past.new.items bytes.now.items unsynced.now) }
    ensures err { OnErr result (past.new.items ≡ past.old.items) }
{
    past.push(Past {
        bytes: Snapshot::of(bytes),
        unsynced: Snapshot::of(unsynced),
    })?;
    Ok(())
}

// The range of a write that finds these bytes, and what it covers of them.
fn range_of(alloc: Global, bytes: &Vec<u8>, at: u64, len: usize) -> Result<Named, AllocError>
    requires { at ≤ length bytes.now.items }
    ensures range { IfOk result (λ w. (w.at ≡ at) × (w.len ≡ len)) }
    ensures found { IfOk result (λ w. w.found.value.items ≡ bytes.now.items) }
    ensures covered { IfOk result (λ w. w.covered.items ≡ take len (drop at bytes.now.items)) }
    ensures size { IfOk result (λ w. w.size ≡ length bytes.now.items) }
{
    let rest = &bytes[at as usize..];
    Ok(Named {
        at,
        len,
        found: Snapshot::of(bytes),
        covered: rest[..len.min(rest.len())].to_vec(alloc)?,
        size: bytes.len(),
    })
}

// Names a range that is written.
fn name_range(
    alloc: Global,
    bytes: &Vec<u8>,
    unsynced: &mut Option<Unsynced>,
    at: u64,
    len: usize,
) -> Result<(), AllocError>
    requires there { at ≤ length bytes.now.items }
    requires back { LeadsBack bytes.now.items unsynced.old }
    ensures ok { OnOk result (Names at len bytes.now.items unsynced.old unsynced.new) }
    ensures err { OnErr result (SameUnsynced unsynced.old unsynced.new) }
    ensures sync { OnOk result (KeepsSync at len bytes.now.items unsynced.old unsynced.new) }
    ensures sync_err { OnErr result (LeadsBack bytes.now.items unsynced.new × (at_last_sync bytes.now.items unsynced.new ≡ at_last_sync bytes.now.items unsynced.old)) }
{
    let range = range_of(alloc, bytes, at, len)?;
    match unsynced {
        Some(before) => before.writes.push(range)?,
        None => *unsynced = Some(first_range(alloc, bytes, range)?),
    }
    Ok(())
}

fn first_range(alloc: Global, bytes: &Vec<u8>, range: Named) -> Result<Unsynced, AllocError>
    ensures { IfOk result (λ u. (u.synced.value.items ≡ bytes.now.items) × (u.writes.items ≡ range ∷ [])) }
{
    let mut writes = Vec::new(alloc);
    writes.push(range)?;
    Ok(Unsynced {
        synced: Snapshot::of(bytes),
        writes,
    })
}

// Puts back what a write covered.
fn undo(bytes: &mut Vec<u8>, write: &Named)
    requires { write.now.at + length write.now.covered.items ≤ length bytes.old.items }
    ensures { undone write.now bytes.old.items ≡ Some bytes.new.items }
{
    let at = write.at as usize;
    bytes[at..at + write.covered.len()].copy_from_slice(&write.covered);
    bytes.truncate(write.size);
}

// Puts back what each write covered, the last one first.
fn undo_all(bytes: &mut Vec<u8>, unsynced: Unsynced)
    requires { all_undone unsynced.writes.items bytes.old.items ≡ Some unsynced.synced.value.items }
    ensures { bytes.new.items ≡ unsynced.synced.value.items }
{
    let Unsynced {
        synced: _,
        mut writes,
    } = unsynced;
    'writes: while let Some(write) = writes.pop() {
        undo(bytes, &write);
    }
}

// Writes over what is there, and past the end.
fn overwrite(bytes: &mut Vec<u8>, at: usize, piece: &[u8]) -> Result<(), AllocError>
    requires { at ≤ length bytes.old.items }
    ensures ok { OnOk result (bytes.new.items ≡ overwritten at piece.now bytes.old.items) }
    ensures err { OnErr result (bytes.new.items ≡ bytes.old.items) }
{
    let inside = piece.len().min(bytes.len() - at);
    bytes.extend_from_slice(&piece[inside..])?;
    bytes[at..at + inside].copy_from_slice(&piece[..inside]);
    Ok(())
}

impl Kept {
    /// These bytes, all of them synced.
    pub(crate) fn new(alloc: Global, bytes: Vec<u8>) -> Self
        ensures bytes { result.bytes.items ≡ bytes.items }
        ensures synced { result.unsynced ≡ None }
    {
        Kept {
            alloc,
            bytes,
            unsynced: None,
            past: Vec::new(alloc),
        }
    }

    /// The range may hold any bytes from now on, if memory is found to say so.
    pub(crate) fn name(&mut self, at: u64, len: usize) -> Result<(), AllocError>
        requires { at ≤ length self.old.bytes.items }
        ensures bytes { self.new.bytes.items ≡ self.old.bytes.items }
        ensures ok { OnOk result (Names at len self.old.bytes.items self.old.unsynced self.new.unsynced) }
        ensures err { OnErr result (SameUnsynced self.old.unsynced self.new.unsynced) }
        ensures any_bytes { OnOk result (LeadsTo (Torn at len) (IsImage self.old.bytes.items self.old.unsynced) (IsImage self.new.bytes.items self.new.unsynced)) }
        ensures none { OnErr result (SameImages (IsImage self.old.bytes.items self.old.unsynced) (IsImage self.new.bytes.items self.new.unsynced)) }
        ensures past { OnOk result (Remembers self.old.past.items self.new.past.items self.old.bytes.items self.old.unsynced) }
        ensures time { GoesOn self.old.past.items self.old.bytes.items self.old.unsynced self.new.past.items self.new.bytes.items self.new.unsynced }
        ensures sync { OnOk result (KeepsSync at len self.old.bytes.items self.old.unsynced self.new.unsynced) }
        ensures same_sync { at_last_sync self.new.bytes.items self.new.unsynced ≡ at_last_sync self.old.bytes.items self.old.unsynced }
    {
        remember(&mut self.past, &self.bytes, &self.unsynced)?;
        name_range(self.alloc, &self.bytes, &mut self.unsynced, at, len)
    }

    /// Writes the piece there, and past the end. The range may hold any bytes from now on.
    pub(crate) fn write(&mut self, at: u64, piece: &[u8]) -> Result<(), AllocError>
        requires { at ≤ length self.old.bytes.items }
        ensures ok { OnOk result (self.new.bytes.items ≡ overwritten at piece.now self.old.bytes.items) }
        ensures err { OnErr result (self.new.bytes.items ≡ self.old.bytes.items) }
        ensures images { Follows (Torn at (length piece.now)) (IsImage self.old.bytes.items self.old.unsynced) (IsImage self.new.bytes.items self.new.unsynced) }
        ensures any_bytes { OnOk result (LeadsTo (Torn at (length piece.now)) (IsImage self.old.bytes.items self.old.unsynced) (IsImage self.new.bytes.items self.new.unsynced)) }
        ensures any_bytes_or_none { OnErr result (LeadsTo (Torn at (length piece.now)) (IsImage self.old.bytes.items self.old.unsynced) (IsImage self.new.bytes.items self.new.unsynced) ⊎ SameImages (IsImage self.old.bytes.items self.old.unsynced) (IsImage self.new.bytes.items self.new.unsynced)) }
        ensures time { GoesOn self.old.past.items self.old.bytes.items self.old.unsynced self.new.past.items self.new.bytes.items self.new.unsynced }
        ensures same_sync { at_last_sync self.new.bytes.items self.new.unsynced ≡ at_last_sync self.old.bytes.items self.old.unsynced }
    {
        self.name(at, piece.len())?;
        overwrite(&mut self.bytes, at as usize, piece)
    }

    /// All that was written is synced, if memory is found to remember this moment.
    pub(crate) fn sync(&mut self) -> Result<(), AllocError>
        ensures bytes { self.new.bytes.items ≡ self.old.bytes.items }
        ensures ok { OnOk result (self.new.unsynced ≡ None) }
        ensures err { OnErr result (self.new.unsynced ≡ self.old.unsynced) }
        ensures time { GoesOn self.old.past.items self.old.bytes.items self.old.unsynced self.new.past.items self.new.bytes.items self.new.unsynced }
    {
        remember(&mut self.past, &self.bytes, &self.unsynced)?;
        self.unsynced = None;
        Ok(())
    }

    /// The content, or with `synced` the content as it was at the last sync.
    pub(crate) fn image(self, synced: bool) -> Vec<u8>
        ensures image { IsImage self.bytes.items self.unsynced result.items }
        ensures content { OnFalse synced (result.items ≡ self.bytes.items) }
        ensures synced { OnTrue synced (result.items ≡ at_last_sync self.bytes.items self.unsynced) }
    {
        let Kept {
            alloc: _,
            mut bytes,
            unsynced,
            past: _,
        } = self;
        match unsynced {
            Some(unsynced) if synced => {
                undo_all(&mut bytes, unsynced);
                bytes
            }
            _ => bytes,
        }
    }
}
