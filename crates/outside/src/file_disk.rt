//! An adapter over a real file, which tells its count of faults alone: of what a file holds no proof speaks.
//!
//! A file is opened as SQLite opens one: made where it isn't there, never cut, under a lock that no other process
//! has, and read from the disk itself and not from what an earlier process left in the memory of the system.
ghost use Rattle.std.specs.Prelude.{◌≡◌, None, refl};
ghost use Rattle.outside.specs.Disks.{untold};

use crate::{Disk, Failed};
use std::fs::{File, OpenOptions};
use std::io;
use std::os::fd::AsRawFd;
use std::os::unix::fs::FileExt;
use std::rt::Files;

// The file at this path, under its lock and synced, or why not. What another process wrote and
// couldn't sync is forgotten.
fn locked<R: Files<File = File>>(files: &R, folder: &str, path: &str) -> io::Result<File> {
    let file = OpenOptions::new()
        .read(true)
        .write(true)
        .create(true)
        .open(files, path)?;
    // What is meant for a standard stream that was closed must not land in the file.
    if file.as_raw_fd() <= 2 || !file.metadata()?.is_file() {
        return Err(io::ErrorKind::Unsupported.into());
    }
    file.try_lock()?;
    file.sync_all()?;
    File::open(files, folder)?.sync_all()?;
    match libc::posix_fadvise(file.as_raw_fd(), 0, 0, libc::POSIX_FADV_DONTNEED) {
        0 => Ok(file),
        error => Err(io::Error::from_raw_os_error(error)),
    }
}

/// A file as a disk. Each of its calls is one of the file: its size, a read or write at a place, a sync of its bytes
/// and its length.
#[derive(Drop)]
pub struct FileDisk {
    file: Option<File>,
    faults: u64,
}

impl FileDisk {
    /// The file at this path, which lies in this folder. It is made empty where none is there, and never cut. This
    /// process alone has it, until it ends. Where it can't be had, as where another process has it, or isn't a plain
    /// file, the disk fails at each call.
    pub fn open<R: Files<File = File>>(files: &R, folder: &str, path: &str) -> Self
        ensures { ⟦<FileDisk as Disk>⟧.disk_faults result ≡ 0 }
    {
        FileDisk::new(locked(files, folder, path).ok())
    }

    /// A file that isn't there fails at each call.
    pub fn new(file: Option<File>) -> Self
        ensures file { result.file ≡ file }
        ensures faults { ⟦<FileDisk as Disk>⟧.disk_faults result ≡ 0 }
    {
        FileDisk { file, faults: 0 }
    }
}

impl Disk for FileDisk {
    ghost content = { λ _. None };

    ghost image = { λ _ _. ⊥ };

    ghost moment = { λ _. 0 };

    ghost image_since = { λ _ _ _. ⊥ };

    ghost disk_faults = { λ d. d.faults };

    ghost as_read = { λ _ c told. untold c told };

    ghost counts_now = { λ _ t c le now. now };

    ghost only_now = { λ _ c since. since };

    fn size(&mut self) -> Result<u64, Failed> {
        if let Some(file) = &self.file {
            if let Ok(metadata) = file.metadata() {
                return Ok(metadata.len());
            }
        }
        self.faults = self.faults.saturating_add(1);
        Err(Failed)
    }

    fn read_at(&mut self, at: u64, piece: &mut [u8]) -> Result<(), Failed> {
        if let Some(file) = &self.file {
            if file.read_exact_at(piece, at).is_ok() {
                return Ok(());
            }
        }
        self.faults = self.faults.saturating_add(1);
        Err(Failed)
    }

    fn write_at(&mut self, at: u64, piece: &[u8]) -> Result<(), Failed> {
        if let Some(file) = &self.file {
            if file.write_all_at(piece, at).is_ok() {
                return Ok(());
            }
        }
        self.faults = self.faults.saturating_add(1);
        Err(Failed)
    }

    fn sync(&mut self) -> Result<(), Failed> {
        if let Some(file) = &self.file {
            if file.sync_data().is_ok() {
                return Ok(());
            }
        }
        self.faults = self.faults.saturating_add(1);
        Err(Failed)
    }
}
