//! Adapters over the readers and writers of std, which tell what these tell: standard input and standard
//! output tell their counts of faults alone.
ghost use Rattle.std.specs.Prelude.{◌≡◌};
ghost use Rattle.outside.specs.Readers.{left_in};

use crate::{Failed, Sink, Source};
use std::io::{Read, Write};

/// A reader as a source.
#[derive(Drop)]
pub struct Reading<R> {
    inner: R,
    faults: u64,
}

impl<R: Read> Reading<R> {
    pub fn new(inner: R) -> Self
        ensures left { ⟦<Reading<R> as Source>⟧.left result ≡ R.remaining inner }
        ensures faults { ⟦<Reading<R> as Source>⟧.read_faults result ≡ 0 }
    {
        Reading { inner, faults: 0 }
    }
}

impl<R: Read> Source for Reading<R> {
    ghost left = { λ s. R.remaining s.inner };

    ghost read_faults = { λ s. s.faults };

    fn take(&mut self, piece: &mut [u8]) -> Result<usize, Failed> {
        match self.inner.read(piece) {
            Ok(count) => Ok(count),
            Err(_) => {
                self.faults = self.faults.saturating_add(1);
                Err(Failed)
            }
        }
    }
}

/// A reader that may not be there, as a file that couldn't be opened, as a source. One that isn't fails at each take.
#[derive(Drop)]
pub struct FileSource<R> {
    inner: Option<R>,
    faults: u64,
}

impl<R: Read> FileSource<R> {
    pub fn new(inner: Option<R>) -> Self
        ensures left { ⟦<FileSource<R> as Source>⟧.left result ≡ left_in R.remaining inner }
        ensures faults { ⟦<FileSource<R> as Source>⟧.read_faults result ≡ 0 }
    {
        FileSource { inner, faults: 0 }
    }
}

impl<R: Read> Source for FileSource<R> {
    ghost left = { λ s. left_in R.remaining s.inner };

    ghost read_faults = { λ s. s.faults };

    fn take(&mut self, piece: &mut [u8]) -> Result<usize, Failed> {
        if let Some(reader) = &mut self.inner {
            if let Ok(count) = reader.read(piece) {
                return Ok(count);
            }
        }
        self.faults = self.faults.saturating_add(1);
        Err(Failed)
    }
}

/// A writer as a sink. One that takes nothing has failed.
#[derive(Drop)]
pub struct Writing<W> {
    inner: W,
    faults: u64,
}

impl<W: Write> Writing<W> {
    pub fn new(inner: W) -> Self
        ensures held { ⟦<Writing<W> as Sink>⟧.held result ≡ W.contents inner }
        ensures faults { ⟦<Writing<W> as Sink>⟧.write_faults result ≡ 0 }
    {
        Writing { inner, faults: 0 }
    }
}

impl<W: Write> Sink for Writing<W> {
    ghost held = { λ s. W.contents s.inner };

    ghost write_faults = { λ s. s.faults };

    fn put(&mut self, piece: &[u8]) -> Result<usize, Failed> {
        match self.inner.write(piece) {
            Ok(count) if count > 0 => Ok(count),
            _ => {
                self.faults = self.faults.saturating_add(1);
                Err(Failed)
            }
        }
    }
}
