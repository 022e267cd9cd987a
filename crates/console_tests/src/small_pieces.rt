//! A source and a sink that move one byte a call.

use outside::{Failed, MemorySink, MemorySource, Sink, Source};
use std::alloc::Global;

/// A source that gives one byte at a time.
#[derive(Drop)]
pub struct DropsSource {
    inner: MemorySource,
}

impl DropsSource {
    pub fn new(alloc: Global, bytes: Vec<u8>) -> Self {
        DropsSource {
            inner: MemorySource::new(bytes, Vec::new(alloc)),
        }
    }
}

impl Source for DropsSource {
    ghost left = { λ s. ⟦<MemorySource as Source>⟧.left s.inner };

    ghost read_faults = { λ s. ⟦<MemorySource as Source>⟧.read_faults s.inner };

    fn take(&mut self, piece: &mut [u8]) -> Result<usize, Failed> {
        self.inner.take(&mut piece[..1])
    }
}

/// A sink that takes one byte at a time.
#[derive(Drop)]
pub struct DropsSink {
    inner: MemorySink,
}

impl DropsSink {
    pub fn new(alloc: Global) -> Self {
        DropsSink {
            inner: MemorySink::new(alloc, Vec::new(alloc)),
        }
    }

    pub fn bytes(&self) -> &[u8] {
        self.inner.bytes()
    }
}

impl Sink for DropsSink {
    ghost held = { λ s. ⟦<MemorySink as Sink>⟧.held s.inner };

    ghost write_faults = { λ s. ⟦<MemorySink as Sink>⟧.write_faults s.inner };

    fn put(&mut self, piece: &[u8]) -> Result<usize, Failed> {
        self.inner.put(&piece[..1])
    }
}
