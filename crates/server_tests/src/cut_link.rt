//! A link whose bytes come and go in pieces of a chosen size.
ghost use Rattle.std.specs.Prelude.{Some, [], refl};

use outside::{Failed, Link, MemoryLink, Sink, Source};
use std::alloc::Global;

/// A link in memory, which may give and take one byte a call.
#[derive(Drop)]
pub(crate) struct CutLink {
    inner: MemoryLink,
    drops: bool,
}

impl CutLink {
    /// A link on which these bytes come, one byte a call where `drops`.
    pub(crate) fn new(alloc: Global, bytes: Vec<u8>, drops: bool) -> Self {
        CutLink {
            inner: MemoryLink::new(alloc, bytes, Vec::new(alloc), Vec::new(alloc)),
            drops,
        }
    }

    /// What was put.
    pub(crate) fn put_bytes(&self) -> &[u8] {
        self.inner.put_bytes()
    }
}

impl Source for CutLink {
    ghost left = { λ l. ⟦<MemoryLink as Source>⟧.left l.inner };

    ghost read_faults = { λ l. ⟦<MemoryLink as Source>⟧.read_faults l.inner };

    ghost beside_takes = { λ l. (⟦<MemoryLink as Sink>⟧.held l.inner, ⟦<MemoryLink as Sink>⟧.write_faults l.inner) };

    fn take(&mut self, piece: &mut [u8]) -> Result<usize, Failed> {
        if self.drops {
            return self.inner.take(&mut piece[..1]);
        }
        self.inner.take(piece)
    }
}

impl Sink for CutLink {
    ghost held = { λ l. ⟦<MemoryLink as Sink>⟧.held l.inner };

    ghost write_faults = { λ l. ⟦<MemoryLink as Sink>⟧.write_faults l.inner };

    ghost beside_puts = { λ l. (⟦<MemoryLink as Source>⟧.left l.inner, ⟦<MemoryLink as Source>⟧.read_faults l.inner) };

    fn put(&mut self, piece: &[u8]) -> Result<usize, Failed> {
        if self.drops {
            return self.inner.put(&piece[..1]);
        }
        self.inner.put(piece)
    }
}

impl Link for CutLink {
    ghost takes_apart = { λ _. refl };

    ghost puts_apart = { λ _. refl };
}
