//! Two links that come side by side: one waits for what is put on the other.
ghost use Rattle.std.specs.Prelude.{◌≡◌, Some, [], refl};

use outside::{Failed, Link, MemoryLink, Sink, Source};
use std::alloc::Global;
use std::sync::Arc;
use std::sync::atomic::{AtomicU64, Ordering};
use std::thread;

/// How often a waiting link looks before it fails.
const LOOKS: u64 = 10_000_000;

/// A link in memory. Each of its puts waits until the other link's first answer was put, and fails after so many looks;
/// or its own first answer is the one that is waited for.
#[derive(Drop)]
pub(crate) struct SideLink {
    inner: MemoryLink,
    shown: Arc<AtomicU64, Global>,
    part: Part,
    failed: u64,
}

#[derive(Clone, Copy, PartialEq, Eq)]
enum Part {
    /// It waits.
    Waits,
    /// It is waited for, until so many bytes were put.
    Shows(usize),
}

impl SideLink {
    /// A link whose puts wait.
    pub(crate) fn waiting(inner: MemoryLink, shown: Arc<AtomicU64, Global>) -> Self
        requires { ⟦<MemoryLink as Sink>⟧.held inner ≡ Some [] }
        ensures { ⟦<SideLink as Sink>⟧.held result ≡ Some [] }
    {
        SideLink {
            inner,
            shown,
            part: Part::Waits,
            failed: 0,
        }
    }

    /// A link whose first answer, of so many bytes, is waited for.
    pub(crate) fn showing(inner: MemoryLink, shown: Arc<AtomicU64, Global>, first: usize) -> Self
        requires { ⟦<MemoryLink as Sink>⟧.held inner ≡ Some [] }
        ensures { ⟦<SideLink as Sink>⟧.held result ≡ Some [] }
    {
        SideLink {
            inner,
            shown,
            part: Part::Shows(first),
            failed: 0,
        }
    }

    /// What was put.
    pub(crate) fn put_bytes(&self) -> &[u8] {
        self.inner.put_bytes()
    }

    /// Whether it may put.
    fn comes(&self) -> bool {
        self.part != Part::Waits || is_shown(&self.shown)
    }

    /// Whether the answer that is waited for was put.
    fn is_whole(&self) -> bool {
        match self.part {
            Part::Waits => false,
            Part::Shows(first) => self.inner.put_bytes().len() >= first,
        }
    }
}

/// Looks until the other link's answer was put.
fn is_shown(shown: &AtomicU64) -> bool {
    for _ in 0..LOOKS {
        if shown.load(Ordering::SeqCst) == 1 {
            return true;
        }
        thread::yield_now();
    }
    false
}

impl Source for SideLink {
    ghost left = { λ l. ⟦<MemoryLink as Source>⟧.left l.inner };

    ghost read_faults = { λ l. ⟦<MemoryLink as Source>⟧.read_faults l.inner };

    ghost beside_takes = { λ l. (⟦<MemoryLink as Sink>⟧.held l.inner, l.failed) };

    fn take(&mut self, piece: &mut [u8]) -> Result<usize, Failed> {
        self.inner.take(piece)
    }
}

impl Sink for SideLink {
    ghost held = { λ l. ⟦<MemoryLink as Sink>⟧.held l.inner };

    ghost write_faults = { λ l. l.failed };

    ghost beside_puts = { λ l. (⟦<MemoryLink as Source>⟧.left l.inner, ⟦<MemoryLink as Source>⟧.read_faults l.inner) };

    fn put(&mut self, piece: &[u8]) -> Result<usize, Failed> {
        if !self.comes() {
            self.failed = self.failed.saturating_add(1);
            return Err(Failed);
        }
        match self.inner.put(piece) {
            Ok(count) => {
                if self.is_whole() {
                    self.shown.store(1, Ordering::SeqCst);
                }
                Ok(count)
            }
            Err(fault) => {
                self.failed = self.failed.saturating_add(1);
                Err(fault)
            }
        }
    }
}

impl Link for SideLink {
    ghost takes_apart = { λ _. refl };

    ghost puts_apart = { λ _. refl };
}
