//! A link in memory.
ghost use Rattle.std.specs.Prelude.{◌≡◌, ◌<◌, ◌≤◌, ◌↔◌, [], Some, refl, length, min, IfOk, IsErr};
ghost use Rattle.outside.specs.Causes.{HasCause};
ghost use Rattle.outside.specs.Devices.{TakesPiece, AsksOnce, PutsPiece};
ghost use Rattle.outside.specs.Disks.{Tells};
ghost use Rattle.outside.specs.Failing.{told, IsListed, IsCalled};

use crate::{Failed, Link, MemorySink, MemorySource, Sink, Source};
use std::alloc::Global;

/// A source and a sink in memory as one link.
#[derive(Drop)]
pub struct MemoryLink {
    source: MemorySource,
    sink: MemorySink,
}

impl MemoryLink {
    /// Gives these bytes, and fails at the takes and at the puts of these numbers, each from 1.
    pub fn new(
        alloc: Global,
        bytes: Vec<u8>,
        failing_takes: Vec<u64>,
        failing_puts: Vec<u64>,
    ) -> Self
        ensures left { ⟦<MemoryLink as Source>⟧.left result ≡ Some bytes.items }
        ensures asks { ⟦<MemoryLink as Source>⟧.asks result ≡ Some [] }
        ensures held { ⟦<MemoryLink as Sink>⟧.held result ≡ Some [] }
        ensures read_faults { ⟦<MemoryLink as Source>⟧.read_faults result ≡ 0 }
        ensures write_faults { ⟦<MemoryLink as Sink>⟧.write_faults result ≡ 0 }
        ensures failing_takes { result.source.failures ≡ told failing_takes.items }
        ensures failing_puts { result.sink.failures ≡ told failing_puts.items }
    {
        MemoryLink {
            source: MemorySource::new(bytes, failing_takes),
            sink: MemorySink::new(alloc, failing_puts),
        }
    }

    /// What was put.
    pub fn put_bytes(&self) -> &[u8]
        ensures { Some result.now ≡ ⟦<MemoryLink as Sink>⟧.held self.now }
    {
        self.sink.bytes()
    }
}

impl Source for MemoryLink {
    ghost left = { λ l. ⟦<MemorySource as Source>⟧.left l.source };

    ghost read_faults = { λ l. ⟦<MemorySource as Source>⟧.read_faults l.source };

    ghost asks = { λ l. ⟦<MemorySource as Source>⟧.asks l.source };

    ghost beside_takes = { λ l. (⟦<MemorySink as Sink>⟧.held l.sink, ⟦<MemorySink as Sink>⟧.write_faults l.sink) };

    /// As of a `MemorySource`.
    fn take(&mut self, piece: &mut [u8]) -> Result<usize, Failed>
        requires { 0 < length piece.old }
        ensures bound { IfOk result (λ n. n ≤ length piece.new) }
        ensures bytes { TakesPiece (⟦<MemoryLink as Source>⟧.left self.old) (⟦<MemoryLink as Source>⟧.left self.new) result piece.new }
        ensures asked { AsksOnce (⟦<MemoryLink as Source>⟧.asks self.old) (⟦<MemoryLink as Source>⟧.asks self.new) result piece.new }
        ensures cause { HasCause (⟦<MemoryLink as Source>⟧.read_faults self.old) (⟦<MemoryLink as Source>⟧.read_faults self.new) result }
        ensures beside { self.new.sink ≡ self.old.sink }
        ensures whole { Tells (⟦<MemoryLink as Source>⟧.left self.old) (λ bytes. IfOk result (λ n. n ≡ min (length piece.new) (length bytes))) }
        ensures called { IsCalled self.old.source.failures self.new.source.failures }
        ensures failing { IsErr result ↔ IsListed self.old.source.failures }
    {
        self.source.take(piece)
    }
}

impl Sink for MemoryLink {
    ghost held = { λ l. ⟦<MemorySink as Sink>⟧.held l.sink };

    ghost write_faults = { λ l. ⟦<MemorySink as Sink>⟧.write_faults l.sink };

    ghost beside_puts = { λ l. (⟦<MemorySource as Source>⟧.left l.source, ⟦<MemorySource as Source>⟧.read_faults l.source) };

    /// As of a `MemorySink`.
    fn put(&mut self, piece: &[u8]) -> Result<usize, Failed>
        requires { 0 < length piece.now }
        ensures bytes { PutsPiece (⟦<MemoryLink as Sink>⟧.held self.old) (⟦<MemoryLink as Sink>⟧.held self.new) result piece.now }
        ensures cause { HasCause (⟦<MemoryLink as Sink>⟧.write_faults self.old) (⟦<MemoryLink as Sink>⟧.write_faults self.new) result }
        ensures beside { self.new.source ≡ self.old.source }
        ensures called { IsCalled self.old.sink.failures self.new.sink.failures }
        ensures failing { IsListed self.old.sink.failures → IsErr result }
        ensures whole { IfOk result (λ n. n ≡ length piece.now) }
    {
        self.sink.put(piece)
    }
}

impl Link for MemoryLink {
    ghost takes_apart = { λ _. refl };

    ghost puts_apart = { λ _. refl };
}
