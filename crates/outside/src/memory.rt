//! Devices in memory, which tell their content and fail at the calls that they are told.
ghost use Rattle.std.specs.Prelude.{◌≡◌, ◌<◌, ◌≤◌, ◌↔◌, ◌⊎◌, [], Some, length, min, drop, vec_len, IfOk, IsErr};
ghost use Rattle.outside.specs.Causes.{HasCause};
ghost use Rattle.outside.specs.Devices.{TakesPiece, AsksOnce, PutsPiece, TakesWord};
ghost use Rattle.outside.specs.Disks.{Tells};
ghost use Rattle.outside.specs.Failing.{told, IsListed, IsCalled};
ghost use Rattle.outside.specs.MemoryCalls.{asks_of};

use crate::call::{Call, count_call};
use crate::failures::Failures;
use crate::{Failed, Sink, Source, Words};
use std::alloc::Global;

/// Bytes in memory as a source. It also tells the calls of `take`, of which only the last one takes room.
#[derive(Drop)]
pub struct MemorySource {
    bytes: Vec<u8>,
    at: usize,
    failures: Failures,
    last: Option<Call>,
    ghost within: { at ≤ vec_len bytes },
}

impl MemorySource {
    /// Gives these bytes, and fails at the takes of these numbers, from 1.
    pub fn new(bytes: Vec<u8>, failing: Vec<u64>) -> Self
        ensures left { ⟦<MemorySource as Source>⟧.left result ≡ Some bytes.items }
        ensures asks { ⟦<MemorySource as Source>⟧.asks result ≡ Some [] }
        ensures faults { ⟦<MemorySource as Source>⟧.read_faults result ≡ 0 }
        ensures failing { result.failures ≡ told failing.items }
    {
        MemorySource {
            bytes,
            at: 0,
            failures: Failures::new(failing),
            last: None,
        }
    }
}

impl Source for MemorySource {
    ghost left = { λ s. Some (drop s.at s.bytes.items) };

    ghost read_faults = { λ s. s.failures.failed };

    ghost asks = { λ s. Some (asks_of s.bytes.items s.last) };

    /// It fails exactly where the number of the call is listed, and else moves as many bytes as the piece and
    /// what is left allow.
    fn take(&mut self, piece: &mut [u8]) -> Result<usize, Failed>
        requires { 0 < length piece.old }
        ensures bound { IfOk result (λ n. n ≤ length piece.new) }
        ensures bytes { TakesPiece (⟦<MemorySource as Source>⟧.left self.old) (⟦<MemorySource as Source>⟧.left self.new) result piece.new }
        ensures asked { AsksOnce (⟦<MemorySource as Source>⟧.asks self.old) (⟦<MemorySource as Source>⟧.asks self.new) result piece.new }
        ensures cause { HasCause (⟦<MemorySource as Source>⟧.read_faults self.old) (⟦<MemorySource as Source>⟧.read_faults self.new) result }
        ensures whole { Tells (⟦<MemorySource as Source>⟧.left self.old) (λ bytes. IfOk result (λ n. n ≡ min (length piece.new) (length bytes))) }
        ensures called { IsCalled self.old.failures self.new.failures }
        ensures failing { IsErr result ↔ IsListed self.old.failures }
    {
        if self.failures.next_fails() {
            count_call(&mut self.last, piece.len(), self.at, 0);
            return Err(Failed);
        }
        let rest = &self.bytes[self.at..];
        let count = piece.len().min(rest.len());
        piece[..count].copy_from_slice(&rest[..count]);
        count_call(&mut self.last, piece.len(), self.at, count);
        self.at += count;
        Ok(count)
    }
}

/// A sink that keeps in memory what is put.
#[derive(Drop)]
pub struct MemorySink {
    bytes: Vec<u8>,
    failures: Failures,
}

impl MemorySink {
    /// Holds nothing, and fails at the puts of these numbers, from 1.
    pub fn new(alloc: Global, failing: Vec<u64>) -> Self
        ensures held { ⟦<MemorySink as Sink>⟧.held result ≡ Some [] }
        ensures faults { ⟦<MemorySink as Sink>⟧.write_faults result ≡ 0 }
        ensures failing { result.failures ≡ told failing.items }
    {
        MemorySink {
            bytes: Vec::new(alloc),
            failures: Failures::new(failing),
        }
    }

    /// What was put.
    pub fn bytes(&self) -> &[u8]
        ensures { Some result.now ≡ ⟦<MemorySink as Sink>⟧.held self.now }
    {
        &self.bytes
    }
}

impl Sink for MemorySink {
    ghost held = { λ s. Some s.bytes.items };

    ghost write_faults = { λ s. s.failures.failed };

    /// It fails where the number of the call is listed, and for want of memory, and else takes the whole piece.
    fn put(&mut self, piece: &[u8]) -> Result<usize, Failed>
        requires { 0 < length piece.now }
        ensures bytes { PutsPiece (⟦<MemorySink as Sink>⟧.held self.old) (⟦<MemorySink as Sink>⟧.held self.new) result piece.now }
        ensures cause { HasCause (⟦<MemorySink as Sink>⟧.write_faults self.old) (⟦<MemorySink as Sink>⟧.write_faults self.new) result }
        ensures called { IsCalled self.old.failures self.new.failures }
        ensures failing { IsListed self.old.failures → IsErr result }
        ensures whole { IfOk result (λ n. n ≡ length piece.now) }
    {
        if self.failures.next_fails() {
            return Err(Failed);
        }
        match self.bytes.extend_from_slice(piece) {
            Ok(()) => Ok(piece.len()),
            Err(_) => {
                self.failures.fail();
                Err(Failed)
            }
        }
    }
}

/// Words in memory. Where they are used up, a call fails.
#[derive(Drop)]
pub struct MemoryWords {
    words: Vec<u64>,
    at: usize,
    failures: Failures,
    ghost within: { at ≤ vec_len words },
}

impl MemoryWords {
    /// Gives these words, and fails at the calls of these numbers, from 1.
    pub fn new(words: Vec<u64>, failing: Vec<u64>) -> Self
        ensures left { ⟦<MemoryWords as Words>⟧.words_left result ≡ Some words.items }
        ensures faults { ⟦<MemoryWords as Words>⟧.word_faults result ≡ 0 }
        ensures failing { result.failures ≡ told failing.items }
    {
        MemoryWords {
            words,
            at: 0,
            failures: Failures::new(failing),
        }
    }
}

impl Words for MemoryWords {
    ghost words_left = { λ s. Some (drop s.at s.words.items) };

    ghost word_faults = { λ s. s.failures.failed };

    /// It fails exactly where the number of the call is listed or no word is left.
    fn next_word(&mut self) -> Result<u64, Failed>
        ensures word { TakesWord (⟦<MemoryWords as Words>⟧.words_left self.old) (⟦<MemoryWords as Words>⟧.words_left self.new) result }
        ensures cause { HasCause (⟦<MemoryWords as Words>⟧.word_faults self.old) (⟦<MemoryWords as Words>⟧.word_faults self.new) result }
        ensures called { IsCalled self.old.failures self.new.failures }
        ensures failing { IsErr result ↔ IsListed self.old.failures ⊎ (⟦<MemoryWords as Words>⟧.words_left self.old ≡ Some []) }
    {
        if self.failures.next_fails() {
            return Err(Failed);
        }
        match self.words.get(self.at) {
            Some(word) => {
                let word = *word;
                self.at += 1;
                Ok(word)
            }
            None => {
                self.failures.fail();
                Err(Failed)
            }
        }
    }
}
