//! The bytes of one append.
ghost use Rattle.std.specs.Prelude.{◌≡◌, ◌≢◌, ◌≤◌, ◌-◌, ◌+◌, vec_len, vec_capacity, ◌^◌, ◌<◌, List, ℕ, [], ◌∷◌, ◌++◌, length, take, drop, IfOk, OnOk, OnErr};
ghost use Rattle.std.specs.Int.{to_be_bytes, w32};
ghost use Rattle.gate_journal.specs.Grammar.{block, IsShort};

use gs1_keys::Memory;
use std::alloc::{AllocError, Global};
use std::marker::Model;

/// The bytes of one record behind its gate, with the closed gate that follows it. Contracts see the payload.
#[derive(Drop)]
pub struct Frame {
    bytes: Vec<u8>,
}

impl Model for Frame {
    ghost use Rattle.std.specs.Prelude.{◌≡◌, ◌-◌, List, ℕ, [], ◌∷◌, ◌++◌, length, take, drop};
    ghost use Rattle.gate_journal.specs.Grammar.{block, IsShort};

    ghost Value = { List ℕ };

    ghost view = { λ f. take (length f.bytes.items - 5) (drop 4 f.bytes.items) };

    ghost invariant = { λ f. let payload = take (length f.bytes.items - 5) (drop 4 f.bytes.items) in IsShort payload × (f.bytes.items ≡ block payload ++ 0 ∷ []) };
}

fn spelled(alloc: Global, payload: &[u8]) -> Result<Frame, AllocError>
    requires { length payload.now < 2 ^ 32 }
    ensures { IfOk result (λ f. f ≡ payload.now) }
{
    let mut bytes = Vec::new(alloc);
    bytes.extend_from_slice(&(payload.len() as u32).to_be_bytes())?;
    bytes.extend_from_slice(payload)?;
    bytes.push(0)?;
    Ok(Frame { bytes })
}

// Puts bytes last, where the room is.
fn put_last(bytes: &mut Vec<u8>, more: &[u8])
    requires room { vec_len bytes.old + length more.now ≤ vec_capacity bytes.old }
    ensures items { bytes.new.items ≡ bytes.old.items ++ more.now }
    ensures len { vec_len bytes.new ≡ vec_len bytes.old + length more.now }
    ensures capacity { vec_capacity bytes.new ≡ vec_capacity bytes.old }
{
    'more: for byte in more {
        bytes.push_reserved(*byte);
    }
}

// Puts a length and another first byte at the front.
fn put_front(bytes: &mut Vec<u8>, len: u32, first: u8)
    requires { 5 ≤ length bytes.old.items }
    ensures { bytes.new.items ≡ to_be_bytes w32 len ++ first ∷ drop 5 bytes.old.items }
{
    let front = len.to_be_bytes();
    bytes[0] = front[0];
    bytes[1] = front[1];
    bytes[2] = front[2];
    bytes[3] = front[3];
    bytes[4] = first;
}

impl Frame {
    /// Takes the room for one append of this payload, which has fewer than 2^32 bytes.
    pub fn of(alloc: Global, payload: &[u8]) -> Result<Frame, Memory>
        requires { length payload.now < 2 ^ 32 }
        ensures { IfOk result (λ f. f ≡ payload.now) }
    {
        match spelled(alloc, payload) {
            Ok(frame) => Ok(frame),
            Err(_) => Err(Memory),
        }
    }

    /// Puts bytes behind the payload, and another byte in the place of its first one, or changes nothing.
    pub fn grow(&mut self, first: u8, more: &[u8]) -> Result<(), Memory>
        requires some { self.old ≢ [] }
        requires few { length self.old + length more.now < 2 ^ 32 }
        ensures ok { OnOk result (self.new ≡ first ∷ drop 1 self.old ++ more.now) }
        ensures err { OnErr result (self.new ≡ self.old) }
    {
        let len = self.bytes.len() - 5 + more.len();
        let Ok(()) = self.bytes.reserve(more.len()) else {
            return Err(Memory);
        };
        let _gate = self.bytes.pop();
        put_last(&mut self.bytes, more);
        self.bytes.push_reserved(0);
        put_front(&mut self.bytes, len as u32, first);
        Ok(())
    }

    /// The length of the payload.
    pub fn len(&self) -> u64
        ensures length { result ≡ length self.now }
        ensures bound { result < 2 ^ 32 }
    {
        self.bytes.len() as u64 - 5
    }

    /// The bytes of the record behind its gate, and a closed gate.
    pub(crate) fn bytes(&self) -> &[u8]
        ensures { result.now ≡ block self.now ++ 0 ∷ [] }
    {
        &self.bytes
    }
}
