//! The text of a URN.
ghost use Rattle.std.specs.Prelude.{◌≡◌, ◌≤◌, ◌+◌, ◌++◌, [], length};

use std::marker::Model;

/// The bytes of a URN, which are 92 at most: 17 of the scheme, 13 digits, two dots and a serial of 20 escaped characters.
#[derive(Clone, Copy, Debug, PartialEq, Eq)]
pub struct UrnText {
    bytes: [u8; 92],
    len: u8,
}

impl Model for UrnText {
    ghost use Rattle.std.specs.Prelude.{◌-◌, ◌++◌, List, ℕ, length, take, replicate};

    ghost Value = { List ℕ };

    ghost use Rattle.gs1_keys.specs.Inline.{IsInline};

    ghost view = { λ t. take t.len t.bytes };

    ghost invariant = { λ t. IsInline 92 t.bytes t.len };

    ghost inverse = { λ text. record { bytes = text ++ replicate (92 - length text) 0; len = length text } };

    ghost use Rattle.epc_urn.specs.TextBack.{text_is_back};

    ghost inverse_ok = { λ t h. text_is_back t h };
}

impl UrnText {
    /// The empty text.
    #[tactic(auto, using(crate::proofs::Buffer::empty))]
    pub(crate) fn new() -> UrnText
        ensures { result ≡ [] }
    {
        UrnText {
            bytes: [0; 92],
            len: 0,
        }
    }

    /// The bytes of the text.
    #[tactic(auto, using(crate::proofs::Buffer::few))]
    pub fn bytes(&self) -> &[u8]
        ensures size { length self.now ≤ 92 }
        ensures is { result.now ≡ self.now }
    {
        &self.bytes[..usize::from(self.len)]
    }

    /// Puts bytes behind the text.
    pub(crate) fn put(&mut self, more: &[u8])
        requires { length self.old + length more.now ≤ 92 }
        ensures is { self.new ≡ self.old ++ more.now }
        ensures size { length self.new ≡ length self.old + length more.now }
    {
        let at = usize::from(self.len);
        let end = at + more.len();
        self.bytes[at..end].copy_from_slice(more);
        self.len = end as u8;
    }
}
