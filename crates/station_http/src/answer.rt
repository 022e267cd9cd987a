//! The front of an answer, in place: its head, and a short body behind it.
ghost use Rattle.std.specs.Prelude.{◌≡◌, ◌≤◌, ◌+◌, ◌++◌, [], length, true, codes, decimal};
ghost use Rattle.std.specs.Bool.{OnTrue, OnFalse};
ghost use Rattle.station_http.specs.Answers.{is_answered, phrase_of, kind_text, head_text, close_line};

use crate::kind::Kind;
use http::StatusCode;
use itoa::Buffer;
use std::marker::Model;

/// How long a front may be; a head has 160 bytes at most.
const ROOM: usize = 512;

/// The front so far.
#[derive(Drop)]
pub struct Front {
    bytes: [u8; 512],
    len: usize,
}

impl Model for Front {
    ghost use Rattle.std.specs.Prelude.{List, ℕ, take, ◌≤◌};

    ghost Value = { List ℕ };

    ghost view = { λ h. take h.len h.bytes };

    ghost invariant = { λ h. h.len ≤ 512 };
}

impl Front {
    fn new() -> Self
        ensures { result ≡ [] }
    {
        Front {
            bytes: [0; 512],
            len: 0,
        }
    }

    /// Puts a text at the end.
    fn add(&mut self, text: &[u8])
        requires { length self.old + length text.now ≤ 512 }
        ensures { self.new ≡ self.old ++ text.now }
    {
        let end = self.len + text.len();
        self.bytes[self.len..end].copy_from_slice(text);
        self.len = end;
    }

    /// Puts a text at the end where there is room for it, or changes nothing.
    pub fn add_short(&mut self, text: &[u8]) -> bool
        ensures added { OnTrue result (self.new ≡ self.old ++ text.now) }
        ensures same { OnFalse result (self.new ≡ self.old) }
    {
        if text.len() > ROOM - self.len {
            return false;
        }
        self.add(text);
        true
    }

    pub fn bytes(&self) -> &[u8]
        ensures { result.now ≡ self.now }
    {
        &self.bytes[..self.len]
    }
}

/// The head of an answer.
pub fn answer_head(status: u16, kind: Kind, count: usize, last: bool) -> Front
    requires { is_answered status ≡ true }
    ensures { result ≡ head_text status kind count last }
{
    let mut head = Front::new();
    head.add(b"HTTP/1.1 ");
    let mut digits = Buffer::new();
    head.add(digits.format(status).as_bytes());
    head.add(b" ");
    head.add(phrase(status).as_bytes());
    head.add(b"\r\ncontent-length: ");
    head.add(digits.format(count).as_bytes());
    head.add(b"\r\ncontent-type: ");
    head.add(kind_bytes(kind));
    head.add(b"\r\n");
    head.add(close_bytes(last));
    head.add(b"\r\n");
    head
}

fn phrase(status: u16) -> &'static str
    requires { is_answered status ≡ true }
    ensures phrase { result.now ≡ phrase_of status }
    ensures short { length result.now ≤ 31 }
{
    StatusCode::from_u16(status)
        .unwrap()
        .canonical_reason()
        .unwrap()
}

fn kind_bytes(kind: Kind) -> &'static [u8]
    ensures kind { result.now ≡ kind_text kind }
    ensures short { length result.now ≤ 16 }
{
    match kind {
        Kind::Json => b"application/json",
        Kind::Text => b"text/plain",
    }
}

fn close_bytes(last: bool) -> &'static [u8]
    ensures close { result.now ≡ close_line last }
    ensures short { length result.now ≤ 19 }
{
    if last { b"connection: close\r\n" } else { b"" }
}
