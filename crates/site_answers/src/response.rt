//! The answer to a request.
ghost use Rattle.std.specs.Prelude.{◌≡◌, true};
ghost use Rattle.outside.specs.Causes.{HasCause};
ghost use Rattle.outside.specs.Devices.{Puts};
ghost use Rattle.station_http.specs.Answers.{is_answered};
ghost use Rattle.station_http.specs.Puts.{IsPutOf};
ghost use Rattle.site_answers.specs.Saying.{Answer, fixed, text_of};

use crate::fault_name::FaultName;
use outside::{Failed, Sink};
use station_http::{Kind, put_answer};
use std::marker::Model;

/// What is said: bytes that were made, or the text of a fault, which takes no memory.
#[derive(Debug, Drop)]
pub(crate) enum Body {
    Made(Vec<u8>),
    Fixed(FaultName),
}

/// The answer to a request, whole. A contract sees its status, the type of its body, and the bytes of that.
#[derive(Debug, Drop)]
pub struct Response {
    status: u16,
    kind: Kind,
    body: Body,
}

impl Model for Response {
    ghost use Rattle.std.specs.Prelude.{◌≡◌, true};
    ghost use Rattle.station_http.specs.Answers.{is_answered};
    ghost use Rattle.site_answers.specs.Bodies.{bytes_of};
    ghost use Rattle.site_answers.specs.Saying.{Answer};

    ghost Value = { Answer };

    ghost view = { λ r. record { status = r.status; kind = r.kind; body = bytes_of r.body } };

    ghost invariant = { λ r. is_answered r.status ≡ true };
}

impl Response {
    /// The answer of a fault. It takes no memory.
    pub fn fault(name: FaultName) -> Self
        ensures { result ≡ fixed name }
    {
        Response {
            status: name.status(),
            kind: Kind::Json,
            body: Body::Fixed(name),
        }
    }

    /// An answer of these bytes.
    pub fn made(status: u16, kind: Kind, bytes: Vec<u8>) -> Self
        requires { is_answered status ≡ true }
        ensures { result ≡ record { status = status; kind = kind; body = bytes.items } }
    {
        Response {
            status,
            kind,
            body: Body::Made(bytes),
        }
    }

    /// Puts it, with `connection: close` where it is the last. It takes no memory; after `Failed` a front of it was put.
    pub fn put<O: Sink>(&self, sink: &mut O, last: bool) -> Result<(), Failed>
        ensures put { Puts (O.held sink.old) (O.held sink.new) (λ put. IsPutOf (text_of self.now last) result put) }
        ensures cause { HasCause (O.write_faults sink.old) (O.write_faults sink.new) result }
        ensures beside { O.beside_puts sink.new ≡ O.beside_puts sink.old }
    {
        match &self.body {
            Body::Made(bytes) => put_answer(sink, self.status, self.kind, bytes, last),
            Body::Fixed(name) => put_answer(sink, self.status, self.kind, name.text(), last),
        }
    }
}
