//! A TCP stream as a link and a listener as a door, which tell their counts alone; the listener also tells its quota and
//! its numbers of links. A connection sends without delay, and is given up where its peer sends nothing for two minutes
//! or takes nothing for half a minute.
ghost use Rattle.std.specs.Prelude.{◌≡◌, ◌+◌, ◌<◌, ◌^◌, None};
ghost use Rattle.outside.specs.Doors.{with_quota};

use crate::{Door, Failed, Link, Sink, Source};
use std::io::{Read, Write};
use std::net::{TcpListener, TcpStream};
use std::time::Duration;

/// A connection.
#[derive(Drop)]
pub struct TcpLink {
    stream: TcpStream,
    read_faults: u64,
    write_faults: u64,
}

impl TcpLink {
    /// The link of a stream.
    pub fn new(stream: TcpStream) -> Self
        ensures read_faults { ⟦<TcpLink as Source>⟧.read_faults result ≡ 0 }
        ensures write_faults { ⟦<TcpLink as Sink>⟧.write_faults result ≡ 0 }
    {
        TcpLink {
            stream,
            read_faults: 0,
            write_faults: 0,
        }
    }
}

impl Source for TcpLink {
    ghost left = { λ _. None };

    ghost read_faults = { λ l. l.read_faults };

    ghost beside_takes = { λ l. (None, l.write_faults) };

    fn take(&mut self, piece: &mut [u8]) -> Result<usize, Failed> {
        match self.stream.read(piece) {
            Ok(count) => Ok(count),
            Err(_) => {
                self.read_faults = self.read_faults.saturating_add(1);
                Err(Failed)
            }
        }
    }
}

impl Sink for TcpLink {
    ghost held = { λ _. None };

    ghost write_faults = { λ l. l.write_faults };

    ghost beside_puts = { λ l. (None, l.read_faults) };

    fn put(&mut self, piece: &[u8]) -> Result<usize, Failed> {
        match self.stream.write(piece) {
            Ok(count) if count > 0 => Ok(count),
            _ => {
                self.write_faults = self.write_faults.saturating_add(1);
                Err(Failed)
            }
        }
    }
}

impl Link for TcpLink {
    ghost use Rattle.std.specs.Prelude.{refl};

    ghost takes_apart = { λ _. refl };

    ghost puts_apart = { λ _. refl };
}

/// The connections of a port. One that couldn't be bound fails at each call.
#[derive(Drop)]
pub struct TcpDoor {
    listener: Option<TcpListener>,
    quota: u64,
    given: u64,
    back: u64,
    faults: u64,
    ghost within: { given + quota < 2 ^ 64 },
    ghost no_more: { back < given + 1 },
}

impl TcpDoor {
    /// The door of a listener, for so many connections.
    pub fn new(listener: Option<TcpListener>, quota: u64) -> Self
        ensures { ⟦<TcpDoor as Door>⟧.state result ≡ with_quota quota None }
    {
        TcpDoor {
            listener,
            quota,
            given: 0,
            back: 0,
            faults: 0,
        }
    }

    // The next connection, where the port was bound and one comes.
    fn accept(&self) -> Result<TcpStream, Failed> {
        match &self.listener {
            None => Err(Failed),
            Some(listener) => match listener.accept() {
                Ok((stream, _)) => Ok(stream),
                Err(_) => Err(Failed),
            },
        }
    }
}

/// How many seconds a peer may send nothing while its next bytes are waited for.
const READ_SECONDS: u64 = 120;

/// How many seconds a peer may take nothing of an answer.
const WRITE_SECONDS: u64 = 30;

// Lets each answer go at once, and gives up a peer that sends nothing or takes nothing. Where the system refuses one of
// these, the connection is served without it.
fn make_prompt(stream: &TcpStream) {
    let _ = stream.set_nodelay(true);
    let _ = stream.set_read_timeout(Some(Duration::from_secs(READ_SECONDS)));
    let _ = stream.set_write_timeout(Some(Duration::from_secs(WRITE_SECONDS)));
}

impl Door for TcpDoor {
    type Link = TcpLink;

    ghost state = { λ d. record { quota = d.quota; given = d.given; back = d.back; links = None; links_back = None; faults = d.faults } };

    fn next_link(&mut self) -> Result<Option<TcpLink>, Failed> {
        if self.quota == 0 {
            return Ok(None);
        }
        self.quota -= 1;
        match self.accept() {
            Ok(stream) => {
                make_prompt(&stream);
                self.given += 1;
                Ok(Some(TcpLink::new(stream)))
            }
            Err(Failed) => {
                self.faults = self.faults.saturating_add(1);
                Err(Failed)
            }
        }
    }

    /// Closes the connection.
    fn link_back(&mut self, _link: TcpLink) {
        self.back += 1;
    }
}
