//! All requests of a source, one after the other.
ghost use Rattle.std.specs.Prelude.{◌≡◌, ◌++◌, [], length, IfOk, Option, List, ℕ};
ghost use Rattle.std.specs.Io.KnownBytes.{IsAtEnd};
ghost use Rattle.outside.specs.Causes.{HasCauseIf};
ghost use Rattle.outside.specs.Devices.{Takes};
ghost use Rattle.station_http.specs.Gives.{is_read_fault};
ghost use Rattle.station_http.specs.Sessions.{IsWhole};

use crate::asked::Asked;
use crate::conn::Conn;
use crate::fault::HttpFault;
use gs1_keys::Memory;
use outside::Source;
use std::alloc::Global;

/// What a session asked, and how it ended.
#[derive(Drop)]
pub struct Session {
    /// The requests, in order.
    pub requests: Vec<Asked>,
    /// `Ok` where the source ended between two requests, or a request's answer was the last.
    pub end: Result<(), HttpFault>,
}

/// Takes all requests of a source: those that its bytes hold, and how they end. Where the source failed or memory was
/// wanting, the requests are still those that the bytes taken begin with.
pub fn all_of<S: Source>(alloc: Global, source: &mut S) -> Result<Session, Memory>
    ensures session { IfOk result (λ session. Takes (S.left source.old) (S.left source.new) (λ bytes. IsWhole bytes session (IsAtEnd (S.left source.new)))) }
    ensures cause { IfOk result (λ session. HasCauseIf (is_read_fault session.end) (S.read_faults source.old) (S.read_faults source.new)) }
    ensures beside { S.beside_takes source.new ≡ S.beside_takes source.old }
{
    let mut conn = Conn::new(alloc)?;
    let mut requests = Vec::new(alloc);
    'requests: loop {
        match conn.next(source) {
            Err(fault) => {
                return Ok(Session {
                    requests,
                    end: Err(fault),
                });
            }
            Ok(None) => {
                return Ok(Session {
                    requests,
                    end: Ok(()),
                });
            }
            Ok(Some(asked)) => requests.push(asked)?,
        }
    }
}
