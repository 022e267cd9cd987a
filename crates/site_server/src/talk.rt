//! The two sides of a link: what is done on one leaves the other alone.
ghost use Rattle.std.specs.Prelude.{◌≡◌, ◌≤◌, ◌==◌, ◌&&◌, ℕ, true, List, length};
ghost use Rattle.std.specs.Io.KnownBytes.{IsAtEnd};
ghost use Rattle.outside.specs.Causes.{HasCause, HasCauseIf};
ghost use Rattle.outside.specs.Devices.{Takes, Puts};
ghost use Rattle.station_http.specs.Gives.{GivesAt, is_read_fault};
ghost use Rattle.station_http.specs.Limits.{session_limit};
ghost use Rattle.station_http.specs.Puts.{IsPutOf};
ghost use Rattle.station_http.specs.Waiting.{IsWaiting};
ghost use Rattle.site_answers.specs.Saying.{text_of};
ghost use Rattle.site_server.specs.Gathered.{texts_to};

use outside::{Failed, Link};
use site_answers::Response;
use station_http::{Asked, Conn, HttpFault};

/// The next request of a link.
pub(crate) fn next_of<L: Link>(conn: &mut Conn, link: &mut L) -> Result<Option<Asked>, HttpFault>
    ensures answer { Takes (L.left link.old) (L.left link.new) (λ bytes. GivesAt conn.old.stage conn.old bytes result conn.new (IsAtEnd (L.left link.new))) }
    ensures within { conn.new.taken ≤ session_limit }
    ensures waits { IsWaiting conn.old true → link.new ≡ link.old }
    ensures cause { HasCauseIf (is_read_fault result) (L.read_faults link.old) (L.read_faults link.new) }
    ensures held { L.held link.new ≡ L.held link.old }
    ensures faults { L.write_faults link.new ≡ L.write_faults link.old }
{
    conn.next(link)
}

/// Puts an answer to a link.
pub(crate) fn put_to<L: Link>(said: &Response, link: &mut L, last: bool) -> Result<(), Failed>
    ensures put { Puts (L.held link.old) (L.held link.new) (λ put. IsPutOf (text_of said.now last) result put) }
    ensures cause { HasCause (L.write_faults link.old) (L.write_faults link.new) result }
    ensures left { L.left link.new ≡ L.left link.old }
    ensures faults { L.read_faults link.new ≡ L.read_faults link.old }
{
    said.put(link, last)
}

/// Puts answers to a link, one after the other, up to a put that fails. The last of them is the last where `last`.
pub(crate) fn put_all<L: Link>(said: &[Response], link: &mut L, last: bool) -> Result<(), Failed>
    ensures put { Puts (L.held link.old) (L.held link.new) (λ put. IsPutOf (texts_to said.now last) result put) }
    ensures cause { HasCause (L.write_faults link.old) (L.write_faults link.new) result }
    ensures left { L.left link.new ≡ L.left link.old }
    ensures faults { L.read_faults link.new ≡ L.read_faults link.old }
{
    let mut left = said;
    'answers: while let Some((first, later)) = left.split_first() {
        put_to(first, link, is_last(last, later))?;
        left = later;
    }
    Ok(())
}

/// Whether an answer is the last: it is meant to be, and none comes behind it.
fn is_last(last: bool, later: &[Response]) -> bool
    ensures { result ≡ (last && (length later.now == 0)) }
{
    last && later.is_empty()
}
