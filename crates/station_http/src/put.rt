//! Putting a whole text to a sink that may take it in parts.
ghost use Rattle.std.specs.Prelude.{◌≡◌, List, ℕ, true};
ghost use Rattle.outside.specs.Causes.{HasCause};
ghost use Rattle.outside.specs.Devices.{Puts};
ghost use Rattle.station_http.specs.Puts.{IsPutOf};
ghost use Rattle.station_http.specs.Answers.{is_answered, answer_text};

use crate::answer::answer_head;
use crate::kind::Kind;
use outside::{Failed, Sink};

pub fn put_all<O: Sink>(out: &mut O, text: &[u8]) -> Result<(), Failed>
    ensures put { Puts (O.held out.old) (O.held out.new) (λ put. IsPutOf text.now result put) }
    ensures cause { HasCause (O.write_faults out.old) (O.write_faults out.new) result }
    ensures beside { O.beside_puts out.new ≡ O.beside_puts out.old }
{
    let mut rest = text;
    'parts: while !rest.is_empty() {
        let count = out.put(rest)?;
        rest = &rest[count..];
    }
    Ok(())
}

/// Puts an answer as `Conn::answer` does, where there is no connection to ask: memory was wanting for one. A short one goes
/// out in one call.
pub fn put_answer<O: Sink>(
    sink: &mut O,
    status: u16,
    kind: Kind,
    body: &[u8],
    last: bool,
) -> Result<(), Failed>
    requires { is_answered status ≡ true }
    ensures put { Puts (O.held sink.old) (O.held sink.new) (λ put. IsPutOf (answer_text status kind body.now last) result put) }
    ensures cause { HasCause (O.write_faults sink.old) (O.write_faults sink.new) result }
    ensures beside { O.beside_puts sink.new ≡ O.beside_puts sink.old }
{
    let mut front = answer_head(status, kind, body.len(), last);
    if front.add_short(body) {
        return put_all(sink, front.bytes());
    }
    let Ok(()) = put_all(sink, front.bytes()) else {
        return Err(Failed);
    };
    put_all(sink, body)
}
