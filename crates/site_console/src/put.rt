// Putting a whole text to a sink that may take it in parts.
ghost use Rattle.std.specs.Prelude.{List, ℕ};
ghost use Rattle.outside.specs.Causes.{HasCause};
ghost use Rattle.outside.specs.Devices.{Puts};
ghost use Rattle.site_console.specs.Puts.{IsPutOf};

use outside::{Failed, Sink};

pub fn put_all<O: Sink>(out: &mut O, text: &[u8]) -> Result<(), Failed>
    ensures put { Puts (O.held out.old) (O.held out.new) (λ put. IsPutOf text.now result put) }
    ensures cause { HasCause (O.write_faults out.old) (O.write_faults out.new) result }
{
    let mut rest = text;
    'parts: while !rest.is_empty() {
        let count = out.put(rest)?;
        rest = &rest[count..];
    }
    Ok(())
}
