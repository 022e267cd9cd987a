//! The line of a fault.
ghost use Rattle.std.specs.Prelude.{◌≡◌, ◌≤◌, ◌++◌, ◌∷◌, [], List, ℕ, decimal};
ghost use Rattle.outside.specs.Causes.{HasCause};
ghost use Rattle.outside.specs.Devices.{Puts};
ghost use Rattle.site_console.specs.Endings.{Tells, fault_line, status_of};
ghost use Rattle.site_console.specs.Newline.{newline};
ghost use Rattle.site_console.specs.Puts.{IsPutOf};

use crate::ending::{Ending, status_of};
use crate::put::put_all;
use itoa::Buffer;
use outside::{Failed, Sink};

/// Ends the program: puts the line of its fault, of which no fault is told, and gives its status.
pub fn end_with<O: Sink>(out: &mut O, ending: Ending) -> u8
    ensures status { result ≡ status_of ending }
    ensures tells { Puts (O.held out.old) (O.held out.new) (Tells (fault_line ending) (O.write_faults out.old) (O.write_faults out.new)) }
    ensures later { O.write_faults out.old ≤ O.write_faults out.new }
{
    tell(out, ending);
    status_of(ending)
}

/// Puts the line of a fault.
fn tell<O: Sink>(out: &mut O, ending: Ending)
    ensures tells { Puts (O.held out.old) (O.held out.new) (Tells (fault_line ending) (O.write_faults out.old) (O.write_faults out.new)) }
    ensures later { O.write_faults out.old ≤ O.write_faults out.new }
{
    match ending {
        Ending::Unreadable(kind) => tell_number(out, b"site unreadable: ", kind as u64),
        Ending::JournalBad(place) => tell_number(out, b"journal bad at ", place),
        Ending::Done | Ending::WriteFault => tell_line(out, b""),
        Ending::BadWords => tell_line(out, b"bad words\n"),
        Ending::JournalThere => tell_line(out, b"journal there\n"),
        Ending::NoJournal => tell_line(out, b"no journal\n"),
        Ending::ReadFault => tell_line(out, b"input fault\n"),
        Ending::DiskFault => tell_line(out, b"disk fault\n"),
        Ending::UnknownBatch => tell_line(out, b"unknown batch\n"),
        Ending::NoMemory => tell_line(out, b"want of memory\n"),
        Ending::DoorFault => tell_line(out, b"door fault\n"),
        Ending::TooLong => tell_line(out, b"input too long\n"),
    }
}

fn tell_line<O: Sink>(out: &mut O, line: &[u8])
    ensures tells { Puts (O.held out.old) (O.held out.new) (Tells line.now (O.write_faults out.old) (O.write_faults out.new)) }
    ensures later { O.write_faults out.old ≤ O.write_faults out.new }
{
    let _ = put_all(out, line);
}

fn tell_number<O: Sink>(out: &mut O, words: &[u8], number: u64)
    ensures tells { Puts (O.held out.old) (O.held out.new) (Tells (words.now ++ decimal number ++ newline ∷ []) (O.write_faults out.old) (O.write_faults out.new)) }
    ensures later { O.write_faults out.old ≤ O.write_faults out.new }
{
    let _ = put_number(out, words, number);
}

/// Puts words, a number behind them, and a newline. It takes no memory.
fn put_number<O: Sink>(out: &mut O, words: &[u8], number: u64) -> Result<(), Failed>
    ensures put { Puts (O.held out.old) (O.held out.new) (λ put. IsPutOf (words.now ++ decimal number ++ newline ∷ []) result put) }
    ensures cause { HasCause (O.write_faults out.old) (O.write_faults out.new) result }
{
    put_all(out, words)?;
    put_digits(out, number)
}

/// Puts a number and a newline.
fn put_digits<O: Sink>(out: &mut O, number: u64) -> Result<(), Failed>
    ensures put { Puts (O.held out.old) (O.held out.new) (λ put. IsPutOf (decimal number ++ newline ∷ []) result put) }
    ensures cause { HasCause (O.write_faults out.old) (O.write_faults out.new) result }
{
    let mut digits = Buffer::new();
    put_all(out, digits.format(number).as_bytes())?;
    put_all(out, b"\n")
}
