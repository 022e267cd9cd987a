//! Pieces of texts: how they are made and put, and how the numbers of what a look asks for become places.
ghost use Rattle.std.specs.Prelude.{◌≡◌, ◌+◌, ◌-◌, ◌++◌, min, length, decimal, IfOk, OnOk};
ghost use Rattle.outside.specs.Causes.{HasCauseIf};
ghost use Rattle.outside.specs.Devices.{Puts};
ghost use Rattle.site_console.specs.Logs.{space};
ghost use Rattle.site_console.specs.Looks.{IsSaid};
ghost use Rattle.site_console.specs.Serving.{is_write_fault};

use crate::fault::Fault;
use crate::put::put_all;
use gs1_keys::Memory;
use itoa::Buffer;
use outside::Sink;
use site_core::Site;

/// Writes a number.
pub(crate) fn push_number(text: &mut Vec<u8>, number: u64) -> Result<(), Memory>
    ensures { OnOk result (text.new.items ≡ text.old.items ++ decimal number) }
{
    let mut digits = Buffer::new();
    text.extend_from_slice(digits.format(number).as_bytes())?;
    Ok(())
}

/// Writes words, and a number behind them.
pub(crate) fn push_count(text: &mut Vec<u8>, words: &[u8], number: u64) -> Result<(), Memory>
    ensures { OnOk result (text.new.items ≡ text.old.items ++ words.now ++ decimal number) }
{
    text.extend_from_slice(words)?;
    push_number(text, number)
}

/// Writes a space, and words behind it.
pub(crate) fn push_spaced(text: &mut Vec<u8>, words: &[u8]) -> Result<(), Memory>
    ensures { OnOk result (text.new.items ≡ text.old.items ++ space ++ words.now) }
{
    text.push(b' ')?;
    text.extend_from_slice(words)?;
    Ok(())
}

/// Puts a whole text.
pub(crate) fn put_text<O: Sink>(out: &mut O, text: &[u8]) -> Result<(), Fault>
    ensures said { Puts (O.held out.old) (O.held out.new) (λ put. IsSaid text.now result put) }
    ensures write { HasCauseIf (is_write_fault result) (O.write_faults out.old) (O.write_faults out.new) }
{
    match put_all(out, text) {
        Ok(()) => Ok(()),
        Err(_) => Err(Fault::Write),
    }
}

/// How many entries the site has, which are fewer than 2^32.
///
/// # Errors
///
/// `Memory` where they were more.
pub(crate) fn count_entries(site: &Site) -> Result<u32, Memory>
    ensures { IfOk result (λ count. count ≡ length site.now.history) }
{
    match u32::try_from(site.entries()) {
        Ok(count) => Ok(count),
        Err(_) => Err(Memory),
    }
}

/// The place of the thing with this number among so many, from 0, and their count where it is past them.
pub(crate) fn first_place(from: u32, all: u32) -> u32
    ensures { result ≡ min (from - 1) all }
{
    from.saturating_sub(1).min(all)
}

/// The place behind so many things from a place on, among so many.
pub(crate) fn past_place(first: u32, count: u32, all: u32) -> u32
    ensures { result ≡ min (first + count) all }
{
    match first.checked_add(count) {
        Some(past) => past.min(all),
        None => all,
    }
}
