//! The words of the command line.
ghost use Rattle.std.specs.Prelude.{◌≡◌, ◌≢◌, IfOk, None, Some, map, option_map, slice_get, string_bytes};
ghost use Rattle.command_words.specs.Commands.{command_of};
ghost use Rattle.command_words.specs.declared.command.Command.TheVariants.{Init};

use command_words::{Command, read_command};
use gs1_keys::Memory;
use std::alloc::Global;

/// Where the site file lies, where the words are `init SITE`.
///
/// # Errors
///
/// `Memory` where no memory was found to read the words.
pub fn site_path<'a>(alloc: Global, args: &'a [String]) -> Result<Option<&'a str>, Memory>
    ensures named { command_of (map string_bytes args.entry.now) ≡ Some Init → IfOk result (λ path. option_map (λ s. s.now) path ≡ slice_get (map string_bytes args.entry.now) 1) }
    ensures none { command_of (map string_bytes args.entry.now) ≢ Some Init → IfOk result (λ path. path ≡ None) }
{
    let command = read_command(alloc, args)?;
    if command == Some(Command::Init) {
        Ok(second(args))
    } else {
        Ok(None)
    }
}

/// The second word, if there is one.
fn second(args: &[String]) -> Option<&str>
    ensures { option_map (λ s. s.now) result ≡ slice_get (map string_bytes args.entry.now) 1 }
{
    match args.get(1) {
        Some(word) => Some(word.as_str()),
        None => None,
    }
}
