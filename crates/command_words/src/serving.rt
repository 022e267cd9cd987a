//! The words of `serve`.
ghost use Rattle.std.specs.Prelude.{◌≡◌, IfOk, IfSome, map, string_bytes};
ghost use Rattle.command_words.specs.Commands.{AreRanged, serving_of};

use crate::command::{Command, ServeWords};
use crate::reading::read_command;
use gs1_keys::Memory;
use std::alloc::Global;

/// The numbers of `serve PORT WORKERS CONNECTIONS`. It is None exactly where the words aren't those of `serve`.
///
/// # Errors
///
/// `Memory` where no memory was found.
pub fn serve_words(alloc: Global, args: &[String]) -> Result<Option<ServeWords>, Memory>
    ensures is { IfOk result (λ words. words ≡ serving_of (map string_bytes args.entry.now)) }
    ensures ranged { IfOk result (λ words. IfSome words AreRanged) }
{
    match read_command(alloc, args)? {
        Some(Command::Serve(words)) => Ok(Some(words)),
        _ => Ok(None),
    }
}
