//! The texts of the command line, as `clap` gives them.
ghost use Rattle.std.specs.Prelude.{◌≡◌, IfOk, MatchOption, map, false, true, string_bytes};
ghost use Rattle.std.specs.List.{list_all};
ghost use Rattle.clap.specs.Words.{app_of};
ghost use Rattle.command_words.specs.Texts.{five_texts, are_words, is_word, HasTexts};

use clap::error::ErrorKind;
use clap::{Arg, Command};
use gs1_keys::Memory;
use std::alloc::Global;

/// The texts of a command line, each at its place.
#[derive(Clone, Copy)]
pub(crate) struct Texts<'a> {
    pub first: Option<&'a str>,
    pub second: Option<&'a str>,
    pub third: Option<&'a str>,
    pub fourth: Option<&'a str>,
    pub fifth: Option<&'a str>,
}

/// The command: five optional texts.
fn command<'a>(alloc: Global) -> Result<Command<'a>, Memory>
    ensures { IfOk result (λ c. app_of c ≡ five_texts) }
{
    let empty = Command::new(alloc, "packsite").no_binary_name(true);
    let Ok(one) = empty.arg(Arg::new(alloc, "1")) else {
        return Err(Memory);
    };
    let Ok(two) = one.arg(Arg::new(alloc, "2")) else {
        return Err(Memory);
    };
    let Ok(three) = two.arg(Arg::new(alloc, "3")) else {
        return Err(Memory);
    };
    let Ok(four) = three.arg(Arg::new(alloc, "4")) else {
        return Err(Memory);
    };
    let Ok(five) = four.arg(Arg::new(alloc, "5")) else {
        return Err(Memory);
    };
    Ok(five)
}

/// The texts of words that are one to five, none empty and none with a hyphen in front. Want of memory is the one thing
/// for which `clap` refuses such words.
fn read_texts<'a>(alloc: Global, args: &'a [String]) -> Result<Texts<'a>, Memory>
    requires { are_words (map string_bytes args.now) ≡ true }
    ensures { IfOk result (HasTexts (map string_bytes args.entry.now)) }
{
    let command = command(alloc)?;
    match command.try_get_matches_from(args) {
        Ok(matches) => Ok(Texts {
            first: matches.get_str("1"),
            second: matches.get_str("2"),
            third: matches.get_str("3"),
            fourth: matches.get_str("4"),
            fifth: matches.get_str("5"),
        }),
        Err(error) => match error.kind() {
            ErrorKind::OutOfMemory => Err(Memory),
            _ => unreachable!(),
        },
    }
}

/// Whether the word isn't empty and has no hyphen in front.
fn is_good(word: &str) -> bool
    ensures { result ≡ is_word word.now }
{
    match word.as_bytes().first() {
        Some(byte) => *byte != b'-',
        None => false,
    }
}

fn all_good(args: &[String]) -> bool
    ensures { result ≡ list_all (λ word. is_word (string_bytes word)) args.now }
{
    args.iter().all(|word| is_good(word.as_str()))
}

/// Whether the words are one to five, none empty and none with a hyphen in front.
fn are_good(args: &[String]) -> bool
    ensures { result ≡ are_words (map string_bytes args.now) }
{
    if args.is_empty() {
        return false;
    }
    if args.len() > 5 {
        return false;
    }
    all_good(args)
}

/// The texts of the words. It is None exactly where they aren't one to five, each with something in it and no hyphen in
/// front.
///
/// # Errors
///
/// `Memory` where no memory was found.
pub(crate) fn texts_of<'a>(alloc: Global, args: &'a [String]) -> Result<Option<Texts<'a>>, Memory>
    ensures { IfOk result (λ texts. MatchOption texts (are_words (map string_bytes args.entry.now) ≡ false) (λ found. (are_words (map string_bytes args.entry.now) ≡ true) × HasTexts (map string_bytes args.entry.now) found)) }
{
    if !are_good(args) {
        return Ok(None);
    }
    Ok(Some(read_texts(alloc, args)?))
}
