//! Commands, read from the texts of the command line.
ghost use Rattle.std.specs.Prelude.{◌≡◌, ◌≤◌, IfOk, IfSome, map, option_map, string_bytes};
ghost use Rattle.command_words.specs.Commands.{IsRanged, command_of, end_at, export_in, init_in, log_in, name_in, named, ranged, report_in, serve_in, simulate_in};

use crate::command::{Command, ServeWords};
use crate::texts::texts_of;
use gs1_keys::{Memory, Text20};
use numerals::number;
use std::alloc::Global;

/// A name of 1 to 20 characters.
fn name(word: &str) -> Option<Text20>
    ensures { result ≡ name_in word.now }
{
    match Text20::read(word.as_bytes()) {
        Ok(name) => Some(name),
        Err(_) => None,
    }
}

/// The number of 1 to 10 digits from `low` to `high`.
#[tactic(auto, unfolding(crate::specs::Commands::ranged))]
fn number_between(word: &str, low: u32, high: u32) -> Option<u32>
    ensures is { result ≡ ranged low high word.now }
    ensures within { IfSome result (λ n. (low ≤ n) × (n ≤ high)) }
{
    let number = number(word.as_bytes(), 10)?;
    if number < u64::from(low) || number > u64::from(high) {
        return None;
    }
    Some(number as u32)
}

/// The command, where no word is left.
fn ends(after: Option<&str>, command: Command) -> Option<Command>
    requires { IsRanged command }
    ensures is { result ≡ end_at (option_map (λ s. s.now) after.entry) command }
    ensures ranged { IfSome result IsRanged }
{
    match after {
        None => Some(command),
        Some(_) => None,
    }
}

fn init(site: Option<&str>, after: Option<&str>) -> Option<Command>
    ensures is { result ≡ init_in (option_map (λ s. s.now) site.entry) (option_map (λ s. s.now) after.entry) }
    ensures ranged { IfSome result IsRanged }
{
    match site {
        Some(_) => ends(after, Command::Init),
        None => None,
    }
}

#[tactic(auto, unfolding(crate::specs::Commands::report_in))]
fn report(batch: Option<&str>, after: Option<&str>) -> Option<Command>
    ensures is { result ≡ report_in (option_map (λ s. s.now) batch.entry) (option_map (λ s. s.now) after.entry) }
    ensures ranged { IfSome result IsRanged }
{
    let batch = name(batch?)?;
    ends(after, Command::Report { batch })
}

#[tactic(auto, unfolding(crate::specs::Commands::export_in))]
fn export(
    batch: Option<&str>,
    from: Option<&str>,
    count: Option<&str>,
    after: Option<&str>,
) -> Option<Command>
    ensures is { result ≡ export_in (option_map (λ s. s.now) batch.entry) (option_map (λ s. s.now) from.entry) (option_map (λ s. s.now) count.entry) (option_map (λ s. s.now) after.entry) }
    ensures ranged { IfSome result IsRanged }
{
    let batch = name(batch?)?;
    let from = number_between(from?, 1, u32::MAX)?;
    let count = number_between(count?, 1, 10_000)?;
    ends(after, Command::Export { batch, from, count })
}

#[tactic(auto, unfolding(crate::specs::Commands::log_in))]
fn log(from: Option<&str>, count: Option<&str>, after: Option<&str>) -> Option<Command>
    ensures is { result ≡ log_in (option_map (λ s. s.now) from.entry) (option_map (λ s. s.now) count.entry) (option_map (λ s. s.now) after.entry) }
    ensures ranged { IfSome result IsRanged }
{
    let from = number_between(from?, 1, u32::MAX)?;
    let count = number_between(count?, 1, 10_000)?;
    ends(after, Command::Log { from, count })
}

#[tactic(auto, unfolding(crate::specs::Commands::simulate_in))]
fn simulate(seed: Option<&str>, count: Option<&str>, after: Option<&str>) -> Option<Command>
    ensures is { result ≡ simulate_in (option_map (λ s. s.now) seed.entry) (option_map (λ s. s.now) count.entry) (option_map (λ s. s.now) after.entry) }
    ensures ranged { IfSome result IsRanged }
{
    let seed = number_between(seed?, 0, u32::MAX)?;
    let count = number_between(count?, 1, 200_000)?;
    ends(after, Command::Simulate { seed, count })
}

#[tactic(auto, unfolding(crate::specs::Commands::serve_in))]
fn serve(
    port: Option<&str>,
    workers: Option<&str>,
    connections: Option<&str>,
    after: Option<&str>,
) -> Option<Command>
    ensures is { result ≡ serve_in (option_map (λ s. s.now) port.entry) (option_map (λ s. s.now) workers.entry) (option_map (λ s. s.now) connections.entry) (option_map (λ s. s.now) after.entry) }
    ensures ranged { IfSome result IsRanged }
{
    let port = number_between(port?, 1, 65_535)? as u16;
    let workers = number_between(workers?, 1, 64)? as u8;
    let connections = number_between(connections?, 1, 1_000_000)?;
    ends(
        after,
        Command::Serve(ServeWords {
            port,
            workers,
            connections,
        }),
    )
}

/// The command of this name, with the words behind it.
#[tactic(auto, unfolding(crate::specs::Commands::named))]
fn command_named(
    name: &str,
    second: Option<&str>,
    third: Option<&str>,
    fourth: Option<&str>,
    fifth: Option<&str>,
) -> Option<Command>
    ensures is { result ≡ named name.now (option_map (λ s. s.now) second.entry) (option_map (λ s. s.now) third.entry) (option_map (λ s. s.now) fourth.entry) (option_map (λ s. s.now) fifth.entry) }
    ensures ranged { IfSome result IsRanged }
{
    match name {
        "init" => init(second, third),
        "run" => ends(second, Command::Run),
        "report" => report(second, third),
        "export" => export(second, third, fourth, fifth),
        "check" => ends(second, Command::Check),
        "log" => log(second, third, fourth),
        "sim" => simulate(second, third, fourth),
        "serve" => serve(second, third, fourth, fifth),
        _ => None,
    }
}

/// The command of the words behind the program's name. It is None exactly where they aren't those of a command: one to
/// five words, none empty and none with a hyphen in front, the first the command's name, as many behind it as it takes,
/// names of 1 to 20 characters, numbers of 1 to 10 digits in their ranges.
///
/// # Errors
///
/// `Memory` where no memory was found.
#[tactic(auto, unfolding(crate::specs::Commands::command_of))]
pub fn read_command(alloc: Global, args: &[String]) -> Result<Option<Command>, Memory>
    ensures is { IfOk result (λ command. command ≡ command_of (map string_bytes args.entry.now)) }
    ensures ranged { IfOk result (λ command. IfSome command IsRanged) }
{
    let Some(texts) = texts_of(alloc, args)? else {
        return Ok(None);
    };
    let Some(name) = texts.first else {
        return Ok(None);
    };
    Ok(command_named(name, texts.second, texts.third, texts.fourth, texts.fifth))
}
