//! The program's one call.
ghost use Rattle.std.specs.Prelude.{◌≡◌, ◌≤◌, ◌⊎◌, Some, IsSomeAnd, map, string_bytes, true};
ghost use Rattle.command_words.specs.Commands.{IsRanged, command_of};
ghost use Rattle.command_words.specs.declared.command.Command.TheVariants.{Init, Run};
ghost use Rattle.site_console.specs.Commands.{is_refused};
ghost use Rattle.site_console.specs.Endings.{fault_line, status_of};
ghost use Rattle.site_console.specs.Top.{CanInit, CanRun, is_look, IsDone, IsLoadable, IsLooked, IsStatus, NoneFailed, Obeys, Session, Top};

use crate::ending::Ending;
use crate::fault_line::end_with;
use crate::look::{Look, look_store};
use crate::sessions::{make_store, run_store};
use crate::simulating::simulate_store;
use command_words::{Command, read_command};
use outside::{Clock, Disk, Sink, Source, Words};
use site_store::{Devices, one_history};
use std::alloc::Global;

/// Runs the program with the words of its command line, and answers its status with the devices. `init SITE` reads the
/// site file from `site` and makes the journal; `run` loads the journal and answers each line of the input; `report`,
/// `export`, `check` and `log` load it and put what they tell of its history.
pub fn site_top<S: Source, I: Source, O: Sink, D: Disk, C: Clock, W: Words>(
    alloc: Global,
    args: &[String],
    site: &mut S,
    input: &mut I,
    out: &mut O,
    devices: Devices<D, C, W>,
) -> (u8, Devices<D, C, W>)
    ensures statuses { IsStatus result.0 }

    // The words are refused exactly where they are those of no command, or of `serve`, which several workers
    // do; or memory is wanting. Then no device was called, but for the fault's line.
    ensures bad_words { result.0 ≡ 2 → is_refused (command_of (map string_bytes args.now)) ≡ true }
    ensures refused { is_refused (command_of (map string_bytes args.now)) ≡ true
        → ((result.0 ≡ 2) ⊎ (result.0 ≡ 11)) × (site.new ≡ site.old) × (input.new ≡ input.old) × (result.1 ≡ devices) }

    ensures session { Top D.Disk C.Clock W.Words (command_of (map string_bytes args.now)) devices result.1
        (record { bytes = S.left site.old; faults = S.read_faults site.old }) (record { bytes = S.left site.new; faults = S.read_faults site.new })
        (record { bytes = I.left input.old; faults = I.read_faults input.old }) (record { bytes = I.left input.new; faults = I.read_faults input.new })
        (record { bytes = O.held out.old; faults = O.write_faults out.old }) (record { bytes = O.held out.new; faults = O.write_faults out.new }) result.0 }

    // Where no device fails, a run over a loadable journal answers all of an input that isn't too long, and a site file that
    // says a setup becomes a journal where none is; or memory is wanting.
    ensures runs { command_of (map string_bytes args.now) ≡ Some Run
        → NoneFailed (D.disk_faults devices.disk) (D.disk_faults result.1.disk) (I.read_faults input.old) (I.read_faults input.new) (O.write_faults out.old) (O.write_faults out.new)
        → CanRun (D.content devices.disk) (I.left input.old) → IsDone result.0 }
    ensures inits { command_of (map string_bytes args.now) ≡ Some Init
        → NoneFailed (D.disk_faults devices.disk) (D.disk_faults result.1.disk) (S.read_faults site.old) (S.read_faults site.new) (O.write_faults out.old) (O.write_faults out.new)
        → CanInit (D.content devices.disk) (S.left site.old) → IsDone result.0 }
    // .. And a look at a loadable journal puts its whole text, or finds no such batch.
    ensures looks { is_look (command_of (map string_bytes args.now)) ≡ true
        → NoneFailed (D.disk_faults devices.disk) (D.disk_faults result.1.disk) (I.read_faults input.old) (I.read_faults input.new) (O.write_faults out.old) (O.write_faults out.new)
        → IsSomeAnd (D.content devices.disk) IsLoadable → IsLooked result.0 }
{
    one_history();
    let (ending, devices) = obey(alloc, args, site, input, out, devices);
    (end_with(out, ending), devices)
}

/// Does what the words say.
fn obey<S: Source, I: Source, O: Sink, D: Disk, C: Clock, W: Words>(
    alloc: Global,
    args: &[String],
    site: &mut S,
    input: &mut I,
    out: &mut O,
    devices: Devices<D, C, W>,
) -> (Ending, Devices<D, C, W>)
    ensures session { Obeys D.Disk C.Clock W.Words (command_of (map string_bytes args.now)) devices result.1
        (record { bytes = S.left site.old; faults = S.read_faults site.old }) (record { bytes = S.left site.new; faults = S.read_faults site.new })
        (record { bytes = I.left input.old; faults = I.read_faults input.old }) (record { bytes = I.left input.new; faults = I.read_faults input.new })
        (record { bytes = O.held out.old; faults = O.write_faults out.old }) (record { bytes = O.held out.new; faults = O.write_faults out.new }) result.0 }
    ensures refused { is_refused (command_of (map string_bytes args.now)) ≡ true → (site.new ≡ site.old) × (input.new ≡ input.old) × (result.1 ≡ devices) }
{
    match read_command(alloc, args) {
        Ok(Some(command)) => carry_out(alloc, command, site, input, out, devices),
        Ok(None) => (Ending::BadWords, devices),
        Err(_) => (Ending::NoMemory, devices),
    }
}

/// Carries out a command; `serve`, which several workers do, is refused as other words are.
fn carry_out<S: Source, I: Source, O: Sink, D: Disk, C: Clock, W: Words>(
    alloc: Global,
    command: Command,
    site: &mut S,
    input: &mut I,
    out: &mut O,
    devices: Devices<D, C, W>,
) -> (Ending, Devices<D, C, W>)
    requires ranged { IsRanged command }
    ensures session { Session D.Disk C.Clock W.Words (Some command) devices result.1
        (record { bytes = S.left site.old; faults = S.read_faults site.old }) (record { bytes = S.left site.new; faults = S.read_faults site.new })
        (record { bytes = I.left input.old; faults = I.read_faults input.old }) (record { bytes = I.left input.new; faults = I.read_faults input.new })
        (record { bytes = O.held out.old; faults = O.write_faults out.old }) (record { bytes = O.held out.new; faults = O.write_faults out.new }) result.0 }
    ensures refused { is_refused (Some command) ≡ true → (site.new ≡ site.old) × (input.new ≡ input.old) × (result.1 ≡ devices) }
{
    match command {
        Command::Init => make_store(alloc, site, out, devices),
        Command::Run => run_store(alloc, input, out, devices),
        Command::Report { batch } => look_store(alloc, Look::Report(batch), out, devices),
        Command::Export { batch, from, count } => {
            look_store(alloc, Look::Export(batch, from, count), out, devices)
        }
        Command::Check => look_store(alloc, Look::Check, out, devices),
        Command::Log { from, count } => look_store(alloc, Look::Log(from, count), out, devices),
        Command::Simulate { seed, count } => simulate_store(alloc, seed, count, out, devices),
        Command::Serve(_) => (Ending::BadWords, devices),
    }
}
