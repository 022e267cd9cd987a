//! Packsite: the serialisation server of a packaging site. `packsite init SITE` makes the journal of a site file, and
//! `packsite run` answers each line of standard input, a request of a station in JSON, with one line on standard output.
//! `packsite serve PORT WORKERS CONNECTIONS` answers stations over HTTP, several at once. `packsite report BATCH`,
//! `export BATCH FROM COUNT`, `check` and `log FROM COUNT` tell what the journal holds, and `packsite sim SEED COUNT`
//! makes one of its own. The journal is `packsite.journal` in the working folder.
#![tactic(auto)]

ghost use Rattle.command_words.specs.Commands.{AreRanged};

mod telling;

use command_words::{ServeWords, serve_words};
use outside::{
    FileDisk, FileSource, RandomWords, Reading, Sink, SystemClock, Writing, take_standard_streams,
};
use site_console::{Ending, end_with, site_path, site_top};
use site_service::site_serve;
use site_store::Devices;
use std::fs::File;
use std::net::{Net, TcpListener, TcpStream};
use std::process::ExitCode;
use std::rt::{Env, Files};
use std::sync::Wait;
use std::thread::Threads;
use std::time::Clock;
use std::{env, fs, io};
use telling::{tell, tell_unread_word};
use worker_doors::open_doors;

/// The journal, in the working folder.
const JOURNAL: &str = "packsite.journal";

/// The status where the standard streams can't be had.
const INPUT_FAULT: u8 = 7;

fn main(rt: HostRuntime) -> ExitCode {
    ExitCode::from(run_program(&rt))
}

/// Runs the program over the real devices.
fn run_program<
    R: Env
        + Input
        + Print
        + Eprint
        + Files<File = File>
        + Clock
        + Net<Stream = TcpStream, Listener = TcpListener>
        + Threads
        + Wait
        + Sync
        + AllocGlobal,
>(rt: &R) -> u8 {
    if take_standard_streams(rt).is_err() {
        return INPUT_FAULT;
    }
    let mut out = Writing::new(io::writer(rt));
    match read_words(rt) {
        Ok(args) => {
            let status = match serve_words(rt.alloc(), &args) {
                Ok(Some(words)) => serve(rt, words, &mut out),
                Ok(None) => run_command(rt, &args, &mut out),
                Err(_) => end_with(&mut out, Ending::NoMemory),
            };
            tell(rt, status, &args);
            status
        }
        Err(Ending::BadWords) => {
            tell_unread_word(rt);
            end_with(&mut out, Ending::BadWords)
        }
        Err(ending) => {
            let status = end_with(&mut out, ending);
            tell(rt, status, &[]);
            status
        }
    }
}

/// Serves stations at the port, over the real devices, which it lets go.
#[tactic(auto, using(crate::proofs::Opening::unopened))]
fn serve<
    R: Files<File = File>
        + Clock
        + Net<Stream = TcpStream, Listener = TcpListener>
        + Threads
        + Wait
        + Sync
        + AllocGlobal,
    O: Sink,
>(rt: &R, words: ServeWords, out: &mut O) -> u8
    requires { AreRanged words }
{
    let Ok(doors) = open_doors(rt, words) else {
        return end_with(out, Ending::NoMemory);
    };
    let (status, _doors, _devices) = site_serve(rt, rt.alloc(), doors, out, open_devices(rt));
    status
}

/// Does what the words say, over the real devices, which it lets go.
fn run_command<R: Env + Input + Files<File = File> + Clock + AllocGlobal, O: Sink>(
    rt: &R,
    args: &[String],
    out: &mut O,
) -> u8 {
    let mut site = match site_path(rt.alloc(), args) {
        Ok(path) => FileSource::new(path.and_then(|path| fs::open(rt, path).ok())),
        Err(_) => return end_with(out, Ending::NoMemory),
    };
    let mut input = Reading::new(rt.reader());
    let devices = open_devices(rt);
    let (status, _devices) = site_top(rt.alloc(), args, &mut site, &mut input, out, devices);
    status
}

/// The journal, the system's clock and its random words.
fn open_devices<R: Files<File = File> + Clock>(
    rt: &R,
) -> Devices<FileDisk, SystemClock<'_, R>, RandomWords<File>> {
    Devices {
        disk: FileDisk::open(rt, ".", JOURNAL),
        clock: SystemClock::new(rt),
        words: RandomWords::new(fs::open(rt, "/dev/urandom").ok()),
    }
}

/// The words behind the program's name, or how the program ends without them.
fn read_words<R: Env + AllocGlobal>(rt: &R) -> Result<Vec<String>, Ending> {
    let words = match env::args(rt) {
        Ok(words) => words,
        Err(fault) if fault.kind() == io::ErrorKind::OutOfMemory => return Err(Ending::NoMemory),
        Err(_) => return Err(Ending::BadWords),
    };
    let mut args = Vec::new(rt.alloc());
    for word in words.skip(1) {
        if args.push(word).is_err() {
            return Err(Ending::NoMemory);
        }
    }
    Ok(args)
}
