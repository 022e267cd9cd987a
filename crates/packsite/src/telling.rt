//! What is said on standard error, beside the one line on standard output: a sentence for the person at the shell, with
//! the file or the word that is at fault. No program reads it; where it can't be said, the status stays.

use crate::JOURNAL;
use std::fs::{File, OpenOptions, TryLockError};
use std::rt::Files;

/// Says why the program ends with this status, after it has let its files go. Of status 0 it says nothing.
pub fn tell<R: Eprint + Files<File = File>>(rt: &R, status: u8, args: &[String]) {
    match status {
        2 => tell_words(rt, args),
        3 => say(
            rt,
            named_file(args),
            "is no site file: standard output has the number of its fault",
        ),
        4 => say(rt, JOURNAL, "is there already, and was left as it is"),
        5 => say(
            rt,
            JOURNAL,
            "holds no journal yet: `packsite init SITE` makes it",
        ),
        6 => say(
            rt,
            JOURNAL,
            "is damaged at the byte that standard output names, and was left as it is",
        ),
        7 => say(rt, named_file(args), "can't be read"),
        8 => say(rt, "standard output", "can't be written"),
        9 if is_in_use(rt) => say(rt, JOURNAL, "is in use by another packsite"),
        9 => say(rt, JOURNAL, "can't be read or written"),
        10 => say(rt, named_batch(args), "is no batch of the site"),
        11 => say(rt, "the program", "needs more memory than there is"),
        12 => say(
            rt,
            "the port",
            "couldn't be bound, or a connection at it couldn't be taken",
        ),
        13 => say(
            rt,
            "standard input",
            "has more bytes than the 2^40 that a run takes",
        ),
        _ => {}
    }
}

/// Says that the command line has a word that can't be read.
pub fn tell_unread_word<R: Eprint>(rt: &R) {
    say(rt, "a word of the command line", "isn't UTF-8");
}

/// Says what is wrong with the words.
fn tell_words<R: Eprint>(rt: &R, args: &[String]) {
    let Some(word) = args.first() else {
        return say(
            rt,
            "a command",
            "is missing: there are `init SITE`, `run`, `serve PORT WORKERS CONNECTIONS`, `report BATCH`, `export BATCH FROM COUNT`, `check`, `log FROM COUNT` and `sim SEED COUNT`",
        );
    };
    match word.as_str() {
        "init" => say(
            rt,
            "`init`",
            "takes one word more: a site file, whose name doesn't begin with `-`",
        ),
        "run" => say(rt, "`run`", "takes no further word"),
        "serve" => say(
            rt,
            "`serve`",
            "takes three words more: a port, 1 to 64 workers, and how many connections, up to 1000000",
        ),
        "report" => say(rt, "`report`", "takes one word more: the name of a batch"),
        "export" => say(
            rt,
            "`export`",
            "takes three words more: the name of a batch, the number of the first event, and how many, up to 10000",
        ),
        "check" => say(rt, "`check`", "takes no further word"),
        "log" => say(
            rt,
            "`log`",
            "takes two words more: the number of the first entry, and how many, up to 10000",
        ),
        "sim" => say(
            rt,
            "`sim`",
            "takes two words more: a seed, and how many serials, up to 200000",
        ),
        word => say(
            rt,
            word,
            "is no command: `packsite` alone says which there are",
        ),
    }
}

/// The file that the command reads: that of `init SITE`, or standard input.
fn named_file(args: &[String]) -> &str {
    match args.get(1) {
        Some(site) => site.as_str(),
        None => "standard input",
    }
}

/// The batch that the command names.
fn named_batch(args: &[String]) -> &str {
    match args.get(1) {
        Some(batch) => batch.as_str(),
        None => "the batch",
    }
}

/// Whether another process has the journal.
fn is_in_use<R: Files<File = File>>(rt: &R) -> bool {
    match OpenOptions::new().read(true).open(rt, JOURNAL) {
        Ok(file) => matches!(file.try_lock(), Err(TryLockError::WouldBlock)),
        Err(_) => false,
    }
}

fn say<R: Eprint>(rt: &R, what: &str, why: &str) {
    let _ = eprintln!(rt; "packsite: {what} {why}");
}
