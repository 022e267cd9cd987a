//! Answering one line.
ghost use Rattle.std.specs.Prelude.{◌≡◌, ◌<◌, ◌++◌, ◌∷◌, [], List, ℕ, Ok, Err, IfOk, length, string_bytes};
ghost use Rattle.serde_json.specs.Written.{compact_text};
ghost use Rattle.deed_words.specs.Proper.{IsProperAsk};
ghost use Rattle.deed_json.specs.Unkept.{unkept_data};
ghost use Rattle.site_store.specs.Moved.{TakesBoth};
ghost use Rattle.site_store.specs.Open.{store_state};
ghost use Rattle.site_console.specs.Answers.{AnswersLine, Blames, IsPrintable, IsPrintableOutcome, answer_text, outcome_text};
ghost use Rattle.site_console.specs.Lines.{IsHeld};
ghost use Rattle.site_console.specs.Newline.{newline};
ghost use Rattle.site_console.specs.Open.{Stands, counts_of};
ghost use Rattle.site_console.specs.Turns.{TurnsTo};

use crate::lines::Line;
use crate::request::turn;
use deed_json::{AskFault, Unkept, read_ask, replies_name_stations, reply_text, unkept_text};
use deed_words::{Ask, Setup, numbers_mean_one_thing};
use gs1_keys::Memory;
use outside::{Clock, Disk, Words};
use site_store::{Outcome, Store};
use std::alloc::Global;

/// What comes of a line.
#[derive(Debug, Drop)]
pub enum Answer {
    /// The line has more than 1,048,576 bytes.
    TooLong,
    /// The line asks for nothing, for this reason, which isn't `AskFault::Memory`.
    Unasked(AskFault),
    /// Memory was wanting before a request was made of the line.
    NoMemory,
    /// The store answered the request.
    Came(Outcome),
}

/// Answers a line, by a step of the store where it reads as a request.
pub fn answer_line<D: Disk, C: Clock, W: Words>(
    alloc: Global,
    store: &mut Store<D, C, W>,
    line: &Line,
) -> Answer
    requires stands { Stands D.Disk C.Clock W.Words store.old }
    ensures answer { (text : List ℕ) → IsHeld line.now text
        → TakesBoth (C.moments_left store.old.clock) (C.moments_left store.new.clock) (W.words_left store.old.words) (W.words_left store.new.words)
        (λ taken. AnswersLine store.old.site.setup (store_state store.old) text result taken (store_state store.new)) }
    ensures blames { Blames result (store_state store.new).pending (counts_of D.Disk C.Clock W.Words store.old.journal.disk store.old.clock store.old.words)
        (counts_of D.Disk C.Clock W.Words store.new.journal.disk store.new.clock store.new.words) }
    ensures printable { IsPrintable store.new.site.setup result }
    ensures setup { store.new.site.setup ≡ store.old.site.setup }
    ensures opened { (store.new.opening ≡ store.old.opening) × (store.new.opened ≡ store.old.opened) }
    ensures stands { Stands D.Disk C.Clock W.Words store.new }
{
    let Line::Held(bytes) = line else {
        return Answer::TooLong;
    };
    match read_ask(alloc, store.site().setup(), bytes) {
        Ok(ask) => Answer::Came(answer_ask(store, ask)),
        Err(AskFault::Memory) => Answer::NoMemory,
        Err(fault) => Answer::Unasked(fault),
    }
}

/// Answers a request of a station of the setup. Its reply, if it gets one, names stations of the setup alone.
fn answer_ask<D: Disk, C: Clock, W: Words>(store: &mut Store<D, C, W>, ask: Ask) -> Outcome
    requires station { ask.station < length store.old.site.setup.stations }
    requires proper { IsProperAsk ask }
    requires stands { Stands D.Disk C.Clock W.Words store.old }
    ensures turns { TakesBoth (C.moments_left store.old.clock) (C.moments_left store.new.clock) (W.words_left store.old.words) (W.words_left store.new.words)
        (λ taken. TurnsTo store.old.site.setup (store_state store.old) ask taken result (store_state store.new)) }
    ensures blames { Blames (Answer.Came result) (store_state store.new).pending (counts_of D.Disk C.Clock W.Words store.old.journal.disk store.old.clock store.old.words)
        (counts_of D.Disk C.Clock W.Words store.new.journal.disk store.new.clock store.new.words) }
    ensures printable { IsPrintableOutcome store.new.site.setup result }
    ensures setup { store.new.site.setup ≡ store.old.site.setup }
    ensures opened { (store.new.opening ≡ store.old.opening) × (store.new.opened ≡ store.old.opened) }
    ensures stands { Stands D.Disk C.Clock W.Words store.new }
{
    replies_name_stations();
    numbers_mean_one_thing();
    let outcome = turn(store, ask);
    store.site().tell_kept();
    outcome
}

/// The answer as a line: compact JSON and a newline.
#[tactic(auto, unfolding(crate::specs::Answers::answer_text))]
pub fn print(alloc: Global, setup: &Setup, answer: &Answer) -> Result<String, Memory>
    requires { IsPrintable setup.now answer.now }
    ensures { IfOk result (λ line. string_bytes line ≡ answer_text setup.now answer.now ++ newline ∷ []) }
{
    match answer {
        Answer::TooLong => told(alloc, Unkept::LineTooLong),
        Answer::Unasked(fault) => told(alloc, Unkept::from(*fault)),
        Answer::NoMemory => told(alloc, Unkept::Memory),
        Answer::Came(outcome) => print_outcome(alloc, setup, outcome),
    }
}

/// What came of a request as a line.
#[tactic(auto, unfolding(crate::specs::Answers::outcome_text))]
fn print_outcome(alloc: Global, setup: &Setup, outcome: &Outcome) -> Result<String, Memory>
    requires { IsPrintableOutcome setup.now outcome.now }
    ensures { IfOk result (λ line. string_bytes line ≡ outcome_text setup.now outcome.now ++ newline ∷ []) }
{
    match outcome {
        Outcome::Replied(reply) => ended(reply_text(alloc, reply, setup)?),
        Outcome::NumberReused => told(alloc, Unkept::NumberReused),
        Outcome::NumberGap(last) => told(alloc, Unkept::NumberGap(*last)),
        Outcome::DiskFault => told(alloc, Unkept::DiskFault),
        Outcome::ClockFault => told(alloc, Unkept::ClockFault),
        Outcome::ClockRange(ms) => told(alloc, Unkept::ClockRange(*ms)),
        Outcome::WordsFault => told(alloc, Unkept::WordsFault),
        Outcome::WordsSpent(found) => told(alloc, Unkept::WordsSpent(*found)),
        Outcome::JournalFull(end, asked) => told(
            alloc,
            Unkept::JournalFull {
                end: *end,
                asked: *asked,
            },
        ),
        Outcome::Memory => told(alloc, Unkept::Memory),
    }
}

/// The text with a newline behind it.
fn ended(text: String) -> Result<String, Memory>
    ensures { IfOk result (λ line. string_bytes line ≡ string_bytes text ++ newline ∷ []) }
{
    let mut line = text;
    match line.push('\n') {
        Ok(()) => Ok(line),
        Err(_) => Err(Memory),
    }
}

/// The line of what isn't kept.
fn told(alloc: Global, unkept: Unkept) -> Result<String, Memory>
    ensures { IfOk result (λ line. string_bytes line ≡ compact_text (unkept_data unkept) ++ newline ∷ []) }
{
    ended(unkept_text(alloc, unkept)?)
}
