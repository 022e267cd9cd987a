//! A list of notes as the value, on which workers post.
ghost use Rattle.std.specs.Prelude.{◌≡◌, ℕ, ◌<◌, ◌≤◌, ◌^◌, [], ◌∷◌, ◌++◌, length, map, vec_len, MatchOption, slice_index_or};
ghost use Rattle.deed_words.specs.declared.entry.Note.TheVariants.{Done};
ghost use Rattle.turn_desk.specs.Rule.{no_origin};
ghost use Rattle.turn_desk.specs.Tokens.{IsCrew, Token};

use deed_words::Note;
use std::alloc::Global;
use std::process::Abort;
use std::sync::Wait;
use std::thread;
use std::thread::Threads;
use turn_desk::{Desk, Job, Pass, Stands};

#[derive(Drop)]
struct Board {
    notes: Vec<Note>,
}

impl Stands for Board {
    ghost origin = { λ _. no_origin };

    ghost noted = { λ b. map (λ n. record { note = n; group = [] }) b.notes.items };

    ghost sound = { λ _. Unit {0} };

    fn count(&self) -> u64 {
        self.notes.len() as u64
    }
}

/// Adds a note with its place, and answers it.
#[derive(Drop)]
struct Post;

impl Job<Board> for Post {
    type Answer = Option<u64>;

    ghost relates = { λ _ worker _ xs ys answer. MatchOption answer (ys ≡ xs) (λ n. (n ≡ length xs) × (ys ≡ xs ++ record { note = Done n worker; group = [] } ∷ [])) };

    fn work(&mut self, worker: u8, board: &mut Board) -> Option<u64> {
        let place = board.notes.len();
        if place >= 1 << 32 || board.notes.reserve(1).is_err() {
            return None;
        }
        board.notes.push_reserved(Note::Done(place as u32, worker));
        Some(place as u64)
    }
}

/// Counts the notes.
#[derive(Drop)]
struct Count;

impl Job<Board> for Count {
    type Answer = u64;

    ghost relates = { λ _ _ _ xs ys answer. (ys ≡ xs) × (answer ≡ length xs) };

    fn work(&mut self, _worker: u8, board: &mut Board) -> u64 {
        board.notes.len() as u64
    }
}

/// A worker's posts, until it has had so many turns.
fn post_until<R: Wait>(rt: &R, desk: &Desk<Board>, pass: &mut Pass, turns: u64)
    requires own { pass.old.desk ≡ desk.now }
    requires few { turns ≤ 2 ^ 57 }
    ensures desk { pass.new.desk ≡ pass.old.desk }
    ensures worker { pass.new.worker ≡ pass.old.worker }
    ensures last { pass.new.last ≡ pass.old.last }
{
    while pass.turns() < turns {
        desk.turn(rt, pass, &mut Post);
    }
}

/// All workers post, each in a thread of its own.
fn post_all<R: Threads + Wait + Sync>(rt: &R, desk: &Desk<Board>, passes: &mut [Pass], turns: u64)
    requires own { (k : ℕ) (x : Token) → k < length passes.old → (slice_index_or passes.old k x).desk ≡ desk.now }
    requires few { turns ≤ 2 ^ 57 }
    requires some { 0 < length passes.old }
    ensures long { length passes.new ≡ length passes.old }
    ensures each { (k : ℕ) (x : Token) → k < length passes.old → ((slice_index_or passes.new k x).desk ≡ (slice_index_or passes.old k x).desk) × ((slice_index_or passes.new k x).worker ≡ (slice_index_or passes.old k x).worker) × ((slice_index_or passes.new k x).last ≡ (slice_index_or passes.old k x).last) }
{
    let workers = passes.len();
    thread::for_each_mut(
        rt,
        passes,
        workers,
        &|_, pass| post_until(rt, desk, pass, turns),
    );
}

/// The same, for all passes of the desk.
fn post_each<R: Threads + Wait + Sync>(
    rt: &R,
    desk: &Desk<Board>,
    passes: &mut Vec<Pass>,
    turns: u64,
)
    requires crew { IsCrew desk.now passes.old.items }
    requires few { turns ≤ 2 ^ 57 }
    requires some { 0 < vec_len passes.old }
    ensures long { vec_len passes.new ≡ vec_len passes.old }
    ensures crew { IsCrew desk.now passes.new.items }
{
    post_all(rt, desk, passes.as_mut_slice(), turns);
}

/// The board of a desk at which so many workers had so many turns each.
fn posted<R: Threads + Wait + Sync>(rt: &R, alloc: Global, workers: u8, turns: u64) -> Option<Board>
    requires workers { (0 < workers) × (workers ≤ 64) }
    requires few { turns ≤ 2 ^ 57 }
{
    let board = Board {
        notes: Vec::new(alloc),
    };
    let (desk, mut passes) = Desk::start(alloc, board, workers).ok()?;
    post_each(rt, &desk, &mut passes, turns);
    Some(desk.close(passes))
}

/// A turn of the worker of that number, unless it had 1,000.
fn post_at<R: Wait>(
    rt: &R,
    desk: &Desk<Board>,
    passes: &mut Vec<Pass>,
    worker: usize,
) -> Option<u64>
    requires crew { IsCrew desk.now passes.old.items }
    requires here { worker < vec_len passes.old }
    ensures crew { IsCrew desk.now passes.new.items }
    ensures long { vec_len passes.new ≡ vec_len passes.old }
{
    let pass = &mut passes[worker];
    if pass.turns() >= 1000 {
        return None;
    }
    desk.turn(rt, pass, &mut Post)
}

/// The notes of a desk at which two workers had turns in this order, and the answers.
fn in_order<R: Wait>(
    rt: &R,
    alloc: Global,
    order: &[bool],
    answers: &mut Vec<Option<u64>>,
) -> Option<Vec<Note>> {
    let board = Board {
        notes: Vec::new(alloc),
    };
    let (desk, mut passes) = Desk::start(alloc, board, 2).ok()?;
    for at in 0..order.len() {
        let worker = if order[at] { 1 } else { 0 };
        let answer = post_at(rt, &desk, &mut passes, worker);
        let _ = answers.push(answer);
    }
    let Board { notes } = desk.close(passes);
    Some(notes)
}

/// How many notes name the worker.
fn notes_of(notes: &[Note], worker: u8) -> usize {
    notes
        .iter()
        .filter(|note| matches!(note, Note::Done(_, by) if *by == worker))
        .count()
}

/// Whether each worker left so many notes, and each note names its place.
fn are_whole(notes: &[Note], workers: u8, turns: usize) -> bool {
    let mut whole = true;
    for worker in 0..workers {
        whole = whole && notes_of(notes, worker) == turns;
    }
    for at in 0..notes.len() {
        whole = whole && matches!(notes[at], Note::Done(place, _) if place as usize == at);
    }
    whole
}

#[test]
fn eight_workers_lose_no_note(rt: HostRuntime) {
    let board = posted(&rt, rt.alloc(), 8, 1000).expect(&rt, "memory is ample");
    assert_eq!(rt; board.notes.len(), 8000);
    assert!(rt; are_whole(&board.notes, 8, 1000));
}

/// Whether the notes come in the order of the workers' turns.
fn are_in_order(notes: &[Note], order: &[bool]) -> bool {
    let mut same = notes.len() == order.len();
    for (at, (note, worker)) in notes.iter().zip(order).enumerate() {
        let by = u8::from(*worker);
        same = same
            && matches!(*note, Note::Done(place, worker) if place as usize == at && worker == by);
    }
    same
}

/// Compares the notes and the answers of turns in this order.
fn expect_order<R: Abort + Wait>(rt: &R, alloc: Global, order: [bool; 4]) {
    let mut answers = Vec::new(alloc);
    let notes = in_order(rt, alloc, &order, &mut answers).expect(rt, "memory is ample");
    assert!(rt; answers.as_slice() == [Some(0), Some(1), Some(2), Some(3)].as_slice());
    assert!(rt; are_in_order(&notes, &order));
}

#[test]
fn turns_may_come_in_any_order(rt: HostRuntime) {
    for order in [
        [false, false, true, true],
        [false, true, false, true],
        [false, true, true, false],
        [true, false, false, true],
        [true, false, true, false],
        [true, true, false, false],
    ] {
        expect_order(&rt, rt.alloc(), order);
    }
}

/// What a worker is answered that is alone: how many notes there are, its place, and how many there are then.
fn alone<R: Wait>(rt: &R, alloc: Global) -> Option<(u64, Option<u64>, u64)> {
    let board = Board {
        notes: Vec::new(alloc),
    };
    let (desk, mut passes) = Desk::start(alloc, board, 1).ok()?;
    let pass = &mut passes[0];
    let before = desk.turn(rt, pass, &mut Count);
    let place = desk.turn(rt, pass, &mut Post);
    let after = desk.turn(rt, pass, &mut Count);
    let _board = desk.close(passes);
    Some((before, place, after))
}

#[test]
fn a_turn_may_read_alone(rt: HostRuntime) {
    assert!(rt; alone(&rt, rt.alloc()) == Some((0, Some(0), 1)));
}

/// The number and the turns of the one worker of a new desk.
fn first_pass(alloc: Global) -> Option<(u8, u64)> {
    let board = Board {
        notes: Vec::new(alloc),
    };
    let (desk, passes) = Desk::start(alloc, board, 1).ok()?;
    let first = (passes[0].worker(), passes[0].turns());
    let _board = desk.close(passes);
    Some(first)
}

#[test]
fn a_pass_knows_its_worker(rt: HostRuntime) {
    assert!(rt; first_pass(rt.alloc()) == Some((0, 0)));
}
