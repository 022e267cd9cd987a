//! What is drawn from given words, and which known serials are new.
ghost use Rattle.std.specs.Prelude.{IfOk};
ghost use Rattle.serial_pool.specs.Held.{HasRoomFor, IsPlanFor};

use gs1_keys::{Alphabet, Gtin, SerialForm, Serials, Text20};
use outside::MemoryWords;
use serial_pool::{DrawFault, DrawPlan, KnownFault, Pool, copied};
use std::alloc::Global;
use std::process::Abort;

/// Serials of 6 digits.
const SIX_DIGITS: SerialForm = SerialForm {
    alphabet: Alphabet::Digits,
    length: 6,
};

/// Serials of 6 letters and digits.
const SIX_LETTERS: SerialForm = SerialForm {
    alphabet: Alphabet::Base32,
    length: 6,
};

/// Serials of 10 digits.
const TEN_DIGITS: SerialForm = SerialForm {
    alphabet: Alphabet::Digits,
    length: 10,
};

fn gtin(rt: &impl Abort) -> Gtin {
    Gtin::read(b"80614141123458").expect(rt, "a GTIN")
}

fn text(rt: &impl Abort, characters: &[u8]) -> Text20 {
    Text20::read(characters).expect(rt, "a text")
}

/// Words in memory, of which the calls of these numbers fail.
fn words_of(rt: &impl Abort, alloc: Global, words: &[u64], failing: &[u64]) -> MemoryWords {
    let words = words.to_vec(alloc).expect(rt, "memory is ample");
    let failing = failing.to_vec(alloc).expect(rt, "memory is ample");
    MemoryWords::new(words, failing)
}

/// Whether these are the serials, in order.
fn are(serials: &Serials, texts: &[&str]) -> bool {
    let mut same = serials.len() == texts.len();
    for (serial, text) in serials.as_slice().iter().zip(texts) {
        same = same && serial.bytes() == text.as_bytes();
    }
    same
}

/// Plans a draw from a pool of which little was drawn.
fn plan(
    pool: &mut Pool,
    gtin: &Gtin,
    form: &SerialForm,
    words: &mut MemoryWords,
    count: u32,
) -> Result<DrawPlan, DrawFault>
    ensures made_for { IfOk result (λ plan. IsPlanFor pool.new.drawn plan) }
    ensures room { IfOk result (λ plan. HasRoomFor pool.new plan) }
{
    if !form.is_proper() || count == 0 || count > 1_000_000 || pool.drawn(gtin) > 1_000_000 {
        return Err(DrawFault::Memory);
    }
    pool.plan_draw(gtin, form, words, count)
}

/// Draws so many serials, and compares them.
fn draw(
    rt: &impl Abort,
    pool: &mut Pool,
    gtin: &Gtin,
    form: &SerialForm,
    words: &mut MemoryWords,
    count: u32,
    texts: &[&str],
) {
    let plan = plan(pool, gtin, form, words, count).expect(rt, "a plan");
    assert!(rt; are(plan.serials(), texts));
    pool.commit_draw(plan);
}

/// Draws so many serials of 6 digits, takes them back and draws them again.
fn draw_again(rt: &impl Abort, pool: &mut Pool, gtin: &Gtin, words: &mut MemoryWords, count: u32) {
    let plan = plan(pool, gtin, &SIX_DIGITS, words, count).expect(rt, "a plan");
    let done = pool.commit_draw(plan);
    let plan = pool.take_back(done);
    pool.commit_draw(plan);
}

/// Draws so many serials of 6 digits, and takes them back.
fn draw_and_undo(
    rt: &impl Abort,
    pool: &mut Pool,
    gtin: &Gtin,
    words: &mut MemoryWords,
    count: u32,
) {
    let plan = plan(pool, gtin, &SIX_DIGITS, words, count).expect(rt, "a plan");
    let done = pool.commit_draw(plan);
    pool.take_back(done);
}

/// Compares the fault of a draw of so many serials of 6 digits.
fn expect_fault(
    rt: &impl Abort,
    pool: &mut Pool,
    gtin: &Gtin,
    words: &mut MemoryWords,
    count: u32,
    fault: DrawFault,
) {
    let planned = plan(pool, gtin, &SIX_DIGITS, words, count);
    assert!(rt; planned.err() == Some(fault));
}

#[test]
fn half_of_the_serials_are_left(rt: HostRuntime) {
    let mut pool = Pool::new(rt.alloc());
    let mut words = words_of(&rt, rt.alloc(), &[7], &[]);
    let thin = DrawFault::PoolThin(0, 500_001, 500_000);
    expect_fault(&rt, &mut pool, &gtin(&rt), &mut words, 500_001, thin);
    // its word was not taken
    draw(
        &rt,
        &mut pool,
        &gtin(&rt),
        &SIX_DIGITS,
        &mut words,
        1,
        &["000007"],
    );
}

#[test]
fn a_word_at_the_bound_and_a_repeat_are_passed_over(rt: HostRuntime) {
    let mut pool = Pool::new(rt.alloc());
    let told = [18_446_744_073_709_000_000, 5, 1_000_005, 7];
    let mut words = words_of(&rt, rt.alloc(), &told, &[]);
    let texts = ["000005", "000007"];
    draw(
        &rt,
        &mut pool,
        &gtin(&rt),
        &SIX_DIGITS,
        &mut words,
        2,
        &texts,
    );
}

#[test]
fn serials_of_letters_and_digits(rt: HostRuntime) {
    let mut pool = Pool::new(rt.alloc());
    let told = [18_446_744_073_709_551_615, 1_073_741_857];
    let mut words = words_of(&rt, rt.alloc(), &told, &[]);
    let texts = ["ZZZZZZ", "000011"];
    draw(
        &rt,
        &mut pool,
        &gtin(&rt),
        &SIX_LETTERS,
        &mut words,
        2,
        &texts,
    );
}

/// Serials of these texts.
fn serials_of(rt: &impl Abort, alloc: Global, texts: &[&str]) -> Serials {
    let mut serials = Serials::new(alloc);
    for characters in texts {
        let serial = text(rt, characters.as_bytes());
        serials.push(serial).expect(rt, "memory is ample");
    }
    serials
}

/// A plan of known serials of 10 digits, for a pool of which little was drawn.
fn plan_known(pool: &mut Pool, gtin: &Gtin, serials: &Serials) -> Result<DrawPlan, KnownFault>
    ensures made_for { IfOk result (λ plan. IsPlanFor pool.new.drawn plan) }
    ensures room { IfOk result (λ plan. HasRoomFor pool.new plan) }
{
    if !TEN_DIGITS.is_proper() || pool.drawn(gtin) > 1_000_000 || serials.len() > 1_000_000 {
        return Err(KnownFault::Memory);
    }
    pool.plan_known(gtin, &TEN_DIGITS, serials)
}

/// Draws known serials, which are new.
fn learn(rt: &impl Abort, alloc: Global, pool: &mut Pool, gtin: &Gtin, texts: &[&str]) {
    let serials = serials_of(rt, alloc, texts);
    let plan = plan_known(pool, gtin, &serials).expect(rt, "a plan");
    pool.commit_draw(plan);
}

/// Compares the place of the first known serial that isn't new.
fn expect_old(rt: &impl Abort, alloc: Global, pool: &mut Pool, texts: &[&str], place: u64) {
    let serials = serials_of(rt, alloc, texts);
    let planned = plan_known(pool, &gtin(rt), &serials);
    assert!(rt; planned.err() == Some(KnownFault::NotNew(place)));
}

#[test]
fn known_serials_are_drawn_once(rt: HostRuntime) {
    let alloc = rt.alloc();
    let mut pool = Pool::new(alloc);
    learn(
        &rt,
        alloc,
        &mut pool,
        &gtin(&rt),
        &["0000000003", "0000000004"],
    );
    expect_old(&rt, alloc, &mut pool, &["0000000005", "0000000004"], 1);
    let twice = ["0000000005", "0000000006", "0000000005"];
    expect_old(&rt, alloc, &mut pool, &twice, 2);
    expect_old(&rt, alloc, &mut pool, &["000000005"], 0);
    learn(&rt, alloc, &mut pool, &gtin(&rt), &["0000000005"]);
    assert!(rt; pool.has(&gtin(&rt), &text(&rt, b"0000000005")));
    assert!(rt; !pool.has(&gtin(&rt), &text(&rt, b"0000000006")));
    assert_eq!(rt; pool.drawn(&gtin(&rt)), 3);
}

#[test]
fn serials_are_copied(rt: HostRuntime) {
    let serials = serials_of(&rt, rt.alloc(), &["7", "8"]);
    let copy = copied(rt.alloc(), &serials).expect(&rt, "memory is ample");
    assert!(rt; are(&copy, &["7", "8"]));
}

#[test]
fn words_are_spent(rt: HostRuntime) {
    let mut pool = Pool::new(rt.alloc());
    let mut words = words_of(&rt, rt.alloc(), &[5; 69], &[]);
    draw(
        &rt,
        &mut pool,
        &gtin(&rt),
        &SIX_DIGITS,
        &mut words,
        1,
        &["000005"],
    );
    let spent = DrawFault::WordsSpent(0);
    expect_fault(&rt, &mut pool, &gtin(&rt), &mut words, 1, spent);
    let mut words = words_of(&rt, rt.alloc(), &[9], &[]);
    draw(
        &rt,
        &mut pool,
        &gtin(&rt),
        &SIX_DIGITS,
        &mut words,
        1,
        &["000009"],
    );
}

#[test]
fn a_word_fails_in_mid_draw(rt: HostRuntime) {
    let mut pool = Pool::new(rt.alloc());
    let mut words = words_of(&rt, rt.alloc(), &[1, 2, 3], &[2]);
    expect_fault(
        &rt,
        &mut pool,
        &gtin(&rt),
        &mut words,
        2,
        DrawFault::WordsFault,
    );
    assert_eq!(rt; pool.drawn(&gtin(&rt)), 0);
    let texts = ["000002", "000003"];
    draw(
        &rt,
        &mut pool,
        &gtin(&rt),
        &SIX_DIGITS,
        &mut words,
        2,
        &texts,
    );
}

#[test]
fn what_was_drawn_last_is_taken_back(rt: HostRuntime) {
    let mut pool = Pool::new(rt.alloc());
    let mut words = words_of(&rt, rt.alloc(), &[1, 2, 1, 2], &[]);
    draw_and_undo(&rt, &mut pool, &gtin(&rt), &mut words, 2);
    assert!(rt; !pool.has(&gtin(&rt), &text(&rt, b"000001")));
    draw_again(&rt, &mut pool, &gtin(&rt), &mut words, 2);
    assert!(rt; pool.has(&gtin(&rt), &text(&rt, b"000002")));
}

/// Draws the serials of so many numbers from a first one on.
fn draw_block(rt: &impl Abort, alloc: Global, pool: &mut Pool, first: u64, count: u32) {
    let mut words = Vec::new(alloc);
    for number in first..first.saturating_add(u64::from(count)) {
        words.push(number).expect(rt, "memory is ample");
    }
    let mut words = MemoryWords::new(words, Vec::new(alloc));
    let plan = plan(pool, &gtin(rt), &SIX_DIGITS, &mut words, count).expect(rt, "a plan");
    pool.commit_draw(plan);
}

#[test]
fn a_pool_is_drawn_to_its_half(rt: HostRuntime) {
    let alloc = rt.alloc();
    let mut pool = Pool::new(alloc);
    for block in 0..49 {
        draw_block(&rt, alloc, &mut pool, block * 10_000, 10_000);
    }
    draw_block(&rt, alloc, &mut pool, 490_000, 9_999);
    assert_eq!(rt; pool.drawn(&gtin(&rt)), 499_999);
    let mut words = words_of(&rt, alloc, &[490_000, 999_999], &[]);
    let thin = DrawFault::PoolThin(499_999, 2, 500_000);
    expect_fault(&rt, &mut pool, &gtin(&rt), &mut words, 2, thin);
    draw(
        &rt,
        &mut pool,
        &gtin(&rt),
        &SIX_DIGITS,
        &mut words,
        1,
        &["999999"],
    );
}

#[test]
fn each_gtin_has_its_own(rt: HostRuntime) {
    let other = Gtin::read(b"00614141123452").expect(&rt, "a GTIN");
    let mut pool = Pool::new(rt.alloc());
    let mut words = words_of(&rt, rt.alloc(), &[8, 8, 8, 9], &[]);
    draw(
        &rt,
        &mut pool,
        &gtin(&rt),
        &SIX_DIGITS,
        &mut words,
        1,
        &["000008"],
    );
    draw(
        &rt,
        &mut pool,
        &other,
        &SIX_DIGITS,
        &mut words,
        1,
        &["000008"],
    );
    draw(
        &rt,
        &mut pool,
        &gtin(&rt),
        &SIX_DIGITS,
        &mut words,
        1,
        &["000009"],
    );
    assert_eq!(rt; (pool.drawn(&gtin(&rt)), pool.drawn(&other)), (2, 1));
}
