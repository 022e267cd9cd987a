//! The commands over devices in memory: each test says the whole input and the whole output.

use crate::program::{
    E1, Failing, MOMENT, NOTHING, WORDS, args_of, calls_of_a_load, devices, expect_left, init,
    joined, list, made, program, run, run_failing,
};
use crate::small_pieces::{DropsSink, DropsSource};
use outside::MemorySource;
use site_console::{site_path, site_top};
use std::alloc::Global;
use std::process::Abort;

pub(crate) const ORDER: &[u8] =
    b"{\"station\":\"P1\",\"number\":1,\"deed\":{\"do\":\"order\",\"batch\":\"B6\",\"gtin\":\"80614141123458\",\"lot\":\"LOT6\",\"expiry\":\"2027-12-31\",\"quantity\":2,\"case\":2,\"pallet\":0}}\n";

pub(crate) const DRAW: &[u8] =
    b"{\"station\":\"P1\",\"number\":2,\"deed\":{\"do\":\"draw\",\"batch\":\"B6\",\"count\":2}}\n";

const DRAW_ONE: &[u8] =
    b"{\"station\":\"P1\",\"number\":3,\"deed\":{\"do\":\"draw\",\"batch\":\"B6\",\"count\":1}}\n";

const NEW: &[u8] = b"{\"already\":0,\"new\":1,\"ok\":true}\n";

const FIVE_AND_SEVEN: &[u8] = b"{\"ok\":true,\"serials\":[\"000005\",\"000007\"]}\n";

const BAD_LINE: &[u8] = b"{\"fault\":\"BadLine\",\"ok\":false}\n";

#[test]
fn a_site_file_becomes_a_journal_once(rt: HostRuntime) {
    let alloc = rt.alloc();
    let first = init(&rt, alloc, E1.as_bytes(), b"", NOTHING);
    expect_left(&rt, &first, 0, b"ready\n");
    let again = init(&rt, alloc, E1.as_bytes(), &first.disk, NOTHING);
    expect_left(&rt, &again, 4, b"journal there\n");
    assert!(rt; again.disk == first.disk);
}

#[test]
fn a_run_goes_on_where_it_was_left(rt: HostRuntime) {
    let alloc = rt.alloc();
    let lines = joined(&rt, alloc, &[ORDER, DRAW]);
    let answers = joined(&rt, alloc, &[NEW, FIVE_AND_SEVEN]);
    let first = run(&rt, alloc, &made(&rt, alloc), &lines, &WORDS);
    expect_left(&rt, &first, 0, &answers);
    // the same lines again: the same answers, and nothing more is written
    let again = run(&rt, alloc, &first.disk, &lines, &[1, 2]);
    expect_left(&rt, &again, 0, &answers);
    assert!(rt; again.disk == first.disk);
    assert!(rt; first.disk.len() == 217);
    // a draw that finds no new serial isn't kept, and the same number may be used again
    let spent = run(&rt, alloc, &first.disk, DRAW_ONE, &[5; 68]);
    expect_left(
        &rt,
        &spent,
        0,
        b"{\"fault\":\"WordsSpent\",\"found\":0,\"ok\":false}\n",
    );
    let nine = run(&rt, alloc, &spent.disk, DRAW_ONE, &[9]);
    expect_left(&rt, &nine, 0, b"{\"ok\":true,\"serials\":[\"000009\"]}\n");
}

#[test]
fn pieces_may_be_small(rt: HostRuntime) {
    let alloc = rt.alloc();
    // the last line has no newline
    let lines = joined(&rt, alloc, &[ORDER, b"\nzz\n", DRAW, b"{"]);
    let args = args_of(&rt, alloc, &["run"]);
    let devices = devices(&rt, alloc, &made(&rt, alloc), MOMENT, &WORDS, NOTHING);
    let mut site = MemorySource::new(Vec::new(alloc), Vec::new(alloc));
    let mut input = DropsSource::new(alloc, lines);
    let mut out = DropsSink::new(alloc);
    let (status, _) = site_top(alloc, &args, &mut site, &mut input, &mut out, devices);
    assert!(rt; status == 0);
    assert!(rt;
        out.bytes() == joined(&rt, alloc, &[NEW, BAD_LINE, FIVE_AND_SEVEN, BAD_LINE]).as_slice()
    );
}

#[test]
fn what_is_not_kept_is_told(rt: HostRuntime) {
    let alloc = rt.alloc();
    let ordered = run(&rt, alloc, &made(&rt, alloc), ORDER, &[]).disk;
    let rows: [(&[u8], &[u8]); 6] = [
        (b"\xff", BAD_LINE),
        (
            b"{\"station\":\"P1\",\"number\":2.0,\"deed\":{\"do\":\"close\",\"batch\":\"B6\"}}",
            BAD_LINE,
        ),
        (
            b"{\"station\":\"X\",\"number\":1,\"deed\":{\"do\":\"close\",\"batch\":\"B6\"}}",
            b"{\"fault\":\"NoStation\",\"ok\":false}\n",
        ),
        (
            b"{\"station\":\"P1\",\"number\":2,\"deed\":{\"do\":\"close\"}}",
            b"{\"code\":2,\"fault\":\"BadDeed\",\"name\":\"batch\",\"ok\":false}\n",
        ),
        (
            b"{\"station\":\"P1\",\"number\":9,\"deed\":{\"do\":\"close\",\"batch\":\"B6\"}}",
            b"{\"fault\":\"NumberGap\",\"last\":1,\"ok\":false}\n",
        ),
        (
            b"{\"station\":\"P1\",\"number\":1,\"deed\":{\"do\":\"close\",\"batch\":\"B6\"}}",
            b"{\"fault\":\"NumberReused\",\"ok\":false}\n",
        ),
    ];
    for (line, answer) in rows {
        let left = run(&rt, alloc, &ordered, line, &[]);
        expect_left(&rt, &left, 0, answer);
        assert!(rt; left.disk == ordered);
    }
}

/// Blanks, and behind them the order.
fn far_order(rt: &impl Abort, alloc: Global, blanks: usize) -> Vec<u8> {
    let mut line = Vec::new(alloc);
    line.resize(blanks, b' ').expect(rt, "memory");
    line.extend_from_slice(ORDER).expect(rt, "memory");
    line
}

#[test]
fn a_line_has_at_most_1_048_576_bytes(rt: HostRuntime) {
    let alloc = rt.alloc();
    let journal = made(&rt, alloc);
    let longest = far_order(&rt, alloc, 1_048_577 - ORDER.len());
    expect_left(&rt, &run(&rt, alloc, &journal, &longest, &[]), 0, NEW);
    // it is read to its end, and the next line is answered
    let longer = far_order(&rt, alloc, 1_048_578 - ORDER.len());
    let lines = joined(&rt, alloc, &[&longer, ORDER]);
    let answers = joined(
        &rt,
        alloc,
        &[b"{\"fault\":\"LineTooLong\",\"ok\":false}\n", NEW],
    );
    expect_left(&rt, &run(&rt, alloc, &journal, &lines, &[]), 0, &answers);
}

#[test]
fn a_fault_of_the_disk_is_mended(rt: HostRuntime) {
    let alloc = rt.alloc();
    let journal = made(&rt, alloc);
    // a load makes so many calls; the third call of the append behind them fails
    let lines = joined(&rt, alloc, &[ORDER, ORDER]);
    let fault: &[u8] = b"{\"fault\":\"DiskFault\",\"ok\":false}\n";
    let calls = calls_of_a_load(&rt, alloc, &journal);
    let third = [calls.saturating_add(3)];
    let failing = Failing {
        disk: &third,
        ..NOTHING
    };
    let left = run_failing(&rt, alloc, &journal, &lines, &[], failing);
    expect_left(&rt, &left, 0, &joined(&rt, alloc, &[fault, NEW]));
    let again = run(&rt, alloc, &left.disk, ORDER, &[]);
    expect_left(&rt, &again, 0, NEW);
}

#[test]
fn faults_of_the_clock_and_of_words_are_told(rt: HostRuntime) {
    let alloc = rt.alloc();
    let journal = made(&rt, alloc);
    let orders = joined(&rt, alloc, &[ORDER, ORDER]);
    let failing = Failing {
        clock: &[1],
        ..NOTHING
    };
    let left = run_failing(&rt, alloc, &journal, &orders, &[], failing);
    let fault: &[u8] = b"{\"fault\":\"ClockFault\",\"ok\":false}\n";
    expect_left(&rt, &left, 0, &joined(&rt, alloc, &[fault, NEW]));
    // a moment past the year 9999
    let late = devices(&rt, alloc, &journal, 253_402_300_800_000, &[], NOTHING);
    let left = program(&rt, alloc, &["run"], ORDER, late, NOTHING);
    expect_left(
        &rt,
        &left,
        0,
        b"{\"fault\":\"ClockRange\",\"ms\":253402300800000,\"ok\":false}\n",
    );
    // the second word can't be had, and the same draw finds the words behind it
    let draws = joined(&rt, alloc, &[ORDER, DRAW, DRAW]);
    let failing = Failing {
        words: &[2],
        ..NOTHING
    };
    let left = run_failing(&rt, alloc, &journal, &draws, &[5, 6, 7], failing);
    let fault: &[u8] = b"{\"fault\":\"WordsFault\",\"ok\":false}\n";
    let drawn: &[u8] = b"{\"ok\":true,\"serials\":[\"000006\",\"000007\"]}\n";
    expect_left(&rt, &left, 0, &joined(&rt, alloc, &[NEW, fault, drawn]));
}

#[test]
fn faults_of_input_and_output_end_the_run(rt: HostRuntime) {
    let alloc = rt.alloc();
    // the second take comes in the middle of the second line
    let long = far_order(&rt, alloc, 4_000);
    let lines = joined(&rt, alloc, &[ORDER, &long]);
    let read = joined(&rt, alloc, &[NEW, b"input fault\n"]);
    let taking = Failing {
        takes: &[2],
        ..NOTHING
    };
    expect_ended(&rt, alloc, &lines, taking, 7, &read);
    let putting = Failing {
        puts: &[1],
        ..NOTHING
    };
    expect_ended(&rt, alloc, &lines, putting, 8, b"");
    let putting_later = Failing {
        puts: &[2],
        ..NOTHING
    };
    expect_ended(&rt, alloc, &lines, putting_later, 8, NEW);
    // the fault's line can't be put either
    let both = Failing {
        takes: &[1],
        puts: &[1],
        ..NOTHING
    };
    expect_ended(&rt, alloc, &lines, both, 7, b"");
}

/// The run ends so where these calls fail. What was answered, or was to be, is told by the next run.
fn expect_ended(
    rt: &impl Abort,
    alloc: Global,
    lines: &[u8],
    failing: Failing,
    status: u8,
    put: &[u8],
) {
    let left = run_failing(rt, alloc, &made(rt, alloc), lines, &[], failing);
    expect_left(rt, &left, status, put);
    let again = run(rt, alloc, &left.disk, ORDER, &[]);
    expect_left(rt, &again, 0, NEW);
}

#[test]
fn faults_of_an_init_end_it(rt: HostRuntime) {
    let alloc = rt.alloc();
    let rows: [(&[u64], &[u64], &[u64], u8, &[u8]); 3] = [
        (&[1], &[], &[], 7, b"input fault\n"),
        // the journal is made, and `ready` isn't put
        (&[], &[1], &[], 8, b""),
        (&[], &[], &[1], 9, b"disk fault\n"),
    ];
    for (takes, puts, disk, status, put) in rows {
        let failing = Failing {
            takes,
            puts,
            disk,
            ..NOTHING
        };
        let left = init(&rt, alloc, E1.as_bytes(), b"", failing);
        expect_left(&rt, &left, status, put);
        assert!(rt; left.disk.is_empty() == (status != 8));
    }
}

#[test]
fn journals_that_are_bad_or_none_are_told(rt: HostRuntime) {
    let alloc = rt.alloc();
    expect_left(&rt, &run(&rt, alloc, b"", ORDER, &[]), 5, b"no journal\n");
    // without its last byte the gate at 103 is missing
    let mut short = made(&rt, alloc);
    short.truncate(103);
    let cut = run(&rt, alloc, &short, ORDER, &[]);
    expect_left(&rt, &cut, 6, b"journal bad at 103\n");
    assert!(rt; cut.disk == short);
}

#[test]
fn site_files_that_are_no_site_are_told(rt: HostRuntime) {
    let alloc = rt.alloc();
    let empty = init(&rt, alloc, b"", b"", NOTHING);
    expect_left(&rt, &empty, 3, b"site unreadable: 2\n");
    assert!(rt; empty.disk.is_empty());
    let mut long = list(&rt, alloc, E1.as_bytes());
    long.resize(1_048_577, b'\n').expect(&rt, "memory");
    let long = init(&rt, alloc, &long, b"", NOTHING);
    expect_left(&rt, &long, 3, b"site unreadable: 1\n");
}

#[test]
fn other_words_are_refused(rt: HostRuntime) {
    let alloc = rt.alloc();
    for words in [
        &["stop"] as &[&str],
        &["run", "x"],
        &["init"],
        &["init", "-x"],
        &["init", ""],
        &["RUN"],
        &["report"],
        &["export", "B6", "0", "1"],
        &["check", "B6"],
        &["log", "1"],
        &["sim", "7"],
        &["sim", "7", "0"],
        &["sim", "+7", "10"],
        &["sim", "--", "7", "10"],
        // a command that the program doesn't have yet
        &["serve", "8080", "1", "1"],
        &[],
    ] {
        let devices = devices(&rt, alloc, b"", MOMENT, &[], NOTHING);
        let left = program(&rt, alloc, words, ORDER, devices, NOTHING);
        expect_left(&rt, &left, 2, b"bad words\n");
        assert!(rt; matches!(site_path(alloc, &args_of(&rt, alloc, words)), Ok(None)));
    }
    let args = args_of(&rt, alloc, &["init", "e1.toml"]);
    assert!(rt; matches!(site_path(alloc, &args), Ok(Some("e1.toml"))));
}
