//! The simulation, over a disk in memory.
use crate::journal_tests::SITE;
use crate::program::{Failing, Left, MOMENT, NOTHING, devices, expect_left, program};
use std::alloc::Global;
use std::process::Abort;

/// A command with these words over this journal.
fn command(rt: &impl Abort, alloc: Global, words: &[&str], disk: &[u8], failing: Failing) -> Left {
    let devices = devices(rt, alloc, disk, MOMENT, &[], failing);
    program(rt, alloc, words, b"", devices, failing)
}

/// An order, a start, a draw, a lend, a commission, three requests for the case and three for the pallet, a declaration
/// and a close, of which the tenth is sent twice. Its journal begins with the example site.
#[test]
fn a_batch_of_one_item(rt: HostRuntime) {
    let alloc = rt.alloc();
    let left = command(&rt, alloc, &["sim", "007", "1"], b"", NOTHING);
    expect_left(
        &rt,
        &left,
        0,
        b"sim 7 1: sent 14, kept 13, accepted 13, serials 1, units 2, events 5, live 3, pairs 2, closed 1\n",
    );
    assert!(rt; left.disk.get(..103) == Some(SITE));
    let checked = command(&rt, alloc, &["check"], &left.disk, NOTHING);
    expect_left(
        &rt,
        &checked,
        0,
        b"check: entries 13, events 5, live 3, pairs 2\n",
    );
    let again = command(&rt, alloc, &["sim", "7", "1"], &left.disk, NOTHING);
    expect_left(&rt, &again, 4, b"journal there\n");
    assert!(rt; again.disk == left.disk);
}

#[test]
fn a_simulation_whose_devices_fail_is_told(rt: HostRuntime) {
    let alloc = rt.alloc();
    let failing = Failing {
        disk: &[20],
        ..NOTHING
    };
    let left = command(&rt, alloc, &["sim", "7", "1"], b"", failing);
    expect_left(&rt, &left, 9, b"disk fault\n");
    let failing = Failing {
        puts: &[1],
        ..NOTHING
    };
    let left = command(&rt, alloc, &["sim", "7", "1"], b"", failing);
    expect_left(&rt, &left, 8, b"");
}
