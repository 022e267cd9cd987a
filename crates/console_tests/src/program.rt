//! The program over devices in memory: what it is run with, and what it leaves.

use outside::{MemoryClock, MemoryDisk, MemorySink, MemorySource, MemoryWords};
use site_console::site_top;
use site_store::Devices;
use std::alloc::Global;
use std::process::Abort;

/// The file of a site with two products, of which the second has serials of six digits, a planner, two lines and a
/// station of quality assurance.
pub(crate) const E1: &str = r#"[site]
gln = "0614141000012"
prefix = "0614141"
extension = 1
reference = 1
offset = "+00:00"

[[product]]
gtin = "00614141123452"
prefix_length = 7
serial_length = 10

[[product]]
gtin = "80614141123458"
prefix_length = 7
serial_length = 6

[[station]]
name = "P1"
role = "planner"

[[station]]
name = "L1"
role = "line"

[[station]]
name = "L2"
role = "line"

[[station]]
name = "Q1"
role = "quality"
"#;

/// The first moment of the year 2026.
pub(crate) const MOMENT: u64 = 1_767_225_600_000;

/// Words of which the first is past the last whole block, and the third stands for the serial of the second.
pub(crate) const WORDS: [u64; 4] = [18_446_744_073_709_000_000, 5, 1_000_005, 7];

/// What a run of the program left, with the bytes of its disk.
#[derive(Drop)]
pub(crate) struct Left {
    pub(crate) status: u8,
    pub(crate) put: Vec<u8>,
    pub(crate) disk: Vec<u8>,
}

/// The calls of each device that fail, by their numbers, and whether what the disk didn't sync is lost behind them.
#[derive(Clone, Copy)]
pub(crate) struct Failing<'a> {
    pub(crate) takes: &'a [u64],
    pub(crate) puts: &'a [u64],
    pub(crate) disk: &'a [u64],
    pub(crate) clock: &'a [u64],
    pub(crate) words: &'a [u64],
    pub(crate) loses: bool,
}

pub(crate) const NOTHING: Failing = Failing {
    takes: &[],
    puts: &[],
    disk: &[],
    clock: &[],
    words: &[],
    loses: true,
};

pub(crate) fn list<T: Copy + Drop>(rt: &impl Abort, alloc: Global, items: &[T]) -> Vec<T> {
    items.to_vec(alloc).expect(rt, "memory")
}

pub(crate) fn joined(rt: &impl Abort, alloc: Global, texts: &[&[u8]]) -> Vec<u8> {
    let mut all = Vec::new(alloc);
    for text in texts {
        all.extend_from_slice(text).expect(rt, "memory");
    }
    all
}

pub(crate) fn args_of(rt: &impl Abort, alloc: Global, words: &[&str]) -> Vec<String> {
    let mut args = Vec::new(alloc);
    for word in words {
        args.push(String::from_str(alloc, word).expect(rt, "memory"))
            .expect(rt, "memory");
    }
    args
}

/// A disk of these bytes, a clock that stands at this moment, and random words.
pub(crate) fn devices(
    rt: &impl Abort,
    alloc: Global,
    disk: &[u8],
    moment: u64,
    draws: &[u64],
    failing: Failing,
) -> Devices<MemoryDisk, MemoryClock, MemoryWords> {
    Devices {
        disk: MemoryDisk::new(alloc, list(rt, alloc, disk), list(rt, alloc, failing.disk)),
        clock: MemoryClock::new(
            list(rt, alloc, &[moment; 64]),
            list(rt, alloc, failing.clock),
        ),
        words: MemoryWords::new(list(rt, alloc, draws), list(rt, alloc, failing.words)),
    }
}

/// The program with these words. Its site file and its input have the same bytes, of which it reads one.
pub(crate) fn program(
    rt: &impl Abort,
    alloc: Global,
    words: &[&str],
    bytes: &[u8],
    devices: Devices<MemoryDisk, MemoryClock, MemoryWords>,
    failing: Failing,
) -> Left {
    let args = args_of(rt, alloc, words);
    let mut site = MemorySource::new(list(rt, alloc, bytes), list(rt, alloc, failing.takes));
    let mut input = MemorySource::new(list(rt, alloc, bytes), list(rt, alloc, failing.takes));
    let mut out = MemorySink::new(alloc, list(rt, alloc, failing.puts));
    let (status, devices) = site_top(alloc, &args, &mut site, &mut input, &mut out, devices);
    Left {
        status,
        put: list(rt, alloc, out.bytes()),
        disk: devices.disk.image(failing.loses),
    }
}

/// `init` with this site file on this disk.
pub(crate) fn init(
    rt: &impl Abort,
    alloc: Global,
    site: &[u8],
    disk: &[u8],
    failing: Failing,
) -> Left {
    let devices = devices(rt, alloc, disk, MOMENT, &[], failing);
    program(rt, alloc, &["init", "e1.toml"], site, devices, failing)
}

/// The journal of the example site.
pub(crate) fn made(rt: &impl Abort, alloc: Global) -> Vec<u8> {
    init(rt, alloc, E1.as_bytes(), b"", NOTHING).disk
}

/// `run` over these lines on this disk, with these random words.
pub(crate) fn run(
    rt: &impl Abort,
    alloc: Global,
    disk: &[u8],
    input: &[u8],
    draws: &[u64],
) -> Left {
    run_failing(rt, alloc, disk, input, draws, NOTHING)
}

/// `run`, where these calls of the devices fail.
pub(crate) fn run_failing(
    rt: &impl Abort,
    alloc: Global,
    disk: &[u8],
    input: &[u8],
    draws: &[u64],
    failing: Failing,
) -> Left {
    let devices = devices(rt, alloc, disk, MOMENT, draws, failing);
    program(rt, alloc, &["run"], input, devices, failing)
}

/// The run ended so, and put this.
pub(crate) fn expect_left(rt: &impl Abort, left: &Left, status: u8, put: &[u8]) {
    assert!(rt; left.status == status);
    assert!(rt; left.put.as_slice() == put);
}

/// How many calls of the disk a load makes: the least n of which none fails. Where one does, the program says so.
pub(crate) fn calls_of_a_load(rt: &impl Abort, alloc: Global, disk: &[u8]) -> u64 {
    for n in 1..64 {
        let nth = [n];
        let failing = Failing {
            disk: &nth,
            ..NOTHING
        };
        let left = run_failing(rt, alloc, disk, b"", &[], failing);
        if left.status == 0 {
            return n - 1;
        }
        expect_left(rt, &left, 9, b"disk fault\n");
    }
    0
}
