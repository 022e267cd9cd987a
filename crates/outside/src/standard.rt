//! The descriptors of standard input, output and error.

use crate::Failed;
use std::fs::{self, File};
use std::os::fd::{AsRawFd, IntoRawFd};
use std::rt::Files;

/// How many descriptors the standard streams have: 0, 1 and 2.
const STREAMS: i32 = 3;

/// Takes the descriptors of the standard streams that the program was started without. Then a file that is opened
/// later gets none of these numbers: standard input that was closed has no bytes, and standard output that was
/// closed fails at each write. They stay taken until the program ends. To be called before any file is opened.
pub fn take_standard_streams<R: Files<File = File>>(files: &R) -> Result<(), Failed> {
    for _ in 0..=STREAMS {
        let Ok(nothing) = fs::open(files, "/dev/null") else {
            return Err(Failed);
        };
        if nothing.as_raw_fd() >= STREAMS {
            return Ok(());
        }
        let _taken = nothing.into_raw_fd();
    }
    Err(Failed)
}
