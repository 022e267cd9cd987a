//! Devices that a program reads and writes through, as traits with a count of their faults, their forms
//! in memory, and adapters over standard input, standard output, random words, the clock and a file.
#![tactic(auto)]

mod adapters;
mod bytes;
mod call;
mod clock;
mod devices;
mod disk;
mod door;
mod failures;
mod file_disk;
mod kept;
mod memory;
mod memory_clock;
mod memory_disk;
mod memory_door;
mod memory_link;
mod named;
mod random_words;
mod standard;
mod system_clock;
mod tcp;

pub use adapters::{FileSource, Reading, Writing};
pub use bytes::Bytes;
pub use clock::Clock;
pub use devices::{Failed, Link, Sink, Source, Words};
pub use disk::Disk;
pub use door::Door;
pub use file_disk::FileDisk;
pub use memory::{MemorySink, MemorySource, MemoryWords};
pub use memory_clock::MemoryClock;
pub use memory_disk::MemoryDisk;
pub use memory_door::MemoryDoor;
pub use memory_link::MemoryLink;
pub use random_words::RandomWords;
pub use standard::take_standard_streams;
pub use system_clock::SystemClock;
pub use tcp::{TcpDoor, TcpLink};
