//! Devices in memory and over readers, writers, files and the clock of the machine.
use outside::{
    Bytes, Clock, Disk, Failed, FileDisk, FileSource, MemoryClock, MemoryDisk, MemoryLink,
    RandomWords, Reading, Sink, Source, SystemClock, Words, Writing, take_standard_streams,
};
use std::alloc::Global;
use std::io::Read;
use std::process::Abort;
use std::test::Fail;
use std::{fs, io};

/// A list of its own.
pub(crate) fn list<T: Copy + Drop>(rt: &impl Abort, alloc: Global, items: &[T]) -> Vec<T> {
    items.to_vec(alloc).expect(rt, "memory is ample")
}

#[test]
fn bytes_are_a_list(rt: HostRuntime) {
    let mut bytes = Bytes::new(rt.alloc());
    bytes.push(7).expect(&rt, "memory is ample");
    bytes.push(9).expect(&rt, "memory is ample");
    assert_eq!(rt; bytes.len(), 2);
    assert_eq!(rt; *bytes.get(1), 9);
    let items: Vec<u8> = bytes.into();
    assert!(rt; Bytes::from(items).bytes() == [7, 9].as_slice());
}

/// Compares what a source gives of four bytes.
pub(crate) fn expect_taken<S: Source>(rt: &impl Abort, source: &mut S, bytes: &[u8]) {
    let mut piece = [0; 4];
    let count = source.take(&mut piece).expect(rt, "the source works");
    assert!(rt; piece.get(..count).unwrap_or(&[]) == bytes);
}

/// A call that the source fails.
pub(crate) fn expect_no_take<S: Source>(rt: &impl Abort, source: &mut S) {
    let mut piece = [0; 4];
    assert!(rt; source.take(&mut piece).is_err());
}

/// Compares how many of two bytes a sink takes.
pub(crate) fn expect_put<S: Sink>(rt: &impl Abort, sink: &mut S, bytes: [u8; 2]) {
    let count = sink.put(&bytes).expect(rt, "the sink works");
    assert!(rt; count == 2);
}

#[test]
fn a_link_fails_on_each_side_by_its_own_list(rt: HostRuntime) {
    let alloc = rt.alloc();
    let takes = list(&rt, alloc, &[1]);
    let puts = list(&rt, alloc, &[2]);
    let mut link = MemoryLink::new(alloc, list(&rt, alloc, &[5]), takes, puts);
    expect_no_take(&rt, &mut link);
    expect_put(&rt, &mut link, [8, 9]);
    expect_taken(&rt, &mut link, &[5]);
    assert!(rt; link.put(&[10]).is_err());
    assert!(rt; link.put_bytes() == [8, 9].as_slice());
}

#[test]
fn readers_and_writers_are_devices(rt: HostRuntime) {
    let mut reading = Reading::new([1, 2].as_slice());
    expect_taken(&rt, &mut reading, &[1, 2]);
    expect_taken(&rt, &mut reading, &[]);
    let mut writing = Writing::new(Vec::<u8>::new(rt.alloc()));
    expect_put(&rt, &mut writing, [1, 2]);
    let mut file = FileSource::new(Some([7].as_slice()));
    expect_taken(&rt, &mut file, &[7]);
    let mut none: FileSource<&[u8]> = FileSource::new(None);
    expect_no_take(&rt, &mut none);
}

// Gives five bytes, fails, and then gives all that is asked for.
#[derive(Drop)]
struct Halting {
    reads: u8,
}

impl Read for Halting {
    fn read(&mut self, buf: &mut [u8]) -> io::Result<usize> {
        self.reads = self.reads.saturating_add(1);
        if self.reads == 2 {
            return Err(io::ErrorKind::Other.into());
        }
        let count = if self.reads == 1 {
            buf.len().min(5)
        } else {
            buf.len()
        };
        for byte in &mut buf[..count] {
            *byte = self.reads;
        }
        Ok(count)
    }
}

/// Compares the next word.
fn expect_word<W: Words>(rt: &impl Abort, words: &mut W, word: u64) {
    let next = words.next_word().expect(rt, "there is a word");
    assert!(rt; next == word);
}

/// A call that gives no word.
fn expect_no_word<W: Words>(rt: &impl Abort, words: &mut W) {
    assert!(rt; words.next_word().is_err());
}

#[test]
fn random_words_come_from_few_reads_and_none_is_lost(rt: HostRuntime) {
    let mut words = RandomWords::new(Some(Halting { reads: 0 }));
    expect_no_word(&rt, &mut words);
    // The five bytes that came, and three of the next read; the last byte is the highest.
    expect_word(&rt, &mut words, 0x0303_0301_0101_0101);
    for _ in 0..511 {
        expect_word(&rt, &mut words, 0x0303_0303_0303_0303);
    }
    // 512 words are 4,096 bytes; the next ones are a read of their own.
    expect_word(&rt, &mut words, 0x0404_0404_0404_0404);
}

#[test]
fn random_words_end_with_their_file(rt: HostRuntime) {
    let mut few = RandomWords::new(Some([1, 0, 0, 0, 0, 0, 0, 2, 3].as_slice()));
    expect_word(&rt, &mut few, 144115188075855873);
    expect_no_word(&rt, &mut few);
    let mut none: RandomWords<&[u8]> = RandomWords::new(None);
    expect_no_word(&rt, &mut none);
}

/// Compares the next moment of a clock, which may fail.
fn expect_moment(rt: &impl Abort, clock: &mut MemoryClock, moment: Option<u64>) {
    assert!(rt; clock.now_ms().ok() == moment);
}

#[test]
fn clocks_give_moments(rt: HostRuntime) {
    let alloc = rt.alloc();
    let mut clock = MemoryClock::new(list(&rt, alloc, &[90, 80]), list(&rt, alloc, &[2]));
    expect_moment(&rt, &mut clock, Some(90));
    expect_moment(&rt, &mut clock, None);
    expect_moment(&rt, &mut clock, Some(80));
    expect_moment(&rt, &mut clock, None);
    // After 2020-01-01 and before 2100-01-01, in milliseconds.
    let now = SystemClock::new(&rt)
        .now_ms()
        .expect(&rt, "the clock works");
    assert!(rt; (1_577_836_800_000..4_102_444_800_000).contains(&now));
}

#[test]
fn a_file_is_a_disk_of_one_owner(rt: HostRuntime) -> Result<(), Fail> {
    take_standard_streams(&rt)?;
    let path = "disk_of_the_test";
    let mut piece = [0; 2];
    let mut disk = FileDisk::open(&rt, ".", path);
    assert_eq!(rt; disk.size()?, 0);
    disk.write_at(0, &[1, 2, 3])?;
    disk.write_at(1, &[7, 8, 9])?;
    disk.sync()?;
    assert_eq!(rt; disk.size()?, 4);
    disk.read_at(2, &mut piece)?;
    assert_eq!(rt; piece.as_slice(), [8, 9].as_slice());
    assert_eq!(rt; disk.read_at(3, &mut piece), Err(Failed));
    // Another disk on the file fails at each call, as long as this one is there.
    let mut other = FileDisk::open(&rt, ".", path);
    assert_eq!(rt; other.size(), Err(Failed));
    assert_eq!(rt; other.read_at(0, &mut piece), Err(Failed));
    assert_eq!(rt; other.write_at(0, &[5]), Err(Failed));
    assert_eq!(rt; other.sync(), Err(Failed));
    drop(disk);
    let mut again = FileDisk::open(&rt, ".", path);
    again.read_at(0, &mut piece)?;
    assert_eq!(rt; piece.as_slice(), [1, 7].as_slice());
    fs::remove_file(&rt, path)?;
    // A folder is no plain file.
    assert_eq!(rt; FileDisk::open(&rt, ".", ".").size(), Err(Failed));
    Ok(())
}

/// The image after two writes over 1 2 3, and a sync between them that may fail.
fn written_over(alloc: Global, syncs: bool, fails: bool, synced: bool) -> Result<Vec<u8>, Fail> {
    let failing = if fails {
        [2].to_vec(alloc)?
    } else {
        Vec::new(alloc)
    };
    let mut disk = MemoryDisk::new(alloc, [1, 2, 3].to_vec(alloc)?, failing);
    disk.write_at(1, &[7, 8, 9])?;
    if syncs {
        let _done = disk.sync();
    }
    disk.write_at(0, &[5, 6])?;
    Ok(disk.image(synced))
}

#[test]
fn both_images_of_a_disk_in_memory(rt: HostRuntime) -> Result<(), Fail> {
    let alloc = rt.alloc();
    for (syncs, fails, expected) in [
        (false, false, [1, 2, 3].as_slice()),
        (true, false, [1, 7, 8, 9].as_slice()),
        (true, true, [1, 2, 3].as_slice()),
    ] {
        let content = written_over(alloc, syncs, fails, false)?;
        assert_eq!(rt; content.as_slice(), [5, 6, 8, 9].as_slice());
        assert_eq!(rt;
            written_over(alloc, syncs, fails, true)?.as_slice(),
            expected
        );
    }
    Ok(())
}

#[test]
fn a_disk_in_memory_fails_where_told(rt: HostRuntime) -> Result<(), Fail> {
    let alloc = rt.alloc();
    let failing = [2, 4, 6, 8].to_vec(alloc)?;
    let mut disk = MemoryDisk::new(alloc, [1, 2, 3].to_vec(alloc)?, failing);
    let mut piece = [0; 2];
    assert_eq!(rt; disk.size()?, 3);
    assert_eq!(rt; disk.size(), Err(Failed));
    disk.read_at(1, &mut piece)?;
    assert_eq!(rt; piece.as_slice(), [2, 3].as_slice());
    assert_eq!(rt; disk.read_at(0, &mut piece), Err(Failed));
    disk.write_at(1, &[7, 8, 9])?;
    assert_eq!(rt; disk.write_at(0, &[5]), Err(Failed));
    disk.sync()?;
    assert_eq!(rt; disk.sync(), Err(Failed));
    assert_eq!(rt; disk.image(true).as_slice(), [1, 7, 8, 9].as_slice());
    Ok(())
}
