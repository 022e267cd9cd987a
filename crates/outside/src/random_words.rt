//! Random words from a reader, read many at once and handed out one by one.
ghost use Rattle.std.specs.Prelude.{◌≡◌, ◌≤◌, take};
ghost use Rattle.std.specs.Io.KnownBytes.{Keeps, prepend_known};
ghost use Rattle.outside.specs.Readers.{bytes_ahead, left_in, words_told};

use crate::{Failed, Words};
use std::io::Read;

/// So many bytes are asked for at once: 512 words.
const BUFFER: usize = 4096;

/// Words of eight bytes each from a reader, the lowest byte first, which tell what the reader tells. A reader that isn't
/// there fails at each word, and one at its end fails at each word that isn't whole. What came before a read that
/// failed is kept.
#[derive(Drop)]
pub struct RandomWords<R> {
    inner: Option<R>,
    buffer: [u8; BUFFER],
    start: usize,
    end: usize,
    faults: u64,
    ghost begun: { start ≤ end },
    ghost within: { end ≤ 4096 },
}

impl<R: Read> RandomWords<R> {
    pub fn new(inner: Option<R>) -> Self
        ensures left { ⟦<RandomWords<R> as Words>⟧.words_left result ≡ words_told (left_in R.remaining inner) }
        ensures faults { ⟦<RandomWords<R> as Words>⟧.word_faults result ≡ 0 }
    {
        RandomWords {
            inner,
            buffer: [0; BUFFER],
            start: 0,
            end: 0,
            faults: 0,
        }
    }
}

// Reads behind the bytes that are there until they are a word or a read fails, and says how many there are.
fn fill<R: Read>(reader: &mut R, buffer: &mut [u8; BUFFER], there: usize) -> usize
    requires { there ≤ 4096 }
    ensures within { result ≤ 4096 }
    ensures bytes { Keeps (prepend_known (take there buffer.old) (R.remaining reader.old)) (prepend_known (take result buffer.new) (R.remaining reader.new)) }
{
    let mut end = there;
    'reads: while end < 8 {
        match reader.read(&mut buffer[end..]) {
            Ok(count) if count > 0 => end += count,
            _ => return end,
        }
    }
    end
}

impl<R: Read> RandomWords<R> {
    // Has a word in the buffer, unless a read failed.
    fn refill(&mut self)
        ensures faults { self.new.faults ≡ self.old.faults }
        ensures bytes { Keeps (bytes_ahead R.remaining self.old.buffer self.old.start self.old.end self.old.inner) (bytes_ahead R.remaining self.new.buffer self.new.start self.new.end self.new.inner) }
    {
        let there = self.end - self.start;
        if there >= 8 {
            return;
        }
        if let Some(reader) = &mut self.inner {
            self.buffer.rotate_left(self.start);
            self.start = 0;
            self.end = fill(reader, &mut self.buffer, there);
        }
    }
}

impl<R: Read> Words for RandomWords<R> {
    ghost words_left = { λ s. words_told (bytes_ahead R.remaining s.buffer s.start s.end s.inner) };

    ghost word_faults = { λ s. s.faults };

    fn next_word(&mut self) -> Result<u64, Failed> {
        self.refill();
        if self.end - self.start < 8 {
            self.faults = self.faults.saturating_add(1);
            return Err(Failed);
        }
        let mut word = [0; 8];
        word.copy_from_slice(&self.buffer[self.start..self.start + 8]);
        self.start += 8;
        Ok(u64::from_le_bytes(word))
    }
}
