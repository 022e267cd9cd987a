// Cutting what a source gives into lines, in pieces of any size.
ghost use Rattle.std.specs.Prelude.{◌≡◌, ◌≢◌, ◌<◌, ◌≤◌, ◌+◌, [], ◌∷◌, ◌++◌, ℕ, List, length, IfOk, IfErr, vec_len, MatchOption, MatchResult, MatchBool, take, drop, nat_eq};
ghost use Rattle.outside.specs.Causes.{HasCauseIf, HasCause};
ghost use Rattle.outside.specs.Devices.{Takes, TakesPiece};
ghost use Rattle.std.specs.Io.KnownBytes.{IsAtEnd};
ghost use Rattle.site_console.specs.Limits.{input_limit};

use crate::fault::Fault;
use crate::newline::newline_in;
use outside::{Failed, Source};
use std::alloc::{AllocError, Global};
use std::marker::Model;

/// How long a line may be that is held.
const LINE_LIMIT: usize = 1_048_576;

/// How many bytes a run may take.
const INPUT_LIMIT: u64 = 1 << 40;

const PIECE: usize = 4096;

/// A line without its newline.
#[derive(Drop)]
pub enum Line {
    Held(Vec<u8>),
    TooLong,
}

impl Line {
    ghost use Rattle.site_console.specs.Lines.{IsHeld, is_empty};

    fn new(alloc: Global) -> Self
        ensures { IsHeld result [] }
    {
        Line::Held(Vec::new(alloc))
    }

    /// The line with more bytes at its end.
    fn with(self, piece: &[u8]) -> Result<Self, AllocError>
        ensures { IfOk result (λ line. (text : List ℕ) → IsHeld self text → IsHeld line (text ++ piece.now)) }
    {
        match self {
            Line::TooLong => Ok(Line::TooLong),
            Line::Held(mut bytes) => {
                if piece.len() > LINE_LIMIT.saturating_sub(bytes.len()) {
                    return Ok(Line::TooLong);
                }
                bytes.extend_from_slice(piece)?;
                Ok(Line::Held(bytes))
            }
        }
    }

    pub fn is_empty(&self) -> bool
        ensures { (text : List ℕ) → IsHeld self.now text → result ≡ is_empty text }
    {
        match self {
            Line::Held(bytes) => bytes.is_empty(),
            Line::TooLong => false,
        }
    }
}

/// The next line. The last one of the input has no newline, and may be empty.
#[derive(Drop)]
pub struct Next {
    pub line: Line,
    pub is_last: bool,
}

/// Hands out the lines of a source.
#[derive(Drop)]
pub struct Lines {
    alloc: Global,
    piece: Vec<u8>,
    at: usize,
    end: usize,
    taken: u64,
}

impl Model for Lines {
    ghost use Rattle.site_console.specs.Reading.{Reading};
    ghost use Rattle.std.specs.Prelude.{◌≤◌, ◌<◌, slice_range, vec_len};
    ghost use Rattle.site_console.specs.Limits.{input_limit};

    ghost Value = { Reading };

    ghost view = { λ s. record { pending = slice_range s.piece.items s.at s.end; taken = s.taken } };

    ghost invariant = { λ s. (0 < vec_len s.piece) × (s.at ≤ s.end) × (s.end ≤ vec_len s.piece) × (s.end ≤ s.taken) × (s.taken ≤ input_limit) };
}

impl Lines {
    ghost use Rattle.site_console.specs.Lines.{Gives, IsHeld, Fills, CutsOff, is_read_fault};

    pub fn new(alloc: Global) -> Result<Self, AllocError>
        ensures { IfOk result (λ lines. (lines.pending ≡ []) × (lines.taken ≡ 0)) }
    {
        Ok(Lines {
            alloc,
            piece: vec![in alloc; 0; PIECE]?,
            at: 0,
            end: 0,
            taken: 0,
        })
    }

    /// Cuts off the next line. After an `Err` the reader isn't used again.
    pub fn next<I: Source>(&mut self, input: &mut I) -> Result<Next, Fault>
        ensures line { Takes (I.left input.old) (I.left input.new) (λ bytes. (self.new.taken ≡ self.old.taken + length bytes) × Gives (self.old.pending ++ bytes) result self.new (IsAtEnd (I.left input.new))) }
        ensures cause { HasCauseIf (is_read_fault result) (I.read_faults input.old) (I.read_faults input.new) }
        ensures within { self.new.taken ≤ input_limit }
    {
        let mut line = Line::new(self.alloc);
        'pieces: loop {
            let (longer, is_whole) = self.cut(line)?;
            if is_whole {
                return Ok(Next {
                    line: longer,
                    is_last: false,
                });
            }
            if self.taken == INPUT_LIMIT {
                return Err(Fault::InputTooLong);
            }
            let Ok(has_more) = self.fill(input) else {
                return Err(Fault::Read);
            };
            if !has_more {
                return Ok(Next {
                    line: longer,
                    is_last: true,
                });
            }
            line = longer;
        }
    }

    /// Moves what is pending, up to its first newline, to the end of a line, and says whether it had one.
    fn cut(&mut self, line: Line) -> Result<(Line, bool), AllocError>
        ensures cut { IfOk result (λ cut. (text : List ℕ) → IsHeld line text → CutsOff text self.old.pending cut self.new.pending) }
        ensures taken { self.new.taken ≡ self.old.taken }
    {
        let pending = &self.piece[self.at..self.end];
        match newline_in(pending) {
            Some(count) => {
                let line = line.with(&pending[..count])?;
                self.at += count + 1;
                Ok((line, true))
            }
            None => {
                let line = line.with(pending)?;
                self.at = self.end;
                Ok((line, false))
            }
        }
    }

    /// Takes the next piece, and says whether there was one.
    fn fill<I: Source>(&mut self, input: &mut I) -> Result<bool, Failed>
        requires empty { self.old.pending ≡ [] }
        requires room { self.old.taken < input_limit }
        ensures bytes { Takes (I.left input.old) (I.left input.new) (λ bytes. Fills self.old bytes result self.new (IsAtEnd (I.left input.new))) }
        ensures within { self.new.taken ≤ input_limit }
        ensures cause { HasCause (I.read_faults input.old) (I.read_faults input.new) result }
    {
        let room = (INPUT_LIMIT - self.taken).min(self.piece.len() as u64) as usize;
        let Ok(count) = take_some(input, &mut self.piece, room) else {
            return Err(Failed);
        };
        self.at = 0;
        self.end = count;
        self.taken += count as u64;
        Ok(count > 0)
    }
}

/// Takes at most `room` bytes into the front of the piece.
fn take_some<I: Source>(input: &mut I, piece: &mut [u8], room: usize) -> Result<usize, Failed>
    requires some { 0 < room }
    requires within { room ≤ length piece.old }
    ensures bound { IfOk result (λ n. n ≤ room) }
    ensures bytes { TakesPiece (I.left input.old) (I.left input.new) result piece.new }
    ensures cause { HasCause (I.read_faults input.old) (I.read_faults input.new) result }
{
    input.take(&mut piece[..room])
}
