//! What a program reads and writes through. A device may tell its content: then clauses say which bytes or
//! words a call moves. Each device counts its faults, up to the last u64, where the count stands still.
ghost use Rattle.std.specs.Prelude.{◌≡◌, ◌<◌, ◌≤◌, ◌^◌, ℕ, List, Option, None, length, IfOk};
ghost use Rattle.outside.specs.Causes.{HasCause};
ghost use Rattle.outside.specs.Devices.{Ask, TakesPiece, AsksOnce, PutsPiece, TakesWord};

/// A device failed, and its count of faults rose.
#[derive(Clone, Copy, Debug, PartialEq, Eq)]
pub struct Failed;

/// Where bytes come from.
pub trait Source {
    /// The bytes that are left, where the source tells them.
    ghost left: { Self → Option (List ℕ) };

    /// How often a `take` has failed.
    ghost read_faults: { Self → ℕ };

    /// The calls of `take` so far, where the source tells them: how long each piece was, and the bytes that came.
    ghost asks: { Self → Option (List Ask) } = { λ _. None };

    /// What a `take` leaves alone.
    ghost beside_takes: { Self → Option (List ℕ) × ℕ } = { λ _. (None, 0) };

    /// Fills the front of the piece with the bytes that come next, and says how many. It answers 0
    /// exactly where nothing is left. Where it fails, no byte is lost.
    fn take(&mut self, piece: &mut [u8]) -> Result<usize, Failed>
        requires { 0 < length piece.old }
        ensures bound { IfOk result (λ n. n ≤ length piece.new) }
        ensures bytes { TakesPiece (left self.old) (left self.new) result piece.new }
        ensures asked { AsksOnce (asks self.old) (asks self.new) result piece.new }
        ensures cause { HasCause (read_faults self.old) (read_faults self.new) result }
        ensures beside { beside_takes self.new ≡ beside_takes self.old };
}

/// Where bytes go.
pub trait Sink {
    /// The bytes that were put, where the sink tells them.
    ghost held: { Self → Option (List ℕ) };

    /// How often a `put` has failed.
    ghost write_faults: { Self → ℕ };

    /// What a `put` leaves alone.
    ghost beside_puts: { Self → Option (List ℕ) × ℕ } = { λ _. (None, 0) };

    /// Appends the front of the piece, at least one byte, and says how many. Where it fails, none was put.
    fn put(&mut self, piece: &[u8]) -> Result<usize, Failed>
        requires { 0 < length piece.now }
        ensures bound { IfOk result (λ n. (0 < n) × (n ≤ length piece.now)) }
        ensures bytes { PutsPiece (held self.old) (held self.new) result piece.now }
        ensures cause { HasCause (write_faults self.old) (write_faults self.new) result }
        ensures beside { beside_puts self.new ≡ beside_puts self.old };
}

/// Both in one, as a connection: a `take`, failed or not, keeps what was put and the count of `put`, and a `put`
/// what is left and the count of `take`.
pub trait Link: Source + Sink {
    ghost takes_apart: { (link : Self) → Self.beside_takes link ≡ (Self.held link, Self.write_faults link) };

    ghost puts_apart: { (link : Self) → Self.beside_puts link ≡ (Self.left link, Self.read_faults link) };
}

/// Where random words come from.
pub trait Words {
    /// The words that are left, where the device tells them.
    ghost words_left: { Self → Option (List ℕ) };

    /// How often a `next_word` has failed.
    ghost word_faults: { Self → ℕ };

    /// Answers the first of the words left, and takes it away. Where it fails, none is lost.
    fn next_word(&mut self) -> Result<u64, Failed>
        ensures word { TakesWord (words_left self.old) (words_left self.new) result }
        ensures cause { HasCause (word_faults self.old) (word_faults self.new) result };
}
