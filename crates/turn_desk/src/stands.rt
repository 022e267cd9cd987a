//! What a desk asks of its value and of a job.
ghost use Rattle.std.specs.Prelude.{◌≡◌, ℕ, List, length};
ghost use Rattle.turn_desk.specs.declared.view.Noted.{Noted};
ghost use Rattle.turn_desk.specs.declared.view.Origin.{Origin};
ghost use Rattle.turn_desk.specs.Notes.{Appends};

/// A value that stands for a list of notes.
pub trait Stands {
    /// What no turn changes.
    ghost origin: { Self → Origin };

    /// The notes that it stands for, in order, each with its group.
    ghost noted: { Self → List Noted };

    /// What is true of the value between two turns.
    ghost sound: { Self → Type 0 };

    /// How many notes it stands for.
    fn count(&self) -> u64
        ensures { result ≡ length (noted self.now) };
}

/// What a worker does in its turn.
pub trait Job<V: Stands> {
    /// What it is told.
    type Answer;

    /// Between the job before its work, the worker's number, what no turn changes, the notes before and
    /// after, and the answer.
    ghost relates: { Self → ℕ → Origin → List Noted → List Noted → Self.Answer → Type 0 };

    /// Works on the value, and only adds notes that name the worker.
    fn work(&mut self, worker: u8, value: &mut V) -> Self::Answer
        requires sound { V.sound value.old }
        ensures sound { V.sound value.new }
        ensures origin { V.origin value.new ≡ V.origin value.old }
        ensures appends { Appends worker (V.noted value.old) (V.noted value.new) }
        ensures relates { relates self.old worker (V.origin value.old) (V.noted value.old) (V.noted value.new) result };
}
