//! Appending a payload, and settling one that is pending.
ghost use Rattle.std.specs.Prelude.{◌≡◌, ◌⊎◌, ◌+◌, ◌<◌, ◌≤◌, ◌^◌, [], ◌∷◌, ◌++◌, List, ℕ, length, None, Some, Ok, Err, OnOk, IsErrOf, IsSome, IsTrue, ◌↔◌};
ghost use Rattle.gate_journal.specs.declared.fault.JournalFault.TheVariants.{Disk, Full};
ghost use Rattle.outside.specs.Causes.{Rose};
ghost use Rattle.outside.specs.Disks.{LeavesOnly, OneOrTwoCalls, two_calls_more, Together, Torn};
ghost use Rattle.gate_journal.specs.Grammar.{Holds};
ghost use Rattle.gate_journal.specs.Journals.{IsSettled, IsBehind, HoldsWithOrWithout, Writes, journal_limit, shut_record};

use crate::Frame;
use crate::fault::JournalFault;
use crate::gates::{open_gate, stage};
use crate::journal::{Journal, LIMIT};
use outside::Disk;

impl<D: Disk> Journal<D> {
    /// Adds a payload, in four device calls and without memory. At any moment what a crash leaves holds the payloads
    /// from before, or those and this one. After `Disk` in the first two calls the journal is as before, after
    /// `Disk` in the last two the payload is pending, and `mend` settles it. `Full` comes before any device call,
    /// exactly where the end, 6 and the payload's length are together above `LIMIT`. What it writes is the record
    /// behind its open gate, and one closed gate.
    pub fn append(&mut self, frame: &Frame) -> Result<(), JournalFault>
        requires { self.old.pending ≡ None }
        ensures full { journal_limit < self.old.end + 6 + length frame.now → (result ≡ Err (Full self.old.end (length frame.now) journal_limit)) × (self.new ≡ self.old) }
        ensures or_disk { self.old.end + 6 + length frame.now ≤ journal_limit → (result ≡ Ok tt) ⊎ (result ≡ Err Disk) }
        ensures ok { OnOk result ((site : List ℕ) (payloads : List (List ℕ)) → IsSettled (D.image self.old.disk) self.old.end self.old.pending site payloads → IsSettled (D.image self.new.disk) self.new.end self.new.pending site (payloads ++ frame.now ∷ [])) }
        ensures end { OnOk result (self.new.end ≡ self.old.end + 5 + length frame.now) }
        ensures ok_settled { OnOk result (self.new.pending ≡ None) }
        ensures wrote { OnOk result (Writes self.old.end (shut_record frame.now) (D.content self.old.disk) (D.content self.new.disk)) }
        ensures torn { IsErrOf result Disk → Together (Torn self.old.end (6 + length frame.now)) (D.content self.old.disk) (D.content self.new.disk) }
        ensures pending { IsErrOf result Disk → (self.new.pending ≡ None) ⊎ (self.new.pending ≡ Some (self.old.end + 5 + length frame.now)) }
        ensures end_kept { IsErrOf result Disk → self.new.end ≡ self.old.end }
        ensures fault { IsErrOf result Disk → (site : List ℕ) (payloads : List (List ℕ)) → IsSettled (D.image self.old.disk) self.old.end self.old.pending site payloads → IsSettled (D.image self.new.disk) self.new.end self.new.pending site payloads ⊎ IsBehind (D.image self.new.disk) self.new.end self.new.pending site payloads frame.now }
        ensures any_moment { (site : List ℕ) (payloads : List (List ℕ)) → IsSettled (D.image self.old.disk) self.old.end self.old.pending site payloads → LeavesOnly D.moment D.image_since self.old.disk self.new.disk (HoldsWithOrWithout site payloads frame.now) }
        ensures as_before { IsErrOf result Disk → self.new.pending ≡ None → (site : List ℕ) (payloads : List (List ℕ)) → IsSettled (D.image self.old.disk) self.old.end self.old.pending site payloads → LeavesOnly D.moment D.image_since self.old.disk self.new.disk (Holds site payloads) }
        ensures told { IsSome (D.content self.old.disk) → IsSome (D.content self.new.disk) }
        ensures told_before { IsSome (D.content self.new.disk) → IsSome (D.content self.old.disk) }
        ensures later { D.disk_faults self.old.disk ≤ D.disk_faults self.new.disk }
        ensures cause { IsErrOf result Disk → Rose (D.disk_faults self.old.disk) (D.disk_faults self.new.disk) }
        ensures kept { OnOk result (D.disk_faults self.new.disk ≡ D.disk_faults self.old.disk) }
        ensures calls { OnOk result (D.disk_calls self.new.disk ≡ two_calls_more (two_calls_more (D.disk_calls self.old.disk))) }
        ensures first_two { IsErrOf result Disk → self.new.pending ≡ None → OneOrTwoCalls (D.disk_calls self.old.disk) (D.disk_calls self.new.disk) }
        ensures last_two { IsErrOf result Disk → IsSome self.new.pending → OneOrTwoCalls (two_calls_more (D.disk_calls self.old.disk)) (D.disk_calls self.new.disk) }
    {
        let asked = frame.len();
        let end = self.end;
        if end > LIMIT || LIMIT - end < 6 + asked {
            return Err(JournalFault::Full(end, asked, LIMIT));
        }
        let Ok(()) = stage(&mut self.disk, end, frame.bytes()) else {
            return Err(JournalFault::Disk);
        };
        self.pending = Some(end + 5 + asked);
        let Ok(()) = open_gate(&mut self.disk, end) else {
            return Err(JournalFault::Disk);
        };
        self.pending = None;
        self.end = end + 5 + asked;
        Ok(())
    }

    /// Whether a payload is pending.
    pub fn pending(&self) -> bool
        ensures { IsTrue result ↔ IsSome self.now.pending }
    {
        self.pending.is_some()
    }

    /// The offset of the closed gate at which the next record goes.
    pub fn end(&self) -> u64
        requires { self.now.pending ≡ None }
        ensures { result ≡ self.now.end }
    {
        self.end
    }

    /// Settles a payload that is pending: its gate is written again, and synced, without memory. Then it is in
    /// whatever a crash leaves. Where none is pending, no device call is made. After `Disk` it is still pending.
    pub fn mend(&mut self) -> Result<(), JournalFault>
        ensures settled { self.old.pending ≡ None → (result ≡ Ok tt) × (self.new ≡ self.old) }
        ensures or_disk { (result ≡ Ok tt) ⊎ (result ≡ Err Disk) }
        ensures ok { OnOk result ((site : List ℕ) (payloads : List (List ℕ)) (payload : List ℕ) → IsBehind (D.image self.old.disk) self.old.end self.old.pending site payloads payload → IsSettled (D.image self.new.disk) self.new.end self.new.pending site (payloads ++ payload ∷ [])) }
        ensures end { OnOk result ((n : ℕ) → self.old.pending ≡ Some n → self.new.end ≡ n) }
        ensures ok_settled { OnOk result (self.new.pending ≡ None) }
        ensures wrote { OnOk result ((n : ℕ) → self.old.pending ≡ Some n → Writes self.old.end (1 ∷ []) (D.content self.old.disk) (D.content self.new.disk)) }
        ensures torn { IsErrOf result Disk → Together (Torn self.old.end 1) (D.content self.old.disk) (D.content self.new.disk) }
        ensures fault { IsErrOf result Disk → (site : List ℕ) (payloads : List (List ℕ)) (payload : List ℕ) → IsBehind (D.image self.old.disk) self.old.end self.old.pending site payloads payload → IsBehind (D.image self.new.disk) self.new.end self.new.pending site payloads payload }
        ensures as_before { IsErrOf result Disk → (self.new.end ≡ self.old.end) × (self.new.pending ≡ self.old.pending) }
        ensures any_moment { (site : List ℕ) (payloads : List (List ℕ)) (payload : List ℕ) → IsBehind (D.image self.old.disk) self.old.end self.old.pending site payloads payload → LeavesOnly D.moment D.image_since self.old.disk self.new.disk (HoldsWithOrWithout site payloads payload) }
        ensures told { IsSome (D.content self.old.disk) → IsSome (D.content self.new.disk) }
        ensures told_before { IsSome (D.content self.new.disk) → IsSome (D.content self.old.disk) }
        ensures later { D.disk_faults self.old.disk ≤ D.disk_faults self.new.disk }
        ensures cause { IsErrOf result Disk → Rose (D.disk_faults self.old.disk) (D.disk_faults self.new.disk) }
        ensures kept { OnOk result (D.disk_faults self.new.disk ≡ D.disk_faults self.old.disk) }
        ensures calls { OnOk result ((n : ℕ) → self.old.pending ≡ Some n → D.disk_calls self.new.disk ≡ two_calls_more (D.disk_calls self.old.disk)) }
        ensures calls_err { IsErrOf result Disk → OneOrTwoCalls (D.disk_calls self.old.disk) (D.disk_calls self.new.disk) }
    {
        let Some(end) = self.pending else {
            return Ok(());
        };
        let Ok(()) = open_gate(&mut self.disk, self.end) else {
            return Err(JournalFault::Disk);
        };
        self.pending = None;
        self.end = end;
        Ok(())
    }

    /// Gives the disk back.
    pub fn into_disk(self) -> D
        ensures { result ≡ self.disk }
    {
        self.disk
    }
}
