//! A block goes behind a closed gate, and then the gate is opened, each on the disk before the next.
ghost use Rattle.std.specs.Prelude.{◌≡◌, ◌+◌, ◌<◌, ◌^◌, [], ◌∷◌, ◌++◌, List, ℕ, length, OnOk, OnErr, IsSome};
ghost use Rattle.outside.specs.Causes.{HasCause};
ghost use Rattle.outside.specs.Disks.{LeavesOnly, OneOrTwoCalls, two_calls_more, Together, Torn};
ghost use Rattle.gate_journal.specs.Gates.{EachImage, EndsAt, HalfOpen, WithOrWithout, Reaches};
ghost use Rattle.gate_journal.specs.Journals.{Writes};

use outside::{Disk, Failed};

/// Writes a block and a closed gate behind the closed gate at `end`.
pub(crate) fn stage<D: Disk>(disk: &mut D, end: u64, body: &[u8]) -> Result<(), Failed>
    requires room { end + 1 < 2 ^ 64 }
    requires there { Reaches (D.image disk.old) end }
    ensures there { Reaches (D.image disk.new) end }
    ensures reach { OnOk result (Reaches (D.image disk.new) (end + length body.now)) }
    ensures staged { OnOk result ((front block : List ℕ) → body.now ≡ block ++ 0 ∷ [] → EachImage (D.image disk.old) end front (EndsAt front) → EachImage (D.image disk.new) end front (HalfOpen front block)) }
    ensures failed { OnErr result ((front : List ℕ) → EachImage (D.image disk.old) end front (EndsAt front) → EachImage (D.image disk.new) end front (EndsAt front)) }
    ensures any_moment { (front : List ℕ) → EachImage (D.image disk.old) end front (EndsAt front) → LeavesOnly D.moment D.image_since disk.old disk.new (EndsAt front) }
    ensures wrote { OnOk result (Writes (end + 1) body.now (D.content disk.old) (D.content disk.new)) }
    ensures torn { OnErr result (Together (Torn (end + 1) (length body.now)) (D.content disk.old) (D.content disk.new)) }
    ensures told { IsSome (D.content disk.old) → IsSome (D.content disk.new) }
    ensures told_before { IsSome (D.content disk.new) → IsSome (D.content disk.old) }
    ensures cause { HasCause (D.disk_faults disk.old) (D.disk_faults disk.new) result }
    ensures calls { OnOk result (D.disk_calls disk.new ≡ two_calls_more (D.disk_calls disk.old)) }
    ensures calls_err { OnErr result (OneOrTwoCalls (D.disk_calls disk.old) (D.disk_calls disk.new)) }
{
    disk.write_at(end + 1, body)?;
    disk.sync()?;
    Ok(())
}

/// Opens the gate at `end`, behind which a whole block stands.
pub(crate) fn open_gate<D: Disk>(disk: &mut D, end: u64) -> Result<(), Failed>
    requires { Reaches (D.image disk.old) end }
    ensures there { (n : ℕ) → Reaches (D.image disk.old) n → Reaches (D.image disk.new) n }
    ensures half { (front block : List ℕ) → EachImage (D.image disk.old) end front (HalfOpen front block) → EachImage (D.image disk.new) end front (HalfOpen front block) }
    ensures opened { OnOk result ((front block : List ℕ) → EachImage (D.image disk.old) end front (HalfOpen front block) → EachImage (D.image disk.new) end front (EndsAt (front ++ 1 ∷ block))) }
    ensures any_moment { (front block : List ℕ) → EachImage (D.image disk.old) end front (HalfOpen front block) → LeavesOnly D.moment D.image_since disk.old disk.new (WithOrWithout front block) }
    ensures wrote { OnOk result (Writes end (1 ∷ []) (D.content disk.old) (D.content disk.new)) }
    ensures torn { OnErr result (Together (Torn end 1) (D.content disk.old) (D.content disk.new)) }
    ensures told { IsSome (D.content disk.old) → IsSome (D.content disk.new) }
    ensures told_before { IsSome (D.content disk.new) → IsSome (D.content disk.old) }
    ensures cause { HasCause (D.disk_faults disk.old) (D.disk_faults disk.new) result }
    ensures calls { OnOk result (D.disk_calls disk.new ≡ two_calls_more (D.disk_calls disk.old)) }
    ensures calls_err { OnErr result (OneOrTwoCalls (D.disk_calls disk.old) (D.disk_calls disk.new)) }
{
    disk.write_at(end, &[1])?;
    disk.sync()?;
    Ok(())
}
