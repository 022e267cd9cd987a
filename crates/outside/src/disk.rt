//! A disk, and what a crash may leave of it: a set of images. A disk may tell its content; one that tells nothing
//! has no image.
ghost use Rattle.std.specs.Prelude.{◌≡◌, ◌⊎◌, ◌+◌, ◌≤◌, ℕ, List, Option, Some, None, length, take, drop, IfOk, OnOk, OnErr};
ghost use Rattle.outside.specs.Causes.{HasCause};
ghost use Rattle.outside.specs.Disks.{Tells, Together, overwritten, Torn, Follows, LeadsTo, Only, SameImages, NoMoreImages, Elapses, one_call_more};

use crate::Failed;

/// Where bytes are kept. Between two syncs a crash may leave any bytes in each range that a write named, also where
/// that write failed, and may end the file anywhere between its old and its new end. After a sync that succeeds it
/// leaves the content. A call that fails raises the count of faults.
pub trait Disk {
    /// The bytes that a read gives, where the disk tells them.
    ghost content: { Self → Option (List ℕ) };

    /// What a crash at this moment may leave.
    ghost image: { Self → List ℕ → Type 0 };

    /// The moment, as a number that doesn't fall.
    ghost moment: { Self → ℕ };

    /// What a crash at some moment from that one on may have left, during a call or between two.
    ghost image_since: { Self → ℕ → List ℕ → Type 0 };

    /// How often a call has failed.
    ghost disk_faults: { Self → ℕ };

    /// How often it was called, where the disk tells it.
    ghost disk_calls: { Self → Option ℕ } = { λ _. None };

    /// How many bytes there are.
    fn size(&mut self) -> Result<u64, Failed>
        ensures size { IfOk result (λ n. Tells (content self.old) (λ c. n ≡ length c)) }
        ensures content { content self.new ≡ content self.old }
        ensures images { SameImages (image self.old) (image self.new) }
        ensures time { Elapses (moment self.old) (moment self.new) (image_since self.old) (image_since self.new) (image self.new) }
        ensures cause { HasCause (disk_faults self.old) (disk_faults self.new) result }
        ensures counted { disk_calls self.new ≡ one_call_more (disk_calls self.old) };

    /// Fills the piece with the bytes from there on.
    fn read_at(&mut self, at: u64, piece: &mut [u8]) -> Result<(), Failed>
        requires { Tells (content self.old) (λ c. at + length piece.old ≤ length c) }
        ensures read { OnOk result (Tells (content self.old) (λ c. piece.new ≡ take (length piece.old) (drop at c))) }
        ensures content { content self.new ≡ content self.old }
        ensures images { SameImages (image self.old) (image self.new) }
        ensures time { Elapses (moment self.old) (moment self.new) (image_since self.old) (image_since self.new) (image self.new) }
        ensures cause { HasCause (disk_faults self.old) (disk_faults self.new) result }
        ensures counted { disk_calls self.new ≡ one_call_more (disk_calls self.old) };

    /// Writes over what is there, and past the end. From then on, and until a sync, the range may hold any bytes; where
    /// the write failed, the range may hold any bytes or the write never reached the disk.
    fn write_at(&mut self, at: u64, piece: &[u8]) -> Result<(), Failed>
        requires { Tells (content self.old) (λ c. at ≤ length c) }
        ensures written { OnOk result (Together (λ old new. new ≡ overwritten at piece.now old) (content self.old) (content self.new)) }
        ensures torn { OnErr result (Together (Torn at (length piece.now)) (content self.old) (content self.new)) }
        ensures images { Follows (Torn at (length piece.now)) (image self.old) (image self.new) }
        ensures any_bytes { OnOk result (LeadsTo (Torn at (length piece.now)) (image self.old) (image self.new)) }
        ensures any_bytes_or_none { OnErr result (LeadsTo (Torn at (length piece.now)) (image self.old) (image self.new) ⊎ SameImages (image self.old) (image self.new)) }
        ensures time { Elapses (moment self.old) (moment self.new) (image_since self.old) (image_since self.new) (image self.new) }
        ensures cause { HasCause (disk_faults self.old) (disk_faults self.new) result }
        ensures counted { disk_calls self.new ≡ one_call_more (disk_calls self.old) };

    /// After it, the only image is the content.
    fn sync(&mut self) -> Result<(), Failed>
        ensures synced { OnOk result (Only (content self.old) (image self.new)) }
        ensures content { content self.new ≡ content self.old }
        ensures no_more { NoMoreImages (image self.old) (image self.new) }
        ensures images { OnErr result (SameImages (image self.old) (image self.new)) }
        ensures time { Elapses (moment self.old) (moment self.new) (image_since self.old) (image_since self.new) (image self.new) }
        ensures cause { HasCause (disk_faults self.old) (disk_faults self.new) result }
        ensures counted { disk_calls self.new ≡ one_call_more (disk_calls self.old) };

    /// A disk as it reads is one of its images.
    ghost as_read: { (disk : Self) (c : List ℕ) → content disk ≡ Some c → image disk c };

    /// This moment is one of those since an earlier one.
    ghost counts_now: { (disk : Self) (t : ℕ) (c : List ℕ) → t ≤ moment disk → image disk c → image_since disk t c };

    /// Since this moment there is no other.
    ghost only_now: { (disk : Self) (c : List ℕ) → image_since disk (moment disk) c → image disk c };
}
