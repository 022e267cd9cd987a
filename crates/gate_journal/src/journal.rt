//! A journal on a disk. The struct stands alone: what a ghost field's file names may not lead back to it.
ghost use Rattle.std.specs.Prelude.{◌≡◌, ◌<◌, List, ℕ, Some, length};

use outside::Disk;

/// No append makes a journal longer than so many bytes.
pub const LIMIT: u64 = 268_435_456;

/// A journal on a disk, whose next record goes behind the closed gate at `end`. Where a record is pending, `pending`
/// has the end behind it. A payload that was appended is in whatever a crash leaves from then on.
#[derive(Drop)]
pub struct Journal<D: Disk> {
    pub(crate) disk: D,
    pub(crate) end: u64,
    pub(crate) pending: Option<u64>,
    ghost there: { (c : List ℕ) → D.image disk c → end < length c },
    ghost pending_there: { (n : ℕ) → pending ≡ Some n → (c : List ℕ) → D.image disk c → n < length c },
}
