//! A window over a disk. The struct stands alone: what a ghost field's file names may not lead back to it.
ghost use Rattle.std.specs.Prelude.{◌≡◌, ◌+◌, ◌≤◌, length, take, drop};
ghost use Rattle.outside.specs.Disks.{Tells};

use outside::Disk;

/// A disk of this size, and the bytes from `at` on that were read last, at most 65,536 of them.
#[derive(Drop)]
pub(crate) struct Reader<D: Disk> {
    pub(crate) disk: D,
    pub(crate) size: u64,
    pub(crate) at: u64,
    pub(crate) bytes: Vec<u8>,
    ghost sized: { Tells (D.content disk) (λ c. size ≡ length c) },
    ghost read: { Tells (D.content disk) (λ c. bytes.items ≡ take (length bytes.items) (drop at c)) },
    ghost within: { at + length bytes.items ≤ size },
    ghost short: { length bytes.items ≤ 65536 },
}
