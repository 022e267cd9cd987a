//! A site's store at the desk.
ghost use Rattle.std.specs.Prelude.{◌≡◌};

use outside::{Clock, Disk, Words};
use site_store::Store;
use turn_desk::Stands;

/// A store at the desk: workers have it in turns.
#[derive(Drop)]
pub struct DeskStore<D: Disk, C: Clock, W: Words> {
    /// The store.
    pub store: Store<D, C, W>,
}

impl<D: Disk, C: Clock, W: Words> Stands for DeskStore<D, C, W> {
    ghost use Rattle.site_turns.specs.Origins.{origin_of, desk_notes, IsServing};

    ghost origin = { λ s. origin_of D.Disk C.Clock W.Words s.store };

    ghost noted = { λ s. desk_notes s.store };

    ghost sound = { λ s. IsServing D.Disk C.Clock W.Words s.store };

    fn count(&self) -> u64 {
        self.store.notes().len() as u64
    }
}
