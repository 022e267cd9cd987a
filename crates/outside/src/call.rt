//! What a source in memory remembers of its calls.
ghost use Rattle.std.specs.Prelude.{◌≡◌, ℕ, List, [], ◌∷◌, ◌++◌, take, drop};
ghost use Rattle.outside.specs.Devices.{ask};
ghost use Rattle.outside.specs.MemoryCalls.{asks_of};

use std::snapshot::Snapshot;

/// A call of `take`: how long the piece was, which of the source's bytes came, and the calls before it, which take no
/// room.
#[derive(Drop)]
pub(crate) struct Call {
    pub(crate) room: usize,
    pub(crate) from: usize,
    pub(crate) count: usize,
    pub(crate) before: Snapshot<Option<Call>>,
}

/// Puts a call behind these.
pub(crate) fn count_call(last: &mut Option<Call>, room: usize, from: usize, count: usize)
    ensures { (bytes : List ℕ) → asks_of bytes last.new ≡ asks_of bytes last.old ++ ask room (take count (drop from bytes)) ∷ [] }
{
    *last = Some(Call {
        room,
        from,
        count,
        before: Snapshot::of(last),
    });
}
