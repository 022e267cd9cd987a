//! What is kept and taken back leaves the memo as it was, its room included.
ghost use Rattle.std.specs.Prelude.{◌≡◌, ◌<◌, length, slice_index};
ghost use Rattle.request_memo.specs.Memos.{told_by};

use crate::memo::Memo;
use deed_words::{Deed, Reply, StationId};

/// A request that is kept and taken back: it comes back as it was.
pub fn kept_and_taken_back(
    memo: &mut Memo,
    station: StationId,
    deed: Deed,
    reply: Reply,
) -> (Deed, Reply)
    requires station { station < length memo.old.told }
    requires room { 0 < slice_index memo.old.room station }
    ensures memo { memo.new ≡ memo.old }
    ensures deed { result.0 ≡ deed }
    ensures reply { result.1 ≡ reply }
{
    memo.tell_pages();
    memo.push(station, deed, reply);
    memo.unpush(station)
}

/// The last request that was kept, taken back and kept again.
pub fn taken_back_and_kept(memo: &mut Memo, station: StationId)
    requires station { station < length memo.old.told }
    requires some { 0 < length (told_by memo.old.told station) }
    ensures memo { memo.new ≡ memo.old }
{
    memo.tell_pages();
    let (deed, reply) = memo.unpush(station);
    memo.push(station, deed, reply);
}
