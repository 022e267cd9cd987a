//! What is seen of a batch, and the moves.
ghost use Rattle.std.specs.Prelude.{◌≡◌, ◌<◌, ◌≤◌, ◌-◌, length, take, drop, IfOk, IfSome, Some, slice_index_or};
ghost use Rattle.std.specs.List.{slice_get};
ghost use Rattle.deed_words.specs.Happenings.{moves};
ghost use Rattle.deed_words.specs.History.{world_of};
ghost use Rattle.deed_words.specs.declared.world.Batch.{Batch as TheBatch};
ghost use Rattle.batch_report.specs.Views.{view_of};
ghost use Rattle.site_core.specs.Entries.{serials_told};
ghost use Rattle.site_core.specs.Seen.{moves_seen, numbered};

use crate::site::Site;
use batch_report::BatchView;
use deed_words::{Answer, BatchId, Deed, Entry, Move, Reply};
use gs1_keys::{Memory, Serials};
use move_list::{Moves, move_again};
use request_memo::Told;
use site_views::batch_view;
use std::alloc::Global;

/// The serials that an accepted draw drew, by its reply. Any other deed drew none.
#[tactic(auto, unfolding(crate::specs::Entries::serials_told))]
fn serials_told(alloc: Global, told: &Told) -> Result<Serials, Memory>
    ensures { IfOk result (λ serials. serials ≡ serials_told told.now.deed told.now.reply) }
{
    match (&told.deed, &told.reply) {
        (Deed::Draw(..), Reply::Accepted(Answer::Listed(serials))) => serials.copy(),
        _ => Ok(Serials::new(alloc)),
    }
}

/// The place, from 0, of the one with a number among so many; their count where there are fewer.
fn place_of(number: u64, all: u32) -> u32
    ensures there { number - 1 ≤ all → result ≡ number - 1 }
    ensures past { all ≤ number - 1 → result ≡ all }
    ensures within { result ≤ all }
{
    let place = number.saturating_sub(1);
    if place < all as u64 {
        place as u32
    } else {
        all
    }
}

impl Site {
    /// What is seen of a batch: its order, how its serials stand, what is packed, how many events it has, and its lines.
    /// It costs what the batch has, and its events nothing.
    ///
    /// # Errors
    ///
    /// `Memory` where no memory was found.
    pub fn batch_view(&self, batch: BatchId) -> Result<BatchView, Memory>
        requires { batch < length (world_of self.now.setup self.now.history).batches }
        ensures { IfOk result (λ view. (kept : TheBatch) → slice_get (world_of self.now.setup self.now.history).batches batch ≡ Some kept → view ≡ view_of self.now.setup self.now.history kept) }
    {
        self.tell_kept();
        self.stores.tell_whole();
        batch_view(
            self.alloc,
            &self.setup,
            self.stores.book(),
            self.stores.items(),
            self.stores.tree(),
            batch,
            self.moves.count(batch),
        )
    }

    /// The moves, or those of a batch, with the numbers from `from` to `from + count - 1`. Numbers begin at 1. It costs
    /// what it answers, and nothing for the moves before.
    ///
    /// # Errors
    ///
    /// `Memory` where no memory was found.
    pub fn moves(&self, batch: Option<BatchId>, from: u32, count: u32) -> Result<Moves, Memory>
        requires { IfSome batch (λ number. number < length (world_of self.now.setup self.now.history).batches) }
        ensures { IfOk result (λ some. some ≡ numbered from count (moves_seen self.now.setup self.now.history batch)) }
    {
        let all = self.count_moves(&batch);
        let first = place_of(from as u64, all);
        let past = place_of(from as u64 + count as u64, all);
        self.moves_between(&batch, first, past)
    }

    /// The moves from the one place to before the other.
    fn moves_between(&self, batch: &Option<BatchId>, first: u32, past: u32) -> Result<Moves, Memory>
        requires batch { IfSome batch.now (λ number. number < length (world_of self.now.setup self.now.history).batches) }
        requires first { first ≤ past }
        requires past { past ≤ length (moves_seen self.now.setup self.now.history batch.now) }
        ensures { IfOk result (λ some. some ≡ drop first (take past (moves_seen self.now.setup self.now.history batch.now))) }
    {
        let mut some = Moves::new(self.alloc);
        for at in first..past {
            some.push(self.move_of(batch, at)?)?;
        }
        Ok(some)
    }

    /// How many moves there are, or of a batch.
    fn count_moves(&self, batch: &Option<BatchId>) -> u32
        requires { IfSome batch.now (λ number. number < length (world_of self.now.setup self.now.history).batches) }
        ensures { result ≡ length (moves_seen self.now.setup self.now.history batch.now) }
    {
        self.stores.tell_whole();
        match batch {
            Some(batch) => self.moves.count(*batch),
            None => self.moves.len(),
        }
    }

    /// The move at a place of all, or of those of a batch, from 0.
    fn move_of(&self, batch: &Option<BatchId>, at: u32) -> Result<Move, Memory>
        requires batch { IfSome batch.now (λ number. number < length (world_of self.now.setup self.now.history).batches) }
        requires at { at < length (moves_seen self.now.setup self.now.history batch.now) }
        ensures { IfOk result (λ found. found ≡ slice_index_or (moves_seen self.now.setup self.now.history batch.now) at found) }
    {
        self.stores.tell_whole();
        match batch {
            Some(batch) => self.move_at(self.moves.place(*batch, at)),
            None => self.move_at(at),
        }
    }

    /// The move at a place of all, from 0.
    fn move_at(&self, at: u32) -> Result<Move, Memory>
        requires { at < length (moves self.now.setup self.now.history) }
        ensures { IfOk result (λ found. found ≡ slice_index_or (moves self.now.setup self.now.history) at found) }
    {
        let moved = self.moves.get(at);
        let entry = self.entry_at(moved.place)?;
        let row = self.stores.batch_at(moved.batch).order;
        move_again(self.alloc, moved, entry, row)
    }

    /// A copy of the entry at a place, from 0.
    fn entry_at(&self, place: u32) -> Result<Entry, Memory>
        requires { place < length self.now.history }
        ensures { IfOk result (λ entry. entry ≡ slice_index_or self.now.history place entry) }
    {
        let kept = &self.kept[place as usize];
        let told = self.memo.told(kept.station, kept.number);
        Ok(Entry {
            station: kept.station,
            number: kept.number,
            worker: kept.worker,
            stamp: kept.stamp,
            operator: kept.operator,
            deed: told.deed.copy()?,
            drawn: serials_told(self.alloc, told)?,
        })
    }
}
