//! The site.
ghost use Rattle.std.specs.Prelude.{◌≡◌, ◌<◌, ◌+◌, ◌^◌, [], length, All, IfOk};
ghost use Rattle.std.specs.List.{position};
ghost use Rattle.deed_words.specs.History.{last_stamp, world_of, IsLawful};
ghost use Rattle.deed_words.specs.Numbers.{Means};
ghost use Rattle.deed_words.specs.Proper.{IsProperEntry};
ghost use Rattle.deed_words.specs.ProperWorlds.{IsProperWorld};
ghost use Rattle.deed_words.specs.Sound.{IsSound};
ghost use Rattle.deed_words.specs.Setups.{IsProper};
ghost use Rattle.deed_words.specs.Stations.{station_of};
ghost use Rattle.batch_book.specs.Batches.{is_called};
ghost use Rattle.batch_book.specs.Content.{world_in};
ghost use Rattle.request_memo.specs.Seeing.{meaning_of};
ghost use Rattle.site_core.specs.Entries.{history_in};

use crate::kept::Kept;
use deed_words::{
    BatchId, Deed, Setup, StationId, soundness_is_kept, station_of, worlds_are_proper,
};
use gs1_keys::{Memory, Text20};
use move_list::MoveList;
use request_memo::{Memo, Seen};
use serial_pool::Pool;
use site_stores::Stores;
use std::alloc::Global;
use std::marker::Model;

/// A site: its setup, its history, which is lawful and of proper entries, and what stands after it.
#[derive(Drop)]
pub struct Site {
    pub(crate) alloc: Global,
    pub(crate) setup: Setup,
    /// What is kept of each entry beside its deed and its reply.
    pub(crate) kept: Vec<Kept>,
    /// What each station asked and was told.
    pub(crate) memo: Memo,
    /// What stands after the history.
    pub(crate) stores: Stores,
    /// The serials that were drawn.
    pub(crate) pool: Pool,
    /// What is kept of its moves.
    pub(crate) moves: MoveList,
}

impl Model for Site {
    ghost use Rattle.std.specs.Prelude.{◌-◌, vec_len, vec_capacity};
    ghost use Rattle.site_core.specs.View.{View};
    ghost use Rattle.site_core.specs.Entries.{history_in};
    ghost use Rattle.site_core.specs.Standing.{IsKept};

    ghost Value = { View };

    ghost view = { λ s. record {
      setup = s.setup;
      history = history_in s.memo.told s.kept.items;
      content = s.stores.content;
      room = record { entries = vec_capacity s.kept - vec_len s.kept; numbers = s.memo.room; stores = s.stores.room; serials = s.pool.room; gtins = s.pool.gtins; moves = s.moves.room };
    } };

    ghost invariant = { λ s. IsKept s.setup (history_in s.memo.told s.kept.items) s.memo.told s.stores.content s.pool s.moves.moves };
}

impl Site {
    /// A site in which nothing has happened.
    ///
    /// # Errors
    ///
    /// `Memory` where no memory was found.
    pub fn new(alloc: Global, setup: Setup) -> Result<Self, Memory>
        ensures { IfOk result (λ site. (site.setup ≡ setup) × (site.history ≡ [])) }
    {
        setup.tell_proper();
        let stations = setup.stations.len();
        let memo = Memo::new(alloc, stations as u8)?;
        Ok(Site {
            alloc,
            setup,
            kept: Vec::new(alloc),
            memo,
            stores: Stores::new(alloc),
            pool: Pool::new(alloc),
            moves: MoveList::new(alloc),
        })
    }

    /// The setup.
    pub fn setup(&self) -> &Setup
        ensures { result.now ≡ self.now.setup }
    {
        &self.setup
    }

    /// Tells contracts what every site keeps. It does nothing.
    pub fn tell_kept(&self)
        ensures setup { IsProper self.now.setup }
        ensures lawful { IsLawful self.now.setup self.now.history }
        ensures proper { All IsProperEntry self.now.history }
        ensures sound { IsSound self.now.setup (world_of self.now.setup self.now.history) }
        ensures world { IsProperWorld self.now.setup (world_of self.now.setup self.now.history) }
        ensures content { world_in self.now.content ≡ world_of self.now.setup self.now.history }
    {
        soundness_is_kept();
        worlds_are_proper();
        self.setup.tell_proper();
    }

    /// What a number of a station means, where this deed comes with it: it was kept with this deed, and this was the
    /// reply; it was kept with another deed, this one; it comes next; or it leaves a gap. Deeds are compared and nothing
    /// else: who operated doesn't matter. It takes no memory, and time for comparing two deeds alone.
    pub fn look(&self, station: StationId, number: u64, deed: &Deed) -> Seen<'_>
        requires { station < length self.now.setup.stations }
        ensures { Means self.now.setup self.now.history station number deed.now (meaning_of result) }
    {
        self.memo.look(station, number, deed)
    }

    /// The station of that name. It is None exactly where the setup has none.
    pub fn station(&self, name: &Text20) -> Option<StationId>
        ensures { result ≡ station_of self.now.setup name.now }
    {
        station_of(&self.setup, name.bytes())
    }

    /// The batch of that name. It is None exactly where none was ordered.
    pub fn batch(&self, name: &Text20) -> Option<BatchId>
        ensures { result ≡ position (is_called name.now) (world_of self.now.setup self.now.history).batches }
    {
        self.stores.find_batch(name)
    }

    /// The stamp of the last entry, 0 where there is none.
    pub fn last_stamp(&self) -> u64
        ensures { result ≡ last_stamp self.now.history }
    {
        stamp_of_last(&self.kept)
    }

    /// How many entries there are.
    pub fn entries(&self) -> usize
        ensures { result ≡ length self.now.history }
    {
        count_entries(&self.kept)
    }
}

/// The stamp of the last entry, 0 where there is none.
pub(crate) fn stamp_of_last(kept: &[Kept]) -> u64
    ensures { (told : _) → result ≡ last_stamp (history_in told kept.now) }
{
    match kept.last() {
        Some(last) => last.stamp,
        None => 0,
    }
}

/// How many entries there are.
pub(crate) fn count_entries(kept: &[Kept]) -> usize
    ensures is { (told : _) → result ≡ length (history_in told kept.now) }
    ensures few { length kept.now + 1 < 2 ^ 64 }
{
    kept.len()
}
