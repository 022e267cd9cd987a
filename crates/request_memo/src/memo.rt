//! The memo.
ghost use Rattle.std.specs.Prelude.{◌≡◌, ◌+◌, ◌-◌, ◌<◌, ◌≤◌, [], List, IfOk, OnOk, OnErr, max, length, replicate, slice_index, slice_index_or, slice_set};
ghost use Rattle.deed_words.specs.Setups.{Setup};
ghost use Rattle.deed_words.specs.declared.entry.Entry.{Entry};
ghost use Rattle.deed_words.specs.Numbers.{Means};
ghost use Rattle.request_memo.specs.Memos.{told_by, with_told};
ghost use Rattle.request_memo.specs.Seeing.{AreToldTo, meaning_of};

use crate::page::{Page, Seen, Told};
use deed_words::{Deed, Reply, StationId};
use gs1_keys::Memory;
use std::alloc::Global;
use std::marker::Model;

/// What each station asked and was told. A station's numbers begin at 1 and leave none out.
#[derive(Debug, Drop)]
pub struct Memo {
    pages: Vec<Page>,
}

impl Model for Memo {
    ghost use Rattle.std.specs.Prelude.{map};
    ghost use Rattle.request_memo.specs.Memos.{Pages};

    ghost Value = { Pages };

    ghost view = { λ m. record { told = map (λ page. page.told.items) m.pages.items; room = map (λ page. page.room) m.pages.items } };
}

impl Memo {
    /// Of so many stations, none of which asked anything, with no room.
    ///
    /// # Errors
    ///
    /// `Memory` where no memory was found.
    pub fn new(alloc: Global, stations: u8) -> Result<Memo, Memory>
        ensures told { IfOk result (λ memo. memo.told ≡ replicate stations []) }
        ensures room { IfOk result (λ memo. memo.room ≡ replicate stations 0) }
    {
        let mut pages = Vec::new(alloc);
        for _ in 0..stations {
            pages.push(Page::new(alloc))?;
        }
        Ok(Memo { pages })
    }

    /// Tells contracts that each station has room, be it 0. It does nothing.
    pub fn tell_pages(&self)
        ensures { length self.now.room ≡ length self.now.told }
    {
        let _stations = self.pages.len();
    }

    /// The station's last number, or 0 where it has none.
    pub fn last(&self, station: StationId) -> u64
        requires { station < length self.now.told }
        ensures { result ≡ length (told_by self.now.told station) }
    {
        self.pages[usize::from(station.0)].last()
    }

    /// What the station asked and was told under a number that it has.
    pub fn told(&self, station: StationId, number: u64) -> &Told
        requires station { station < length self.now.told }
        requires number { (1 ≤ number) × (number ≤ length (told_by self.now.told station)) }
        ensures { result.now ≡ slice_index_or (told_by self.now.told station) (number - 1) result.now }
    {
        self.pages[usize::from(station.0)].at((number - 1) as usize)
    }

    /// What a number of a station means, where this deed comes with it. Deeds are compared and nothing else: who
    /// operated doesn't matter. It takes no memory, and time for comparing two deeds alone.
    pub fn look(&self, station: StationId, number: u64, deed: &Deed) -> Seen<'_>
        requires { station < length self.now.told }
        ensures { (site : Setup) (history : List Entry) → AreToldTo site history station (told_by self.now.told station)
            → Means site history station number deed.now (meaning_of result) }
    {
        self.pages[usize::from(station.0)].look(number, deed)
    }

    /// Makes room for one more request of the station.
    ///
    /// # Errors
    ///
    /// `Memory` where no memory was found. Nothing changes.
    pub fn ready(&mut self, station: StationId) -> Result<(), Memory>
        requires { station < length self.old.told }
        ensures told { self.new.told ≡ self.old.told }
        ensures ok { OnOk result (1 ≤ slice_index self.new.room station) }
        ensures room { OnOk result (self.new.room ≡ slice_set self.old.room station (max (slice_index self.old.room station) 1)) }
        ensures err { OnErr result (self.new.room ≡ self.old.room) }
    {
        self.ready_for(station, 1)
    }

    /// Makes room for so many more requests of the station, as where several are kept together.
    ///
    /// # Errors
    ///
    /// `Memory` where no memory was found. Nothing changes.
    pub fn ready_for(&mut self, station: StationId, more: u32) -> Result<(), Memory>
        requires { station < length self.old.told }
        ensures told { self.new.told ≡ self.old.told }
        ensures ok { OnOk result (more ≤ slice_index self.new.room station) }
        ensures room { OnOk result (self.new.room ≡ slice_set self.old.room station (max (slice_index self.old.room station) more)) }
        ensures err { OnErr result (self.new.room ≡ self.old.room) }
    {
        let page = &mut self.pages[usize::from(station.0)];
        page.ready(more)
    }

    /// Keeps what the station asked under its next number, and what it was told. It takes no memory.
    pub fn push(&mut self, station: StationId, deed: Deed, reply: Reply)
        requires station { station < length self.old.told }
        requires room { 0 < slice_index self.old.room station }
        ensures told { self.new.told ≡ with_told self.old.told station (record { deed = deed; reply = reply }) }
        ensures room { self.new.room ≡ slice_set self.old.room station (slice_index self.old.room station - 1) }
    {
        let page = &mut self.pages[usize::from(station.0)];
        page.push(Told { deed, reply });
    }

    /// Takes back what was kept last of the station: afterwards its number is the next one again, and its room is
    /// there again. It takes no memory.
    pub fn unpush(&mut self, station: StationId) -> (Deed, Reply)
        requires station { station < length self.old.told }
        requires some { 0 < length (told_by self.old.told station) }
        ensures told { self.old.told ≡ with_told self.new.told station (record { deed = result.0; reply = result.1 }) }
        ensures room { self.new.room ≡ slice_set self.old.room station (slice_index self.old.room station + 1) }
    {
        let page = &mut self.pages[usize::from(station.0)];
        let told = page.unpush();
        (told.deed, told.reply)
    }
}
