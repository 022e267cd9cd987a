//! One station's page.
ghost use Rattle.std.specs.Prelude.{◌≡◌, ◌+◌, ◌-◌, ◌<◌, ◌≤◌, ◌∷◌, ◌++◌, [], List, OnOk, OnErr, max, length, slice_index_or, vec_capacity};
ghost use Rattle.deed_words.specs.Setups.{Setup};
ghost use Rattle.deed_words.specs.declared.entry.Entry.{Entry};
ghost use Rattle.deed_words.specs.Numbers.{Means};
ghost use Rattle.request_memo.specs.Seeing.{AreToldTo, meaning_of};

use crate::equal::same_deed;
use deed_words::{Deed, Reply};
use gs1_keys::Memory;
use std::alloc::Global;

/// What a station asked, and what it was told.
#[derive(Debug, Drop)]
pub struct Told {
    /// What it asked.
    pub deed: Deed,
    /// The reply.
    pub reply: Reply,
}

/// What a number of a station means, beside the deed that comes with it.
#[derive(Debug)]
pub enum Seen<'a> {
    /// The number was kept with an equal deed, and this was the reply.
    Kept(&'a Reply),
    /// The number was kept with another deed, this one.
    Reused(&'a Deed),
    /// The number comes next.
    New,
    /// The number is 0, or leaves some out: the station's last one is this, 0 where it has none.
    Gap(u64),
}

/// What a station asked and was told, in the order of its numbers.
#[derive(Debug, Drop)]
pub(crate) struct Page {
    told: Vec<Told>,
    /// For how many more there is room.
    room: usize,
    ghost reserved: { length told.items + room ≤ vec_capacity told },
}

impl Page {
    /// A page with nothing on it, and no room.
    pub(crate) fn new(alloc: Global) -> Page
        ensures told { result.told.items ≡ [] }
        ensures room { result.room ≡ 0 }
    {
        Page {
            told: Vec::new(alloc),
            room: 0,
        }
    }

    /// How many numbers the station has.
    pub(crate) fn last(&self) -> u64
        ensures { result ≡ length self.now.told.items }
    {
        self.told.len() as u64
    }

    /// What was told at a place.
    pub(crate) fn at(&self, place: usize) -> &Told
        requires { place < length self.now.told.items }
        ensures { result.now ≡ slice_index_or self.now.told.items place result.now }
    {
        &self.told[place]
    }

    /// What a number means.
    pub(crate) fn look(&self, number: u64, deed: &Deed) -> Seen<'_>
        ensures { (site : Setup) (history : List Entry) (station : _) → AreToldTo site history station self.now.told.items → Means site history station number deed.now (meaning_of result) }
    {
        let last = self.last();
        match number.checked_sub(1) {
            None => Seen::Gap(last),
            Some(place) if place < last => self.compare(place as usize, deed),
            Some(place) if place == last => Seen::New,
            Some(_) => Seen::Gap(last),
        }
    }

    /// What a number means that was kept.
    fn compare(&self, place: usize, deed: &Deed) -> Seen<'_>
        requires { place < length self.now.told.items }
        ensures { (site : Setup) (history : List Entry) (station : _) → AreToldTo site history station self.now.told.items → Means site history station (place + 1) deed.now (meaning_of result) }
    {
        let told = &self.told[place];
        if same_deed(&told.deed, deed) {
            Seen::Kept(&told.reply)
        } else {
            Seen::Reused(&told.deed)
        }
    }

    /// Makes room for so many more.
    pub(crate) fn ready(&mut self, more: u32) -> Result<(), Memory>
        ensures told { self.new.told.items ≡ self.old.told.items }
        ensures ok { OnOk result (self.new.room ≡ max self.old.room more) }
        ensures err { OnErr result (self.new.room ≡ self.old.room) }
    {
        self.told.reserve(more as usize)?;
        self.room = self.room.max(more as usize);
        Ok(())
    }

    /// Puts something last.
    pub(crate) fn push(&mut self, told: Told)
        requires { 0 < self.old.room }
        ensures told { self.new.told.items ≡ self.old.told.items ++ told ∷ [] }
        ensures room { self.new.room + 1 ≡ self.old.room }
    {
        self.told.push_reserved(told);
        self.room -= 1;
    }

    /// Takes the last thing back.
    pub(crate) fn unpush(&mut self) -> Told
        requires { 0 < length self.old.told.items }
        ensures told { self.old.told.items ≡ self.new.told.items ++ result ∷ [] }
        ensures room { self.new.room ≡ self.old.room + 1 }
    {
        self.room += 1;
        self.told.take_last()
    }
}
