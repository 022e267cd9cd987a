//! What a store shows, and how it is taken apart.
ghost use Rattle.std.specs.Prelude.{◌≡◌, ◌↔◌, [], IsTrue};
ghost use Rattle.site_store.specs.Open.{notes_of, store_state};
ghost use Rattle.site_store.specs.Standing.{noted_in};

use crate::log::Row;
use crate::store::{Devices, Store};
use outside::{Clock, Disk, Words};
use site_core::Site;

impl<D: Disk, C: Clock, W: Words> Store<D, C, W> {
    /// The site: its setup, its history, and what stands after it. What is pending isn't in it.
    pub fn site(&self) -> &Site
        ensures { result.now ≡ self.now.site }
    {
        &self.site
    }

    /// Whether nothing is pending.
    pub fn settled(&self) -> bool
        ensures { IsTrue result ↔ ((store_state self.now).pending ≡ []) }
    {
        self.pending.is_empty()
    }

    /// What was noted since the store was made or loaded: each entry, and each fault with what it left pending.
    pub fn notes(&self) -> &[Row]
        ensures { noted_in result.now ≡ notes_of self.now }
    {
        &self.log
    }

    /// Gives the devices back. What is pending stays as it is in the journal: a load finds it there, or doesn't.
    pub fn into_devices(self) -> Devices<D, C, W>
        ensures disk { result.disk ≡ self.journal.disk }
        ensures clock { result.clock ≡ self.clock }
        ensures words { result.words ≡ self.words }
    {
        let (_site, devices) = self.into_parts();
        devices
    }

    /// Gives the site and the devices back, beside each other. It changes neither.
    pub fn into_parts(self) -> (Site, Devices<D, C, W>)
        ensures site { result.0 ≡ self.site }
        ensures disk { result.1.disk ≡ self.journal.disk }
        ensures clock { result.1.clock ≡ self.clock }
        ensures words { result.1.words ≡ self.words }
    {
        let Store {
            journal,
            site,
            clock,
            words,
            ..
        } = self;
        let disk = journal.into_disk();
        (site, Devices { disk, clock, words })
    }
}
