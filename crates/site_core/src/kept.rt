//! What the site keeps of an entry.
ghost use Rattle.std.specs.Prelude.{◌≡◌};

use deed_words::{Deed, Entry, StationId};
use gs1_keys::{Serials, Text20};

/// What is kept of an entry beside its deed and its reply, which stand in the memo.
#[derive(Debug, Drop)]
pub(crate) struct Kept {
    /// Who asked.
    pub(crate) station: StationId,
    /// The station's own number of the request.
    pub(crate) number: u64,
    /// The worker that served it.
    pub(crate) worker: u8,
    /// When it was served.
    pub(crate) stamp: u64,
    /// Who worked at the station.
    pub(crate) operator: Option<Text20>,
}

impl Kept {
    /// What is kept of the entry, and its deed and the serials that it drew.
    pub(crate) fn split(entry: Entry) -> (Kept, Deed, Serials)
        ensures kept { result.0 ≡ record { station = entry.station; number = entry.number; worker = entry.worker; stamp = entry.stamp; operator = entry.operator } }
        ensures deed { result.1 ≡ entry.deed }
        ensures drawn { result.2 ≡ entry.drawn }
    {
        let kept = Kept {
            station: entry.station,
            number: entry.number,
            worker: entry.worker,
            stamp: entry.stamp,
            operator: entry.operator,
        };
        (kept, entry.deed, entry.drawn)
    }

    /// Who asked.
    pub(crate) fn station(&self) -> StationId
        ensures { result ≡ self.now.station }
    {
        self.station
    }

    /// The entry again, with its deed and the serials that it drew.
    pub(crate) fn entry(self, deed: Deed, drawn: Serials) -> Entry
        ensures { result ≡ record { station = self.station; number = self.number; worker = self.worker; stamp = self.stamp; operator = self.operator; deed = deed; drawn = drawn } }
    {
        Entry {
            station: self.station,
            number: self.number,
            worker: self.worker,
            stamp: self.stamp,
            operator: self.operator,
            deed,
            drawn,
        }
    }
}
