//! What a deed is about.
ghost use Rattle.std.specs.Prelude.{◌≡◌, false};
ghost use Rattle.std.specs.List.{position};
ghost use Rattle.deed_words.specs.Deeds.{batch_with};
ghost use Rattle.pack_tree.specs.Units.{is_coded};
ghost use Rattle.batch_book.specs.Batches.{is_called};
ghost use Rattle.batch_book.specs.Content.{world_in};
ghost use Rattle.site_rules.specs.Asked.{IsSubject, IsBatchPlace};
ghost use Rattle.site_rules.specs.Suits.{names_unit};

use crate::batches::{batch_named, unit_named};
use deed_words::{BatchId, Deed, UnitId};
use gs1_keys::Sscc;
use site_stores::Stores;

/// Where the unit is that a deed names, and the batch that it is about: that which it names, or that of its unit.
#[derive(Drop)]
pub struct Subject {
    /// Where the unit is, if the deed names one and it is there.
    pub unit: Option<UnitId>,
    /// Where the batch is, if the deed is about one and it is there.
    pub batch: Option<BatchId>,
}

/// What a deed that names the unit is about. The unit alone is looked up: its batch is told by its row.
fn on_unit(stores: &Stores, sscc: &Sscc) -> Subject
    ensures unit { result.unit ≡ position (is_coded sscc.now) stores.now.content.units }
    ensures batch { result.batch ≡ position (is_called (batch_with (world_in stores.now.content) sscc.now)) stores.now.content.batches }
{
    stores.tell_whole();
    let Some(unit) = stores.find_unit(sscc) else {
        return Subject {
            unit: None,
            batch: None,
        };
    };
    let row = stores.unit_at(unit);
    Subject {
        unit: Some(unit),
        batch: Some(row.batch),
    }
}

/// The place of the batch that the deed names.
fn find_batch(stores: &Stores, deed: &Deed) -> Option<BatchId>
    requires no_unit { names_unit deed.now ≡ false }
    ensures { IsBatchPlace stores.now.content deed.now result }
{
    let Some(name) = batch_named(deed) else {
        return None;
    };
    stores.find_batch(&name)
}

/// Finds what the deed is about: the one name that it gives for it is looked up once.
pub fn find_subject(stores: &Stores, deed: &Deed) -> Subject
    ensures { IsSubject stores.now.content deed.now result }
{
    match unit_named(deed) {
        Some(sscc) => on_unit(stores, &sscc),
        None => Subject {
            unit: None,
            batch: find_batch(stores, deed),
        },
    }
}
