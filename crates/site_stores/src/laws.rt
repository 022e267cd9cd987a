//! What is changed and taken back is as it was, the room included.
ghost use Rattle.std.specs.Prelude.{◌≡◌};
ghost use Rattle.batch_book.specs.Content.{Content};
ghost use Rattle.site_stores.specs.declared.change.Change.{Change as TheChange};
ghost use Rattle.site_stores.specs.Changes.{applied, taken_back, MayApply, room_for};
ghost use Rattle.site_stores.specs.Holding.{IsWithin};

use crate::change::Change;
use crate::stores::Stores;

/// A change of any kind that is made and taken back leaves the content as it was.
pub fn changes_are_taken_back()
    ensures { (c : Content) (change : TheChange) → MayApply c change → taken_back (applied c change) change ≡ c }
{}

/// Stores in which a change is made and taken back: they are as they were, and so is their room.
pub fn applied_and_taken_back(stores: &mut Stores, change: &Change)
    requires may { MayApply stores.old.content change.now }
    requires room { IsWithin (room_for change.now) stores.old.room }
    ensures { stores.new ≡ stores.old }
{
    changes_are_taken_back();
    stores.apply(change);
    stores.take_back(change);
}
