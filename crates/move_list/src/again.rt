//! A move again, of what is kept of it.
ghost use Rattle.std.specs.Prelude.{◌≡◌, ◌∷◌, [], map, IfOk};
ghost use Rattle.deed_words.specs.Deeds.{item_of};
ghost use Rattle.deed_words.specs.Happenings.{holder_of};
ghost use Rattle.move_list.specs.Kept.{move_again, things_told};

use crate::moved::Moved;
use deed_words::{Deed, Entry, Epcs, Move, OrderRow};
use epc_urn::Epc;
use gs1_element::Code;
use gs1_keys::{Memory, Sscc};
use std::alloc::{AllocError, Global};

/// The items of codes.
fn items_of(alloc: Global, codes: &[Code]) -> Result<Vec<Epc>, AllocError>
    ensures { IfOk result (λ items. items.items ≡ map item_of codes.now) }
{
    codes
        .iter()
        .map(|code| Epc::Item(code.gtin, code.serial))
        .collect(alloc)
}

/// The items of the codes, as a list of names.
fn coded(alloc: Global, codes: &[Code]) -> Result<Epcs, Memory>
    ensures { IfOk result (λ items. items ≡ map item_of codes.now) }
{
    match items_of(alloc, codes) {
        Ok(items) => Ok(Epcs::from_vec(items)),
        Err(_) => Err(Memory),
    }
}

/// One name alone.
fn only(alloc: Global, name: Epc) -> Result<Epcs, Memory>
    ensures { IfOk result (λ names. names ≡ name ∷ []) }
{
    let mut names = Epcs::new(alloc);
    names.push(name)?;
    Ok(names)
}

/// All that a deed is about, where these are what it doesn't name.
#[tactic(auto, unfolding(crate::specs::Kept::things_told, deed_words::specs::Deeds::named, deed_words::specs::Deeds::items_of, deed_words::specs::World::batch_of))]
fn things_told(alloc: Global, deed: &Deed, unnamed: &Epcs) -> Result<Epcs, Memory>
    ensures { IfOk result (λ things. things ≡ things_told deed.now unnamed.now) }
{
    match deed {
        Deed::Commission(_, codes) => coded(alloc, codes.as_slice()),
        Deed::Sample(_, items)
        | Deed::Reject(_, items)
        | Deed::Reinstate(_, items)
        | Deed::Destroy(_, items)
        | Deed::Decommission(_, items) => items.copy(),
        Deed::Pack(_, children) | Deed::Unpack(_, children) => children.copy(),
        Deed::Container(..) | Deed::UnpackAll(_) => unnamed.copy(),
        Deed::Void(unit) => only(alloc, Epc::Unit(*unit)),
        _ => Ok(Epcs::new(alloc)),
    }
}

/// The container into which a deed puts things, or out of which it takes them.
#[tactic(auto, unfolding(deed_words::specs::Happenings::holder_of))]
fn holder_of(deed: &Deed) -> Option<Sscc>
    ensures { result ≡ holder_of deed.now }
{
    match deed {
        Deed::Pack(unit, _) | Deed::Unpack(unit, _) | Deed::UnpackAll(unit) => Some(*unit),
        _ => None,
    }
}

/// The move of which this is kept, with its entry and the order of its batch.
///
/// # Errors
///
/// `Memory` where no memory was found.
#[tactic(auto, unfolding(crate::specs::Kept::move_again))]
pub fn move_again(alloc: Global, moved: &Moved, entry: Entry, row: OrderRow) -> Result<Move, Memory>
    ensures { IfOk result (λ again. again ≡ move_again moved.now entry row) }
{
    let epcs = things_told(alloc, &entry.deed, &moved.unnamed)?;
    let parent = holder_of(&entry.deed);
    Ok(Move {
        place: moved.place,
        kept: entry,
        batch: moved.batch,
        row,
        epcs,
        parent,
    })
}
