//! What is kept of the move of an entry.
ghost use Rattle.std.specs.Prelude.{◌≡◌, ◌∷◌, ◌<◌, [], List, map, length, IfOk, IfSome, None, if◌then◌else◌};
ghost use Rattle.std.specs.List.{position};
ghost use Rattle.epc_urn.specs.declared.epc.Epc.TheVariants.{Unit as Box};
ghost use Rattle.deed_words.specs.Names.{Text};
ghost use Rattle.deed_words.specs.Setups.{Setup};
ghost use Rattle.deed_words.specs.Happenings.{has_event, listed, moved_by, things_of};
ghost use Rattle.deed_words.specs.Replies.{answer_to, reply_to};
ghost use Rattle.deed_words.specs.Rules.{broken};
ghost use Rattle.deed_words.specs.World.{inside};
ghost use Rattle.deed_words.specs.declared.entry.Entry.{Entry as TheEntry};
ghost use Rattle.deed_words.specs.declared.reply.Answer.TheVariants.{Made as MadeCode};
ghost use Rattle.batch_book.specs.Content.{world_in, node_name, row_names, unit_codes};
ghost use Rattle.pack_tree.specs.Packing.{HasRoom};
ghost use Rattle.pack_tree.specs.Units.{is_coded};
ghost use Rattle.site_rules.specs.Asked.{IsSubject};
ghost use Rattle.move_list.specs.Kept.{kept_of, unnamed_in};

use deed_words::{Answer, BatchId, Deed, Epcs, ItemId, Reply, UnitId};
use epc_urn::Epc;
use gs1_keys::Memory;
use move_list::Moved;
use pack_tree::Node;
use site_rules::Subject;
use site_stores::Stores;
use std::alloc::Global;

/// The name of what stands at a node.
#[tactic(auto, using(crate::proofs::Making::part_at))]
fn name_of(stores: &Stores, node: Node) -> Epc
    requires { HasRoom (length stores.now.content.rows) (length stores.now.content.units) node }
    ensures { result ≡ node_name (row_names stores.now.content) (unit_codes stores.now.content) node }
{
    match node {
        Node::Item(at) => {
            let row = stores.item_at(ItemId(at));
            Epc::Item(row.gtin, row.serial)
        }
        Node::Unit(at) => Epc::Unit(stores.unit_at(UnitId(at)).sscc),
    }
}

/// What stands in the unit at a place, the one longest inside first; nothing where there is no unit.
fn inside(alloc: Global, stores: &Stores, place: Option<UnitId>) -> Result<Epcs, Memory>
    requires there { IfSome place (λ unit. unit < length stores.now.content.units) }
    ensures { IfOk result (λ names. (sscc : Text) → place ≡ position (is_coded sscc) stores.now.content.units → names ≡ inside (world_in stores.now.content) sscc) }
{
    stores.tell_whole();
    let mut names = Epcs::new(alloc);
    let Some(unit) = place else {
        return Ok(names);
    };
    for node in stores.tree().children(unit) {
        names.push(name_of(stores, node))?;
    }
    Ok(names)
}

/// The container that an answer tells.
fn made(alloc: Global, answer: &Answer) -> Result<Epcs, Memory>
    ensures { IfOk result (λ names. (sscc : Text) → answer.now ≡ MadeCode sscc → names ≡ Box sscc ∷ []) }
{
    let mut names = Epcs::new(alloc);
    if let Answer::Made(sscc) = answer {
        names.push(Epc::Unit(*sscc))?;
    }
    Ok(names)
}

/// The things that an accepted deed is about and doesn't name, where this is its answer.
#[tactic(auto, unfolding(move_list::specs::Kept::unnamed_in, deed_words::specs::Happenings::things_of, deed_words::specs::Replies::answer_to))]
fn unnamed(
    alloc: Global,
    stores: &Stores,
    deed: &Deed,
    subject: &Subject,
    answer: &Answer,
) -> Result<Epcs, Memory>
    requires subject { IsSubject stores.now.content deed.now subject.now }
    ensures { IfOk result (λ names. (site : Setup) (drawn : List Text) → answer.now ≡ answer_to site (world_in stores.now.content) deed.now drawn → names ≡ unnamed_in deed.now (things_of site (world_in stores.now.content) deed.now)) }
{
    match deed {
        Deed::Container(..) => made(alloc, answer),
        Deed::UnpackAll(_) => inside(alloc, stores, subject.unit),
        _ => Ok(Epcs::new(alloc)),
    }
}

/// The place of the batch of a deed that has an event.
#[tactic(auto, unfolding(deed_words::specs::Happenings::has_event))]
fn batch_changed(deed: &Deed, subject: &Subject) -> Option<BatchId>
    ensures { result ≡ (if has_event deed.now then subject.now.batch else None) }
{
    match deed {
        Deed::Commission(_, _)
        | Deed::Sample(_, _)
        | Deed::Reject(_, _)
        | Deed::Reinstate(_, _)
        | Deed::Destroy(_, _)
        | Deed::Decommission(_, _)
        | Deed::Container(_, _)
        | Deed::Pack(_, _)
        | Deed::Unpack(_, _)
        | Deed::UnpackAll(_)
        | Deed::Void(_) => subject.batch,
        _ => None,
    }
}

/// What is kept of the move of an accepted entry at a place, if it has one: of an entry with this deed that gets this
/// answer. What the deed is about was found when it was decided.
fn accepted_move(
    alloc: Global,
    stores: &Stores,
    place: u32,
    deed: &Deed,
    subject: &Subject,
    answer: &Answer,
) -> Result<Option<Moved>, Memory>
    requires subject { IsSubject stores.now.content deed.now subject.now }
    ensures { IfOk result (λ moved. (site : Setup) (entry : TheEntry) → entry.deed ≡ deed.now → answer.now ≡ answer_to site (world_in stores.now.content) entry.deed entry.drawn
        → map kept_of (moved_by site (world_in stores.now.content) place entry None) ≡ listed moved) }
{
    let Some(batch) = batch_changed(deed, subject) else {
        return Ok(None);
    };
    let unnamed = unnamed(alloc, stores, deed, subject, answer)?;
    Ok(Some(Moved {
        place,
        batch,
        unnamed,
    }))
}

/// What is kept of the move of an entry at a place, if it has one: of an entry with this deed that gets this reply. What
/// the deed is about was found when it was decided.
pub(crate) fn kept_move(
    alloc: Global,
    stores: &Stores,
    place: u32,
    deed: &Deed,
    subject: &Subject,
    reply: &Reply,
) -> Result<Option<Moved>, Memory>
    requires subject { IsSubject stores.now.content deed.now subject.now }
    ensures { IfOk result (λ moved. (site : Setup) (entry : TheEntry) → entry.deed ≡ deed.now → reply.now ≡ reply_to site (world_in stores.now.content) entry
        → map kept_of (moved_by site (world_in stores.now.content) place entry (broken site (world_in stores.now.content) entry.station entry.deed)) ≡ listed moved) }
{
    match reply {
        Reply::Accepted(answer) => accepted_move(alloc, stores, place, deed, subject, answer),
        Reply::Refused(_) => Ok(None),
    }
}
