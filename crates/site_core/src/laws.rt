//! What callers of the site may rely on, proved over its contracts and the laws of the trade alone.
ghost use Rattle.std.specs.Prelude.{◌≡◌, ◌++◌, ◌∷◌, [], List};
ghost use Rattle.deed_words.specs.declared.entry.Entry.{Entry as TheEntry};
ghost use Rattle.site_stores.specs.Changes.{applied};
ghost use Rattle.site_core.specs.declared.planned.Planned.{Planned as ThePlanned};
ghost use Rattle.site_core.specs.View.{View};
ghost use Rattle.site_core.specs.Plans.{IsNext};
ghost use Rattle.site_core.specs.Rooms.{HasRoomFor};
ghost use Rattle.site_core.specs.Trade.{Trade};

use crate::planned::Planned;
use crate::site::Site;
use deed_words::{
    closes_where_accounted, codes_made_once, counts_sum_to_drawn, histories_grow_lawfully,
    issued_once, orders_again_change_nothing, soundness_is_kept,
};
use site_stores::changes_are_taken_back;

/// Where there is room for several, there is room for the first of them.
pub fn the_first_has_room()
    ensures { (view : View) (planned : ThePlanned) (later : List ThePlanned) → HasRoomFor view (planned ∷ later) → HasRoomFor view (planned ∷ []) }
{}

/// Commits both, takes both back, the last one first, and commits the first one again.
pub fn there_and_back(site: &mut Site, one: Planned, two: Planned)
    requires room { HasRoomFor site.old (one ∷ two ∷ []) }
    requires first { IsNext site.old.setup site.old.history site.old.content one }
    requires second { IsNext site.old.setup (site.old.history ++ one.entry ∷ []) (applied site.old.content one.change) two }
    ensures history { site.new.history ≡ site.old.history ++ one.entry ∷ [] }
    ensures content { site.new.content ≡ applied site.old.content one.change }
    ensures room { HasRoomFor site.new (two ∷ []) }
{
    the_first_has_room();
    changes_are_taken_back();
    let first = site.commit(one);
    let second = site.commit(two);
    let _two = site.undo(second);
    let one = site.undo(first);
    let _first = site.commit(one);
}

/// What the trade wants of a site holds of every site, whatever was asked of it: at each front of its history no serial
/// was drawn, lent or commissioned twice and no container code made twice, the six counts sum to the serials drawn, the
/// world is sound, a started batch is closed exactly where it is accounted for, and orders that were accepted before
/// change nothing. It does nothing.
pub fn the_trade_holds(site: &Site)
    ensures { (front more : List TheEntry) → site.now.history ≡ front ++ more → Trade site.now.setup front }
{
    issued_once();
    codes_made_once();
    counts_sum_to_drawn();
    soundness_is_kept();
    closes_where_accounted();
    orders_again_change_nothing();
    histories_grow_lawfully();
    site.tell_kept();
}
