//! The last entry: committed, and taken back.
ghost use Rattle.std.specs.Prelude.{◌≡◌, ◌+◌, ◌<◌, ◌++◌, ◌∷◌, [], List, length, true, IfSome};
ghost use Rattle.gs1_keys.specs.Forms.{is_among};
ghost use Rattle.serial_pool.specs.Held.{IsLastDrawn};
ghost use Rattle.site_stores.specs.Changes.{applied, taken_back};
ghost use Rattle.site_deeds.specs.Decisions.{serials_drawn};
ghost use Rattle.site_deeds.specs.Draws.{drawn_by_plan, HasRoomToDraw, MayCommit};
ghost use Rattle.site_core.specs.declared.planned.Planned.{Planned as ThePlanned};
ghost use Rattle.site_core.specs.Plans.{IsNext, IsLast};
ghost use Rattle.site_core.specs.Rooms.{HasRoomFor, IsKnown};

use crate::kept::Kept;
use crate::planned::{Committed, Planned};
use crate::site::Site;
use serial_pool::{DrawDone, DrawPlan, Pool};
use std::snapshot::Snapshot;

impl Site {
    /// Puts what was planned last into the history. It takes no memory.
    pub fn commit(&mut self, planned: Planned) -> Committed
        requires room { HasRoomFor self.old (planned ∷ []) }
        requires next { IsNext self.old.setup self.old.history self.old.content planned }
        ensures committed { result ≡ planned }
        ensures setup { self.new.setup ≡ self.old.setup }
        ensures history { self.new.history ≡ self.old.history ++ planned.entry ∷ [] }
        ensures content { self.new.content ≡ applied self.old.content planned.change }
        ensures room { (later : List ThePlanned) → HasRoomFor self.old (planned ∷ later) → HasRoomFor self.new later }
        ensures last { IsLast self.new.setup self.new.history self.new.content result }
    {
        let whole = Snapshot::of(&planned);
        let Planned {
            entry,
            reply,
            change,
            draw,
            moved,
        } = planned;
        self.stores.apply(&change);
        let done = commit_draw(&mut self.pool, draw);
        let (kept, deed, drawn) = Kept::split(entry);
        self.memo.push(kept.station(), deed, reply);
        self.kept.push_reserved(kept);
        let has_moved = self.moves.push(moved);
        Committed {
            drawn,
            change,
            draw: done,
            has_moved,
            planned: whole,
        }
    }

    /// Takes the last commit back, and gives what was planned, and the room for it again. It takes no memory.
    pub fn undo(&mut self, committed: Committed) -> Planned
        requires last { IsLast self.old.setup self.old.history self.old.content committed }
        ensures planned { result ≡ committed }
        ensures setup { self.new.setup ≡ self.old.setup }
        ensures history { self.old.history ≡ self.new.history ++ result.entry ∷ [] }
        ensures content { self.new.content ≡ taken_back self.old.content result.change }
        ensures room { (later : List ThePlanned) → HasRoomFor self.old later → HasRoomFor self.new (result ∷ later) }
        ensures next { IsNext self.new.setup self.new.history self.new.content result }
    {
        self.memo.tell_pages();
        let Committed {
            drawn,
            change,
            draw: done,
            has_moved,
            planned: _,
        } = committed;
        self.stores.take_back(&change);
        let draw = take_back_draw(&mut self.pool, done);
        let kept = self.kept.take_last();
        let (deed, reply) = self.memo.unpush(kept.station());
        let moved = self.moves.take_back(has_moved);
        Planned {
            entry: kept.entry(deed, drawn),
            reply,
            change,
            draw,
            moved,
        }
    }
}

/// Draws what was planned, if there is a draw.
fn commit_draw(pool: &mut Pool, draw: Option<DrawPlan>) -> Option<DrawDone>
    requires may { MayCommit pool.old.drawn draw }
    requires room { HasRoomToDraw pool.old draw }
    ensures done { result ≡ draw }
    ensures drawn { pool.new.drawn ≡ pool.old.drawn ++ drawn_by_plan draw }
    ensures room { pool.new.room + length (serials_drawn draw) ≡ pool.old.room }
    ensures gtins { pool.new.gtins ≡ pool.old.gtins }
{
    match draw {
        Some(plan) => Some(pool.commit_draw(plan)),
        None => None,
    }
}

/// Takes back what was drawn last, if there was a draw.
fn take_back_draw(pool: &mut Pool, draw: Option<DrawDone>) -> Option<DrawPlan>
    requires last { IfSome draw (λ done. IsLastDrawn pool.old.drawn done) }
    requires known { IsKnown pool.old.gtins draw }
    ensures plan { result ≡ draw }
    ensures drawn { pool.old.drawn ≡ pool.new.drawn ++ drawn_by_plan draw }
    ensures room { pool.new.room ≡ pool.old.room + length (serials_drawn draw) }
    ensures gtins { pool.new.gtins ≡ pool.old.gtins }
{
    match draw {
        Some(done) => Some(pool.take_back(done)),
        None => None,
    }
}
