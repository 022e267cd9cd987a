//! The work of one worker.
ghost use Rattle.std.specs.Prelude.{◌≡◌};
ghost use Rattle.site_server.specs.Chain.{IsWorked, IsUnopened};

use crate::connection::serve_connection;
use outside::{Clock, Disk, Door, Words};
use site_turns::DeskStore;
use std::alloc::Global;
use std::sync::Wait;
use turn_desk::{Desk, Pass};

/// Serves the links of a door, one after the other, until its quota is used up, and gives each link back.
/// Says whether the door has failed.
pub fn serve_door<G: Door, D: Disk, C: Clock, W: Words, R: Wait>(
    rt: &R,
    alloc: Global,
    desk: &Desk<DeskStore<D, C, W>>,
    pass: &mut Pass,
    door: &mut G,
) -> bool
    requires own { (pass.old.desk ≡ desk.now) × (pass.old.turns ≡ 0) }
    requires unopened { IsUnopened (G.state door.old) }
    ensures same { (pass.new.desk ≡ desk.now) × (pass.new.worker ≡ pass.old.worker) × (pass.new.last ≡ pass.old.last) }
    ensures worked { IsWorked desk.now.origin pass.old.worker (G.state door.old) (G.state door.new) pass.old.seen pass.new.seen result }
{
    let mut failed = false;
    'links: loop {
        match door.next_link() {
            Ok(None) => return failed,
            Err(_) => failed = true,
            Ok(Some(link)) => {
                let mut link = link;
                serve_connection(rt, alloc, desk, pass, &mut link);
                door.link_back(link);
            }
        }
    }
}
