//! Where links come from, one after the other.
ghost use Rattle.std.specs.Prelude.{◌≡◌, ◌<◌, MatchOption, OnErr, IfOk, IfSome};
ghost use Rattle.outside.specs.Causes.{HasCause};
ghost use Rattle.outside.specs.Doors.{DoorState, wire, NextLink, IsUnused, gives, fails, takes_back};

use crate::{Failed, Link};

/// Gives links, up to a quota, and takes them back. Each door tells its quota and how many links it gave and how many
/// came back; it may also tell the links as they were given and as they came back.
pub trait Door {
    /// What it gives.
    type Link: Link;

    /// The quota, the links and the count of faults.
    ghost state: { Self → DoorState };

    /// The next link, which has put nothing; none exactly where the quota is used up. A link and a failure each use up
    /// one of it.
    fn next_link(&mut self) -> Result<Option<Self::Link>, Failed>
        ensures quota { NextLink result ((state self.old).quota) ((state self.new).quota) }
        ensures given { IfOk result (λ o. MatchOption o (state self.new ≡ state self.old) (λ link. state self.new ≡ gives (state self.old) (state self.new) (wire (Self.Link.left link) (Self.Link.held link) (Self.Link.read_faults link) (Self.Link.write_faults link)))) }
        ensures failed { OnErr result (state self.new ≡ fails (state self.old) (state self.new)) }
        ensures unused { IfOk result (λ o. IfSome o (λ link. IsUnused (Self.Link.held link))) }
        ensures cause { HasCause ((state self.old).faults) ((state self.new).faults) result };

    /// Takes a link back. It can't fail, and takes no memory.
    fn link_back(&mut self, link: Self::Link)
        requires { (state self.old).back < (state self.old).given }
        ensures { state self.new ≡ takes_back (state self.old) (wire (Self.Link.left link) (Self.Link.held link) (Self.Link.read_faults link) (Self.Link.write_faults link)) };
}
