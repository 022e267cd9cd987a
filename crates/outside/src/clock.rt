//! Where moments come from.
ghost use Rattle.std.specs.Prelude.{ℕ, List, Option};
ghost use Rattle.outside.specs.Causes.{HasCause};
ghost use Rattle.outside.specs.Devices.{TakesWord};

use crate::Failed;

/// A clock, which gives moments as milliseconds since 1970 began. It may tell those that it will give: then clauses
/// say which one a call takes.
pub trait Clock {
    /// The moments that are left, where the clock tells them.
    ghost moments_left: { Self → Option (List ℕ) };

    /// How often a `now_ms` has failed.
    ghost clock_faults: { Self → ℕ };

    /// Answers the first of the moments left, and takes it away. Where it fails, none is lost.
    fn now_ms(&mut self) -> Result<u64, Failed>
        ensures moment { TakesWord (moments_left self.old) (moments_left self.new) result }
        ensures cause { HasCause (clock_faults self.old) (clock_faults self.new) result };
}
