//! An adapter over the clock of the system, which tells its count of faults alone.
ghost use Rattle.std.specs.Prelude.{◌≡◌, ◌/◌, None, IfSome};
ghost use Rattle.std.specs.Time.{system_time_nanos};

use crate::{Clock, Failed};
use std::time::{self, SystemTime, UNIX_EPOCH};

/// The clock of the system. One that is set before 1970, or past what 64 bits of milliseconds hold, fails.
#[derive(Drop)]
pub struct SystemClock<'a, R> {
    runtime: &'a R,
    faults: u64,
}

// The whole milliseconds since 1970 began, where 64 bits hold them.
fn milliseconds(now: SystemTime) -> Option<u64>
    ensures { IfSome result (λ ms. ms ≡ system_time_nanos now / 1000000) }
{
    let since = now.duration_since(UNIX_EPOCH).ok()?;
    u64::try_from(since.as_millis()).ok()
}

impl<'a, R: time::Clock> SystemClock<'a, R> {
    pub fn new(runtime: &'a R) -> Self
        ensures { ⟦<SystemClock<'a, R> as Clock>⟧.clock_faults result ≡ 0 }
    {
        SystemClock { runtime, faults: 0 }
    }
}

impl<'a, R: time::Clock> Clock for SystemClock<'a, R> {
    ghost moments_left = { λ _. None };

    ghost clock_faults = { λ s. s.faults };

    fn now_ms(&mut self) -> Result<u64, Failed> {
        if let Ok(now) = SystemTime::now(self.runtime) {
            if let Some(moment) = milliseconds(now) {
                return Ok(moment);
            }
        }
        self.faults = self.faults.saturating_add(1);
        Err(Failed)
    }
}
