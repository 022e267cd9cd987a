//! A clock in memory.
ghost use Rattle.std.specs.Prelude.{◌≡◌, ◌≤◌, ◌↔◌, ◌⊎◌, [], Some, drop, vec_len, IsErr};
ghost use Rattle.outside.specs.Causes.{HasCause};
ghost use Rattle.outside.specs.Devices.{TakesWord};
ghost use Rattle.outside.specs.Failing.{told, IsListed, IsCalled};

use crate::failures::Failures;
use crate::{Clock, Failed};

/// Moments in memory. Where they are used up, a call fails.
#[derive(Drop)]
pub struct MemoryClock {
    moments: Vec<u64>,
    at: usize,
    failures: Failures,
    ghost within: { at ≤ vec_len moments },
}

impl MemoryClock {
    /// Gives these moments, each as it is, and fails at the calls of these numbers, from 1.
    pub fn new(moments: Vec<u64>, failing: Vec<u64>) -> Self
        ensures left { ⟦<MemoryClock as Clock>⟧.moments_left result ≡ Some moments.items }
        ensures faults { ⟦<MemoryClock as Clock>⟧.clock_faults result ≡ 0 }
        ensures failing { result.failures ≡ told failing.items }
    {
        MemoryClock {
            moments,
            at: 0,
            failures: Failures::new(failing),
        }
    }
}

impl Clock for MemoryClock {
    ghost moments_left = { λ s. Some (drop s.at s.moments.items) };

    ghost clock_faults = { λ s. s.failures.failed };

    /// It fails exactly where the number of the call is listed or no moment is left.
    fn now_ms(&mut self) -> Result<u64, Failed>
        ensures moment { TakesWord (⟦<MemoryClock as Clock>⟧.moments_left self.old) (⟦<MemoryClock as Clock>⟧.moments_left self.new) result }
        ensures cause { HasCause (⟦<MemoryClock as Clock>⟧.clock_faults self.old) (⟦<MemoryClock as Clock>⟧.clock_faults self.new) result }
        ensures called { IsCalled self.old.failures self.new.failures }
        ensures failing { IsErr result ↔ IsListed self.old.failures ⊎ (⟦<MemoryClock as Clock>⟧.moments_left self.old ≡ Some []) }
    {
        if self.failures.next_fails() {
            return Err(Failed);
        }
        match self.moments.get(self.at) {
            Some(moment) => {
                let moment = *moment;
                self.at += 1;
                Ok(moment)
            }
            None => {
                self.failures.fail();
                Err(Failed)
            }
        }
    }
}
