//! The calls of a device in memory, some of which fail.
ghost use Rattle.std.specs.Prelude.{◌≡◌, ◌≤◌, ◌↔◌, true, MatchBool};
ghost use Rattle.outside.specs.Causes.{Rose};
ghost use Rattle.outside.specs.Failing.{told, IsListed, IsCalled};

use std::marker::Model;

/// Which calls fail, by their numbers from 1, how many were made, and how many have failed.
#[derive(Drop)]
pub(crate) struct Failures {
    failing: Vec<u64>,
    made: u64,
    failed: u64,
}

impl Model for Failures {
    ghost use Rattle.outside.specs.Failing.{Calls};

    ghost Value = { Calls };

    ghost view = { λ f. record { failing = f.failing.items; made = f.made; failed = f.failed } };
}

impl Failures {
    /// Before the first call.
    pub(crate) fn new(failing: Vec<u64>) -> Self
        ensures { result ≡ told failing.items }
    {
        Failures {
            failing,
            made: 0,
            failed: 0,
        }
    }

    /// Counts a call, and says whether it fails.
    pub(crate) fn next_fails(&mut self) -> bool
        ensures called { IsCalled self.old self.new }
        ensures listed { (result ≡ true) ↔ IsListed self.old }
        ensures cause { MatchBool result (Rose self.old.failed self.new.failed × (self.old.failed ≤ self.new.failed)) (self.new.failed ≡ self.old.failed) }
    {
        self.made = self.made.saturating_add(1);
        let fails = self.failing.contains(&self.made);
        if fails {
            self.fail();
        }
        fails
    }

    /// Counts a fault.
    pub(crate) fn fail(&mut self)
        ensures same_calls { (self.new.failing ≡ self.old.failing) × (self.new.made ≡ self.old.made) }
        ensures rose { Rose self.old.failed self.new.failed }
        ensures later { self.old.failed ≤ self.new.failed }
    {
        self.failed = self.failed.saturating_add(1);
    }
}
