ghost use Rattle.std.specs.Prelude.{◌≡◌, ◌≤◌, ◌↔◌, ◌+◌, IsTrue, if◌then◌else◌};
ghost use Rattle.hwp_io.specs.Calls.{IsNextFailing, no_calls, counted, counted_failed};

use super::counts::FaultCount;
use std::marker::Model;

/// Which calls of an object in memory fail, how many it has had, and how many of them failed. The
/// number of a call stays at `u64::MAX`.
#[derive(Drop)]
pub(crate) struct FaultPlan {
    fail: Vec<u64>,
    made: u64,
    failed: FaultCount,
}

impl Model for FaultPlan {
    ghost use Rattle.hwp_io.specs.Calls.{Calls};
    ghost use Rattle.hwp_io.specs.Counts.{count};

    ghost Value = { Calls };

    ghost view = { λ p. record { fail = p.fail.items; made = p.made; failed = count p.failed } };
}

impl FaultPlan {
    /// No call was made, and those numbered in `fail` will fail. The first has the number 1.
    pub(crate) fn new(fail: Vec<u64>) -> FaultPlan
        ensures { result ≡ no_calls fail.items }
    {
        FaultPlan {
            fail,
            made: 0,
            failed: FaultCount::Zero,
        }
    }

    /// Counts one more call, and answers whether it is one of those that fail.
    pub(crate) fn next_fails(&mut self) -> bool
        ensures listed { IsTrue result ↔ IsNextFailing self.old }
        ensures counts { self.new ≡ (if result then counted_failed self.old else counted self.old) }
        ensures later { self.old.failed ≤ self.new.failed }
    {
        self.made = self.made.saturating_add(1);
        let fails = self.fail.contains(&self.made);
        if fails {
            self.add_failure();
        }
        fails
    }

    /// Counts one more failed call.
    pub(crate) fn add_failure(&mut self)
        ensures counts { self.new ≡ record self.old { failed = self.old.failed + 1 } }
        ensures later { self.old.failed ≤ self.new.failed }
    {
        self.failed.add();
    }
}
