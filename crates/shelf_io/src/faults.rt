//! Counts of faults, and the calls that a device in memory is to fail.
ghost use Rattle.std.specs.Prelude.{◌≡◌, ◌≤◌, ◌↔◌, OnOk, OnErr, IsTrue};
ghost use Rattle.shelf_io.specs.Shelf.{next_count, Rose};
ghost use Rattle.shelf_io.specs.MemState.{IsDue, after_call, failing_at, no_failures};

use crate::Failed;
use std::alloc::{AllocError, Global};
use std::marker::Model;

/// Counts one fault more. The count stays at its last value.
pub(crate) fn count_fault(count: &mut u64) -> Failed
    ensures counted { count.new ≡ next_count count.old }
    ensures rose { Rose count.old count.new }
    ensures later { count.old ≤ count.new }
{
    *count = count.saturating_add(1);
    Failed
}

/// How many calls there were, and the numbers of those that are to fail.
#[derive(Drop)]
pub(crate) struct Schedule {
    calls: u64,
    failing: Vec<u64>,
}

impl Model for Schedule {
    ghost use Rattle.shelf_io.specs.MemState.{FailSchedule};
    ghost use Rattle.shelf_io.specs.MemCode.{schedule_code};

    ghost Value = { FailSchedule };

    ghost coded = { schedule_code };

    ghost view = { λ p. record { calls = p.calls; failing = p.failing.items } };
}

impl Schedule {
    /// No call yet, and none that is to fail.
    pub(crate) fn new(alloc: Global) -> Self
        ensures { result ≡ no_failures }
    {
        Schedule {
            calls: 0,
            failing: Vec::new(alloc),
        }
    }

    /// Adds a number to those that are to fail.
    pub(crate) fn add(&mut self, call: u64) -> Result<(), AllocError>
        ensures ok { OnOk result (self.new ≡ failing_at call self.old) }
        ensures err { OnErr result (self.new ≡ self.old) }
    {
        self.failing.push(call)?;
        Ok(())
    }

    /// Counts a call, and says whether it is to fail.
    pub(crate) fn count_call(&mut self) -> bool
        ensures after { self.new ≡ after_call self.old }
        ensures due { IsTrue result ↔ IsDue self.old }
    {
        self.calls = self.calls.saturating_add(1);
        self.failing.contains(&self.calls)
    }
}
