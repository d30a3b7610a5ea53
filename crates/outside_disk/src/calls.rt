//! The calls that a file in memory counts, and those of them that are to fail.
ghost use Rattle.std.specs.Prelude.{◌≡◌, ◌≤◌, ◌+◌, ◌-◌, ◌^◌, ◌↔◌, min, IsTrue};
ghost use Rattle.pet_base.specs.Causes.{Rose, one_more};
ghost use Rattle.outside_disk.specs.Calls.{Begins, IsToFail, FailsFrom, LacksMemory};

use pet_base::Failed;
use std::alloc::AllocError;

/// How many calls there were, which are to fail, from which on all are, how many failed, and how many of those failed for
/// want of memory.
#[derive(Drop)]
pub struct Calls {
    next: u64,
    failing: Vec<u64>,
    from: Option<u64>,
    faults: u64,
    unmet: u64,
}

impl Calls {
    /// No call yet. The calls of these numbers are to fail, counted from 0.
    pub fn new(failing: Vec<u64>) -> Calls
        ensures { Begins result failing.items }
    {
        Calls {
            next: 0,
            failing,
            from: None,
            faults: 0,
            unmet: 0,
        }
    }

    /// Every call of this number or above is to fail too.
    pub fn failing_from(&mut self, call: u64)
        ensures { FailsFrom self.old self.new call }
    {
        self.from = Some(self.from.unwrap_or(call).min(call));
    }

    /// Counts a call, and says whether it is one that is to fail.
    pub fn count(&mut self) -> bool
        ensures same { self.new ≡ record self.old { next = min (self.old.next + 1) (2 ^ 64 - 1) } }
        ensures to_fail { IsTrue result ↔ IsToFail self.old }
    {
        let to_fail = match self.from {
            Some(first) if first <= self.next => true,
            _ => self.failing.contains(&self.next),
        };
        self.next = self.next.saturating_add(1);
        to_fail
    }

    /// Counts a fault.
    pub fn fault(&mut self) -> Failed
        ensures same { self.new ≡ record self.old { faults = self.new.faults } }
        ensures later { self.old.faults ≤ self.new.faults }
        ensures rose { Rose self.old.faults self.new.faults }
        ensures once { self.new.faults ≡ one_more self.old.faults }
    {
        self.faults = self.faults.saturating_add(1);
        Failed
    }

    /// Counts a fault, which is that a growth found no memory, and such growths.
    pub fn unmet(&mut self, _growth: AllocError) -> Failed
        ensures same { self.new ≡ record self.old { faults = self.new.faults; unmet = self.new.unmet } }
        ensures later { self.old.faults ≤ self.new.faults }
        ensures rose { Rose self.old.faults self.new.faults }
        ensures once { self.new.faults ≡ one_more self.old.faults }
        ensures lacks { LacksMemory self.old self.new }
    {
        self.unmet = self.unmet.saturating_add(1);
        self.fault()
    }
}
