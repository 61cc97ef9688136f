//! The calls on an object in memory: how many were made and failed, and which are to fail.
ghost use Rattle.std.specs.Prelude.{◌≡◌, ◌≤◌, ◌↔◌, IfOk, IsTrue, Contains};
ghost use Rattle.express_words.specs.Causes.{next};
ghost use Rattle.express_words.specs.Memory.{Tally, started, IsListed, faulted};

use crate::NoMemory;
use std::alloc::Global;
use std::marker::Model;

/// The number of calls made, copies of the numbers of those that are to fail, from 1, and the count of faults. Both
/// counts end at 2^64 - 1.
#[derive(Drop)]
pub struct CallLog {
    made: u64,
    failing: Vec<u64>,
    faults: u64,
}

impl Model for CallLog {
    ghost Value = { Tally };

    ghost view = { λ log. record { made = log.made; failing = log.failing.items; faults = log.faults } };
}

impl CallLog {
    /// Before the first call.
    pub fn new(alloc: Global, failing: &[u64]) -> Result<CallLog, NoMemory>
        ensures { IfOk result (λ log. log ≡ started failing.now) }
    {
        let Ok(failing) = Vec::from_slice(alloc, failing) else {
            return Err(NoMemory);
        };
        Ok(CallLog {
            made: 0,
            failing,
            faults: 0,
        })
    }

    /// Counts a call, and says whether it is to fail.
    pub fn begin(&mut self) -> bool
        ensures listed { IsTrue result ↔ IsListed self.old }
        ensures counted { self.new ≡ record { made = next self.old.made; failing = self.old.failing; faults = self.old.faults } }
    {
        self.made = self.made.saturating_add(1);
        self.failing.contains(&self.made)
    }

    /// Counts a fault.
    pub fn fail(&mut self)
        ensures later { self.old.faults ≤ self.new.faults }
        ensures counted { self.new ≡ faulted self.old }
    {
        self.faults = self.faults.saturating_add(1);
    }

    /// How many faults were counted.
    pub fn faults(&self) -> u64
        ensures { result ≡ self.now.faults }
    {
        self.faults
    }

    /// As it was before the first call.
    pub fn restart(&mut self)
        ensures { self.new ≡ started self.old.failing }
    {
        self.made = 0;
        self.faults = 0;
    }
}
