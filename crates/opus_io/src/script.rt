//! Which calls of a source or sink in memory are to fail.
ghost use Rattle.std.specs.Prelude.{◌≡◌, ◌↔◌, IfOk, IsTrue, Contains, if◌then◌else◌};
ghost use Rattle.opus_io.specs.Cause.{next_count};

use crate::NoMemory;
use std::alloc::Global;

// Which calls are to fail: a count of the calls so far, and one of those that failed.
#[derive(Drop)]
pub struct Script {
    fails: Vec<u64>,
    calls: u64,
    faults: u64,
}

impl Script {
    pub fn new(alloc: Global, fails: &[u64]) -> Result<Script, NoMemory>
        ensures fails { IfOk result (λ s. s.fails.items ≡ fails.now) }
        ensures calls { IfOk result (λ s. s.calls ≡ 0) }
        ensures faults { IfOk result (λ s. s.faults ≡ 0) }
    {
        Ok(Script {
            fails: Vec::from_slice(alloc, fails)?,
            calls: 0,
            faults: 0,
        })
    }

    // Counts one more call, and tells whether it is to fail.
    pub fn fails_now(&mut self) -> bool
        ensures fails { self.new.fails.items ≡ self.old.fails.items }
        ensures calls { self.new.calls ≡ next_count self.old.calls }
        ensures result { IsTrue result ↔ Contains self.old.fails.items self.new.calls }
        ensures faults { self.new.faults
            ≡ (if result then next_count self.old.faults else self.old.faults) }
    {
        self.calls = self.calls.saturating_add(1);
        let is_listed = self.fails.contains(&self.calls);
        if is_listed {
            self.faults = self.faults.saturating_add(1);
        }
        is_listed
    }
}
