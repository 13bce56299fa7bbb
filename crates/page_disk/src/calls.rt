//! Counts of faults, and how a call of a form in memory begins.
ghost use Rattle.std.specs.Prelude.{◌≡◌, ◌≤◌, ◌↔◌, OnErr, OnOk, IsErr};
ghost use Rattle.page_ids.specs.Faults.{IsCounted};
ghost use Rattle.page_disk.specs.Calls.{answered, failed, FailsNext};

use page_ids::Failed;
use redo_mark::Calls;
use std::marker::Model;

/// How often a device failed. Stays at 2^64 - 1.
#[derive(Debug, Drop)]
pub struct FaultCount {
    count: u64,
}

impl Model for FaultCount {
    ghost use Rattle.std.specs.Prelude.{ℕ};

    ghost Value = { ℕ };

    ghost view = { λ f. f.count };
}

impl FaultCount {
    ghost use Rattle.page_ids.specs.Faults.{Rose};
    ghost use Rattle.redo_mark.specs.Memory.{risen};

    /// No fault so far.
    pub fn new() -> FaultCount
        ensures { result ≡ 0 }
    {
        FaultCount { count: 0 }
    }

    /// Counts a fault, and gives the answer for it.
    pub fn fail(&mut self) -> Failed
        ensures counted { self.new ≡ risen self.old }
        ensures later { self.old ≤ self.new }
        ensures rose { Rose self.old self.new }
    {
        self.count = self.count.saturating_add(1);
        Failed
    }

    /// How many faults were counted.
    pub fn get(&self) -> u64
        ensures { result ≡ self.now }
    {
        self.count
    }
}

/// Begins a call of a form in memory; at a listed one it counts a fault.
pub(crate) fn begin(calls: &mut Calls) -> Result<(), Failed>
    ensures exact { IsErr result ↔ FailsNext calls.old }
    ensures ok { OnOk result (calls.new ≡ answered calls.old) }
    ensures err { OnErr result (calls.new ≡ failed calls.old) }
    ensures cause { IsCounted calls.old.faults calls.new.faults result }
{
    if calls.begin() {
        return Err(calls.fail());
    }
    Ok(())
}
