//! The calls of a device in memory, some of which are made to fail.
ghost use Rattle.std.specs.Prelude.{◌≡◌, ◌≤◌, IsTrue, ◌↔◌, Contains};
ghost use Rattle.redo_mark.specs.Memory.{Counts, risen};

use page_ids::Failed;
use std::marker::Model;

/// Counts the calls of a device in memory, its faults and its wants of memory. Each count stands still at `2^64 - 1`.
#[derive(Debug, Drop)]
pub struct Calls {
    failing: Vec<u64>,
    made: u64,
    faults: u64,
    wants: u64,
}

impl Model for Calls {
    ghost use Rattle.redo_mark.specs.Memory.{Counts};

    ghost Value = { Counts };

    ghost view = { λ c. record { failing = c.failing.items; made = c.made; faults = c.faults; wants = c.wants } };
}

impl Calls {
    /// No call was made yet; those with these numbers, counted from 1, will fail.
    pub fn new(failing: Vec<u64>) -> Calls
        ensures { result ≡ record { failing = failing.items; made = 0; faults = 0; wants = 0 } }
    {
        Calls {
            failing,
            made: 0,
            faults: 0,
            wants: 0,
        }
    }

    /// Counts a call, and tells whether it is listed.
    pub fn begin(&mut self) -> bool
        ensures listed { IsTrue result ↔ Contains self.old.failing (risen self.old.made) }
        ensures made { self.new ≡ record self.old { made = risen self.old.made } }
    {
        self.made = self.made.saturating_add(1);
        self.failing.contains(&self.made)
    }

    /// Counts a fault.
    pub fn fail(&mut self) -> Failed
        ensures faults { self.new ≡ record self.old { faults = risen self.old.faults } }
        ensures later { self.old.faults ≤ self.new.faults }
    {
        self.faults = self.faults.saturating_add(1);
        Failed
    }

    /// Counts a want of memory.
    pub fn want(&mut self)
        ensures { self.new ≡ record self.old { wants = risen self.old.wants } }
    {
        self.wants = self.wants.saturating_add(1);
    }

    /// The count of faults.
    pub fn faults(&self) -> u64
        ensures { result ≡ self.now.faults }
    {
        self.faults
    }

    /// The count of wants of memory.
    pub fn wants(&self) -> u64
        ensures { result ≡ self.now.wants }
    {
        self.wants
    }
}
