//! A sink in memory.
ghost use Rattle.std.specs.Prelude.{◌≡◌, ◌<◌, ◌-◌, ◌^◌, ◌⊎◌, [], min, length, Some, OnOk, OnErr, IfOk};
ghost use Rattle.page_ids.specs.Faults.{IsCounted};
ghost use Rattle.page_disk.specs.Streams.{PutsPiece};
ghost use Rattle.page_disk.specs.Calls.{FailsNext, answered, failed, starved, uncalled};

use crate::calls::begin;
use crate::stream::Sink;
use page_ids::Failed;
use redo_mark::Calls;
use std::alloc::Global;
use std::marker::Model;

/// A sink that keeps all bytes in memory. A call takes its whole piece.
#[derive(Debug, Drop)]
pub struct SinkMemory {
    held: Vec<u8>,
    calls: Calls,
}

impl Model for SinkMemory {
    ghost use Rattle.page_disk.specs.MemoryStreams.{SinkMemory};

    ghost Value = { SinkMemory };

    ghost view = { λ s. record { held = s.held.items; calls = s.calls } };
}

impl SinkMemory {
    /// A sink that holds nothing, and fails at its calls with these numbers, from 1.
    pub fn new(alloc: Global, failing: Vec<u64>) -> SinkMemory
        ensures { result ≡ record { held = []; calls = uncalled failing.items } }
    {
        SinkMemory {
            held: Vec::new(alloc),
            calls: Calls::new(failing),
        }
    }

    /// What it holds.
    pub fn bytes(&self) -> &[u8]
        ensures { result.now ≡ self.now.held }
    {
        self.held.as_slice()
    }

    /// How many calls found no memory. Stays at 2^64 - 1.
    pub fn wants(&self) -> u64
        ensures { result ≡ self.now.calls.wants }
    {
        self.calls.wants()
    }
}

impl Sink for SinkMemory {
    ghost held = { λ s. Some s.held };

    ghost fault_count = { λ s. s.calls.faults };

    /// Fails exactly where the call is listed or found no memory.
    #[tactic(auto, using(crate::proofs::Counts::counted))]
    fn put(&mut self, piece: &[u8]) -> Result<u32, Failed>
        requires { 0 < length piece.now }
        ensures bytes { PutsPiece (Some self.old.held) (Some self.new.held) result piece.now }
        ensures cause { IsCounted self.old.calls.faults self.new.calls.faults result }
        ensures many { IfOk result (λ n. n ≡ min (length piece.now) (2 ^ 32 - 1)) }
        ensures ok { OnOk result ((¬ (FailsNext self.old.calls)) × (self.new.calls ≡ answered self.old.calls)) }
        ensures err { OnErr result ((FailsNext self.old.calls × (self.new.calls ≡ failed self.old.calls))
            ⊎ ((¬ (FailsNext self.old.calls)) × (self.new.calls ≡ starved self.old.calls))) }
    {
        begin(&mut self.calls)?;
        let n = piece.len().min(0xffff_ffff);
        if self.held.extend_from_slice(&piece[..n]).is_err() {
            self.calls.want();
            return Err(self.calls.fail());
        }
        Ok(n as u32)
    }
}
