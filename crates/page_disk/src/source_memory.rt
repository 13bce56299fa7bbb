//! A source in memory.
ghost use Rattle.std.specs.Prelude.{◌≡◌, ◌<◌, ◌-◌, ◌^◌, ◌↔◌, min, length, Some, IfOk, IsErr};
ghost use Rattle.page_ids.specs.Faults.{IsCounted};
ghost use Rattle.page_disk.specs.Streams.{TakesPiece};
ghost use Rattle.page_disk.specs.Calls.{FailsNext, AnswersCall, uncalled};

use crate::calls::begin;
use crate::stream::Source;
use page_ids::Failed;
use redo_mark::Calls;
use std::marker::Model;

/// Bytes in memory that are taken once. A call gives as many as there is room for.
#[derive(Debug, Drop)]
pub struct SourceMemory {
    bytes: Vec<u8>,
    at: usize,
    calls: Calls,
}

impl Model for SourceMemory {
    ghost use Rattle.std.specs.Prelude.{◌≤◌, drop, length};
    ghost use Rattle.page_disk.specs.MemoryStreams.{SourceMemory};

    ghost Value = { SourceMemory };

    ghost view = { λ s. record { left = drop s.at s.bytes.items; calls = s.calls } };

    ghost invariant = { λ s. s.at ≤ length s.bytes.items };
}

impl SourceMemory {
    /// A source of these bytes, which fails at its calls with these numbers, from 1.
    pub fn new(bytes: Vec<u8>, failing: Vec<u64>) -> SourceMemory
        ensures left { result.left ≡ bytes.items }
        ensures calls { result.calls ≡ uncalled failing.items }
    {
        SourceMemory {
            bytes,
            at: 0,
            calls: Calls::new(failing),
        }
    }
}

impl Source for SourceMemory {
    ghost left = { λ s. Some s.left };

    ghost fault_count = { λ s. s.calls.faults };

    /// Fails exactly where the call is listed.
    #[tactic(auto, using(crate::proofs::Counts::counted))]
    fn take(&mut self, out: &mut [u8]) -> Result<u32, Failed>
        requires { 0 < length out.old }
        ensures bytes { TakesPiece (Some self.old.left) (Some self.new.left) result out.new }
        ensures cause { IsCounted self.old.calls.faults self.new.calls.faults result }
        ensures many { IfOk result (λ n. n ≡ min (min (length self.old.left) (length out.old)) (2 ^ 32 - 1)) }
        ensures exact { IsErr result ↔ FailsNext self.old.calls }
        ensures calls { AnswersCall self.old.calls self.new.calls result }
    {
        begin(&mut self.calls)?;
        let n = (self.bytes.len() - self.at).min(out.len()).min(0xffff_ffff);
        out[..n].copy_from_slice(&self.bytes[self.at..self.at + n]);
        self.at += n;
        Ok(n as u32)
    }
}
