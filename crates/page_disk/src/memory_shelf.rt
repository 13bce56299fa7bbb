//! A shelf of disks and a log in memory.
ghost use Rattle.std.specs.Prelude.{◌≡◌, ◌≢◌, ◌⊎◌, ◌↔◌, IfOk, IfSome, IfNone, OnOk, OnErr, IsErr, IsSome, ℕ, Some, None, slice_set};
ghost use Rattle.page_ids.specs.Size.{page_bytes};
ghost use Rattle.page_ids.specs.Faults.{IsCounted};
ghost use Rattle.page_disk.specs.Calls.{FailsNext, AnswersCall, uncalled};
ghost use Rattle.page_disk.specs.MemoryDisks.{IsMissing, IsLogUnwritten, size_of, disk_of, disk_seen, shelf_seen, redo_seen};
ghost use Rattle.page_disk.specs.Shelves.{IsAskedFor, IsAskedForLog, IsAsOffered, IsLogAsOffered, unasked};

use crate::asked::Asked;
use crate::calls::begin;
use crate::disk_memory::DiskMemory;
use crate::shelf::Shelf;
use page_ids::{Config, Failed, PageSize};
use redo_mark::{Calls, RedoMemory};
use std::marker::Model;

/// Hands out the disk in memory of each instance, and behind them its log, each once.
#[derive(Debug, Drop)]
pub struct MemoryShelf {
    /// The disk of each instance, none where it was handed out.
    disks: Vec<Option<DiskMemory>>,
    redo: Option<RedoMemory>,
    asked: Asked,
    calls: Calls,
}

impl Model for MemoryShelf {
    ghost use Rattle.std.specs.Prelude.{IfSome};
    ghost use Rattle.page_disk.specs.MemoryDisks.{MemoryShelf, IsLogUnwritten};

    ghost Value = { MemoryShelf };

    ghost view = { λ s. record { disks = s.disks.items; redo = s.redo; asked = s.asked; calls = s.calls } };

    ghost invariant = { λ s. IfSome s.redo IsLogUnwritten };
}

impl MemoryShelf {
    /// A shelf of these disks, the first of instance 0, and of this log's device, to which nothing was written. It fails at its calls with
    /// the numbers in `failing`, from 1, counted over disks and log.
    pub fn new(disks: Vec<Option<DiskMemory>>, redo: RedoMemory, failing: Vec<u64>) -> MemoryShelf
        requires unwritten { IsLogUnwritten redo }
        ensures { result ≡ record {
          disks = disks.items;
          redo = Some redo;
          asked = unasked;
          calls = uncalled failing.items;
        } }
    {
        MemoryShelf {
            disks,
            redo: Some(redo),
            asked: Asked::new(),
            calls: Calls::new(failing),
        }
    }
}

/// Takes the disk of an instance, where it is there and of this page size.
fn take_disk(
    disks: &mut Vec<Option<DiskMemory>>,
    instance: u16,
    size: PageSize,
) -> Option<DiskMemory>
    ensures there { IfSome result (λ disk. (disk_of disks.old.items instance ≡ Some disk) × (disk.size ≡ size)) }
    ensures taken { IsSome result → disks.new.items ≡ slice_set disks.old.items instance None }
    ensures missing { IfNone result (IsMissing size instance disks.old.items × (disks.new.items ≡ disks.old.items)) }
{
    let at = usize::from(instance);
    if at >= disks.len() {
        return None;
    }
    match &disks[at] {
        Some(disk) if disk.size() == size => disks[at].take(),
        _ => None,
    }
}

impl Shelf for MemoryShelf {
    ghost use Rattle.page_disk.specs.MemoryDisks.{shelf_seen};

    type Disk = DiskMemory;

    type Redo = RedoMemory;

    ghost seen = { shelf_seen };

    /// Fails exactly where the call is listed, the instance's disk was handed out or never there, or it has another page size than the
    /// Config.
    #[tactic(auto, using(crate::proofs::Counts::counted))]
    fn disk(&mut self, config: &Config, instance: u16) -> Result<DiskMemory, Failed>
        ensures size { IfOk result (λ disk. size_of disk ≡ page_bytes config.now.page) }
        ensures offered { IfOk result (λ disk. IsAsOffered ((shelf_seen self.old).disks instance) (disk_seen disk)) }
        ensures others { (n : ℕ) → n ≢ instance → (shelf_seen self.new).disks n ≡ (shelf_seen self.old).disks n }
        ensures stays { OnErr result ((shelf_seen self.new).disks ≡ (shelf_seen self.old).disks) }
        ensures log { (shelf_seen self.new).log ≡ (shelf_seen self.old).log }
        ensures asked { IsAskedFor config.now instance self.old.asked self.new.asked }
        ensures cause { IsCounted self.old.calls.faults self.new.calls.faults result }
        ensures exact { IsErr result ↔ (FailsNext self.old.calls ⊎ IsMissing config.now.page instance self.old.disks) }
        ensures given { IfOk result (λ disk. disk_of self.old.disks instance ≡ Some disk) }
        ensures left { OnOk result (self.new.disks ≡ slice_set self.old.disks instance None) }
        ensures kept { OnErr result (self.new.disks ≡ self.old.disks) }
        ensures rest { (self.new.redo ≡ self.old.redo) × AnswersCall self.old.calls self.new.calls result }
    {
        self.asked.note(config, instance);
        begin(&mut self.calls)?;
        match take_disk(&mut self.disks, instance, config.page) {
            Some(disk) => Ok(disk),
            None => Err(self.calls.fail()),
        }
    }

    /// Fails exactly where the call is listed or the log was handed out.
    #[tactic(auto, using(crate::proofs::Counts::counted))]
    fn redo(&mut self, config: &Config) -> Result<RedoMemory, Failed>
        ensures opened { IfOk result IsLogUnwritten }
        ensures offered { IfOk result (λ log. IsLogAsOffered (shelf_seen self.old).log (redo_seen log)) }
        ensures stays { OnErr result ((shelf_seen self.new).log ≡ (shelf_seen self.old).log) }
        ensures disks { (shelf_seen self.new).disks ≡ (shelf_seen self.old).disks }
        ensures asked { IsAskedForLog config.now self.old.asked self.new.asked }
        ensures cause { IsCounted self.old.calls.faults self.new.calls.faults result }
        ensures exact { IsErr result ↔ (FailsNext self.old.calls ⊎ (self.old.redo ≡ None)) }
        ensures given { IfOk result (λ log. self.old.redo ≡ Some log) }
        ensures left { OnOk result (self.new.redo ≡ None) }
        ensures kept { OnErr result (self.new.redo ≡ self.old.redo) }
        ensures same { self.new.disks ≡ self.old.disks }
        ensures calls { AnswersCall self.old.calls self.new.calls result }
    {
        self.asked.note_log(config);
        begin(&mut self.calls)?;
        match self.redo.take() {
            Some(redo) => Ok(redo),
            None => Err(self.calls.fail()),
        }
    }
}
