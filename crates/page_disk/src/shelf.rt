//! What hands out the disks and the log of a run.
ghost use Rattle.std.specs.Prelude.{◌≡◌, ◌≢◌, ℕ, IfOk, OnErr};
ghost use Rattle.page_ids.specs.Size.{page_bytes};
ghost use Rattle.page_ids.specs.Faults.{IsCounted};
ghost use Rattle.page_disk.specs.Shelves.{ShelfSeen, IsAskedFor, IsAskedForLog, IsAsOffered, IsLogAsOffered};
ghost use Rattle.redo_mark.specs.Device.{IsAsOpened};

use crate::disk::PageDisk;
use page_ids::{Config, Failed};
use redo_mark::RedoDisk;

/// A device's fault in the closing flush: the counts of faults around the call that failed.
#[derive(Clone, Copy, Debug, PartialEq, Eq)]
pub struct FaultAt {
    /// Whether the log failed; else the disk of the instance did.
    pub log: bool,
    /// The instance whose flush that was, from 0.
    pub instance: u16,
    /// The device's count of faults before the call that failed.
    pub before: u64,
    /// Its count behind that call: more than before, or 2^64 - 1.
    pub after: u64,
}

/// What hands out one disk per instance, and behind them the log's device, with a count of faults. A disk serves its instance's pages
/// alone.
pub trait Shelf {
    type Disk: PageDisk;

    type Redo: RedoDisk;

    /// What it tells of itself: how it was called so far, with what it hands out the disk of each instance and the log, and how often it
    /// failed; that count stays at 2^64 - 1.
    ghost seen: { Self → ShelfSeen };

    /// Hands out the disk of an instance, of the page size of `config`; asked for in rising instance.
    fn disk(&mut self, config: &Config, instance: u16) -> Result<Self::Disk, Failed>
        ensures size { IfOk result (λ disk. (Self.Disk.seen disk).size ≡ page_bytes config.now.page) }
        ensures offered { IfOk result (λ disk. IsAsOffered ((seen self.old).disks instance) (Self.Disk.seen disk)) }
        ensures others { (n : ℕ) → n ≢ instance → (seen self.new).disks n ≡ (seen self.old).disks n }
        ensures stays { OnErr result ((seen self.new).disks ≡ (seen self.old).disks) }
        ensures log { (seen self.new).log ≡ (seen self.old).log }
        ensures asked { IsAskedFor config.now instance (seen self.old).asked (seen self.new).asked }
        ensures cause { IsCounted (seen self.old).faults (seen self.new).faults result };

    /// Hands out the log's device, as at its opening; asked for once, behind the disks.
    fn redo(&mut self, config: &Config) -> Result<Self::Redo, Failed>
        ensures opened { IfOk result (λ log. IsAsOpened (Self.Redo.seen log).opened (Self.Redo.seen log).told) }
        ensures offered { IfOk result (λ log. IsLogAsOffered (seen self.old).log (Self.Redo.seen log)) }
        ensures stays { OnErr result ((seen self.new).log ≡ (seen self.old).log) }
        ensures disks { (seen self.new).disks ≡ (seen self.old).disks }
        ensures asked { IsAskedForLog config.now (seen self.old).asked (seen self.new).asked }
        ensures cause { IsCounted (seen self.old).faults (seen self.new).faults result };
}
