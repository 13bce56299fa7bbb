//! The log file as the redo log's device.
ghost use Rattle.std.specs.Prelude.{◌≡◌, ◌≤◌, ◌+◌, ◌^◌, None, length, max, IfOk, OnOk, OnErr, MatchResult};
ghost use Rattle.page_ids.specs.Faults.{IsCounted};
ghost use Rattle.redo_mark.specs.Device.{Tells, IsPieceWritten, IsTorn, IsSynced, IsSame};
ghost use Rattle.page_disk.specs.Calls.{CountsOnce};

use page_disk::FaultCount;
use page_ids::Failed;
use redo_mark::RedoDisk;
use std::fs::File;
use std::io;
use std::os::unix::fs::FileExt;

/// A log file as a device of bytes. Tells no content.
#[derive(Drop)]
pub struct LogFile {
    file: File,
    /// The file's length at the opening.
    opened: u64,
    /// So many bytes the file surely has: those of the opening, and up to the furthest end of a write that was answered.
    reach: u64,
    faults: FaultCount,
    ghost least: { opened ≤ reach },
}

impl LogFile {
    /// The device of an open file.
    pub fn new(file: File) -> io::Result<LogFile>
        ensures reach { IfOk result (λ log. log.reach ≡ log.opened) }
        ensures faults { IfOk result (λ log. log.faults ≡ 0) }
    {
        let opened = file.metadata()?.len();
        Ok(LogFile {
            file,
            opened,
            reach: opened,
            faults: FaultCount::new(),
        })
    }
}

impl RedoDisk for LogFile {
    ghost use Rattle.std.specs.Prelude.{None};
    ghost use Rattle.std.proofs.Common.{rules};

    ghost seen = { λ f. record { told = None; opened = f.opened; reach = f.reach; faults = f.faults } };

    ghost sized = { λ f. record { least = f.least; written = Prim.search rules; kept = Prim.search rules } };

    /// A file that takes a beginning of the piece and then no more has failed.
    fn write_at(&mut self, at: u64, piece: &[u8]) -> Result<(), Failed>
        requires within { at ≤ self.old.reach }
        requires limit { at + length piece.now ≤ 2 ^ 63 }
        ensures put { OnOk result (Tells None None (IsPieceWritten at piece.now)) }
        ensures torn { OnErr result (Tells None None (IsTorn at (length piece.now))) }
        ensures reach { self.old.reach ≤ self.new.reach }
        ensures reached { OnOk result (at + length piece.now ≤ self.new.reach) }
        ensures grown { MatchResult result (λ _. self.new.reach ≡ max self.old.reach (at + length piece.now))
            (λ _. self.new.reach ≡ self.old.reach) }
        ensures opened { self.new.opened ≡ self.old.opened }
        ensures counted { IsCounted self.old.faults self.new.faults result }
        ensures once { CountsOnce self.old.faults self.new.faults result }
    {
        match self.file.write_all_at(piece, at) {
            Ok(()) => {
                self.reach = self.reach.max(at + piece.len() as u64);
                Ok(())
            }
            Err(_) => Err(self.faults.fail()),
        }
    }

    fn sync(&mut self) -> Result<(), Failed>
        ensures synced { OnOk result (Tells None None IsSynced) }
        ensures failed { OnErr result (Tells None None IsSame) }
        ensures reach { self.old.reach ≤ self.new.reach }
        ensures stays { self.new.reach ≡ self.old.reach }
        ensures opened { self.new.opened ≡ self.old.opened }
        ensures counted { IsCounted self.old.faults self.new.faults result }
        ensures once { CountsOnce self.old.faults self.new.faults result }
    {
        match self.file.sync_all() {
            Ok(()) => Ok(()),
            Err(_) => Err(self.faults.fail()),
        }
    }

    fn end(&self) -> u64 {
        self.opened
    }

    fn faults(&self) -> u64 {
        self.faults.get()
    }
}
