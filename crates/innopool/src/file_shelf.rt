//! The shelf that opens the tablespace file and the log file.
ghost use Rattle.std.specs.Prelude.{◌≡◌, IfOk, Some, None};
ghost use Rattle.page_disk.specs.Shelves.{unasked};

use crate::log_file::LogFile;
use crate::opening::{FileKey, open_log, open_tablespace};
use crate::tablespace::TablespaceFile;
use page_disk::{Asked, FaultCount, Shelf};
use page_ids::{Config, Failed, PageSize};
use std::io;

/// Opens the tablespace file for each disk that it hands out, and the log file for the log. Tells no content.
#[derive(Drop)]
pub struct FileShelf<'a> {
    rt: &'a HostRuntime,
    space: u32,
    file: &'a str,
    log: &'a str,
    /// Which file the tablespace is, once it was opened.
    tablespace: Option<FileKey>,
    asked: Asked,
    faults: FaultCount,
}

impl<'a> FileShelf<'a> {
    /// The shelf of the files of these names. The pages of `file` are those of the space.
    pub fn new(rt: &'a HostRuntime, space: u32, file: &'a str, log: &'a str) -> FileShelf<'a>
        ensures space { result.space ≡ space }
        ensures file { result.file ≡ file.entry }
        ensures log { result.log ≡ log.entry }
        ensures asked { result.asked ≡ unasked }
        ensures faults { result.faults ≡ 0 }
    {
        FileShelf {
            rt,
            space,
            file,
            log,
            tablespace: None,
            asked: Asked::new(),
            faults: FaultCount::new(),
        }
    }

    /// Opens the tablespace, and notes which file it is.
    fn open_disk(&mut self, size: PageSize) -> io::Result<TablespaceFile>
        ensures size { IfOk result (λ disk. disk.size ≡ size) }
        ensures space { IfOk result (λ disk. disk.space ≡ self.old.space) }
        ensures faults { IfOk result (λ disk. disk.faults ≡ 0) }
        ensures kept { (self.new.asked ≡ self.old.asked) × (self.new.faults ≡ self.old.faults) }
    {
        let (file, key) = open_tablespace(self.rt, self.file)?;
        self.tablespace = Some(key);
        TablespaceFile::new(file, self.space, size)
    }

    /// Opens the log, which is another file than the tablespace.
    fn open_log(&self) -> io::Result<LogFile>
        ensures faults { IfOk result (λ log. log.faults ≡ 0) }
    {
        LogFile::new(open_log(self.rt, self.log, self.tablespace)?)
    }
}

impl Shelf for FileShelf<'_> {
    type Disk = TablespaceFile;

    type Redo = LogFile;

    ghost seen = { λ s. record {
      asked = s.asked;
      disks = λ _. record { told = λ _. None; spaces = None; faults = Some 0 };
      log = record { told = None; faults = Some 0 };
      faults = s.faults;
    } };

    fn disk(&mut self, config: &Config, instance: u16) -> Result<TablespaceFile, Failed> {
        self.asked.note(config, instance);
        match self.open_disk(config.page) {
            Ok(disk) => Ok(disk),
            Err(_) => Err(self.faults.fail()),
        }
    }

    fn redo(&mut self, config: &Config) -> Result<LogFile, Failed> {
        self.asked.note_log(config);
        match self.open_log() {
            Ok(log) => Ok(log),
            Err(_) => Err(self.faults.fail()),
        }
    }
}
