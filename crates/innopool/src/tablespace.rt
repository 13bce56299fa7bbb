//! The tablespace file as a disk of pages.
ghost use Rattle.std.specs.Prelude.{false, ◌≡◌, ◌≤◌, ◌*◌, length, IfOk, OnOk, OnErr, IsTrue, Some};
ghost use Rattle.page_ids.specs.Faults.{IsCounted};
ghost use Rattle.page_ids.specs.Layout.{u64_at};
ghost use Rattle.page_disk.specs.Disks.{IsInside, IsSameDisk, IsOtherwiseSame, Fades};
ghost use Rattle.page_disk.specs.Calls.{CountsOnce};
ghost use Rattle.innopool.specs.Tablespaces.{tablespace_seen, size_of, tells_of, told_of, spaces_of, faults_of, synced_of};

use page_disk::{FaultCount, PageDisk};
use page_ids::{Failed, PageId, PageSize};
use redo_mark::Covered;
use std::fs::File;
use std::io::{self, Seek, SeekFrom};
use std::os::unix::fs::FileExt;

/// A tablespace file as the only space of a disk: page p stands at p times the page size. Tells no content.
#[derive(Drop)]
pub struct TablespaceFile {
    file: File,
    space: u32,
    size: PageSize,
    pages: u32,
    faults: FaultCount,
    /// Whether nothing was written since the last sync that was done.
    synced: bool,
}

impl TablespaceFile {
    /// The disk of an open file or block device. Its pages are the whole pages of the length now, at most 2^32 - 1.
    pub fn new(mut file: File, space: u32, size: PageSize) -> io::Result<TablespaceFile>
        ensures size { IfOk result (λ disk. disk.size ≡ size) }
        ensures space { IfOk result (λ disk. disk.space ≡ space) }
        ensures faults { IfOk result (λ disk. disk.faults ≡ 0) }
    {
        let whole = file.seek(SeekFrom::End(0))? / u64::from(size.bytes());
        Ok(TablespaceFile {
            file,
            space,
            size,
            pages: whole.min(0xffff_ffff) as u32,
            faults: FaultCount::new(),
            synced: true,
        })
    }

    /// Where the page's first byte stands in the file.
    fn offset_of(&self, page: PageId) -> u64
        ensures { result ≡ page.page * size_of self.now }
    {
        u64::from(page.page) * u64::from(self.size.bytes())
    }
}

impl PageDisk for TablespaceFile {
    ghost use Rattle.std.specs.Prelude.{None};
    ghost use Rattle.innopool.specs.Tablespaces.{tablespace_seen};

    ghost seen = { tablespace_seen };

    ghost silent = { λ d p silent. λ i. None };

    /// A file that ends before the page does has failed.
    fn read(&mut self, page: PageId, out: &mut [u8]) -> Result<(), Failed>
        requires inside { IsInside (spaces_of self.old) page }
        requires size { length out.old ≡ size_of self.old }
        ensures same { IsSameDisk (tablespace_seen self.old) (tablespace_seen self.new) }
        ensures unwritten { synced_of self.new ≡ synced_of self.old }
        ensures cause { IsCounted (faults_of self.old) (faults_of self.new) result }
        ensures once { CountsOnce (faults_of self.old) (faults_of self.new) result }
    {
        match self.file.read_exact_at(out, self.offset_of(page)) {
            Ok(()) => Ok(()),
            Err(_) => Err(self.faults.fail()),
        }
    }

    /// A file that takes a beginning of the page and then no more has failed.
    fn write(
        &mut self,
        page: PageId,
        bytes: &[u8],
        lsn: u64,
        covered: &Covered,
    ) -> Result<(), Failed>
        requires inside { IsInside (spaces_of self.old) page }
        requires size { length bytes.now ≡ size_of self.old }
        requires stamped { u64_at bytes.now 16 ≡ lsn }
        requires covered { lsn ≤ covered.now }
        ensures written { OnOk result (IsTrue (tells_of self.old) → told_of self.new page ≡ Some bytes.now) }
        ensures failed { OnErr result (Fades (told_of self.old page) (told_of self.new page)) }
        ensures others { IsOtherwiseSame page (tablespace_seen self.old) (tablespace_seen self.new) }
        ensures unsynced { synced_of self.new ≡ false }
        ensures cause { IsCounted (faults_of self.old) (faults_of self.new) result }
        ensures once { CountsOnce (faults_of self.old) (faults_of self.new) result }
    {
        self.synced = false;
        match self.file.write_all_at(bytes, self.offset_of(page)) {
            Ok(()) => Ok(()),
            Err(_) => Err(self.faults.fail()),
        }
    }

    fn sync(&mut self) -> Result<(), Failed>
        ensures same { IsSameDisk (tablespace_seen self.old) (tablespace_seen self.new) }
        ensures synced { OnOk result (IsTrue (synced_of self.new)) }
        ensures failed { OnErr result (synced_of self.new ≡ synced_of self.old) }
        ensures cause { IsCounted (faults_of self.old) (faults_of self.new) result }
        ensures once { CountsOnce (faults_of self.old) (faults_of self.new) result }
    {
        match self.file.sync_all() {
            Ok(()) => {
                self.synced = true;
                Ok(())
            }
            Err(_) => Err(self.faults.fail()),
        }
    }

    fn pages(&self, space: u32) -> Option<u32> {
        if self.space == space {
            Some(self.pages)
        } else {
            None
        }
    }

    fn faults(&self) -> u64 {
        self.faults.get()
    }
}
