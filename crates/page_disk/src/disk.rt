//! The pages of one instance on a disk.
ghost use Rattle.std.specs.Prelude.{◌≡◌, ◌≤◌, ℕ, Bool, false, List, Option, Some, None, length, OnOk, OnErr, IfSome, IsTrue};
ghost use Rattle.page_ids.specs.Faults.{IsCounted};
ghost use Rattle.page_ids.specs.Layout.{u64_at};
ghost use Rattle.page_ids.specs.declared.ids.PageId.{PageId};
ghost use Rattle.page_disk.specs.Disks.{DiskSeen, IsInside, IsSameDisk, IsOtherwiseSame, Fades};

use page_ids::{Failed, PageId};
use redo_mark::Covered;

/// The pages of one instance on a disk, with a count of faults.
///
/// What pages hold is told optionally: a disk tells or doesn't, from its opening on. One that tells may leave a page untold whose write
/// failed, until it is written whole.
pub trait PageDisk: Send + Drop {
    /// What it tells of itself. Its page size, its spaces and whether it tells never change; its count of faults stays at 2^64 - 1.
    ghost seen: { Self → DiskSeen };

    /// Reads the bytes of a page, which lies in its space, into `out`, which is as long as a page.
    fn read(&mut self, page: PageId, out: &mut [u8]) -> Result<(), Failed>
        requires inside { IsInside (seen self.old).spaces page }
        requires size { length out.old ≡ (seen self.old).size }
        ensures bytes { OnOk result (IfSome ((seen self.old).told page) (λ bytes. out.new ≡ bytes)) }
        ensures same { IsSameDisk (seen self.old) (seen self.new) }
        ensures unwritten { (seen self.new).synced ≡ (seen self.old).synced }
        ensures cause { IsCounted (seen self.old).faults (seen self.new).faults result };

    /// Writes the bytes of a page, which lies in its space. They are as long as a page, their LSN (bytes 16 to 23) is `lsn`, and the log is
    /// durable up to it (InnoDB's `fil_io`). What is written is kept from the next `sync` on.
    ///
    /// After a failure the page is as it was, or untold until it is written whole. No other page changes.
    fn write(
        &mut self,
        page: PageId,
        bytes: &[u8],
        lsn: u64,
        covered: &Covered,
    ) -> Result<(), Failed>
        requires inside { IsInside (seen self.old).spaces page }
        requires size { length bytes.now ≡ (seen self.old).size }
        requires stamped { u64_at bytes.now 16 ≡ lsn }
        requires covered { lsn ≤ covered.now }
        ensures written { OnOk result (IsTrue (seen self.old).tells → (seen self.new).told page ≡ Some bytes.now) }
        ensures failed { OnErr result (Fades ((seen self.old).told page) ((seen self.new).told page)) }
        ensures others { IsOtherwiseSame page (seen self.old) (seen self.new) }
        ensures unsynced { (seen self.new).synced ≡ false }
        ensures cause { IsCounted (seen self.old).faults (seen self.new).faults result };

    /// Returns once all that was written is kept.
    fn sync(&mut self) -> Result<(), Failed>
        ensures same { IsSameDisk (seen self.old) (seen self.new) }
        ensures synced { OnOk result (IsTrue (seen self.new).synced) }
        ensures failed { OnErr result ((seen self.new).synced ≡ (seen self.old).synced) }
        ensures cause { IsCounted (seen self.old).faults (seen self.new).faults result };

    /// How many pages the space has; `None` for a space that isn't there.
    fn pages(&self, space: u32) -> Option<u32>
        ensures { result ≡ (seen self.now).spaces space };

    /// The count of faults.
    fn faults(&self) -> u64
        ensures { result ≡ (seen self.now).faults };

    /// One that doesn't tell, tells of no page.
    ghost silent: { (d : Self) (p : PageId) → (seen d).tells ≡ false → (seen d).told p ≡ None };
}
