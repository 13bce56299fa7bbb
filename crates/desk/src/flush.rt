//! Writing a page behind its log.
ghost use Rattle.std.specs.Prelude.{ℕ, ◌≡◌, ◌<◌, ◌≤◌, OnOk, OnErr, IfOk, IfErr, IsTrue, length, vec_len};
ghost use Rattle.page_disk.specs.Disks.{IsInside, IsSameDisk, IsOtherwiseSame, Fades};
ghost use Rattle.desk.specs.Reads.{IsDiskFault, RoseWithin};
ghost use Rattle.desk.specs.Changes.{IsImageTold, IsWriteFault, IsForced, covered_to};
ghost use Rattle.desk.specs.Moments.{log_seen};
ghost use Rattle.desk.specs.Writing.{MayWrite, Covers, Writes};

use page_disk::PageDisk;
use page_ids::{Image, PageId, encode};
use redo_mark::{CoverErr, Covered, Redo, RedoDisk};

/// The counts of faults before and after a device's call that failed.
#[derive(Clone, Copy, Debug)]
pub(crate) struct Fault {
    pub(crate) before: u64,
    pub(crate) after: u64,
}

/// Why a page was not written: the log or the disk failed, with its counts of faults before and after.
#[derive(Clone, Copy, Debug)]
pub(crate) enum WriteErr {
    RedoFault { before: u64, after: u64 },
    DiskFault { before: u64, after: u64 },
}

/// Makes the log durable up to an LSN, behind which it doesn't end.
fn cover<R: RedoDisk>(redo: &mut Redo<R>, lsn: u64) -> Result<Covered, Fault>
    requires known { lsn ≤ redo.old.seen.end }
    ensures ok { IfOk result (λ c. (lsn ≤ c) × (c ≡ redo.new.seen.durable) × (c ≤ redo.new.seen.end)) }
    ensures mark { OnOk result (redo.new.seen.durable ≡ covered_to redo.old.seen.durable redo.old.seen.end lsn) }
    ensures fault { IfErr result (λ f. RoseWithin redo.old.seen.faults redo.new.seen.faults f.before f.after) }
    ensures forced { OnErr result ((redo.new.seen.durable < lsn) × (redo.new.seen.durable ≡ redo.old.seen.durable)) }
    ensures idle { lsn ≤ redo.old.seen.durable → redo.new ≡ redo.old }
    ensures log { Covers (log_seen R.seen redo.old) (log_seen R.seen redo.new) }
{
    match redo.cover(lsn) {
        Ok(covered) => Ok(covered),
        Err(CoverErr::Fault { before, after }) => Err(Fault { before, after }),
        Err(CoverErr::BeyondEnd { .. }) => unreachable!(),
    }
}

/// Writes a page's image through the buffer, where the log is durable up to its LSN.
fn write_image<D: PageDisk>(
    disk: &mut D,
    page: PageId,
    image: &Image,
    covered: &Covered,
    buffer: &mut Vec<u8>,
) -> Result<(), Fault>
    requires inside { IsInside (D.seen disk.old).spaces page }
    requires image { length image.now.bytes ≡ (D.seen disk.old).size }
    requires buffer { vec_len buffer.old ≡ (D.seen disk.old).size }
    requires covered { image.now.lsn ≤ covered.now }
    ensures written { OnOk result (IsImageTold page image.now (D.seen disk.old) (D.seen disk.new)) }
    ensures failed { OnErr result (Fades ((D.seen disk.old).told page) ((D.seen disk.new).told page)) }
    ensures others { IsOtherwiseSame page (D.seen disk.old) (D.seen disk.new) }
    ensures fault { IfErr result (λ f. IsDiskFault (D.seen disk.old).faults (D.seen disk.new).faults f.before f.after) }
    ensures buffer { vec_len buffer.new ≡ vec_len buffer.old }
{
    let before = disk.faults();
    let lsn = image.lsn();
    encode(page, image, buffer.as_mut_slice());
    if disk.write(page, buffer.as_slice(), lsn, covered).is_err() {
        let after = disk.faults();
        return Err(Fault { before, after });
    }
    Ok(())
}

/// Writes a page's image behind its log, and answers up to where the log was durable.
///
/// The log is made durable up to the page's LSN first: a page never stands on the disk without its changes in the log.
pub(crate) fn write_page<D: PageDisk, R: RedoDisk>(
    disk: &mut D,
    redo: &mut Redo<R>,
    page: PageId,
    image: &Image,
    buffer: &mut Vec<u8>,
) -> Result<u64, WriteErr>
    requires may { MayWrite (D.seen disk.old) redo.old.seen page image.now (vec_len buffer.old) }
    ensures answers { Writes D.seen disk.old disk.new
        (log_seen R.seen redo.old) (log_seen R.seen redo.new) page image.now result }
    ensures others { IsOtherwiseSame page (D.seen disk.old) (D.seen disk.new) }
    ensures idle { image.now.lsn ≤ redo.old.seen.durable → redo.new ≡ redo.old }
    ensures log { Covers (log_seen R.seen redo.old) (log_seen R.seen redo.new) }
    ensures buffer { vec_len buffer.new ≡ vec_len buffer.old }
{
    let covered = match cover(redo, image.lsn()) {
        Ok(covered) => covered,
        Err(Fault { before, after }) => return Err(WriteErr::RedoFault { before, after }),
    };
    match write_image(disk, page, image, &covered, buffer) {
        Ok(()) => Ok(covered.upto()),
        Err(Fault { before, after }) => Err(WriteErr::DiskFault { before, after }),
    }
}

/// Makes the whole log durable. Where it is already, no device is used.
pub(crate) fn cover_all<R: RedoDisk>(redo: &mut Redo<R>) -> Result<(), WriteErr>
    ensures whole { OnOk result (redo.new.seen.durable ≡ redo.new.seen.end) }
    ensures fault { (first last : ℕ) → IfErr result (λ e. IsWriteFault first last redo.old.seen.faults redo.new.seen.faults e) }
    ensures forced { OnErr result (redo.new.seen.durable < redo.new.seen.end) }
    ensures idle { redo.old.seen.end ≤ redo.old.seen.durable → redo.new ≡ redo.old }
    ensures log { Covers (log_seen R.seen redo.old) (log_seen R.seen redo.new) }
{
    let end = redo.end();
    match cover(redo, end) {
        Ok(_) => Ok(()),
        Err(Fault { before, after }) => Err(WriteErr::RedoFault { before, after }),
    }
}

/// Syncs the disk.
pub(crate) fn sync_pages<D: PageDisk>(disk: &mut D) -> Result<(), WriteErr>
    ensures same { IsSameDisk (D.seen disk.old) (D.seen disk.new) }
    ensures synced { OnOk result (IsTrue (D.seen disk.new).synced) }
    ensures fault { (first last : ℕ) → IfErr result (λ e. IsWriteFault (D.seen disk.old).faults (D.seen disk.new).faults first last e) }
    ensures unlogged { IfErr result (λ e. IsForced disk.old disk.new ⊥ e) }
{
    let before = disk.faults();
    if disk.sync().is_err() {
        let after = disk.faults();
        return Err(WriteErr::DiskFault { before, after });
    }
    Ok(())
}
