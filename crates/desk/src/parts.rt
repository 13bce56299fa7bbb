//! Small steps on the parts of a desk: a put's record is drafted, a page is read in.
ghost use Rattle.std.specs.Prelude.{◌≡◌, ◌<◌, ◌≤◌, ◌^◌, OnOk, OnErr, IfOk, IfErr, IfSome, vec_len, length};
ghost use Rattle.page_ids.specs.Faults.{IsCounted};
ghost use Rattle.page_ids.specs.Layout.{IsPage};
ghost use Rattle.page_disk.specs.Disks.{IsInside, IsSameDisk};
ghost use Rattle.redo_mark.specs.Records.{head_of};
ghost use Rattle.desk.specs.Logged.{put_change};
ghost use Rattle.desk.specs.Reads.{IsReadRefusal};

use page_disk::PageDisk;
use page_ids::{BadPage, Bytes, Failed, Image, OutOfMemory, PageId, decode};
use redo_mark::{Change, ChangeKind, Draft};
use std::alloc::Global;

/// Why a page was not read in.
#[derive(Clone, Copy, Debug)]
pub(crate) enum ReadErr {
    DiskFault { before: u64, after: u64 },
    BadPage(BadPage),
}

/// The draft of a put's record, and its bytes.
pub(crate) fn drafted(
    alloc: Global,
    page: PageId,
    at: u32,
    bytes: &[u8],
) -> Result<(Draft, Bytes), OutOfMemory>
    requires fits { (at < 2 ^ 16) × (length bytes.now < 2 ^ 16) }
    ensures draft { IfOk result (λ d. d.0 ≡ head_of (put_change page at bytes.now)) }
    ensures bytes { IfOk result (λ d. d.1 ≡ bytes.now) }
{
    let change = Change {
        page,
        kind: ChangeKind::Put,
        at,
        bytes: Bytes::of(Vec::from_slice(alloc, bytes)?),
    };
    let draft = Draft::of(alloc, &change)?;
    let Change { bytes, .. } = change;
    Ok((draft, bytes))
}

/// Reads the bytes of a page into the buffer.
fn fill<D: PageDisk>(disk: &mut D, page: PageId, buffer: &mut Vec<u8>) -> Result<(), Failed>
    requires inside { IsInside (D.seen disk.old).spaces page }
    requires buffer { vec_len buffer.old ≡ (D.seen disk.old).size }
    ensures bytes { OnOk result (IfSome ((D.seen disk.old).told page) (λ bytes. buffer.new.items ≡ bytes)) }
    ensures buffer { vec_len buffer.new ≡ vec_len buffer.old }
    ensures disk { IsSameDisk (D.seen disk.old) (D.seen disk.new) }
    ensures cause { IsCounted (D.seen disk.old).faults (D.seen disk.new).faults result }
{
    disk.read(page, buffer.as_mut_slice())
}

/// Reads a page through the buffer into the image, which stays where the disk fails or the bytes are no page.
pub(crate) fn read_page<D: PageDisk>(
    disk: &mut D,
    page: PageId,
    buffer: &mut Vec<u8>,
    image: &mut Image,
) -> Result<(), ReadErr>
    requires inside { IsInside (D.seen disk.old).spaces page }
    requires buffer { vec_len buffer.old ≡ (D.seen disk.old).size }
    requires image { length image.old.bytes ≡ (D.seen disk.old).size }
    ensures read { OnOk result (IfSome ((D.seen disk.old).told page) (λ bytes. IsPage page bytes image.new)) }
    ensures kept { OnErr result (image.new ≡ image.old) }
    ensures refused { IfErr result (λ e. IsReadRefusal ((D.seen disk.old).told page) (D.seen disk.old).faults (D.seen disk.new).faults page e) }
    ensures image { length image.new.bytes ≡ length image.old.bytes }
    ensures buffer { vec_len buffer.new ≡ vec_len buffer.old }
    ensures disk { IsSameDisk (D.seen disk.old) (D.seen disk.new) }
{
    let before = disk.faults();
    if fill(disk, page, buffer).is_err() {
        let after = disk.faults();
        return Err(ReadErr::DiskFault { before, after });
    }
    match decode(page, buffer.as_slice(), image) {
        Ok(()) => Ok(()),
        Err(bad) => Err(ReadErr::BadPage(bad)),
    }
}
