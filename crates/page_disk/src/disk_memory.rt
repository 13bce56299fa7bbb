//! A disk in memory.
ghost use Rattle.std.specs.Prelude.{false, ◌≡◌, ◌≤◌, ◌⊎◌, ◌↔◌, ◌++◌, ◌/◌, if◌then◌else◌, All, length, drop, IfOk, OnOk, OnErr, IfSome, IsTrue, IsErr, Some};
ghost use Rattle.page_ids.specs.Faults.{IsCounted};
ghost use Rattle.page_ids.specs.Layout.{u64_at};
ghost use Rattle.page_ids.specs.Size.{page_bytes};
ghost use Rattle.page_ids.specs.declared.ids.PageId.{PageId};
ghost use Rattle.page_disk.specs.Disks.{IsInside, IsSameDisk, IsOtherwiseSame, Fades};
ghost use Rattle.page_disk.specs.Calls.{FailsNext, AnswersCall, answered, failed, starved, uncalled};
ghost use Rattle.page_disk.specs.MemoryDisks.{HasSize, IsKept, contents_of, kept_of, pages_of, whole, half_over};
ghost use Rattle.page_disk.specs.MemoryDisks.{disk_seen, size_of, tells_of, told_of, bytes_of, bytes_in, spaces_of, faults_of, synced_of};

use crate::calls::begin;
use crate::disk::PageDisk;
use page_ids::{Failed, OutOfMemory, PageId, PageSize};
use redo_mark::{Calls, Covered};
use std::alloc::Global;
use std::collections::BTreeMap;
use std::marker::Model;

/// What is kept of a page.
#[derive(Debug, Drop)]
struct KeptPage {
    bytes: Vec<u8>,
    /// Whether its last write failed behind the first half.
    torn: bool,
}

impl Model for KeptPage {
    ghost use Rattle.page_disk.specs.MemoryDisks.{KeptPage};

    ghost Value = { KeptPage };

    ghost view = { λ k. record { bytes = k.bytes.items; torn = k.torn } };
}

/// A disk in memory. It keeps the pages that it was made with and those that were written; all others read as zeros. It always tells.
///
/// A call of `read`, `write` or `sync` fails exactly where its number, counted from 1 over all three, is listed, or where it finds no
/// memory; then `wants` rises. A listed write puts the first half of the bytes there, and the page is untold until it is written whole;
/// a write that finds no memory changes no page.
#[derive(Debug, Drop)]
pub struct DiskMemory {
    alloc: Global,
    size: PageSize,
    spaces: Vec<(u32, u32)>,
    kept: BTreeMap<PageId, KeptPage>,
    calls: Calls,
    /// Whether nothing was written since the last sync that was done.
    synced: bool,
}

impl Model for DiskMemory {
    ghost use Rattle.page_ids.specs.Size.{page_bytes};
    ghost use Rattle.page_disk.specs.MemoryDisks.{DiskMemory, AreKeptSized};

    ghost Value = { DiskMemory };

    ghost view = { λ d. record {
      size = d.size;
      spaces = d.spaces.items;
      kept = d.kept.entries;
      calls = d.calls;
      synced = d.synced;
    } };

    ghost invariant = { λ d. AreKeptSized (page_bytes d.size) d.kept.entries };
}

/// Keeps the bytes of a page, in place of those that were kept of it.
fn keep(
    pages: &mut BTreeMap<PageId, KeptPage>,
    page: PageId,
    bytes: Vec<u8>,
    torn: bool,
) -> Result<(), OutOfMemory>
    ensures ok { OnOk result (IsKept page (record { bytes = bytes.items; torn = torn })
        pages.old.entries pages.new.entries) }
    ensures err { OnErr result (pages.new.entries ≡ pages.old.entries) }
{
    pages.insert(page, KeptPage { bytes, torn })?;
    Ok(())
}

impl DiskMemory {
    /// A disk of these spaces, each with its number of pages, where `told` is told and every other page is of zeros.
    /// It fails at its calls with the numbers in `failing`, from 1.
    ///
    /// Each page of `told` lies in its space. Where a space or a page stands twice, its first entry counts.
    pub fn new(
        alloc: Global,
        size: PageSize,
        spaces: Vec<(u32, u32)>,
        told: Vec<(PageId, Vec<u8>)>,
        failing: Vec<u64>,
    ) -> Result<DiskMemory, OutOfMemory>
        requires pages { All (λ e. IsInside (pages_of spaces.items) e.0 × HasSize (page_bytes size) e)
            told.items }
        ensures size { IfOk result (λ disk. disk.size ≡ size) }
        ensures spaces { IfOk result (λ disk. disk.spaces ≡ spaces.items) }
        ensures kept { IfOk result (λ disk. (p : PageId) →
            kept_of disk.kept p ≡ kept_of (contents_of told.items) p) }
        ensures calls { IfOk result (λ disk. disk.calls ≡ uncalled failing.items) }
        ensures synced { IfOk result (λ disk. IsTrue disk.synced) }
    {
        let mut told = told;
        let mut kept = BTreeMap::new(alloc);
        while let Some((page, bytes)) = told.pop() {
            keep(&mut kept, page, bytes, false)?;
        }
        Ok(DiskMemory {
            alloc,
            size,
            spaces,
            kept,
            calls: Calls::new(failing),
            synced: true,
        })
    }

    /// The bytes of a page.
    pub fn size(&self) -> PageSize
        ensures { result ≡ self.now.size }
    {
        self.size
    }

    /// How often a call found no memory. Stays at 2^64 - 1.
    pub fn wants(&self) -> u64
        ensures { result ≡ self.now.calls.wants }
    {
        self.calls.wants()
    }

    /// Appends the bytes of a page from a place on.
    fn append_rest(&self, page: PageId, at: usize, out: &mut Vec<u8>) -> Result<(), OutOfMemory>
        requires { at ≤ size_of self.now }
        ensures { OnOk result (out.new.items ≡ out.old.items ++ drop at (bytes_of self.now page)) }
    {
        match self.kept.get(&page) {
            Some(kept) => out.extend_from_slice(&kept.bytes[at..])?,
            None => out.resize(out.len() + (self.size.bytes() as usize - at), 0)?,
        }
        Ok(())
    }

    /// Puts bytes over the front of a page's.
    fn put(&mut self, page: PageId, front: &[u8], torn: bool) -> Result<(), OutOfMemory>
        requires { length front.now ≤ size_of self.old }
        ensures ok { OnOk result (IsKept page
            (record { bytes = front.now ++ drop (length front.now) (bytes_of self.old page); torn = torn })
            self.old.kept self.new.kept) }
        ensures err { OnErr result (self.new.kept ≡ self.old.kept) }
        ensures rest { self.new ≡ record self.old { kept = self.new.kept } }
    {
        let mut bytes = Vec::from_slice(self.alloc, front)?;
        self.append_rest(page, front.len(), &mut bytes)?;
        keep(&mut self.kept, page, bytes, torn)
    }
}

/// How much of a page of this length a write puts there.
fn put_len(listed: bool, len: usize) -> usize
    ensures { result ≡ (if listed then len / 2 else len) }
{
    if listed { len / 2 } else { len }
}

impl PageDisk for DiskMemory {
    ghost use Rattle.page_disk.specs.MemoryDisks.{disk_seen};

    ghost seen = { disk_seen };

    ghost silent = { λ d p silent. absurd Prim.cc };

    /// Fails exactly where the call is listed.
    #[tactic(auto, using(crate::proofs::Counts::counted, crate::proofs::Counts::same_disk))]
    fn read(&mut self, page: PageId, out: &mut [u8]) -> Result<(), Failed>
        requires inside { IsInside (spaces_of self.old) page }
        requires size { length out.old ≡ size_of self.old }
        ensures bytes { OnOk result (IfSome (told_of self.old page) (λ bytes. out.new ≡ bytes)) }
        ensures same { IsSameDisk (disk_seen self.old) (disk_seen self.new) }
        ensures cause { IsCounted (faults_of self.old) (faults_of self.new) result }
        ensures exact { IsErr result ↔ FailsNext self.old.calls }
        ensures unwritten { synced_of self.new ≡ synced_of self.old }
        ensures given { OnOk result (out.new ≡ bytes_of self.old page) }
        ensures calls { AnswersCall self.old.calls self.new.calls result }
        ensures rest { self.new ≡ record self.old { calls = self.new.calls } }
    {
        begin(&mut self.calls)?;
        match self.kept.get(&page) {
            Some(kept) => out.copy_from_slice(kept.bytes.as_slice()),
            None => out.fill(0),
        }
        Ok(())
    }

    /// Fails exactly where the call is listed or found no memory.
    #[tactic(auto, using(crate::proofs::Counts::counted, crate::proofs::Counts::same_disk))]
    fn write(
        &mut self,
        page: PageId,
        bytes: &[u8],
        lsn: u64,
        covered: &Covered,
    ) -> Result<(), Failed>
        requires inside { IsInside (spaces_of self.old) page }
        requires size { length bytes.now ≡ size_of self.old }
        requires stamped { u64_at bytes.now 16 ≡ lsn }
        requires covered { lsn ≤ covered.now }
        ensures written { OnOk result (IsTrue (tells_of self.old) → told_of self.new page ≡ Some bytes.now) }
        ensures failed { OnErr result (Fades (told_of self.old page) (told_of self.new page)) }
        ensures others { IsOtherwiseSame page (disk_seen self.old) (disk_seen self.new) }
        ensures cause { IsCounted (faults_of self.old) (faults_of self.new) result }
        ensures unsynced { synced_of self.new ≡ false }
        ensures ok { OnOk result ((¬ (FailsNext self.old.calls)) × (self.new.calls ≡ answered self.old.calls)
            × IsKept page (whole bytes.now) self.old.kept self.new.kept) }
        ensures err { OnErr result ((FailsNext self.old.calls × (self.new.calls ≡ failed self.old.calls)
            × IsKept page (half_over bytes.now (bytes_of self.old page)) self.old.kept self.new.kept)
            ⊎ ((self.new.calls ≡ starved self.old.calls) × (self.new.kept ≡ self.old.kept))) }
        ensures rest { self.new ≡ record self.old { kept = self.new.kept; calls = self.new.calls; synced = false } }
    {
        self.synced = false;
        let listed = self.calls.begin();
        let most = put_len(listed, bytes.len());
        if self.put(page, &bytes[..most], listed).is_err() {
            self.calls.want();
            return Err(self.calls.fail());
        }
        if listed {
            return Err(self.calls.fail());
        }
        Ok(())
    }

    /// Fails exactly where the call is listed.
    #[tactic(auto, using(crate::proofs::Counts::counted, crate::proofs::Counts::same_disk))]
    fn sync(&mut self) -> Result<(), Failed>
        ensures same { IsSameDisk (disk_seen self.old) (disk_seen self.new) }
        ensures cause { IsCounted (faults_of self.old) (faults_of self.new) result }
        ensures synced { OnOk result (IsTrue (synced_of self.new)) }
        ensures failed { OnErr result (self.new.synced ≡ self.old.synced) }
        ensures exact { IsErr result ↔ FailsNext self.old.calls }
        ensures calls { AnswersCall self.old.calls self.new.calls result }
        ensures rest { self.new ≡ record self.old { calls = self.new.calls; synced = self.new.synced } }
    {
        begin(&mut self.calls)?;
        self.synced = true;
        Ok(())
    }

    fn pages(&self, space: u32) -> Option<u32> {
        self.spaces.iter().find(|s| s.0 == space).map(|s| s.1)
    }

    fn faults(&self) -> u64 {
        self.calls.faults()
    }
}
