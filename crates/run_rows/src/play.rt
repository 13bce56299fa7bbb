//! Runs a case on forms in memory.
ghost use Rattle.std.specs.Prelude.{◌≡◌, ◌∷◌, [], All, IsTrue, IfOk};
ghost use Rattle.page_ids.specs.Size.{page_bytes};
ghost use Rattle.page_disk.specs.Disks.{IsInside};
ghost use Rattle.page_disk.specs.MemoryDisks.{pages_of, HasSize};

use crate::case::{Failing, Given};
use crate::narrow::Narrow;
use page_disk::{DiskMemory, MemoryShelf, SinkMemory, SourceMemory};
use page_ids::{OutOfMemory, PageId, PageSize};
use redo_mark::RedoMemory;
use script_run::{Outcome, run};
use std::alloc::Global;

/// What a run answered, what it wrote, and the shelf after it.
#[derive(Drop)]
pub(crate) struct Played {
    pub(crate) outcome: Outcome<DiskMemory, RedoMemory>,
    pub(crate) out: Narrow,
    pub(crate) shelf: MemoryShelf,
    /// The page size of the disk.
    pub(crate) size: PageSize,
}

/// Whether the page lies in space 0 of so many pages.
fn is_inside(pages: u32, page: PageId) -> bool
    ensures { IsTrue result → IsInside (pages_of ((0, pages) ∷ [])) page }
{
    page.space == 0 && page.page < pages
}

/// Of these pages those that lie in space 0, and have the size of a page.
fn inside(
    alloc: Global,
    size: PageSize,
    pages: u32,
    told: Vec<(PageId, Vec<u8>)>,
) -> Result<Vec<(PageId, Vec<u8>)>, OutOfMemory>
    ensures { IfOk result (λ kept. All (λ e. IsInside (pages_of ((0, pages) ∷ [])) e.0 × HasSize (page_bytes size) e) kept.items) }
{
    let mut told = told;
    let mut kept = Vec::new(alloc);
    while let Some((page, bytes)) = told.pop() {
        if is_inside(pages, page) && bytes.len() == size.bytes() as usize {
            kept.push((page, bytes))?;
        }
    }
    Ok(kept)
}

/// A disk of space 0 with these pages.
fn disk_of(
    alloc: Global,
    size: PageSize,
    pages: u32,
    told: Vec<(PageId, Vec<u8>)>,
    failing: Vec<u64>,
) -> Result<DiskMemory, OutOfMemory> {
    let told = inside(alloc, size, pages, told)?;
    let spaces = Vec::from_slice(alloc, &[(0, pages)])?;
    DiskMemory::new(alloc, size, spaces, told, failing)
}

/// Runs the script.
pub(crate) fn play(rt: &HostRuntime, alloc: Global, given: Given) -> Result<Played, OutOfMemory> {
    let Given {
        words,
        script,
        size,
        pages,
        told,
        log,
        failing,
        takes,
    } = given;
    let Failing {
        source,
        sink,
        shelf,
        disk,
        log: log_calls,
    } = failing;
    let mut disks = Vec::new(alloc);
    disks.push(Some(disk_of(alloc, size, pages, told, disk)?))?;
    let mut shelf = MemoryShelf::new(disks, RedoMemory::new(log, log_calls), shelf);
    let mut source = SourceMemory::new(script, source);
    let mut out = Narrow {
        sink: SinkMemory::new(alloc, sink),
        most: takes,
    };
    let outcome = run(rt, alloc, &words, &mut source, &mut out, &mut shelf);
    Ok(Played {
        outcome,
        out,
        shelf,
        size,
    })
}
