//! Compares what a run left with what is wanted, and tells each difference in a line.

use crate::case::Wanted;
use crate::play::Played;
use page_disk::{DiskMemory, MemoryShelf, PageDisk, Shelf};
use page_ids::{Config, OutOfMemory, PageId, PageSize};
use redo_mark::RedoMemory;
use script_run::Outcome;
use std::alloc::Global;
use std::fmt::Debug;
use trail::text;

type Left = Outcome<DiskMemory, RedoMemory>;

/// What the shelf is asked with after the run, but for the page size.
const CONFIG: Config = Config {
    page: PageSize::Kib4,
    instances: 1,
    frames: 4,
    size: 16384,
    max: 2,
    old_pct: 37,
    old_time: 1000,
    old_min: 512,
    lsn: 8192,
    first: 0,
};

/// Tells of values that differ.
fn expect<T: PartialEq + Debug>(
    alloc: Global,
    found: &mut String,
    what: &str,
    seen: T,
    wanted: T,
) -> Result<(), OutOfMemory>
where
    T: Drop,
{
    if seen != wanted {
        let line = format!(in alloc; "    {what}: {seen:?}, wanted {wanted:?}\n")?;
        found.push_str(line.as_str())?;
    }
    Ok(())
}

/// Where two texts differ first.
fn difference(seen: &[u8], wanted: &[u8]) -> Option<usize> {
    for (at, byte) in seen.iter().enumerate() {
        if wanted.get(at) != Some(byte) {
            return Some(at);
        }
    }
    if seen.len() < wanted.len() {
        Some(seen.len())
    } else {
        None
    }
}

/// A line of a text, from 0.
fn line_of(text: &[u8], number: usize) -> &[u8] {
    for (at, line) in text.split(|byte| *byte == b'\n').enumerate() {
        if at == number {
            return line;
        }
    }
    b""
}

/// Tells of a line that differs.
fn expect_line(
    alloc: Global,
    found: &mut String,
    number: usize,
    seen: &[u8],
    wanted: &[u8],
) -> Result<(), OutOfMemory> {
    if seen != wanted {
        let seen = String::from_utf8_lossy(alloc, seen)?;
        let wanted = String::from_utf8_lossy(alloc, wanted)?;
        let line = format!(in alloc;
            "    line {number} of the trails: {seen}\n        wanted: {wanted}\n"
        )?;
        found.push_str(line.as_str())?;
    }
    Ok(())
}

/// Tells of the first byte that differs.
fn expect_bytes(
    alloc: Global,
    found: &mut String,
    what: &str,
    seen: &[u8],
    wanted: &[u8],
) -> Result<(), OutOfMemory> {
    if let Some(at) = difference(seen, wanted) {
        let (byte, want) = (seen.get(at).copied(), wanted.get(at).copied());
        let line = format!(in alloc; "    {what}, byte {at}: {byte:?}, wanted {want:?}\n")?;
        found.push_str(line.as_str())?;
    }
    Ok(())
}

/// The text of the trails that were handed back.
fn told(alloc: Global, outcome: &Left) -> Result<Vec<u8>, OutOfMemory> {
    let mut all = Vec::new(alloc);
    let mut instance = 0u16;
    for trail in &outcome.trails {
        text(alloc, instance, trail, &mut all)?;
        instance = instance.saturating_add(1);
    }
    Ok(all)
}

/// Compares the trails' text: at the wanted lines, where there are such, else whole.
fn compare_text(
    alloc: Global,
    found: &mut String,
    seen: &[u8],
    wanted: &Wanted,
) -> Result<(), OutOfMemory> {
    for (number, line) in &wanted.lines {
        expect_line(
            alloc,
            found,
            *number,
            line_of(seen, *number),
            line.as_slice(),
        )?;
    }
    let whole = wanted.text.as_slice();
    if wanted.lines.is_empty()
        && let Some(at) = difference(seen, whole)
    {
        let number = whole.iter().take(at).filter(|byte| **byte == b'\n').count();
        expect_line(
            alloc,
            found,
            number,
            line_of(seen, number),
            line_of(whole, number),
        )?;
    }
    Ok(())
}

/// Compares what the sink took of the text.
fn compare_written(
    alloc: Global,
    found: &mut String,
    seen: &[u8],
    all: &[u8],
    wanted: &Wanted,
) -> Result<(), OutOfMemory> {
    let most = match wanted.written {
        Some(most) => most.min(all.len()),
        None if wanted.status <= 1 => all.len(),
        None => 0,
    };
    expect_bytes(alloc, found, "what was written", seen, &all[..most])
}

/// Compares what was answered beside the trails.
fn compare_answer(
    alloc: Global,
    found: &mut String,
    outcome: &Left,
    wanted: &Wanted,
) -> Result<(), OutOfMemory> {
    let ended = !(wanted.text.is_empty() && wanted.lines.is_empty());
    let handed = usize::from(ended);
    expect(alloc, found, "status", outcome.status, wanted.status)?;
    expect(alloc, found, "line", outcome.line, wanted.line)?;
    expect(alloc, found, "fault", outcome.fault, wanted.fault)?;
    expect(alloc, found, "trails", outcome.trails.len(), handed)?;
    expect(alloc, found, "disks", outcome.disks.len(), handed)
}

/// Compares the log that was handed back.
fn compare_log(
    alloc: Global,
    found: &mut String,
    outcome: &Left,
    wanted: &Wanted,
) -> Result<(), OutOfMemory> {
    let (marks, kept) = match &outcome.redo {
        Some(redo) => (Some((redo.end, redo.durable)), redo.disk.kept()),
        None => (None, b"".as_slice()),
    };
    expect(alloc, found, "marks", marks, wanted.marks)?;
    match &wanted.kept {
        Some(bytes) => expect_bytes(alloc, found, "log", kept, bytes.as_slice()),
        None => Ok(()),
    }
}

/// The bytes of a page on the disk that was handed back; none where they can't be read.
fn read_back(alloc: Global, outcome: &mut Left, page: PageId) -> Result<Vec<u8>, OutOfMemory> {
    let Some(disk) = outcome.disks.first_mut() else {
        return Ok(Vec::new(alloc));
    };
    let mut bytes = vec![in alloc; 0; disk.size().bytes() as usize]?;
    match disk.pages(page.space) {
        Some(pages) if page.page < pages => match disk.read(page, bytes.as_mut_slice()) {
            Ok(()) => Ok(bytes),
            Err(_) => Ok(Vec::new(alloc)),
        },
        _ => Ok(Vec::new(alloc)),
    }
}

/// Compares the pages of that disk.
fn compare_pages(
    alloc: Global,
    found: &mut String,
    outcome: &mut Left,
    wanted: &Wanted,
) -> Result<(), OutOfMemory> {
    for (page, bytes) in &wanted.pages {
        let seen = read_back(alloc, outcome, *page)?;
        let what = format!(in alloc; "page {page}")?;
        expect_bytes(
            alloc,
            found,
            what.as_str(),
            seen.as_slice(),
            bytes.as_slice(),
        )?;
    }
    Ok(())
}

/// Whether the disk and the log are still on the shelf.
fn are_left(shelf: &mut MemoryShelf, page: PageSize) -> (bool, bool) {
    let config = Config { page, ..CONFIG };
    let disk = shelf.disk(&config, 0).is_ok();
    (disk, shelf.redo(&config).is_ok())
}

/// All that differs, a line each; nothing where a run left what is wanted.
pub(crate) fn compare(
    alloc: Global,
    played: &mut Played,
    wanted: &Wanted,
) -> Result<String, OutOfMemory> {
    let mut found = String::new(alloc);
    let all = told(alloc, &played.outcome)?;
    compare_text(alloc, &mut found, all.as_slice(), wanted)?;
    compare_written(
        alloc,
        &mut found,
        played.out.sink.bytes(),
        all.as_slice(),
        wanted,
    )?;
    compare_answer(alloc, &mut found, &played.outcome, wanted)?;
    compare_log(alloc, &mut found, &played.outcome, wanted)?;
    let left = are_left(&mut played.shelf, played.size);
    expect(alloc, &mut found, "left", left, wanted.left)?;
    compare_pages(alloc, &mut found, &mut played.outcome, wanted)?;
    Ok(found)
}
