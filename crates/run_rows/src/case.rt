//! A case: what a run is given, and what it is to leave.

use crate::reading::{cut, number, number_u32, numbers, page, page_with, push_bytes};
use page_disk::FaultAt;
use page_ids::{OutOfMemory, PageId, PageSize};
use std::alloc::{AllocError, AllocFailed, Global};

/// The numbers of the calls that fail, from 1, for each device.
#[derive(Drop)]
pub(crate) struct Failing {
    pub(crate) source: Vec<u64>,
    pub(crate) sink: Vec<u64>,
    pub(crate) shelf: Vec<u64>,
    pub(crate) disk: Vec<u64>,
    pub(crate) log: Vec<u64>,
}

/// What a run is given.
#[derive(Drop)]
pub(crate) struct Given {
    pub(crate) words: Vec<String>,
    pub(crate) script: Vec<u8>,
    pub(crate) size: PageSize,
    /// How many pages space 0 has.
    pub(crate) pages: u32,
    pub(crate) told: Vec<(PageId, Vec<u8>)>,
    pub(crate) log: Vec<u8>,
    pub(crate) failing: Failing,
    /// How many bytes the sink takes at most in a call.
    pub(crate) takes: usize,
}

/// What a run is to leave.
#[derive(Drop)]
pub(crate) struct Wanted {
    pub(crate) status: u8,
    pub(crate) line: u32,
    pub(crate) fault: Option<FaultAt>,
    /// The whole text of the trails.
    pub(crate) text: Vec<u8>,
    /// Lines of that text. Where there are such, only they are compared.
    pub(crate) lines: Vec<(usize, Vec<u8>)>,
    pub(crate) written: Option<usize>,
    /// The log's end, and how far it is durable.
    pub(crate) marks: Option<(u64, u64)>,
    /// What the log holds; `None` where it isn't looked at.
    pub(crate) kept: Option<Vec<u8>>,
    /// Whether the disk and the log are still on the shelf.
    pub(crate) left: (bool, bool),
    pub(crate) pages: Vec<(PageId, Vec<u8>)>,
}

/// A case with its name.
#[derive(Drop)]
pub(crate) struct Case {
    pub(crate) name: String,
    pub(crate) given: Given,
    pub(crate) wanted: Wanted,
}

/// Why a line isn't taken.
#[derive(Clone, Copy, Debug, PartialEq, Eq)]
pub(crate) enum CaseErr {
    /// The line tells nothing.
    BadLine,
    OutOfMemory,
}

impl From<OutOfMemory> for CaseErr {
    fn from(_error: OutOfMemory) -> CaseErr {
        CaseErr::OutOfMemory
    }
}

impl From<AllocError> for CaseErr {
    fn from(_error: AllocError) -> CaseErr {
        CaseErr::OutOfMemory
    }
}

impl<T: Drop> From<AllocFailed<T>> for CaseErr {
    fn from(_error: AllocFailed<T>) -> CaseErr {
        CaseErr::OutOfMemory
    }
}

impl Failing {
    /// No call fails.
    fn new(alloc: Global) -> Failing {
        Failing {
            source: Vec::new(alloc),
            sink: Vec::new(alloc),
            shelf: Vec::new(alloc),
            disk: Vec::new(alloc),
            log: Vec::new(alloc),
        }
    }

    /// These calls of the device fail.
    fn set(&mut self, device: &[u8], calls: Vec<u64>) -> Result<(), CaseErr> {
        match device {
            b"source" => self.source = calls,
            b"sink" => self.sink = calls,
            b"shelf" => self.shelf = calls,
            b"disk" => self.disk = calls,
            b"log" => self.log = calls,
            _ => return Err(CaseErr::BadLine),
        }
        Ok(())
    }
}

/// The words of a text, divided by single blanks; none where it is empty.
fn words_of(alloc: Global, text: &[u8]) -> Result<Vec<String>, OutOfMemory> {
    let mut words = Vec::new(alloc);
    if text.is_empty() {
        return Ok(words);
    }
    for word in text.split(|byte| *byte == b' ') {
        words.push(String::from_utf8_lossy(alloc, word)?)?;
    }
    Ok(words)
}

/// Whether it is the log, of the two devices that a shelf hands out.
fn is_log(device: &[u8]) -> Result<bool, CaseErr> {
    match device {
        b"disk" => Ok(false),
        b"log" => Ok(true),
        _ => Err(CaseErr::BadLine),
    }
}

/// The number that a text writes.
fn one(text: &[u8]) -> Result<u64, CaseErr> {
    number(text).ok_or(CaseErr::BadLine)
}

/// The two numbers that a text writes.
fn two(text: &[u8]) -> Result<(u64, u64), CaseErr> {
    let (first, second) = cut(text);
    Ok((one(first)?, one(second)?))
}

/// The status that a text writes.
fn status_of(text: &[u8]) -> Result<u8, CaseErr> {
    let status = one(text)?;
    if status > 7 {
        return Err(CaseErr::BadLine);
    }
    Ok(status as u8)
}

/// A page's id, and its bytes.
fn page_of(alloc: Global, size: PageSize, text: &[u8]) -> Result<(PageId, Vec<u8>), CaseErr> {
    let (word, parts) = cut(text);
    let id = page(word).ok_or(CaseErr::BadLine)?;
    let bytes = page_with(alloc, size.bytes() as usize, parts)?;
    Ok((id, bytes))
}

/// Appends a line with its newline.
fn push_line(all: &mut Vec<u8>, line: &[u8]) -> Result<(), OutOfMemory> {
    all.extend_from_slice(line)?;
    all.push(b'\n')?;
    Ok(())
}

impl Given {
    /// An empty script over 64 pages of zeros and an empty log, where no call fails.
    fn new(alloc: Global) -> Result<Given, OutOfMemory> {
        Ok(Given {
            words: words_of(alloc, b"run 0 file log")?,
            script: Vec::new(alloc),
            size: PageSize::Kib4,
            pages: 64,
            told: Vec::new(alloc),
            log: Vec::new(alloc),
            failing: Failing::new(alloc),
            takes: 0xffff_ffff,
        })
    }

    /// Appends lines to the script: the text tells how many, if not one, and behind a blank the line.
    fn read_lines(&mut self, text: &[u8]) -> Result<(), CaseErr> {
        let (count, line) = cut(text);
        let count = if count.is_empty() { 1 } else { one(count)? };
        for _ in 0..count {
            push_line(&mut self.script, line)?;
        }
        Ok(())
    }

    /// Appends turns to the script, in each of which a page is fixed, changed and given back.
    fn read_turns(&mut self, alloc: Global, text: &[u8]) -> Result<(), CaseErr> {
        let (count, pages) = two(text)?;
        if pages == 0 {
            return Err(CaseErr::BadLine);
        }
        for turn in 0..count {
            let page = turn % pages;
            let lines = format!(in alloc; "fix 0:{page} 1\nput 0:{page} 38 01\nunfix 0:{page}\n")?;
            self.script.extend_from_slice(lines.as_bytes())?;
        }
        Ok(())
    }

    /// The page size, and the pages of space 0.
    fn read_disk(&mut self, text: &[u8]) -> Result<(), CaseErr> {
        let (size, pages) = cut(text);
        let size = number_u32(size).ok_or(CaseErr::BadLine)?;
        self.size = PageSize::of(size).ok_or(CaseErr::BadLine)?;
        self.pages = number_u32(pages).ok_or(CaseErr::BadLine)?;
        Ok(())
    }
}

impl Wanted {
    /// The script was run, and nothing was logged.
    fn new(alloc: Global) -> Wanted {
        Wanted {
            status: 0,
            line: 0,
            fault: None,
            text: Vec::new(alloc),
            lines: Vec::new(alloc),
            written: None,
            marks: Some((8192, 8192)),
            kept: Some(Vec::new(alloc)),
            left: (false, false),
            pages: Vec::new(alloc),
        }
    }

    /// A line of the text, and where it stands if not behind the one before.
    fn read_line(&mut self, alloc: Global, text: &[u8]) -> Result<(), CaseErr> {
        let (at, line) = cut(text);
        if at.is_empty() {
            push_line(&mut self.text, line)?;
        } else {
            let at = one(at)? as usize;
            self.lines.push((at, Vec::from_slice(alloc, line)?))?;
        }
        Ok(())
    }

    fn read_fault(&mut self, text: &[u8]) -> Result<(), CaseErr> {
        let (device, counts) = cut(text);
        let log = is_log(device)?;
        let (before, after) = two(counts)?;
        self.fault = Some(FaultAt {
            log,
            instance: 0,
            before,
            after,
        });
        Ok(())
    }

    fn read_marks(&mut self, text: &[u8]) -> Result<(), CaseErr> {
        self.marks = if text == b"none".as_slice() {
            None
        } else {
            Some(two(text)?)
        };
        Ok(())
    }

    fn read_kept(&mut self, text: &[u8]) -> Result<(), CaseErr> {
        if text == b"any".as_slice() {
            self.kept = None;
        } else if let Some(kept) = &mut self.kept {
            push_bytes(kept, text)?;
        }
        Ok(())
    }

    fn read_left(&mut self, text: &[u8]) -> Result<(), CaseErr> {
        let (mut disk, mut log) = (false, false);
        for device in text.split(|byte| *byte == b' ') {
            if is_log(device)? {
                log = true;
            } else {
                disk = true;
            }
        }
        self.left = (disk, log);
        Ok(())
    }
}

impl Case {
    /// A case without a name.
    pub(crate) fn new(alloc: Global) -> Result<Case, OutOfMemory> {
        Ok(Case {
            name: String::new(alloc),
            given: Given::new(alloc)?,
            wanted: Wanted::new(alloc),
        })
    }

    /// Takes a line. A line that begins with # says nothing.
    pub(crate) fn read(&mut self, alloc: Global, line: &[u8]) -> Result<(), CaseErr> {
        match line {
            [b'#', ..] => Ok(()),
            [b'<', text @ ..] => self.given.read_lines(text),
            [b'>', text @ ..] => self.wanted.read_line(alloc, text),
            _ => {
                let (key, text) = cut(line);
                if self.read_given(alloc, key, text)? {
                    return Ok(());
                }
                self.read_wanted(alloc, key, text)
            }
        }
    }

    /// Takes a line of what is given. Whether it is one.
    fn read_given(&mut self, alloc: Global, key: &[u8], text: &[u8]) -> Result<bool, CaseErr> {
        match key {
            b"case" => self.name = String::from_utf8_lossy(alloc, text)?,
            b"words" => self.given.words = words_of(alloc, text)?,
            b"disk" => self.given.read_disk(text)?,
            b"has" => {
                let page = page_of(alloc, self.given.size, text)?;
                self.given.told.push(page)?;
            }
            b"log" => push_bytes(&mut self.given.log, text)?,
            b"fails" => {
                let (device, calls) = cut(text);
                let calls = numbers(alloc, calls)?;
                self.given.failing.set(device, calls)?;
            }
            b"takes" => self.given.takes = one(text)? as usize,
            b"turns" => self.given.read_turns(alloc, text)?,
            _ => return Ok(false),
        }
        Ok(true)
    }

    /// Takes a line of what is wanted.
    fn read_wanted(&mut self, alloc: Global, key: &[u8], text: &[u8]) -> Result<(), CaseErr> {
        match key {
            b"status" => self.wanted.status = status_of(text)?,
            b"line" => self.wanted.line = number_u32(text).ok_or(CaseErr::BadLine)?,
            b"fault" => self.wanted.read_fault(text)?,
            b"written" => self.wanted.written = Some(one(text)? as usize),
            b"marks" => self.wanted.read_marks(text)?,
            b"kept" => self.wanted.read_kept(text)?,
            b"left" => self.wanted.read_left(text)?,
            b"page" => {
                let page = page_of(alloc, self.given.size, text)?;
                self.wanted.pages.push(page)?;
            }
            _ => return Err(CaseErr::BadLine),
        }
        Ok(())
    }
}
