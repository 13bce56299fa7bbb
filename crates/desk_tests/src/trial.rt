//! A desk on trial, with its disk, its log and its frames in memory.
ghost use Rattle.std.specs.Prelude.{◌≡◌, ◌<◌, ◌≤◌, ◌+◌, [], ℕ, IfOk, IfSome, IsSome, IsTrue, length};
ghost use Rattle.frame_words.specs.Plain.{seen_of, room_of};
ghost use Rattle.instance_lists.specs.Ledger.{IsOneChunk};
ghost use Rattle.desk.specs.Moments.{IsEmptyHanded};
ghost use Rattle.desk.specs.Steps.{row_in};
ghost use Rattle.desk.specs.Tied.{TellsAll};
ghost use Rattle.desk.specs.Victims.{AreSettled};

use desk::{Caller, Cleaned, Desk, Granted, PutDone, dirty_pages_are_few};
use frame_words::{Frames, PlainFrames};
use page_disk::DiskMemory;
use page_ids::{Config, OutOfMemory, PageId, PageSize, Word};
use redo_mark::{Redo, RedoMemory};
use std::alloc::Global;
use std::marker::Model;
use trail::Entry;

/// Four frames in one chunk.
const CONFIG: Config = Config {
    page: PageSize::Kib4,
    instances: 1,
    frames: 4,
    size: 16384,
    max: 2,
    old_pct: 37,
    old_time: 1000,
    old_min: 512,
    lsn: 8192,
    first: 0,
};

/// A desk with its disk, its frames and its log. Each call may come at any time: one that may not be made is not made.
#[derive(Drop)]
pub(crate) struct Trial {
    desk: Desk<DiskMemory>,
    frames: PlainFrames,
    redo: Redo<RedoMemory>,
    /// The number of the thread's next call.
    next: u32,
    /// The number of the runner's next clean.
    cleans: u32,
    /// The page of space 0 that was fixed or made last, while it is resident.
    fixed: Option<u32>,
}

impl Model for Trial {
    ghost use Rattle.std.specs.Prelude.{ℕ, ◌+◌};
    ghost use Rattle.desk_tests.specs.Trials.{IsOnTrial};

    ghost Value = { ℕ };

    ghost view = { λ t. t.next };

    ghost invariant = { λ t. IsOnTrial (t.next + t.cleans) t.desk.state t.frames t.redo.seen.end t.fixed };
}

/// A disk whose space 0 has 64 pages of zeros.
fn disk_of(alloc: Global) -> Result<DiskMemory, OutOfMemory>
    ensures size { IfOk result (λ disk. disk.size ≡ PageSize.Kib4) }
{
    let spaces = Vec::from_slice(alloc, &[(0, 64)])?;
    DiskMemory::new(
        alloc,
        PageSize::Kib4,
        spaces,
        Vec::new(alloc),
        Vec::new(alloc),
    )
}

/// A desk with an empty history.
fn desk_of(alloc: Global) -> Result<Desk<DiskMemory>, OutOfMemory>
    ensures first { IfOk result (λ desk. desk.state.config.first ≡ 0) }
    ensures size { IfOk result (λ desk. desk.state.config.page ≡ PageSize.Kib4) }
    ensures chunk { IfOk result (λ desk. IsOneChunk desk.state.config) }
    ensures history { IfOk result (λ desk. desk.state.history ≡ []) }
    ensures hands { IfOk result (λ desk. IsEmptyHanded desk.state) }
{
    let disk = disk_of(alloc)?;
    match Desk::new(alloc, &CONFIG, 0, disk) {
        Ok(desk) => Ok(desk),
        Err((error, _)) => Err(error),
    }
}

/// An empty log.
fn log_of(alloc: Global) -> Result<Redo<RedoMemory>, OutOfMemory> {
    match Redo::start(
        alloc,
        RedoMemory::new(Vec::new(alloc), Vec::new(alloc)),
        8192,
    ) {
        Ok(redo) => Ok(redo),
        Err((error, _)) => Err(error),
    }
}

/// Whether a frame has no more than 100 fixes. That its fixes and its image are told is so in any case.
fn has_room(frames: &PlainFrames, frame: u32) -> bool
    requires inside { frame < length frames.now.rows }
    ensures room { IsTrue result → 0 < room_of frames.now frame }
    ensures held { IsSome (row_in frames.now.rows frame).held }
    ensures image { IfSome (row_in frames.now.rows frame).image (λ told. IsSome told) }
{
    let _image = frames.image(frame);
    frames.held(frame) <= 100
}

/// Whether no frame has more than 100 fixes.
fn have_room(frames: &PlainFrames) -> bool
    ensures room { IsTrue result → (f : ℕ) → f < length frames.now.rows → 0 < room_of frames.now f }
    ensures alone { IsTrue result → TellsAll (seen_of frames.now) }
    ensures settled { IsTrue result → AreSettled frames.now.rows }
{
    for frame in 0..frames.frames() {
        if !has_room(frames, frame) {
            return false;
        }
    }
    true
}

/// Whether so many bytes at this place lie in the body of a page of 4096 bytes.
fn are_in_body(at: u32, len: usize) -> bool
    ensures { IsTrue result → (0 < len) × (38 ≤ at) × (at + len ≤ 4088) }
{
    len > 0 && at >= 38 && at <= 4088 && len <= 4088 - at as usize
}

impl Trial {
    pub(crate) fn new(alloc: Global) -> Result<Trial, OutOfMemory> {
        let redo = log_of(alloc)?;
        let desk = desk_of(alloc)?;
        let frames = desk.blank_frames(alloc)?;
        Ok(Trial {
            desk,
            frames,
            redo,
            next: 1,
            cleans: 1,
            fixed: None,
        })
    }

    /// Fixes a page of space 0 as pass 1, which holds no fix, at the moment 1.
    pub(crate) fn fix(&mut self, page: u32) -> Option<Granted> {
        if self.next + self.cleans > 2000 || !have_room(&self.frames) {
            return None;
        }
        let number = self.next;
        self.next = number + 1;
        self.fixed = None;
        let by = Caller { pass: 1, number };
        let id = PageId { space: 0, page };
        match self
            .desk
            .fix_at(&mut self.frames, &mut self.redo, by, 0, id, 1)
        {
            Ok(granted) => {
                self.fixed = Some(page);
                Some(granted)
            }
            Err(_) => None,
        }
    }

    /// Makes a page of space 0 as pass 1, which holds no fix, at the moment 1.
    pub(crate) fn create(&mut self, page: u32) -> Option<Granted> {
        if self.next + self.cleans > 2000 || !have_room(&self.frames) {
            return None;
        }
        let number = self.next;
        self.next = number + 1;
        self.fixed = None;
        let by = Caller { pass: 1, number };
        let id = PageId { space: 0, page };
        match self
            .desk
            .create_at(&mut self.frames, &mut self.redo, by, 0, id, 1)
        {
            Ok(granted) => {
                self.fixed = Some(page);
                Some(granted)
            }
            Err(_) => None,
        }
    }

    /// Puts bytes into the page that was fixed last, as pass 1. Answers LSN and place.
    pub(crate) fn put(&mut self, at: u32, bytes: &[u8]) -> Option<(u64, u64)> {
        let page = self.fixed?;
        if self.next + self.cleans > 2000
            || !are_in_body(at, bytes.len())
            || !have_room(&self.frames)
        {
            return None;
        }
        let number = self.next;
        self.next = number + 1;
        let by = Caller { pass: 1, number };
        let id = PageId { space: 0, page };
        match self
            .desk
            .put_at(&mut self.frames, &mut self.redo, by, id, at, bytes)
        {
            Ok(PutDone { lsn, place }) => Some((lsn, place)),
            Err(_) => None,
        }
    }

    /// Gives a fix of a frame back, where it has one; answers the frame's word before that.
    pub(crate) fn unfix(&mut self, frame: u32) -> Option<Word> {
        if frame >= self.frames.frames() {
            return None;
        }
        if self.frames.held(frame) == 0 {
            return None;
        }
        self.frames.unhold(frame);
        Some(self.frames.leave(frame))
    }

    /// Cleans as the runner, and answers how many pages were written; none where it is refused.
    pub(crate) fn clean(&mut self, bound: u32) -> u32 {
        if self.next + self.cleans > 2000 || !have_room(&self.frames) {
            return 0;
        }
        let number = self.cleans;
        self.cleans = number + 1;
        self.fixed = None;
        let by = Caller { pass: 0, number };
        dirty_pages_are_few();
        match self
            .desk
            .clean_at(&mut self.frames, &mut self.redo, by, bound, true)
        {
            Ok(Cleaned { written, .. }) => written,
            Err(_) => 0,
        }
    }

    /// Asks as pass 1 from where a redo would have to begin; 0 where there is no memory.
    pub(crate) fn check(&mut self) -> u64 {
        if self.next + self.cleans > 2000 {
            return 0;
        }
        let number = self.next;
        self.next = number + 1;
        self.fixed = None;
        let by = Caller { pass: 1, number };
        match self.desk.check_at(&self.redo, by) {
            Ok(lsn) => lsn,
            Err(_) => 0,
        }
    }

    /// The entries, the oldest first.
    pub(crate) fn end(self) -> Vec<Entry> {
        let Trial { desk, .. } = self;
        let (_disk, entries) = desk.end();
        entries
    }
}
